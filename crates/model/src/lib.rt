// Definitions and laws only: what tables, trees and their weights are. No code.

#![tactic(auto)]
