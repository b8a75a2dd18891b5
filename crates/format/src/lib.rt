// Definitions and laws only: how a table is written as bytes, and what reading it finds. No code.

#![tactic(auto)]
