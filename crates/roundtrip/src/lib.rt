// Laws only: each table within document 01's bounds has exactly one written form, which reads back as that table. No code.

#![tactic(auto)]
