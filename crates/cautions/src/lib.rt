// Definitions, examples and theorems only.
#![tactic(auto)]
