// Definitions and theorems only.
#![tactic(auto)]
