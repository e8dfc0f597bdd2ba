// Laws and definitions only.
#![tactic(auto)]
