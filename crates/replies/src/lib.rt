// Laws on the ways through a public call. No code.
#![tactic(auto)]
