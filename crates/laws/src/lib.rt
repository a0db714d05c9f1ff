// Laws alone, in proofs/: what holds of tests and of lists, whatever they are about.
#![tactic(auto)]
