// Laws of no module, for the proofs of every crate: tests as facts, "no second answer", and steps of a walk over a lent struct. No code.
#![tactic(auto)]
