// Laws of cells that are counted from an origin: proofs/ has them, and there is no code.
#![tactic(auto)]
