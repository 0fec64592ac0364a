// Laws of points with extras: proofs/ has them, and there is no code.
#![tactic(auto)]
