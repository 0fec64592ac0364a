// Laws of the outer ends of walks: proofs/ has them, and there is no code.
#![tactic(auto)]
