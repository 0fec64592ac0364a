// Laws of checking what was built: proofs/ has them, and there is no code.
#![tactic(auto)]
