// Laws of districts over building calls: proofs/ has them, and there is no code.
#![tactic(auto)]
