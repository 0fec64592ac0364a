// Laws of what is read back from the rooms of a building call: proofs/ has them, and there is no code.
#![tactic(auto)]
