// Laws of chains made elsewhere: proofs/ has them, and there is no code.
#![tactic(auto)]
