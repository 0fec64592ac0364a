// Laws of what a chain's points pass: proofs/ has them, and there is no code.
#![tactic(auto)]
