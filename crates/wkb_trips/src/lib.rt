// Laws between the two WKB calls, in proofs/: what was written is read back, and what was read is written back. There is no code.
#![tactic(auto)]
