// Selecting pairs of ends: definitions and laws alone. What is selected is said by the book; the laws are in proofs/.
#![tactic(auto)]
