// Laws of boxes: what a chain's box is of its coordinates, and what a window question on the boxes of chains lists.
#![tactic(auto)]
