// Lists of packing and receiving calls: the reference model, what is claimed of them, and the theorem. No code.
#![tactic(auto)]
