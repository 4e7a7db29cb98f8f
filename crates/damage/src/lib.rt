// Damaged frames: what a receiver makes of packed frames whose bits a channel has flipped. There is no code, only definitions and laws.
#![tactic(auto)]
