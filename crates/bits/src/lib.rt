// Lists of bits: definitions and laws only. The crates above cite them; this one holds no code.
#![tactic(auto)]
