// Session files, written and read (document 02, T-01): what is claimed of both ways. There is no code, only definitions and laws.
#![tactic(auto)]
