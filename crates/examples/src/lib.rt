// Document 01's examples as one theorem about the definitions: specs/ states them, proofs/ proves them. No code.
#![tactic(auto)]
