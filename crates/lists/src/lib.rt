// General definitions and lemmas on lists, bytes, fillings and counts. The crate has no code: every other crate's proofs cite it.
#![tactic(auto)]
