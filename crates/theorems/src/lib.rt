// No code: the theorems about what the other crates promise. Demand 3 is proofs/Demand.antt.
#![tactic(auto)]
