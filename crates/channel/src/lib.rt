// No code: the definitions of the channel stand in specs/, its theorems in proofs/.
#![tactic(auto)]
