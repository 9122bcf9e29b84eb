// The two-stream rule of clause 22: definitions and laws. The code that follows it is in the crates `laying`, `frames` and `writer`.
#![tactic(auto)]
