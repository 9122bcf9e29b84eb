// No code: how far one byte of the main data reaches in the block, and how far two blocks are apart (document 02, request 11). The theorem is proofs/Reach.antt.
#![tactic(auto)]
