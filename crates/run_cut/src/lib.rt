// A run in parts (paper 02, #113): definitions (specs/) and laws (proofs/), no work.
#![tactic(auto)]
