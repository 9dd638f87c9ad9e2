// Each small sheet stands at exactly one position (paper 02, #114): statements (specs/) and proofs (proofs/), no work.
#![tactic(auto)]
