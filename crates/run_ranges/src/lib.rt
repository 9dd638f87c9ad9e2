// Parts of a run that is lent a sheet, pairs and a block, each bounded by two paths: definitions (specs/) and laws (proofs/), no work.
#![tactic(auto)]
