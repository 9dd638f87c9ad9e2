// At least m plans (paper 02, #101): definitions and proofs alone; the search answers it.
#![tactic(auto)]
