// What callers hold (paper 01, "What it must guarantee"; paper 02): statements (specs/) and proofs, no work.
#![tactic(auto)]
