// Retyped exchanges (paper 02, #109): statements and proofs alone (specs/Retyped.antt), no code.
#![tactic(auto)]
