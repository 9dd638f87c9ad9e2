// What functions say of slices that they are lent by thin references: a definition (specs/), no work.
#![tactic(auto)]
