// The number of families on a sheet, or a dash (paper 02, #104): definitions and theorems.
#![tactic(auto)]
