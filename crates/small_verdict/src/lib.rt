// The check of a formula of at most six variables by truth table, defined; and theorems about it: no code. (02, 14/14)
#![tactic(auto)]
