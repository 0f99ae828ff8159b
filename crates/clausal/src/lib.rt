// RUP and RAT over clauses as lists of literals, and that the two tries of a DRAT clause accept the same: definitions and theorems
// alone, and no code.
#![tactic(auto)]
