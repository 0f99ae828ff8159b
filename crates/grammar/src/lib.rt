// DIMACS CNF as a grammar, and that the reader takes its texts and no others: definitions and theorems alone, and no code.
#![tactic(auto)]
