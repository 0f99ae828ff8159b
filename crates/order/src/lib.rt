// The order of members, a theorem a sentence of 02's 13/14: definitions and theorems alone, and no code.
#![tactic(auto)]
