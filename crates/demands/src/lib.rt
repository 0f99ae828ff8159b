// The user's three demands, a theorem a sentence, about what the calls say and leave: definitions and theorems alone, and no code.
#![tactic(auto)]
