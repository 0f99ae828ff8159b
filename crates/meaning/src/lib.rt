// What document 01 means by its rules and values: definitions and theorems alone, and no code.
#![tactic(auto)]
