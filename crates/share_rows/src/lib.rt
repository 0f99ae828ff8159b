// Sessions of two books by computation.
#![tactic(auto)]
