// A check that is not refused for room gives the same result with more room: theorems, no code.
#![tactic(auto)]
