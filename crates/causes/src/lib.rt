// Why a check refuses: the piece that is shown and the true cause. Definitions and theorems alone, and no code. (02, 8/14)
#![tactic(auto)]
