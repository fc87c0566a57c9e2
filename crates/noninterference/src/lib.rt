// Rushby's definitions and theorems (CSL-92-2), over any finite machine. No functions.
#![tactic(auto)]
