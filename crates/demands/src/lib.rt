// The three demands, on one page (specs/Demands), and their proofs. No functions.
#![tactic(auto)]
