// The twelve proved cases, one table and one statement. No functions.
#![tactic(auto)]
