// Definitions and their laws: there is no function here. `specs/` says what the calls of the checker give together, `proofs/` why.
#![tactic(auto)]
