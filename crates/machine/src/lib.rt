// Definitions and their laws: there is no function here. `specs/` says what the machine does, `proofs/` what follows from it.
#![tactic(auto)]
