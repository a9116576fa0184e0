// Demand 3: there is no function here. `specs/Claim.antt` is the statement, `proofs/Theorem.antt` its proof.
#![tactic(auto)]
