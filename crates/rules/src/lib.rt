// The rules of the mark, and demand 3 over them. Definitions and theorems only: see specs/ and proofs/.
#![tactic(auto)]
