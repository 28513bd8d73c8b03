// What a tree allows, and what follows of emptiness and total ranges. Definitions and theorems only: see specs/ and proofs/.
#![tactic(auto)]
