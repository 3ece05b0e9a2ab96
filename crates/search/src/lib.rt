// Definitions and laws only: what the layers above share stands in specs/ and proofs/.
#![tactic(auto)]
