// What the customer asked for, stated and proved over the definitions that the entries' contracts cite: specs/ and proofs/ only.
#![tactic(auto)]
