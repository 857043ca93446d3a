// No code: specs/ and proofs/ have the lists that the table's definitions are made of.
#![tactic(auto)]
