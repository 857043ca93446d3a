// No code: specs/ has which calls may change places, and proofs/ that they come out alike.
#![tactic(auto)]
