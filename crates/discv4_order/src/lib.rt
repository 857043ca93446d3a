// No code: specs/ has what holds of the public calls whatever the order of two ports, and proofs/ proves it.
#![tactic(auto)]
