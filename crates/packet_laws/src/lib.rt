// No code: laws of written packets (specs/ says of which, proofs/ has them).
#![tactic(auto)]
