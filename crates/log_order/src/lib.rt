// No code: specs/ has when two logs are recordings of one box, and proofs/ that their replays end alike.
#![tactic(auto)]
