// No code: specs/ has the table's bytes, when they are sound, and which bucket a key falls in.
#![tactic(auto)]
