// No code: specs/ has what each call answers and leaves on a table's bytes, and proofs/ that every list of calls follows the rules.
#![tactic(auto)]
