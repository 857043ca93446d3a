// No code: specs/ has a bucket by its contents, its byte form, its rules and when it is sound.
#![tactic(auto)]
