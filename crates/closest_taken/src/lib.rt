// No code: the list and the count of a closest call, by the buckets taken.
#![tactic(auto)]
