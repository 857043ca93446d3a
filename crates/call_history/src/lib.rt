// No code: specs/ has the calls' rules as a state machine on a table of lists, and what they do over any list of calls.
#![tactic(auto)]
