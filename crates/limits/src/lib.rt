// No code: document 01's P1 to P12 as one claim, proved.
#![tactic(auto)]
