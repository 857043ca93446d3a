// No code: taking a block as its 17 lanes, and taking its bytes one by one.
#![tactic(auto)]
