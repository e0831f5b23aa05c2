// No function: each promise to a caller, as a theorem about the calls' contracts, is in proofs/.
#![tactic(auto)]
