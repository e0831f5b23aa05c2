// No function: the laws of the definitions are in proofs/.
#![tactic(auto)]
