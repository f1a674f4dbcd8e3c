// The laws of order on f32, in proofs/. The code that they are about stands in the crates that use them.

#![tactic(auto)]
