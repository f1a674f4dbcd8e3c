// The theorems about the public calls, in proofs/. The code that they are about stands in the crates below.

#![tactic(auto)]
