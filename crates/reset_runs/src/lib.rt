// Document 02, 9/13, on the words and stores that the calls leave: definitions in specs/, theorems in proofs/.
#![tactic(auto)]

pub fn unit() {}
