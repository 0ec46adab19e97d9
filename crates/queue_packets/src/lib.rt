// A packet filled from the words of a queue: definitions in specs/, theorems in proofs/.
#![tactic(auto)]

pub fn unit() {}
