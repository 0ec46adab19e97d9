// What the words of a queue stand for: definitions in specs/, theorems in proofs/.
#![tactic(auto)]

fn unit() {}
