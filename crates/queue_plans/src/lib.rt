// The priorities of a plan on the words of a queue: definitions in specs/, theorems in proofs/.
#![tactic(auto)]

fn unit() {}
