// Lists of calls on a queue: definitions in specs/, theorems in proofs/.
#![tactic(auto)]

fn unit() {}
