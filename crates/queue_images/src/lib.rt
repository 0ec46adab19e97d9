// Saved images on the words of queues: a definition in specs/, the theorem in proofs/.
#![tactic(auto)]

fn unit() {}
