// The receiver's words against the model: what they stand for is in specs/, the link in proofs/.
#![tactic(auto)]

pub fn unit() {}
