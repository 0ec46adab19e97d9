// The receiving head's calls one after another (document 02, 7/13): definitions in specs/, theorems in proofs/.
#![tactic(auto)]

pub fn unit() {}
