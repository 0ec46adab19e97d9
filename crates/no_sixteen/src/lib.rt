// Document 02, 12/13, of all calls: that no calls lead to 16, and what a 16 means. Definitions in specs/, theorems in proofs/.
#![tactic(auto)]

pub fn unit() {}
