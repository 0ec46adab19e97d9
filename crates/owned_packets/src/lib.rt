// Filling a packet from a queue that its own calls alone have changed. What is left and answered is what the checked call leaves and
// answers. There is no test for 2 and none for 16: once what is lent and asked for is accepted, no refusal follows.
#![tactic(auto)]

pub mod filling;
pub mod refusals;

pub use filling::fill_packet;
pub use packets::Filled;
pub use refusals::FillRefusal;
