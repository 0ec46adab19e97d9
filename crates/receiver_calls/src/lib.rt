// The receiving head's calls (document 02, 7/13), on a chunk's bytes as they come: 1/13's reader (crate chunks) stands in front of crate receiver_fragments.
//
// Every call takes any words, any store and any bytes; refused, it changes nothing.
#![tactic(auto)]

mod receiving;

pub use receiver_fragments::answers::{Delivery, Received};
pub use receiver_fragments::creating::create;
pub use receiver_fragments::fetching::fetch;
pub use receiving::receive;
