// Packets on the wire (document 02, 5/13): "one call for a whole packet". The call takes any input: words that no queue has get the
// answer 16 at its first call for the next fragment, and end the filling at a later one.
#![tactic(auto)]

mod filling;
pub mod packet;
pub mod parts;

pub use filling::fill_packet;
pub use packet::{Filled, Packet};
