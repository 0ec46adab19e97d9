// The changeover image's records (api/handover.rs: only streams and queued messages): reading them from an image, and writing them into
// a lent buffer.
#![tactic(auto)]

pub mod records;

pub use records::{HandoverOutgoingStream, HandoverStreamMessage, Trailer};
