// The send queue for a host in C or Rust (header: c/send_queue.h): all its calls but filling a packet (packets_c), with numbers, slices and arrays in and a number out.
// 0 says accepted, any other number is a refusal of document 01 or 02. A refused call changes nothing, in no array.
#![tactic(auto)]

pub mod images;
pub mod layout;
pub mod messages;
pub mod numbers;
pub mod planning;
pub mod questions;
pub mod resets;
pub mod sending;
pub mod streams;
pub mod wire;
