// The receiving head for a host in C or Rust (header: c/receiver.h): its calls, with numbers, slices and arrays in and a number out.
// 0 says that a call is not refused, any other number is a refusal of document 01 or 02. A refused call changes nothing, in no array.
#![tactic(auto)]

pub mod calls;
pub mod layout;
pub mod numbers;
