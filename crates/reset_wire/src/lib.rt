// RE-CONFIG messages (RFC 6525) as bytes (document 02, 9/13): the outgoing request written, the response read.
#![tactic(auto)]

mod reading;
mod writing;

pub use reading::{Response, read_response};
pub use writing::{request_size, write_request};

// "RE-CONFIG is chunk type 130".
pub const RE_CONFIG: u8 = 130;

// "The outgoing request is parameter 13".
pub const OUTGOING_REQUEST: u16 = 13;

// "The response is parameter 16: length 12": a chunk of 16 bytes.
pub const RESPONSE: u16 = 16;

pub const RESPONSE_LENGTH: u16 = 12;

pub const RESPONSE_CHUNK: u16 = 16;
