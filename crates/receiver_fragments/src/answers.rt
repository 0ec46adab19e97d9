// What the calls answer.
use types::StreamId;

// Receiving a chunk that is not refused: a repeat, or accepted.
#[derive(Clone, Copy, Debug, PartialEq, Eq)]
pub enum Received {
    Repeated,
    Accepted,
}

// A message fetched: "stream, order mark, first fragment's protocol id, payload"; the payload's length bytes are at the buffer's start.
#[derive(Clone, Copy, Debug, PartialEq, Eq)]
pub struct Delivery {
    pub stream: StreamId,
    pub unordered: bool,
    pub ppid: u32,
    pub length: u64,
}
