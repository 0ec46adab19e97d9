// The numbers of document 01's limits, each once. A number that is compared with a count and with an index has a name for each of their types.

// "256 known streams": the rows of each table of streams, and the last of them.
pub const STREAMS: u64 = 256;

pub const STREAM_ROWS: usize = 256;

pub const LAST_STREAM: u64 = STREAMS - 1;

pub const LAST_STREAM_ROW: usize = STREAM_ROWS - 1;

// "1,024 waiting messages": the rows of the messages' table, and the last of them.
pub const MESSAGES: u64 = 1024;

pub const MESSAGE_ROWS: usize = 1024;

pub const LAST_MESSAGE: u64 = MESSAGES - 1;

// The place that stands for no message: the end of a chain.
pub const NO_MESSAGE: u64 = MESSAGES;

// The steps of a walk that finds the end of any chain.
pub const CHAIN_STEPS: usize = MESSAGE_ROWS + 1;

// "payload 1 to 262,144 bytes"; a fragment's size has the same bound.
pub const MAX_PAYLOAD: u64 = 262144;

// "payload store 1 to 2,000,000 bytes".
pub const MAX_STORE: u64 = 2000000;

// The payload limit is 1 to 65,535.
pub const MAX_PAYLOAD_LIMIT: u64 = 65535;

// Times and lifetimes are below 2^62.
pub const MAX_TIME: u64 = 4611686018427387903;
