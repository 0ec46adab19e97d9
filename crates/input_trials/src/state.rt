// What the program keeps, in one array of 64 words.
//
//     words       holds
//      0 to 25    the numbers of the line, by their keys a to z
//     26          the letter of the call
//     27          the bytes of the store at the last creation
//     28 to 29    the events and the fragment's bytes that the last call wrote
//     30          1 if the last call kept what it must
//     31          the random generator's state
//     32 to 48    how many calls were accepted, and refused by each number
//     49          how many calls
//     50          how often something was broken
//     51          1 while words are filled
//     52          which call of a fill is next, from 0
use queue_streams::EVENT_WORDS;

pub const STATE: usize = 64;

// The keys. Those that a line leaves out have their usual values.
//
//     b  bytes of the store lent, or at creation    p  priority
//     c  1 for the strict rule of a restart         r  how many times the call is made
//     e  words of the event list lent               s  stream
//     f  bytes of the fragment buffer lent          t  time
//     g  1 to interleave                            u  what is added to the stream each time
//     h  threshold                                  w  what is added to the message id each time
//     i  message id                                 x  random numbers are below it, 0: of 64 bits
//     l  lifetime                                   y  how many words are replaced, 0: all
//     m  payload limit                              z  size asked for
//     n  bytes of the payload
pub const STORE_BYTES: usize = 1;

pub const STRICT: usize = 2;

pub const EVENT_LIST: usize = 4;

pub const FRAGMENT_BYTES: usize = 5;

pub const INTERLEAVE: usize = 6;

pub const THRESHOLD: usize = 7;

pub const MESSAGE_ID: usize = 8;

pub const LIFETIME: usize = 11;

pub const LIMIT: usize = 12;

pub const PAYLOAD_BYTES: usize = 13;

pub const PRIORITY: usize = 15;

pub const TIMES: usize = 17;

pub const STREAM: usize = 18;

pub const TIME: usize = 19;

pub const STREAM_STEP: usize = 20;

pub const MESSAGE_STEP: usize = 22;

pub const BELOW: usize = 23;

pub const REPLACED: usize = 24;

pub const SIZE: usize = 25;

pub const LETTER: usize = 26;

pub const CREATED: usize = 27;

pub const EVENTS: usize = 28;

pub const BYTES: usize = 29;

pub const SAME: usize = 30;

pub const SEED: usize = 31;

pub const ANSWERS: usize = 32;

pub const CALLS: usize = 49;

pub const BROKEN: usize = 50;

pub const FILLING: usize = 51;

pub const TURN: usize = 52;

// The calls made on each fill.
pub const FILL_CALLS: u64 = 21;

// The lengths of the arrays. Each has more than a call is lent, so that a write past that shows.
pub const EVENT_BUFFER: usize = EVENT_WORDS + 2;

pub const FRAGMENT: usize = 262150;

pub const PAYLOAD: usize = 262145;

// The bytes that can be lent, and behind them their copy.
pub const STORE: usize = 4000002;

pub const HALF: usize = 2000001;

pub const SCRIPT: usize = 16384;

// Stands for no lifetime.
pub const NO_LIFETIME: u64 = 18446744073709551615;

pub fn low8(x: u64) -> u8 {
    (x % 256) as u8
}

pub fn low16(x: u64) -> u16 {
    (x % 65536) as u16
}

pub fn low32(x: u64) -> u32 {
    (x % 4294967296) as u32
}

pub fn wide(b: u8) -> u64 {
    b as u64
}

pub fn bit(b: bool) -> u64 {
    if b { 1 } else { 0 }
}

pub fn both(a: bool, b: bool) -> bool {
    if a {
        return b;
    }
    false
}

// Adds to a word; no sum of this program passes 2^64 - 1.
pub fn plus(a: u64, b: u64) -> u64 {
    a.wrapping_add(b)
}

// The usual values: an accepted call on a queue that was created with b bytes.
pub fn set_usual(state: &mut [u64; STATE]) {
    state[STORE_BYTES] = state[CREATED];
    state[STRICT] = 0;
    state[EVENT_LIST] = EVENT_WORDS as u64;
    state[FRAGMENT_BYTES] = 262144;
    state[INTERLEAVE] = 0;
    state[THRESHOLD] = 0;
    state[MESSAGE_ID] = 0;
    state[LIFETIME] = NO_LIFETIME;
    state[LIMIT] = 1000;
    state[PAYLOAD_BYTES] = 1;
    state[PRIORITY] = 0;
    state[TIMES] = 1;
    state[STREAM] = 0;
    state[TIME] = 0;
    state[STREAM_STEP] = 0;
    state[MESSAGE_STEP] = 0;
    state[BELOW] = 0;
    state[REPLACED] = 0;
    state[SIZE] = 1000;
}
