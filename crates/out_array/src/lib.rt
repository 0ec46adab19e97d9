// The places of an out-array (enum dsq_out of c/send_queue.h), in which the libraries for a host in C tell what goes with an answer; and a flag as a host gives it.
#![tactic(auto)]

ghost use Rattle.std.specs.Prelude.{◌≡◌};
ghost use Rattle.out_array.specs.Flag.{is_yes};

pub const OUT_WORDS: usize = 16;
// A question's answer, 1 for a fragment, an image's length, the count of ready ids or of a packet's chunks.
pub const VALUE: usize = 0;
// The number of events written.
pub const EVENTS: usize = 1;
// What goes with a fragment; of a packet, its length.
pub const LENGTH: usize = 2;

pub const MESSAGE_ID: usize = 3;

pub const STREAM_ID: usize = 4;

pub const UNORDERED: usize = 5;

pub const SSN: usize = 6;

pub const MID: usize = 7;

pub const FSN: usize = 8;

pub const PPID: usize = 9;

pub const FIRST: usize = 10;

pub const LAST: usize = 11;

pub const MAX_RETRANSMISSIONS: usize = 12;

pub const EXPIRES: usize = 13;

pub const EXPIRES_AT: usize = 14;

pub const LIFECYCLE_ID: usize = 15;

// A flag: 0 for no, anything else for yes.
pub fn is_yes(flag: u8) -> bool
    ensures { result ≡ is_yes flag }
{
    flag != 0
}
