// Answers as numbers, with what goes with them in named places of an array.
ghost use Rattle.std.specs.Prelude.{◌≡◌};
ghost use Rattle.types.specs.Refusal.{check_number};
ghost use Rattle.receiver_fragments.specs.Answers.{as_received, as_fetched};
ghost use Rattle.receiver_calls.specs.Answers.{received_number, fetched_number};
ghost use Rattle.receiver_c.specs.Numbers.{received_out, message_out, fetched_out};

use receiver_calls::{Delivery, Received};
use types::Refusal;

// The places of an out-array, and how many.
pub const OUT_WORDS: usize = 5;
// 1 for a chunk accepted or a message, 0 for a repeat or where none is ready.
pub const VALUE: usize = 0;
// What goes with a message.
pub const LENGTH: usize = 1;

pub const STREAM_ID: usize = 2;

pub const UNORDERED: usize = 3;

pub const PPID: usize = 4;

pub fn tell_created(a: Result<(), Refusal>) -> u32
    ensures { result ≡ check_number a }
{
    match a {
        Ok(()) => 0,
        Err(r) => u8::from(r) as u32,
    }
}

pub fn tell_received(out: &mut [u64; OUT_WORDS], a: Result<Received, Refusal>) -> u32
    ensures { (result ≡ received_number (as_received a)) × (out.new ≡ received_out out.old (as_received a)) }
{
    match a {
        Ok(Received::Repeated) => {
            out[VALUE] = 0;
            0
        }
        Ok(Received::Accepted) => {
            out[VALUE] = 1;
            0
        }
        Err(r) => u8::from(r) as u32,
    }
}

// What goes with a message.
fn tell_message(out: &mut [u64; OUT_WORDS], d: Delivery)
    ensures { out.new ≡ message_out out.old d }
{
    out[VALUE] = 1;
    out[LENGTH] = d.length;
    out[STREAM_ID] = d.stream.0 as u64;
    out[UNORDERED] = d.unordered as u64;
    out[PPID] = d.ppid as u64;
}

// Where none is ready the value is 0, and what goes with a message stays as it was.
pub fn tell_fetched(out: &mut [u64; OUT_WORDS], a: Result<Option<Delivery>, Refusal>) -> u32
    ensures { (result ≡ fetched_number (as_fetched a)) × (out.new ≡ fetched_out out.old (as_fetched a)) }
{
    match a {
        Ok(None) => {
            out[VALUE] = 0;
            0
        }
        Ok(Some(d)) => {
            tell_message(out, d);
            0
        }
        Err(r) => u8::from(r) as u32,
    }
}
