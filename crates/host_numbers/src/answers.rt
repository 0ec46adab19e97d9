// The number of a call that changes the queue, with what goes with it.
ghost use Rattle.std.specs.Prelude.{◌≡◌};
ghost use Rattle.queue_streams.specs.Answers.{as_call, call_number};
ghost use Rattle.host_numbers.specs.Numbers.{call_out};

use out_array::{EVENTS, OUT_WORDS};
use types::Refusal;

// A call that tells nothing else.
pub fn call_number(c: Result<usize, Refusal>) -> u32
    ensures { result ≡ call_number (as_call c) }
{
    match c {
        Ok(_) => 0,
        Err(refusal) => u8::from(refusal) as u32,
    }
}

// A call that writes events.
pub fn tell_call(out: &mut [u64; OUT_WORDS], c: Result<usize, Refusal>) -> u32
    ensures { (result ≡ call_number (as_call c)) × (out.new ≡ call_out out.old (as_call c)) }
{
    if let Ok(k) = c {
        out[EVENTS] = k as u64;
    }
    call_number(c)
}
