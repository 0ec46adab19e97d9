// The questions' answers as numbers, with what goes with them in named places of an array.
ghost use Rattle.std.specs.Prelude.{◌≡◌};
ghost use Rattle.queue_streams.specs.Answers.{as_number, as_flag, number_number, flag_number};
ghost use Rattle.send_queue_c.specs.Numbers.{number_out, flag_out};

use out_array::{OUT_WORDS, VALUE};
use send_queue::Refusal;

// A question for a number.
pub fn tell_number(out: &mut [u64; OUT_WORDS], a: Result<u64, Refusal>) -> u32
    ensures { (result ≡ number_number (as_number a)) × (out.new ≡ number_out out.old (as_number a)) }
{
    match a {
        Ok(v) => {
            out[VALUE] = v;
            0
        }
        Err(refusal) => u8::from(refusal) as u32,
    }
}

// A question for yes or no.
pub fn tell_flag(out: &mut [u64; OUT_WORDS], a: Result<bool, Refusal>) -> u32
    ensures { (result ≡ flag_number (as_flag a)) × (out.new ≡ flag_out out.old (as_flag a)) }
{
    match a {
        Ok(b) => {
            out[VALUE] = b as u64;
            0
        }
        Err(refusal) => u8::from(refusal) as u32,
    }
}
