// What saving tells.
ghost use Rattle.std.specs.Prelude.{◌≡◌};
ghost use Rattle.saving.specs.Save.{as_saved, saved_number};
ghost use Rattle.host_numbers.specs.Numbers.{saved_out};

use out_array::{OUT_WORDS, VALUE};
use types::Refusal;

pub fn tell_saved(out: &mut [u64; OUT_WORDS], s: Result<usize, Refusal>) -> u32
    ensures { (result ≡ saved_number (as_saved s)) × (out.new ≡ saved_out out.old (as_saved s)) }
{
    match s {
        Ok(length) => {
            out[VALUE] = length as u64;
            0
        }
        Err(refusal) => u8::from(refusal) as u32,
    }
}
