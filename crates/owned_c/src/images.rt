// Saving: 0, or the refusal's number, which is 4 or 11.
ghost use Rattle.std.specs.Prelude.{◌≡◌};
ghost use Rattle.saving.specs.Save.{as_saved, save_image};
ghost use Rattle.queue_state.specs.Good.{Good};
ghost use Rattle.owned_saving.specs.Save.{saved_as};
ghost use Rattle.host_numbers.specs.Given.{GivesImage};

use host_numbers::tell_saved;
use out_array::OUT_WORDS;
use owned_saving::SaveRefusal;
use queue_words::QUEUE_WORDS;
use types::Refusal;

// As the checked call says it.
fn saved_as(s: Result<usize, SaveRefusal>) -> Result<usize, Refusal>
    ensures { as_saved result ≡ saved_as s }
{
    Ok(s?)
}

#[unsafe(no_mangle)]
pub extern "C" fn dsq_owned_save(
    queue: &[u64; QUEUE_WORDS],
    store: &[u8],
    image: &mut [u8],
    out: &mut [u64; OUT_WORDS],
    time: u64,
) -> u32
    requires { Good queue.now store.now }
    ensures { GivesImage (save_image queue.now store.now image.old time) out.old result image.new out.new }
{
    let s = owned_saving::save(queue, store, image, time);
    let told = saved_as(s);
    tell_saved(out, told)
}
