// The changeover image.
ghost use Rattle.handover.specs.Restore.{restore};
ghost use Rattle.saving.specs.Save.{save_image};
ghost use Rattle.send_queue_c.specs.Given.{GivesStore, GivesImage};

use host_numbers::{call_number, tell_saved};
use out_array::OUT_WORDS;
use send_queue::{QUEUE_WORDS, restore, save};

#[unsafe(no_mangle)]
pub extern "C" fn dsq_save(
    queue: &[u64; QUEUE_WORDS],
    store: &[u8],
    image: &mut [u8],
    out: &mut [u64; OUT_WORDS],
    time: u64,
) -> u32
    ensures { GivesImage (save_image queue.now store.now image.old time) out.old result image.new out.new }
{
    let s = save(queue, store, image, time);
    tell_saved(out, s)
}

#[unsafe(no_mangle)]
pub extern "C" fn dsq_restore(
    queue: &mut [u64; QUEUE_WORDS],
    store: &mut [u8],
    image: &[u8],
    time: u64,
) -> u32
    ensures { GivesStore (restore queue.old store.old time image.now) result queue.new store.new }
{
    let c = restore(queue, store, time, image);
    call_number(c)
}
