// The calls.
ghost use Rattle.receiver_fragments.specs.Creating.{create};
ghost use Rattle.receiver_fragments.specs.Fetching.{fetch};
ghost use Rattle.receiver_calls.specs.Receiving.{receive};
ghost use Rattle.out_array.specs.Flag.{is_yes};
ghost use Rattle.receiver_c.specs.Given.{GivesCreated, GivesReceived, GivesFetched};

use crate::numbers::{OUT_WORDS, tell_created, tell_fetched, tell_received};
use out_array::is_yes;
use receiver_calls::{create, fetch, receive};
use receiver_words::RECEIVER_WORDS;

#[unsafe(no_mangle)]
pub extern "C" fn dsr_create(
    receiver: &mut [u64; RECEIVER_WORDS],
    store: &[u8],
    i_data: u8,
    starting_tsn: u32,
) -> u32
    ensures { GivesCreated (create receiver.old store.now (is_yes i_data) starting_tsn) result receiver.new }
{
    let interleaved = is_yes(i_data);
    let a = create(receiver, store, interleaved, starting_tsn);
    tell_created(a)
}

#[unsafe(no_mangle)]
pub extern "C" fn dsr_receive(
    receiver: &mut [u64; RECEIVER_WORDS],
    store: &mut [u8],
    bytes: &[u8],
    out: &mut [u64; OUT_WORDS],
) -> u32
    ensures { GivesReceived (receive receiver.old store.old bytes.now) out.old result receiver.new store.new out.new }
{
    let a = receive(receiver, store, bytes);
    tell_received(out, a)
}

#[unsafe(no_mangle)]
pub extern "C" fn dsr_fetch(
    receiver: &mut [u64; RECEIVER_WORDS],
    store: &[u8],
    buffer: &mut [u8],
    out: &mut [u64; OUT_WORDS],
) -> u32
    ensures { GivesFetched (fetch receiver.old store.now buffer.old) out.old result receiver.new buffer.new out.new }
{
    let a = fetch(receiver, store, buffer);
    tell_fetched(out, a)
}
