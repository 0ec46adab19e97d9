// A new receiver.
ghost use Rattle.std.specs.Prelude.{◌≡◌};
ghost use Rattle.types.specs.Refusal.{check_number};
ghost use Rattle.receiver_fragments.specs.Creating.{created, new_tables, new_header, create};

use receiver_messages::keys::previous;
use receiver_words::RECEIVER_WORDS;
use receiver_words::cells::{
    END, FREE, HELD, I_DATA, KNOWN, LAST_TSN, NEWEST, NO_ROW, OLDEST, READY_FIRST, READY_LAST,
    STORE_LENGTH, USED, store_header,
};
use receiver_words::chains::free_all;
use receiver_words::creation::{clear_ahead, clear_buckets};
use types::Refusal;

// Nothing is ahead, no chain has a row, every row is free.
fn new_tables(receiver: &mut [u64; RECEIVER_WORDS])
    ensures { receiver.new ≡ new_tables receiver.old }
{
    clear_ahead(receiver);
    clear_buckets(receiver, 0);
    clear_buckets(receiver, 1);
    clear_buckets(receiver, 2);
    free_all(receiver);
}

// "one kind fixed at creation [..] with a starting TSN": "at first the one before the starting TSN". Nothing is held, used or known.
fn new_header(receiver: &mut [u64; RECEIVER_WORDS], i_data: bool, len: u64, start: u32)
    ensures { receiver.new ≡ new_header receiver.old i_data len start }
{
    let last = previous(start);
    store_header(receiver, I_DATA, i_data as u64);
    store_header(receiver, STORE_LENGTH, len);
    store_header(receiver, LAST_TSN, last as u64);
    store_header(receiver, KNOWN, 0);
    store_header(receiver, HELD, 0);
    store_header(receiver, USED, 0);
    store_header(receiver, END, 0);
    store_header(receiver, FREE, 0);
    store_header(receiver, NEWEST, NO_ROW);
    store_header(receiver, OLDEST, NO_ROW);
    store_header(receiver, READY_FIRST, NO_ROW);
    store_header(receiver, READY_LAST, NO_ROW);
}

// "with a starting TSN and a lent store as in 01 (else 2)".
pub fn create(
    receiver: &mut [u64; RECEIVER_WORDS],
    store: &[u8],
    i_data: bool,
    start: u32,
) -> Result<(), Refusal>
    ensures { created (check_number result) receiver.new ≡ create receiver.old store.now i_data start }
{
    let len = store.len();
    if len < 1 {
        return Err(Refusal::StoreWrong);
    }
    if len > 2000000 {
        return Err(Refusal::StoreWrong);
    }
    new_tables(receiver);
    new_header(receiver, i_data, len as u64, start);
    Ok(())
}
