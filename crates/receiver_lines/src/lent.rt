// The head's store: the last bytes of the array whose first are the queue's.
ghost use Rattle.std.specs.Prelude.{◌≤◌};

// Where the last n of so many bytes begin.
pub(crate) fn last(length: usize, n: u64) -> usize
    ensures { result ≤ length }
{
    if n > length as u64 {
        return 0;
    }
    length - n as usize
}

pub(crate) fn put_all(bytes: &mut [u8], b: u8) {
    bytes.fill(b);
}

pub(crate) fn clear_last(store: &mut [u8], n: u64) {
    let from = last(store.len(), n);
    put_all(&mut store[from..], 0);
}
