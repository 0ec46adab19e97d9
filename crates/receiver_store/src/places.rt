// Where a payload may lie.
ghost use Rattle.std.specs.Prelude.{◌≡◌};
ghost use Rattle.receiver_store.specs.Packing.{misplaced};

// Does a payload begin below `low`, or not lie in a store of len bytes?
pub fn misplaced(low: u64, len: u64, place: u64, size: u64) -> bool
    ensures { result ≡ misplaced low len place size }
{
    if place < low {
        return true;
    }
    if size > len {
        return true;
    }
    place > len - size
}
