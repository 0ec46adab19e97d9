// Copying payload bytes, by std's copy of a slice, in parts of at most a block.
ghost use Rattle.std.specs.Prelude.{◌≡◌, ◌++◌, ◌+◌, ◌≤◌, length, take, drop};
ghost use Rattle.payload_store.specs.Putting.{written};

const BLOCK: usize = 262144;

// n bytes, at most a block, from `at` on: src's go to the same places of dst.
fn copy_some(src: &[u8], dst: &mut [u8], at: usize, n: usize)
    requires { (n ≤ 262144) × (at + n ≤ length src.now) × (at + n ≤ length dst.old) }
    ensures { dst.new ≡ written dst.old at (take n (drop at src.now)) }
{
    let end = at + n;
    dst[at..end].copy_from_slice(&src[at..end]);
}

// All of src, to dst's start; dst past it is unchanged.
pub fn copy(src: &[u8], dst: &mut [u8])
    requires { length src.now ≤ length dst.old }
    ensures { dst.new ≡ src.now ++ drop (length src.now) dst.old }
{
    let n = src.len();
    for block in 0..n / BLOCK {
        copy_some(src, dst, block * BLOCK, BLOCK);
    }
    let at = n / BLOCK * BLOCK;
    copy_some(src, dst, at, n - at);
}
