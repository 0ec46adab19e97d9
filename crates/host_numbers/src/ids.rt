// Ids that are told place by place.
ghost use Rattle.std.specs.Prelude.{◌≡◌, length, ◌≤◌};
ghost use Rattle.host_numbers.specs.Numbers.{with_first};

use queue_words::limits::STREAM_ROWS;

// The first `count` places; the others stay.
pub fn copy_first(to: &mut [u16], from: &[u16], count: usize)
    requires { (count ≤ length to.old) × (count ≤ length from.now) }
    ensures { to.new ≡ with_first to.old count from.now }
{
    to[..count].copy_from_slice(&from[..count]);
}

// Does nothing at run time; gives a proof that there are 256 places.
fn whole(ids: &[u16; STREAM_ROWS])
    ensures { length ids.now ≡ 256 }
{
    let _ids: &[u16] = ids;
}

// The ready ids, which are the first `count`.
pub fn tell_ids(ids: &mut [u16; STREAM_ROWS], from: &[u16; STREAM_ROWS], count: usize)
    requires { count ≤ 256 }
    ensures { ids.new ≡ with_first ids.old count from.now }
{
    whole(&*ids);
    whole(from);
    copy_first(ids, from, count);
}
