// The list that the planner gives: what is wrong with it.
ghost use Rattle.std.specs.Prelude.{◌≡◌, ◌<◌, length};
ghost use Rattle.priority_plan.specs.Lists.{named_later, named_twice, size_outside, list_wrong};

use queue_words::limits::MAX_PAYLOAD;

// "up to 32 heads".
pub const MAX_PLANNED: usize = 32;

// Whether the id at a place is named again behind it.
fn named_later(ids: &[u16], at: usize) -> bool
    requires { at < length ids.now }
    ensures { result ≡ named_later ids.now at }
{
    ids[at + 1..].contains(&ids[at])
}

// "names one twice".
fn named_twice(ids: &[u16]) -> bool
    ensures { result ≡ named_twice ids.now }
{
    for i in 0..ids.len() {
        let again = named_later(ids, i);
        if again {
            return true;
        }
    }
    false
}

// "a size is outside 1 to 262,144".
fn size_outside(sizes: &[u64]) -> bool
    ensures { result ≡ size_outside sizes.now }
{
    sizes.iter().any(|size| *size < 1 || MAX_PAYLOAD < *size)
}

// "28 when the list is empty, has more than 32 ids or names one twice, or a size is outside 1 to 262,144, or ids and sizes differ in count".
pub fn list_wrong(ids: &[u16], sizes: &[u64]) -> bool
    ensures { result ≡ list_wrong ids.now sizes.now }
{
    if ids.len() == 0 {
        return true;
    }
    if MAX_PLANNED < ids.len() {
        return true;
    }
    if ids.len() != sizes.len() {
        return true;
    }
    let twice = named_twice(ids);
    if twice {
        return true;
    }
    size_outside(sizes)
}
