// Sums and differences that stop at the ends of 64 bits. Where an amount would pass an end, the call's test has refused it.
ghost use Rattle.std.specs.Prelude.{◌≡◌, ◌-◌};
ghost use Rattle.message_chains.specs.Amounts.{sum, rest};

use queue_words::items::Item;

pub fn minus(a: u64, b: u64) -> u64
    ensures { result ≡ a - b }
{
    if b < a {
        return a - b;
    }
    0
}

pub fn plus(a: u64, b: u64) -> u64
    ensures { result ≡ sum a b }
{
    if b > u64::MAX - a {
        return u64::MAX;
    }
    a + b
}

// The bytes of a message that are not handed out yet.
pub fn remaining(m: Item) -> u64
    ensures { result ≡ rest m }
{
    minus(m.length, m.offset)
}
