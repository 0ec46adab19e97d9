// The choice in two levels. The rows stand in groups of 24; the queue keeps each group's least row, where it is known: a store to a row makes its group
// stale, and what hands out of a row makes the row's own group fresh, and one more that is stale, if any is. So a choice among 256 rows looks at one row of
// each fresh group, and searches the stale ones.
ghost use Rattle.std.specs.Prelude.{◌≡◌, ◌*◌, ◌<◌, ◌≤◌};
ghost use Rattle.queue_words.specs.Header.{scheduler_at};
ghost use Rattle.active_table.specs.Groups.{groups_of, count_in, best_in, best_over, least_known};
ghost use Rattle.active_table.specs.Groups.{is_fresh, stale_from, refreshed_at, group_fresh, refreshed};

use crate::{Best, first_row, least_among, least_of, least_row};
use queue_words::QUEUE_WORDS;
use queue_words::header::load_scheduler_state;
use queue_words::leasts::{GROUP, load_least, store_least};

// So few rows are searched as they are.
const FEW: usize = 48;

// How many groups n rows have.
fn groups(n: usize) -> usize
    requires { n ≤ 256 }
    ensures { result ≡ groups_of n }
{
    (n + (GROUP - 1)) / GROUP
}

// How many of n rows stand in group g.
fn count_in(g: usize, n: usize) -> usize
    requires { (g * 24 < n) × (n ≤ 256) }
    ensures { result ≡ count_in g n }
{
    GROUP.min(n - g * GROUP)
}

// The best of `start` and group g, by its least row if the group is fresh.
fn best_in(queue: &[u64; QUEUE_WORDS], n: usize, g: usize, start: Best) -> Best
    requires { (g * 24 < n) × (n ≤ 256) }
    ensures { result ≡ best_in queue.now n g start }
{
    let from = g * GROUP;
    let count = count_in(g, n);
    let w = load_least(queue, g);
    if w < count as u64 {
        return least_of::<1>(queue, from + w as usize, start);
    }
    least_among(queue, from, count, start)
}

// The best of row 0 and all groups. A full group is looked at as the last of its rows, so that nothing is reckoned for it.
fn best_over(queue: &[u64; QUEUE_WORDS], n: usize) -> Best
    requires { (0 < n) × (n ≤ 256) }
    ensures { result ≡ best_over queue.now n (groups_of n) }
{
    let mut best = first_row(queue, 0);
    let full = n / GROUP;
    for g in 0..full {
        best = best_in(queue, g * GROUP + GROUP, g, best);
    }
    if full * GROUP < n {
        return best_in(queue, n, full, best);
    }
    best
}

// The least of n rows of the queue.
pub fn least_known(queue: &[u64; QUEUE_WORDS], n: usize) -> Best
    requires { (0 < n) × (n ≤ 256) }
    ensures { result ≡ least_known queue.now n }
{
    if n <= FEW {
        return least_row(queue, n);
    }
    best_over(queue, n)
}

// Whether group g is fresh.
fn is_fresh(queue: &[u64; QUEUE_WORDS], n: usize, g: usize) -> bool
    requires { (g * 24 < n) × (n ≤ 256) }
    ensures { result ≡ is_fresh queue.now n g }
{
    let w = load_least(queue, g);
    let count = count_in(g, n);
    w < count as u64
}

// The first stale group of n rows, or the number of groups.
fn stale_group(queue: &[u64; QUEUE_WORDS], n: usize) -> usize
    requires { n ≤ 256 }
    ensures { result ≡ stale_from queue.now n 0 (groups_of n) }
{
    let full = n / GROUP;
    for g in 0..full {
        if !is_fresh(queue, g * GROUP + GROUP, g) {
            return g;
        }
    }
    if full * GROUP < n && is_fresh(queue, n, full) {
        return full + 1;
    }
    full
}

fn refresh_group(queue: &mut [u64; QUEUE_WORDS], n: usize, g: usize)
    requires { (g * 24 < n) × (n ≤ 256) }
    ensures { queue.new ≡ refreshed_at queue.old n g }
{
    let from = g * GROUP;
    let count = count_in(g, n);
    let first = first_row(&*queue, from);
    let best = least_among(&*queue, from, count, first);
    let place = (best.at - from) as u64;
    store_least(queue, g, place);
}

// Makes group g fresh, if n rows have it.
fn freshen(queue: &mut [u64; QUEUE_WORDS], n: usize, g: usize)
    requires { n ≤ 256 }
    ensures { queue.new ≡ group_fresh queue.old n g }
{
    let k = groups(n);
    if g < k {
        refresh_group(queue, n, g);
    }
}

// Makes the group of the row `at` fresh, and then the first stale one, where there are more rows than a few.
pub fn refresh(queue: &mut [u64; QUEUE_WORDS], at: usize)
    requires { (scheduler_at queue.old).active ≤ 256 }
    ensures { queue.new ≡ refreshed queue.old at }
{
    let s = load_scheduler_state(&*queue);
    let n = s.active as usize;
    if n <= FEW {
        return;
    }
    freshen(queue, n, at / GROUP);
    let g = stale_group(&*queue, n);
    freshen(queue, n, g);
}
