// The known gaps of the store: which one a payload goes to, and what a dropped payload adds to them.
//
// No payload lies from `end` up to `limit`, nor from `from` up to `upto`, and the two gaps are apart. Where messages leave in
// the order in which they came, the payload dropped begins at `limit` or at `upto`, and the gaps grow with it: the store is a
// ring, and nothing is searched or moved. A payload dropped elsewhere begins the second gap anew: so it is with those behind a
// message that stays, and the gap that grows there is taken once the other is used up. A second gap that a search has
// found, that is longer and will be wanted soon, stays: so it is with messages of many lengths.
ghost use Rattle.std.specs.Prelude.{◌≡◌, ◌≤◌};
ghost use Rattle.payload_store.specs.Gaps.{gaps_wrong, near, gap_for, keeps, gaps_left};

use crate::searching::PIECE;
use queue_words::header::Gaps;

// No free bytes that are known.
pub const NO_GAPS: Gaps = Gaps {
    end: 0,
    limit: 0,
    from: 0,
    upto: 0,
};

// Does a gap lie outside a store of len bytes, or end before its start?
pub fn gaps_wrong(g: Gaps, len: u64) -> bool
    ensures { result ≡ gaps_wrong g len }
{
    if g.limit > len {
        return true;
    }
    if g.end > g.limit {
        return true;
    }
    if g.upto > len {
        return true;
    }
    g.from > g.upto
}

// Does the second gap lie below the first, with as many bytes as there are between them?
fn near(g: Gaps) -> bool
    requires { g.from ≤ g.upto }
    ensures { result ≡ near g }
{
    g.upto <= g.end && g.end - g.upto <= g.upto - g.from
}

// The gap that n bytes go to, with none beside it where it is the second one. The second one comes first where it is near: so
// few messages stay in few bytes of the store. The gap may have too few bytes.
pub fn gap_for(g: Gaps, n: u64) -> Gaps
    requires { (g.from ≤ g.upto) × (g.end ≤ g.limit) }
    ensures { result ≡ gap_for g n }
{
    if g.upto - g.from < n {
        return g;
    }
    let turned = Gaps {
        end: g.from,
        limit: g.upto,
        ..NO_GAPS
    };
    let close = near(g);
    if close {
        return turned;
    }
    if n <= g.limit - g.end {
        return g;
    }
    turned
}

// Does the second gap stay, where a payload of n bytes is dropped elsewhere? It was found by a search, so that it begins with a piece,
// has as many bytes, and more than half of the first one's.
fn keeps(g: Gaps, n: u64) -> bool
    ensures { result ≡ keeps g n }
{
    if g.from == 0 {
        return false;
    }
    if g.from % PIECE > 0 {
        return false;
    }
    let spare = g.upto.saturating_sub(g.from);
    if spare < n {
        return false;
    }
    let room = g.limit.saturating_sub(g.end);
    room / 2 < spare
}

// The gaps once the n bytes from `place` on are free; as they are, where a word has no room for where those end.
pub fn gaps_left(g: Gaps, place: u64, n: u64) -> Gaps
    ensures { result ≡ gaps_left g place n }
{
    if n > u64::MAX - place {
        return g;
    }
    let top = place + n;
    if place == g.limit {
        return Gaps { limit: top, ..g };
    }
    if place == g.upto {
        return Gaps { upto: top, ..g };
    }
    let stays = keeps(g, n);
    if stays {
        return g;
    }
    Gaps {
        from: place,
        upto: top,
        ..g
    }
}
