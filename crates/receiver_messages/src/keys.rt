// The keys under which the indexes are asked.
ghost use Rattle.std.specs.Prelude.{◌≡◌, ◌<◌};
ghost use Rattle.queue_words.specs.Flags.{bit};
ghost use Rattle.receiver_messages.specs.Keys.{interleaved_of, previous, following, preceding, next_turn, number_key};

use receiver_words::RECEIVER_WORDS;
use receiver_words::cells::{I_DATA, load_header};
use receiver_words::fragments::Fragment;
use receiver_words::window::next_number;
use types::{Fsn, Mid, Ssn, StreamId};

// Whether it takes I-DATA.
pub fn interleaved(receiver: &[u64; RECEIVER_WORDS]) -> bool
    ensures { result ≡ interleaved_of receiver.now }
{
    let word = load_header(receiver, I_DATA);
    word == 1
}

// The index that finds a message's next fragment: by TSN for DATA, by place for I-DATA.
pub fn part_index(interleaved: bool) -> usize
    ensures { (result ≡ bit interleaved) × (result < 3) }
{
    if interleaved {
        return 1;
    }
    0
}

// The number before t of 32 bits.
pub fn previous(t: u32) -> u32
    ensures { result ≡ previous t }
{
    if t == 0 {
        return 4294967295;
    }
    t - 1
}

// The key of the fragment after f, by TSN and by place.
pub fn following(f: Fragment) -> Fragment
    ensures { result ≡ following f }
{
    let tsn = next_number(f.tsn);
    let fsn = next_number(f.fsn.0);
    Fragment {
        stream: StreamId(f.stream.0),
        ssn: Ssn(f.ssn.0),
        unordered: f.unordered,
        first: f.first,
        last: f.last,
        tsn: tsn,
        mid: Mid(f.mid.0),
        fsn: Fsn(fsn),
        ppid: f.ppid,
    }
}

// The key of the fragment before f, by TSN and by place.
pub fn preceding(f: Fragment) -> Fragment
    ensures { result ≡ preceding f }
{
    let tsn = previous(f.tsn);
    let fsn = previous(f.fsn.0);
    Fragment {
        stream: StreamId(f.stream.0),
        ssn: Ssn(f.ssn.0),
        unordered: f.unordered,
        first: f.first,
        last: f.last,
        tsn: tsn,
        mid: Mid(f.mid.0),
        fsn: Fsn(fsn),
        ppid: f.ppid,
    }
}

// "the number after it is then next": of 16 bits for an SSN, of 32 for a MID.
pub fn next_turn(interleaved: bool, n: u32) -> u32
    ensures { result ≡ next_turn interleaved n }
{
    if interleaved {
        return next_number(n);
    }
    (n % 65536 + 1) % 65536
}

// The key of the message with a number, among those of a stream that wait.
pub fn number_key(interleaved: bool, stream: u16, n: u32) -> Fragment
    ensures { result ≡ number_key interleaved stream n }
{
    if interleaved {
        return Fragment {
            stream: StreamId(stream),
            ssn: Ssn(0),
            unordered: false,
            first: false,
            last: false,
            tsn: 0,
            mid: Mid(n),
            fsn: Fsn(0),
            ppid: 0,
        };
    }
    Fragment {
        stream: StreamId(stream),
        ssn: Ssn((n % 65536) as u16),
        unordered: false,
        first: false,
        last: false,
        tsn: 0,
        mid: Mid(0),
        fsn: Fsn(0),
        ppid: 0,
    }
}
