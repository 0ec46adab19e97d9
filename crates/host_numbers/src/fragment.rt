// What goes with a fragment, in its places.
ghost use Rattle.std.specs.Prelude.{◌≡◌};
ghost use Rattle.queue_sending.specs.Answers.{as_produced};
ghost use Rattle.queue_sending.specs.Data.{produced_number};
ghost use Rattle.host_numbers.specs.Numbers.{expiry_number, expiry_time, shown, produced_out};

use out_array::{
    EVENTS, EXPIRES, EXPIRES_AT, FIRST, FSN, LAST, LENGTH, LIFECYCLE_ID, MAX_RETRANSMISSIONS,
    MESSAGE_ID, MID, OUT_WORDS, PPID, SSN, STREAM_ID, UNORDERED, VALUE,
};
use queue_sending::{DataToSend, Produced};
use types::Refusal;

fn expiry_number(e: Option<u64>) -> u64
    ensures { result ≡ expiry_number e }
{
    e.is_some() as u64
}

fn expiry_time(e: Option<u64>) -> u64
    ensures { result ≡ expiry_time e }
{
    e.unwrap_or(0)
}

// What goes with a fragment.
pub fn show(out: &mut [u64; OUT_WORDS], k: usize, d: DataToSend)
    ensures { out.new ≡ shown out.old k d }
{
    let e = d.expires_at;
    let expires = expiry_number(e);
    let at = expiry_time(e);
    let data = d.data;
    let key = data.stream_key;
    let id = key.id();
    let unordered = key.is_unordered();
    out[VALUE] = 1;
    out[EVENTS] = k as u64;
    out[LENGTH] = data.length;
    out[MESSAGE_ID] = d.message_id.0 as u64;
    out[STREAM_ID] = id.0 as u64;
    out[UNORDERED] = unordered as u64;
    out[SSN] = data.ssn.0 as u64;
    out[MID] = data.mid.0 as u64;
    out[FSN] = data.fsn.0 as u64;
    out[PPID] = data.ppid as u64;
    out[FIRST] = data.is_beginning as u64;
    out[LAST] = data.is_end as u64;
    out[MAX_RETRANSMISSIONS] = d.max_retransmissions as u64;
    out[EXPIRES] = expires;
    out[EXPIRES_AT] = at;
    out[LIFECYCLE_ID] = d.lifecycle_id;
}

// Where nothing waits the value is 0, and what goes with a fragment stays as it was.
pub fn tell_produced(out: &mut [u64; OUT_WORDS], p: Result<Produced, Refusal>) -> u32
    ensures { (result ≡ produced_number (as_produced p)) × (out.new ≡ produced_out out.old (as_produced p)) }
{
    match p {
        Ok(Produced::Nothing(k)) => {
            out[VALUE] = 0;
            out[EVENTS] = k as u64;
            0
        }
        Ok(Produced::Fragment(k, d)) => {
            show(out, k, d);
            0
        }
        Err(refusal) => u8::from(refusal) as u32,
    }
}
