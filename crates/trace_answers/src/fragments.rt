// A fragment's fields, as the lines of `p` and `R` have them.
use send_queue::{Data, DataToSend};
use trace_text::output::{Answers, put_byte, put_number, put_text};
use trace_text::state::bit;

fn put_expiry(output: &mut Answers, e: Option<u64>) {
    match e {
        None => put_text(output, b" 0 0"),
        Some(t) => {
            put_number(output, 1);
            put_number(output, t);
        }
    }
}

// stream unordered ssn mid fsn ppid first last
fn put_data(output: &mut Answers, d: Data) {
    let key = d.stream_key;
    let id = key.id();
    put_number(output, id.0 as u64);
    put_number(output, bit(key.is_unordered()));
    put_number(output, d.ssn.0 as u64);
    put_number(output, d.mid.0 as u64);
    put_number(output, d.fsn.0 as u64);
    put_number(output, d.ppid as u64);
    put_number(output, bit(d.is_beginning));
    put_number(output, bit(d.is_end));
}

// A fragment, and the end of the line.
pub fn put_fields(output: &mut Answers, d: DataToSend, sum: u64) {
    let data = d.data;
    let expires_at = d.expires_at;
    put_number(output, d.message_id.0 as u64);
    put_data(output, data);
    put_number(output, d.max_retransmissions as u64);
    put_expiry(output, expires_at);
    put_number(output, d.lifecycle_id);
    put_number(output, data.length);
    put_number(output, sum);
    put_byte(output, b'\n');
}
