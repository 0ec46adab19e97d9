// What is kept of the receiving head between lines, in the last words of the program's state.
//
//     words         holds
//     153           1 if there is a receiving head
//     154 to 155    its store's length at its creation, and the length lent
//     156           the sum of its words after the last call
use trace_text::output::{Answers, put_broken};
use trace_text::state::{CREATED_STORE, QUEUES, STATE};

pub const HEADS: usize = 153;

pub const HEAD_STORE: usize = 154;

pub const LENT_HEAD: usize = 155;

pub const HEAD_SUM: usize = 156;

// The bytes of the array in which the queue's store and the head's lie, the one from its start and the other up to its end.
const BOTH: u64 = 2100000;

// After a line of the head: a trace whose two stores are too long together is not for this program, and that is told.
pub(crate) fn settle_room(output: &mut Answers, state: &[u64; STATE]) {
    if state[QUEUES] == 0 {
        return;
    }
    if state[HEADS] == 0 {
        return;
    }
    if state[CREATED_STORE] > BOTH {
        return;
    }
    if state[HEAD_STORE] > BOTH - state[CREATED_STORE] {
        put_broken(output, b"no room for both stores");
    }
}
