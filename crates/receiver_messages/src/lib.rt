// Messages among the held rows of a receiver (document 02, 7/13): from one fragment of a message to the next, the message that a fragment makes whole, the
// messages that become ready in turn.
//
// Every function is total: on words that no receiver has each loop ends after as many turns as the table has rows.
#![tactic(auto)]

pub mod keys;
pub mod readiness;
pub mod walks;
