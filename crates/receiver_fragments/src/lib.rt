// The receiving head (document 02, 7/13) on fragments as 1/13's reader gives them: "fragments must become messages again". Its state is one lent array of words
// (crate receiver_words), the payloads lie in the lent store (crate receiver_store).
//
// Every call takes any words, any store and any fragment; refused, it changes nothing. Words that no receiver has get 16, before the first store.
#![tactic(auto)]

pub mod answers;
mod checks;
pub mod creating;
pub mod fetching;
mod freeing;
mod holding;
pub mod receiving;
