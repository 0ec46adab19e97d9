// The counters and the identifiers of the send queue, with the names that the Rust gives them.
#![tactic(auto)]

ghost use Rattle.std.specs.Prelude.{◌≡◌};
ghost use Rattle.types.specs.Keys.{key_of, key_id, key_unordered};
ghost use Rattle.types.specs.Wrap.{wrapping_add};

pub mod refusal;

pub use refusal::Refusal;

// A stream's number.
#[derive(Clone, Copy, Debug, PartialEq, Eq)]
pub struct StreamId(pub u16);

// A stream's ordered or unordered side: "ordered and unordered counting separately in each stream".
#[derive(Clone, Copy, Debug, PartialEq, Eq)]
pub enum StreamKey {
    Ordered(StreamId),
    Unordered(StreamId),
}

impl StreamKey {
    // The side that the flag asks for.
    pub fn new(is_unordered: bool, id: StreamId) -> Self
        ensures { result ≡ key_of is_unordered id }
    {
        if is_unordered {
            Self::Unordered(id)
        } else {
            Self::Ordered(id)
        }
    }

    // The stream whose side this is.
    pub fn id(self) -> StreamId
        ensures { result ≡ key_id self }
    {
        match self {
            StreamKey::Ordered(id) | StreamKey::Unordered(id) => id,
        }
    }

    // Whether it is the unordered side.
    pub fn is_unordered(self) -> bool
        ensures { result ≡ key_unordered self }
    {
        matches!(self, StreamKey::Unordered(_))
    }
}

// "The Rust gives MID, SSN and FSN each a type, and so does the port. [..] MID (message identifier)
// and FSN (fragment number) are 32 bits, SSN (stream sequence number) 16, and each adds modulo its
// width". A sum that passes the last number comes round; one law, over the width, proves all four.
// The four `add_to` stay apart: a trait would be written out for each type again, and no macro may write an impl.

// The number of an ordered message of a stream.
#[derive(Clone, Copy, Debug, PartialEq, Eq)]
pub struct Ssn(pub u16);

impl Ssn {
    #[tactic(auto, using(crate::proofs::Width::added))]
    pub fn add_to(self, other: u16) -> Self
        ensures { result.0 ≡ wrapping_add 16 self.0 other }
    {
        Ssn(self.0.wrapping_add(other))
    }
}

// The number of a message on its side of a stream.
#[derive(Clone, Copy, Debug, PartialEq, Eq)]
pub struct Mid(pub u32);

impl Mid {
    #[tactic(auto, using(crate::proofs::Width::added))]
    pub fn add_to(self, other: u32) -> Self
        ensures { result.0 ≡ wrapping_add 32 self.0 other }
    {
        Mid(self.0.wrapping_add(other))
    }
}

// The number of a fragment in its message: "FSN grows by one a fragment (RFC 8260, 2.1)."
#[derive(Clone, Copy, Debug, PartialEq, Eq)]
pub struct Fsn(pub u32);

impl Fsn {
    #[tactic(auto, using(crate::proofs::Width::added))]
    pub fn add_to(self, other: u32) -> Self
        ensures { result.0 ≡ wrapping_add 32 self.0 other }
    {
        Fsn(self.0.wrapping_add(other))
    }
}

// "Message ids have 32 bits, start at 0, grow by one with each accepted message and wrap." The Rust
// adds to one with `+=`.
#[derive(Clone, Copy, Debug, PartialEq, Eq)]
pub struct OutgoingMessageId(pub u32);

impl OutgoingMessageId {
    #[tactic(auto, using(crate::proofs::Width::added))]
    pub fn add_to(self, other: u32) -> Self
        ensures { result.0 ≡ wrapping_add 32 self.0 other }
    {
        OutgoingMessageId(self.0.wrapping_add(other))
    }
}
