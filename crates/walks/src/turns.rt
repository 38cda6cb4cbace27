//! Calls in a list, with room for their answers.

use networks::Refusal;

/// A call on a walk, with what it is passed.
#[derive(Drop)]
pub enum Call {
    /// Next, which is passed this list.
    Next(Vec<u16>),
    /// Pour, with this limit.
    Pour(u32),
    /// Seek, of this row.
    Seek(Vec<u16>),
}

/// What a call that is not refused replies.
#[derive(Clone, Copy, PartialEq, Eq, Debug)]
pub enum Reply {
    /// Next wrote a row, or seek accepted one.
    Done,
    /// Pour gave so many rows, and ended for the reason of this letter.
    Poured(u32, char),
}

/// The answer to a call: its reply, or why it was refused.
pub type Answer = Result<Reply, Refusal>;

/// A call and its answer, once it was performed.
#[derive(Drop)]
pub struct Turn {
    pub call: Call,
    pub answer: Option<Answer>,
}
