//! The digits of a number, and lines.

ghost use Rattle.std.specs.Prelude.{◌≤◌};
ghost use Rattle.texts.specs.declared.types.TheConstants.{MOST_DIGITS};

/// How many digits a number of 64 bits has at most.
pub(crate) const MOST_DIGITS: usize = 20;

/// The decimal digits of a number, as bytes. They are made by `of`.
#[derive(Clone, Copy)]
pub struct Digits {
    /// The digits stand at the end; the places before them hold nothing of meaning.
    pub(crate) places: [u8; MOST_DIGITS],
    /// Where the first digit stands.
    pub(crate) start: usize,
    ghost few: { start ≤ MOST_DIGITS },
}

/// A line of at most `N` bytes. It is made by `new`, with no byte.
// A length stands beside the places since the library's ArrayVec is not Copy, and a line is.
#[derive(Clone, Copy)]
pub struct LineOf<const N: usize> {
    /// The bytes stand at the front; the places after them hold nothing of meaning.
    pub(crate) places: [u8; N],
    /// How many of the places hold a byte of the line.
    pub(crate) len: usize,
    ghost room: { len ≤ N },
}

/// A line of at most 64 bytes.
pub type Line = LineOf<64>;
