//! Lines put together from parts.

ghost use Rattle.std.specs.Prelude.{◌≡◌, ◌+◌, [], ◌++◌, length, if◌then◌else◌, decimal, nat_le};
ghost use Rattle.texts.specs.Lines.{line_bytes};

use crate::types::{Digits, LineOf};

impl<const N: usize> LineOf<N> {
    /// The line with no byte.
    pub fn new() -> LineOf<N>
        ensures { line_bytes result ≡ [] }
    {
        LineOf {
            places: [0; N],
            len: 0,
        }
    }

    /// Appends a part if the line has room for all of it, and answers whether it has; else leaves the line.
    pub fn put(&mut self, part: &[u8]) -> bool
        ensures fits { result ≡ nat_le (length (line_bytes self.old) + length part.now) N }
        ensures puts { line_bytes self.new ≡ (if result then line_bytes self.old ++ part.now else line_bytes self.old) }
    {
        let start = self.len;
        if part.len() > N - start {
            return false;
        }
        let end = start + part.len();
        let places = &mut self.places[..];
        places[start..end].copy_from_slice(part);
        self.len = end;
        true
    }

    /// Appends the decimal digits of a number, likewise.
    pub fn put_number(&mut self, n: u64) -> bool
        ensures fits { result ≡ nat_le (length (line_bytes self.old) + length (decimal n)) N }
        ensures puts { line_bytes self.new ≡ (if result then line_bytes self.old ++ decimal n else line_bytes self.old) }
    {
        let digits = Digits::of(n);
        self.put(digits.as_slice())
    }

    /// The bytes of the line.
    pub fn as_slice(&self) -> &[u8]
        ensures { result.now ≡ line_bytes self.now }
    {
        let places = &self.places[..];
        &places[..self.len]
    }
}
