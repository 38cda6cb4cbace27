//! Sheets as the programs read them.

ghost use Rattle.std.specs.Prelude.{◌≡◌, length, MatchOption};
ghost use Rattle.std.specs.Iterator.{at_most};
ghost use Rattle.reports.specs.Many.{NextSheet, CutShort};

/// How many bytes the programs read of one sheet: one more than the longest sheet has, so that a longer one is seen to be
/// too long. They read it themselves, since no library here allocates.
pub const MOST: u64 = 4106;

/// The sheets in some bytes, each behind two bytes for its length, up to the first that is cut short.
#[derive(Drop)]
pub struct Sheets<'a>(pub &'a [u8]);

impl<'a> Iterator for Sheets<'a> {
    type Item = &'a [u8];

    ghost next_gives = { λ s r t. MatchOption r (CutShort s.0.now × (t.0.now ≡ s.0.now)) (λ sheet. NextSheet s.0.now sheet.now t.0.now) };

    ghost remaining = { λ s. at_most (length s.0.now) };

    fn next(&mut self) -> Option<&'a [u8]> {
        let (length, behind) = self.0.split_first_chunk()?;
        let (sheet, rest) = behind.split_at_checked(u16::from_be_bytes(*length) as usize)?;
        self.0 = rest;
        Some(sheet)
    }
}
