//! The line of a row, put together from parts.

ghost use Rattle.std.specs.Prelude.{◌≡◌, ◌<◌, ◌≤◌, ◌∷◌, ◌++◌, length, decimal};
ghost use Rattle.texts.specs.Lines.{line_bytes};
ghost use Rattle.receivers.specs.Writing.{spaced, entries_of, line_of};

use crate::types::MOST_ENTRIES;
use texts::LineOf;

/// How many bytes suffice for the line of any row of at most 63 entries.
pub(crate) const LONGEST_LINE: usize = 378;

/// A line with room for that of any row.
pub(crate) type RowLine = LineOf<LONGEST_LINE>;

/// Appends a space and then a number in decimal.
fn put_spaced(line: &mut RowLine, n: u16)
    requires { length (line_bytes line.old ++ (32 ∷ decimal n)) ≤ LONGEST_LINE }
    ensures { line_bytes line.new ≡ line_bytes line.old ++ (32 ∷ decimal n) }
{
    line.put(b" ");
    line.put_number(n as u64);
}

/// Appends entries, each behind a space.
fn put_all(line: &mut RowLine, row: &[u16])
    requires { length (line_bytes line.old ++ spaced row.now) ≤ LONGEST_LINE }
    ensures { line_bytes line.new ≡ line_bytes line.old ++ spaced row.now }
{
    for n in row {
        put_spaced(line, *n);
    }
}

/// Appends the entries of a row.
fn put_entries(line: &mut RowLine, row: &[u16])
    requires { length (line_bytes line.old ++ entries_of row.now) ≤ LONGEST_LINE }
    ensures { line_bytes line.new ≡ line_bytes line.old ++ entries_of row.now }
{
    match row {
        [] => {
            line.put(b"-");
        }
        [first, rest @ ..] => {
            line.put_number(*first as u64);
            put_all(line, rest);
        }
    }
}

/// A line with the entries of a row, which leaves room for its end.
fn entries(row: &[u16]) -> RowLine
    requires { length row.now ≤ MOST_ENTRIES }
    ensures bytes { line_bytes result ≡ entries_of row.now }
    ensures room { length (line_bytes result) < LONGEST_LINE }
{
    let mut line = RowLine::new();
    put_entries(&mut line, row);
    line
}

/// The line of a row.
pub(crate) fn row_line(row: &[u16]) -> RowLine
    requires { length row.now ≤ MOST_ENTRIES }
    ensures { line_bytes result ≡ line_of row.now }
{
    let mut line = entries(row);
    line.put(b"\n");
    line
}
