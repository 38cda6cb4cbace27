//! What a report is put out to.

ghost use Rattle.std.specs.Prelude.{◌≡◌, ℕ, true, false, List, decimal, is_ok};

use std::io;
use std::io::{Stdout, Write};
use texts::Digits;

/// What the parts of a report are put out to, one behind the other.
pub trait Sink {
    /// Putting the part out leads from one state to another.
    ghost took: { Self → List ℕ → Self → Type 0 };

    /// Puts a part out.
    fn put(&mut self, part: &[u8])
        ensures { took self.old part.now self.new };
}

/// Standard output, up to the first part that could not be written. What was written is outside the program, so its
/// states tell nothing of it.
#[derive(Drop)]
pub struct Printer {
    out: Stdout,
    fault: io::Result<()>,
}

impl Printer {
    /// A printer to standard output.
    pub fn new(out: Stdout) -> Printer
        ensures { is_ok result.fault ≡ true }
    {
        Printer { out, fault: Ok(()) }
    }

    /// Why not all could be written, if so.
    pub fn finish(self) -> io::Result<()>
        ensures { result ≡ self.fault }
    {
        let Printer { out: _, fault } = self;
        fault
    }
}

impl Sink for Printer {
    ghost took = { λ _ _ _. Unit {0} };

    // After a fault nothing more is written.
    fn put(&mut self, part: &[u8])
        ensures unit { Unit {0} }
        ensures keeps { is_ok self.old.fault ≡ false → self.new.fault ≡ self.old.fault }
    {
        if self.fault.is_ok() {
            self.fault = self.out.write_all(part);
        }
    }
}

/// Puts a number out in decimal.
pub(crate) fn put_number<S: Sink>(out: &mut S, n: u64)
    ensures { S.Sink.took out.old (decimal n) out.new }
{
    let digits = Digits::of(n);
    out.put(digits.as_slice());
}
