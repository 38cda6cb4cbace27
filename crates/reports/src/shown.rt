//! How the totals of each kind of sheet are printed.

ghost use Rattle.std.specs.Prelude.{ℕ, List};
ghost use Rattle.reports.specs.Kinds.{metres_text, crossings_text};
ghost use Rattle.reports.specs.Sinks.{PutOut};

use crate::sinks::{Sink, put_number};
use sheets::SheetKind;
use weights::{Crossings, CrossingsTotal, Metres, MetresTotal, Pair, PairTotal};

/// A kind of sheet whose totals are printed.
pub(crate) trait Shown: SheetKind {
    /// The text of a total.
    ghost text: { Self.Total → List ℕ };

    /// Puts a total out.
    fn put_total<S: Sink>(total: Self::Total, out: &mut S)
        ensures { PutOut S.Sink.took out.old (text total) out.new };
}

impl Shown for Metres {
    ghost text = { λ t. metres_text t.sum };

    fn put_total<S: Sink>(total: MetresTotal, out: &mut S) {
        put_number(out, total.metres());
    }
}

impl Shown for Pair<Crossings, Metres> {
    ghost text = { λ t. crossings_text (t.firsts.sum, t.seconds.sum) };

    fn put_total<S: Sink>(total: PairTotal<CrossingsTotal, MetresTotal>, out: &mut S) {
        put_pair(out, total.first().crossings(), total.second().metres());
    }
}

/// Puts crossings and metres out, with a stroke between them.
fn put_pair<S: Sink>(out: &mut S, crossings: u32, metres: u64)
    ensures { PutOut S.Sink.took out.old (crossings_text (crossings, metres)) out.new }
{
    put_number(out, crossings as u64);
    out.put(b"/");
    put_number(out, metres);
}
