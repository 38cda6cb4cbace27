//! A caller's own types that hold walks. Both prove only while the type of a walk asks for no bound on its kind.

ghost use Rattle.std.specs.Prelude.{◌≡◌};

use walks::Walk;
use weights::{Pair, WeightKind};

/// A walk of whatever kind, with the number of a site office.
#[derive(Drop)]
struct Held<K> {
    office: u32,
    walk: Walk<K>,
}

/// Holds a walk for the office.
fn hold<K>(office: u32, walk: Walk<K>) -> Held<K>
    ensures office { result.office ≡ office }
    ensures walk { result.walk ≡ walk }
{
    Held { office, walk }
}

/// A walk through a network whose links weigh by one kind first and by another then.
#[derive(Drop)]
struct TwoKinds<P: WeightKind, Q: WeightKind> {
    walk: Walk<Pair<P, Q>>,
}

/// Holds a walk of two kinds.
fn hold_two<P: WeightKind, Q: WeightKind>(walk: Walk<Pair<P, Q>>) -> TwoKinds<P, Q>
    ensures { result.walk ≡ walk }
{
    TwoKinds { walk }
}
