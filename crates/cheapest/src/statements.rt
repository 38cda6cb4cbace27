//! The theorems on cheapest trees. Each function below stands for a theorem, which its contract states for
//! the scale of any weight kind.

ghost use Rattle.cheapest.specs.Classes.{InSomeStands, AvoidableStands, InEveryStands, SubstituteStands};
ghost use Rattle.cheapest.specs.Theorems.{RanksTell, OneRow, FirstRowStands, Position, LeastTotal, Successor, OneFullList, SameRows};

use weights::WeightKind;

/// Ranks tell links apart, and follow their amounts.
fn ranks_tell_stands<K: WeightKind>()
    ensures { RanksTell K.WeightKind.weighing.scale }
{}

/// The links of a spanning tree have exactly one row.
fn one_row_stands<K: WeightKind>()
    ensures { OneRow K.WeightKind.weighing.scale }
{}

/// The first row is a cheapest tree's and the first of them, or there is no spanning tree.
fn first_row_stands<K: WeightKind>()
    ensures { FirstRowStands K.WeightKind.weighing.scale }
{}

/// The cheapest rows are those with the first row's amounts, position by position.
fn position_stands<K: WeightKind>()
    ensures { Position K.WeightKind.weighing.scale }
{}

/// The completion of a forest has the least total of all that could complete it.
fn least_total_stands<K: WeightKind>()
    ensures { LeastTotal K.WeightKind.weighing.scale }
{}

/// After the row of a cheapest tree comes its last good departure, and if it has none it is the last row.
fn successor_stands<K: WeightKind>()
    ensures { Successor K.WeightKind.weighing.scale }
{}

/// There is exactly one full list.
fn one_list_stands<K: WeightKind>()
    ensures { OneFullList K.WeightKind.weighing.scale }
{}

/// Links stand together in some cheapest tree exactly if their completion has the least total.
fn in_some_stands<K: WeightKind>()
    ensures { InSomeStands K.WeightKind.weighing.scale }
{}

/// Some cheapest tree does without closed links exactly if the first row without them has the least total.
fn avoidable_stands<K: WeightKind>()
    ensures { AvoidableStands K.WeightKind.weighing.scale }
{}

/// A link is in every cheapest tree exactly if none does without it.
fn in_every_stands<K: WeightKind>()
    ensures { InEveryStands K.WeightKind.weighing.scale }
{}

/// A link stands in for another exactly if both have one amount.
fn substitute_stands<K: WeightKind>()
    ensures { SubstituteStands K.WeightKind.weighing.scale }
{}

/// Amounts that compare alike, on whatever scales, give the same cheapest rows and one full list.
fn same_rows_stand<K: WeightKind, L: WeightKind>()
    ensures { SameRows K.WeightKind.weighing.scale L.WeightKind.weighing.scale }
{}
