//! The links that a network can have as its first.

ghost use Rattle.std.specs.Prelude.{◌≡◌, ℕ, ◌+◌, ◌-◌, ◌*◌, ◌<◌, ◌≤◌, ◌++◌, map};
ghost use Rattle.std.specs.List.{All, Contains};
ghost use Rattle.arrayvec.specs.ArrayVec.{array_vec_len};
ghost use Rattle.exhaustive.specs.Choices.{choice, choice_of, between, back, choices_of, IsChoice};

use crate::cases::Drawn;
use arrayvec::ArrayVec;

/// Six pairs of sites at most, with three weights each.
pub(crate) type Choices = ArrayVec<Drawn, 18>;

/// Adds a link between the two sites of each weight: 0 to 2 metres.
fn choose_between(choices: &mut Choices, from: u8, to: u8)
    requires ends { (from < 4) × (to < 4) }
    requires room { array_vec_len choices.old + 3 ≤ 18 }
    ensures items { map choice_of choices.new.items ≡ map choice_of choices.old.items ++ between from to }
    ensures count { array_vec_len choices.new ≡ array_vec_len choices.old + 3 }
{
    for metres in 0..3 {
        choices.push(Drawn {
            metres,
            number: 0,
            from,
            to,
        });
    }
}

/// Adds the links between the site and each that has a lower number.
fn choose_back(choices: &mut Choices, to: u8)
    requires ends { to < 4 }
    requires room { array_vec_len choices.old + 3 * to ≤ 18 }
    ensures items { map choice_of choices.new.items ≡ map choice_of choices.old.items ++ back to to }
    ensures count { array_vec_len choices.new ≡ array_vec_len choices.old + 3 * to }
{
    for from in 0..to {
        choose_between(choices, from, to);
    }
}

/// The links that a network of so many sites can have as its first, number 0: between any two sites, one of each weight.
pub(crate) fn choices(sites: u8) -> Choices
    requires { sites ≤ 4 }
    ensures items { map choice_of result.items ≡ choices_of sites }
    ensures every { (from to metres : ℕ) → from < to → to < sites → metres < 3 → Contains (map choice_of result.items) (choice from to metres) }
    ensures such { All (IsChoice sites) (map choice_of result.items) }
    ensures count { 2 * array_vec_len result ≡ 3 * (sites * (sites - 1)) }
{
    let mut choices = ArrayVec::new();
    for to in 0..sites {
        choose_back(&mut choices, to);
    }
    choices
}
