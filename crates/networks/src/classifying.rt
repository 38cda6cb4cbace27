//! The class of a link, and how many links have a class.

ghost use Rattle.std.specs.Prelude.{◌≡◌, [], ◌∷◌, length, Some, Decides, IfOk};
ghost use Rattle.weights.specs.Amounts.{numbers};
ghost use Rattle.cheapest.specs.Plans.{graph_of, mark_of};
ghost use Rattle.networks.specs.Classes.{HasClass, Counted, Reads, letter_of, link_asked, letter_asked};
ghost use Rattle.networks.specs.declared.classes.Class.TheVariants.{Always, Sometimes, Never};
ghost use Rattle.networks.specs.Networks.{network_graph, links_of, weights_of};
ghost use Rattle.networks.specs.Refusals.{first_of, refusal_of};

use crate::classes::Class;
use crate::networks::Network;
use crate::refusals::Refusal;
use cheapest::Plan;
use std::fmt;
use weights::WeightKind;

impl From<Class> for char {
    ghost from_gives = { λ class letter. letter ≡ letter_of class };

    fn from(class: Class) -> char {
        match class {
            Class::Never => 'N',
            Class::Always => 'A',
            Class::Sometimes => 'S',
        }
    }
}

impl TryFrom<char> for Class {
    type Error = Refusal;

    ghost try_from_gives = { Reads };

    fn try_from(letter: char) -> Result<Class, Refusal> {
        // A letter is matched as it is, and any other refused: a form that the product is to have.
        match letter {
            'A' => Ok(Class::Always),
            'S' => Ok(Class::Sometimes),
            'N' => Ok(Class::Never),
            _ => Err(Refusal::UnknownClass),
        }
    }
}

impl fmt::Display for Class {
    ghost output = { λ class. Some (letter_of class ∷ []) };

    fn fmt<W: fmt::Write>(&self, f: &mut fmt::Formatter<W>) -> fmt::Result {
        write!(f, "{}", self.letter())
    }
}

impl Class {
    /// The letter of this class.
    pub fn letter(&self) -> char
        ensures { result ≡ letter_of self.now }
    {
        char::from(*self)
    }
}

/// The class of a link of the plan.
fn class_in(plan: &Plan, link: u16) -> Class
    ensures { HasClass (graph_of plan.now) numbers (mark_of plan.now) link result }
{
    if !plan.in_some(link) {
        return Class::Never;
    }
    if plan.in_every(link) {
        return Class::Always;
    }
    Class::Sometimes
}

/// Whether the link of the plan has this class. For `Never` it asks no more than whether some tree has the link.
fn has_class(plan: &Plan, link: u16, class: Class) -> bool
    ensures { Decides result (HasClass (graph_of plan.now) numbers (mark_of plan.now) link class) }
{
    match class {
        Class::Never => !plan.in_some(link),
        Class::Always => plan.in_some(link) && plan.in_every(link),
        Class::Sometimes => plan.in_some(link) && !plan.in_every(link),
    }
}

/// How many links of the plan have this class.
fn count_in(plan: &Plan, class: Class) -> usize
    ensures { Counted (λ e. HasClass (graph_of plan.now) numbers (mark_of plan.now) e class) plan.now.count result }
{
    let mut count = 0;
    // By a loop: what a class is told by is a relation, and the count of a chain wants a function of the link.
    for link in 0..plan.count {
        if has_class(plan, link as u16, class) {
            count += 1;
        }
    }
    count
}

impl<K: WeightKind> Network<K> {
    /// How many links of the network have this class. Its letter tells it from the others.
    fn count_of(&self, class: Class) -> usize
        ensures always { letter_of class ≡ letter_of Always → Counted (λ e. HasClass (network_graph self.now) K.WeightKind.weighing.scale (weights_of K.WeightKind.weighing self.now) e Always) (length (links_of self.now)) result }
        ensures sometimes { letter_of class ≡ letter_of Sometimes → Counted (λ e. HasClass (network_graph self.now) K.WeightKind.weighing.scale (weights_of K.WeightKind.weighing self.now) e Sometimes) (length (links_of self.now)) result }
        ensures never { letter_of class ≡ letter_of Never → Counted (λ e. HasClass (network_graph self.now) K.WeightKind.weighing.scale (weights_of K.WeightKind.weighing self.now) e Never) (length (links_of self.now)) result }
    {
        count_in(&self.plan(), class)
    }

    /// Whether a link can be tried: whether there is one of this number.
    pub fn can_try(&self, link: u16) -> Result<(), Refusal>
        ensures { refusal_of result ≡ first_of (link_asked (length (links_of self.now)) link) }
    {
        if link as usize >= self.links().len() {
            return Err(Refusal::NoSuchLink(link));
        }
        Ok(())
    }

    /// The class of a link. Two runs over the links in rank order decide it.
    pub fn class(&self, link: u16) -> Result<Class, Refusal>
        ensures refuses { refusal_of result ≡ first_of (link_asked (length (links_of self.now)) link) }
        ensures answers { IfOk result (λ c. HasClass (network_graph self.now) K.WeightKind.weighing.scale (weights_of K.WeightKind.weighing self.now) link c) }
    {
        self.can_try(link)?;
        Ok(class_in(&self.plan(), link))
    }

    /// How many links have the class of this letter: `A`, `S` or `N`. The cost is that of the class of
    /// every link.
    pub fn count_class(&self, letter: char) -> Result<usize, Refusal>
        ensures refuses { refusal_of result ≡ first_of (letter_asked letter) }
        ensures always { letter ≡ letter_of Always → IfOk result (λ k. Counted (λ e. HasClass (network_graph self.now) K.WeightKind.weighing.scale (weights_of K.WeightKind.weighing self.now) e Always) (length (links_of self.now)) k) }
        ensures sometimes { letter ≡ letter_of Sometimes → IfOk result (λ k. Counted (λ e. HasClass (network_graph self.now) K.WeightKind.weighing.scale (weights_of K.WeightKind.weighing self.now) e Sometimes) (length (links_of self.now)) k) }
        ensures never { letter ≡ letter_of Never → IfOk result (λ k. Counted (λ e. HasClass (network_graph self.now) K.WeightKind.weighing.scale (weights_of K.WeightKind.weighing self.now) e Never) (length (links_of self.now)) k) }
    {
        let class = Class::try_from(letter)?;
        Ok(self.count_of(class))
    }
}
