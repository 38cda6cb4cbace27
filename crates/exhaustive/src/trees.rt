//! Cheapest trees by looking at every set of links. A set of links is a number below 16: link 0 is 1, link 1 is 2,
//! link 2 is 4, link 3 is 8; a set of sites likewise.

ghost use Rattle.std.specs.Prelude.{◌≡◌, ℕ, ◌+◌, ◌-◌, ◌*◌, ◌^◌, ◌≤◌, ◌==◌, IfSome};
ghost use Rattle.std.specs.List.{list_any, list_all};
ghost use Rattle.arrayvec.specs.ArrayVec.{array_vec_len};
ghost use Rattle.exhaustive.specs.Sets.{has};
ghost use Rattle.exhaustive.specs.Trees.{class_in, follow, reach, spans};
ghost use Rattle.exhaustive.specs.declared.cases.Drawn.{Drawn};

use crate::cases::{Case, Drawn};
use arrayvec::ArrayVec;
use networks::Class;

/// The set of so many links or sites, from the first on.
fn first(many: u8) -> u8
    requires { many ≤ 4 }
    ensures { result ≡ 2 ^ many - 1 }
{
    (1 << many) - 1
}

impl Case {
    /// The set of all links.
    pub(crate) fn all_links(&self) -> u8
        ensures { result ≡ 2 ^ array_vec_len self.now.links - 1 }
    {
        first(self.links.len() as u8)
    }

    /// The sites reached when each link of the set is followed once from the sites reached before.
    fn followed(&self, set: u8, from: u8) -> u8
        ensures { result ≡ follow self.now.links.items set from }
    {
        self.links.iter().fold(from, |sites, link| {
            if link.is_in(set) && sites & link.ends() != 0 {
                sites | link.ends()
            } else {
                sites
            }
        })
    }

    /// The sites that chains of links of the set reach from site 0.
    fn reached(&self, set: u8) -> u8
        ensures { result ≡ reach self.now.links.items set }
    {
        let near = self.followed(set, self.followed(set, 1));
        self.followed(set, self.followed(set, near))
    }

    /// Whether the links of the set join all sites.
    pub(crate) fn joined(&self, set: u8) -> bool
        ensures { result ≡ (reach self.now.links.items set == 2 ^ self.now.sites - 1) }
    {
        self.reached(set) == first(self.sites)
    }

    /// Whether the set is a spanning tree of open links: one link less than there are sites, which join all sites.
    fn is_tree(&self, opened: u8, set: u8) -> bool
        ensures { result ≡ spans self.now.links.items self.now.sites opened set }
    {
        set.count_ones() + 1 == u32::from(self.sites) && set & opened == set && self.joined(set)
    }

    /// The total of the set in metres. A loop, since it isn't proved of a chain's sum that it fits after a filter.
    fn total(&self, set: u8) -> u32
        ensures { result ≤ 1020 }
    {
        let mut total = 0;
        for link in self.links.iter() {
            if link.is_in(set) {
                total += u32::from(link.metres);
            }
        }
        total
    }

    /// The least total of a spanning tree of open links, if there is one.
    fn least(&self, opened: u8) -> Option<u32>
        ensures { IfSome result (λ least. least ≤ 1020) }
    {
        (0..16)
            .filter(|set| self.is_tree(opened, *set))
            .map(|set| self.total(set))
            .min()
    }

    /// The sets that are cheapest trees of open links. A loop, since `collect` asks for a heap.
    pub(crate) fn cheapest(&self, opened: u8) -> ArrayVec<u8, 16>
        ensures { array_vec_len result ≤ 16 }
    {
        let least = self.least(opened);
        let mut trees = ArrayVec::new();
        for set in 0..16 {
            if self.is_tree(opened, set) && Some(self.total(set)) == least {
                trees.push(set);
            }
        }
        trees
    }

    /// How many links have this class.
    pub(crate) fn count_class(&self, trees: &[u8], class: Class) -> usize
        ensures { result ≤ array_vec_len self.now.links }
    {
        self.links
            .iter()
            .filter(|link| class_of(trees, link) == class)
            .count()
    }
}

/// Whether some tree has the link.
fn in_some(trees: &[u8], link: &Drawn) -> bool
    ensures { result ≡ list_any (λ tree. has tree link.now.number) trees.now }
{
    trees.iter().any(|tree| link.is_in(*tree))
}

/// Whether every tree has the link.
fn in_every(trees: &[u8], link: &Drawn) -> bool
    ensures { result ≡ list_all (λ tree. has tree link.now.number) trees.now }
{
    trees.iter().all(|tree| link.is_in(*tree))
}

/// The class of a link that the trees are the cheapest of.
pub(crate) fn class_of(trees: &[u8], link: &Drawn) -> Class
    ensures { result ≡ class_in link.now.number trees.now }
{
    if !in_some(trees, link) {
        Class::Never
    } else if in_every(trees, link) {
        Class::Always
    } else {
        Class::Sometimes
    }
}
