//! Closing and opening links.

ghost use Rattle.std.specs.Prelude.{◌≡◌, false, not, length, replicate, slice_set};
ghost use Rattle.networks.specs.Closures.{states_of, closed_at, none_closed};

pub use crate::closed::Closed;

impl Closed {
    /// Every link is open.
    pub fn none() -> Closed
        ensures none { result ≡ none_closed }
        ensures states { states_of result ≡ replicate 512 false }
    {
        Closed {
            marks: [false; 512],
        }
    }

    /// Whether this link is closed; a number of 512 or more is not.
    pub fn is_closed(&self, link: u16) -> bool
        ensures { result ≡ closed_at self.now link }
    {
        self.marks.get(link as usize).copied().unwrap_or(false)
    }

    /// Whether this link is open.
    pub(crate) fn is_open(&self, link: u16) -> bool
        ensures { result ≡ not (closed_at self.now link) }
    {
        !self.is_closed(link)
    }

    /// Closes or opens this link; a number of 512 or more is no link's.
    pub(crate) fn put(&mut self, link: u16, state: bool)
        ensures puts { states_of self.new ≡ slice_set (states_of self.old) link state }
        ensures wide { length (states_of self.old) ≡ 512 }
    {
        let link = link as usize;
        // By index: once a mark lent by `get_mut` is given back, a proof knows of the marks only how many they are.
        if link < 512 {
            self.marks[link] = state;
        }
    }
}
