//! The record of closed links.

ghost use Rattle.std.specs.Prelude.{◌≡◌, length, slice_set};

/// Which link numbers are closed. It knows no weights, so that one record serves networks of every kind.
#[derive(Clone, Copy)]
pub struct Closed {
    pub(crate) marks: [bool; 512],
}

/// Keeps a link's state while it is tried, and puts the link back when it is let go.
pub(crate) struct Reopen<'a> {
    pub(crate) closed: &'a mut Closed,
    pub(crate) link: u16,
    pub(crate) was: bool,
}

impl Drop for Reopen<'_> {
    fn drop(self)
        ensures { self.exit.0.now.marks ≡ slice_set self.entry.closed.now.marks self.entry.link self.entry.was }
    {
        let Reopen { closed, link, was } = self;
        closed.put(link, was);
    }
}
