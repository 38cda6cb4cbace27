//! How a pour ends.

ghost use Rattle.std.specs.Prelude.{◌≡◌};
ghost use Rattle.walks.specs.Letters.{letter_of};

/// Why a pour ended, in the order in which the reasons are tried before each row.
#[derive(Clone, Copy, PartialEq, Eq, Debug)]
pub enum Ending {
    /// The limit is reached.
    LimitReached,
    /// The sites are not joined.
    NotJoined,
    /// No row follows.
    NoneFollows,
    /// The receiver does not take the row that follows.
    NotTaken,
}

impl From<Ending> for char {
    ghost from_gives = { λ ending letter. letter ≡ letter_of ending };

    fn from(ending: Ending) -> char {
        match ending {
            Ending::LimitReached => 'L',
            Ending::NotJoined => 'Z',
            Ending::NoneFollows => 'X',
            Ending::NotTaken => 'F',
        }
    }
}

impl Ending {
    /// The letter of this ending: `L`, `Z`, `X` or `F`.
    pub fn letter(&self) -> char
        ensures { result ≡ letter_of self.now }
    {
        char::from(*self)
    }
}
