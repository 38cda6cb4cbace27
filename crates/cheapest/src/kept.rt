//! Copies of a walk's place.

ghost use Rattle.std.specs.Prelude.{◌≡◌, ◌<◌, length};

/// The links of a row, the first `size` of the array. No call allocates, so it has room for any row.
#[derive(Clone, Copy)]
pub(crate) struct Links {
    pub(crate) numbers: [u16; 64],
    pub(crate) size: usize,
    ghost small: { size < 64 },
    ghost wide: { length numbers ≡ 64 },
}

/// The place of a walk, kept while the walk goes on: the row that it was on, if it was on one.
#[derive(Clone, Copy)]
pub struct Kept {
    pub(crate) row: Option<Links>,
}
