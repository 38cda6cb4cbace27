//! Sheet kinds: the weight kinds that have a letter and bytes on sheets.

ghost use Rattle.std.specs.Prelude.{◌≡◌, ℕ, List, ◌++◌, length, MatchOption, ◌≢◌};
ghost use Rattle.sheets.specs.Numbers.{be16, be32};
ghost use Rattle.std.proofs.Common.{rules};

use weights::{Crossings, Metres, Pair, WeightKind};

/// A weight kind with a letter, and with bytes for each weight. Every weight has the same number of bytes, and different
/// weights have different bytes.
pub trait SheetKind: WeightKind {
    /// The byte that names the kind on a sheet.
    ghost letter: { ℕ };

    /// How many bytes a weight has.
    ghost width: { ℕ };

    /// The bytes of a weight.
    ghost bytes: { Self → List ℕ };

    fn kind_byte() -> u8
        ensures { result ≡ letter };

    fn weight_width() -> u16
        ensures { result ≡ width };

    /// The weight that has these bytes; none where they are not as many as a weight has.
    fn decode(encoded: &[u8]) -> Option<Self>
        ensures { MatchOption result (length encoded.now ≢ width) (λ w. bytes w ≡ encoded.now) };

    /// Writes the bytes of the weight into as many places; nothing where there are not as many.
    fn encode(self, places: &mut [u8])
        ensures writes { length places.old ≡ width → places.new ≡ bytes self }
        ensures keeps { (length places.old ≢ width) → places.new ≡ places.old };

    ghost wide: { (w : Self) → length (bytes w) ≡ width };

    ghost determined: { (x y : Self) → bytes x ≡ bytes y → x ≡ y };
}

/// Kind W: four bytes of metres.
impl SheetKind for Metres {
    ghost letter = { 87 };

    ghost width = { 4 };

    ghost bytes = { λ w. be32 w.0 };

    ghost wide = { Prim.search rules };

    ghost determined = { Prim.search rules };

    fn kind_byte() -> u8 {
        b'W'
    }

    fn weight_width() -> u16 {
        4
    }

    fn decode(encoded: &[u8]) -> Option<Metres> {
        Some(Metres(u32::from_be_bytes(encoded.try_into().ok()?)))
    }

    fn encode(self, places: &mut [u8]) {
        if places.len() == 4 {
            places.copy_from_slice(&self.0.to_be_bytes());
        }
    }
}

/// Kind P: two bytes of crossings and four of metres.
impl SheetKind for Pair<Crossings, Metres> {
    ghost letter = { 80 };

    ghost width = { 6 };

    ghost bytes = { λ w. be16 w.first.0 ++ be32 w.second.0 };

    ghost wide = { Prim.search rules };

    ghost determined = { Prim.search rules };

    fn kind_byte() -> u8 {
        b'P'
    }

    fn weight_width() -> u16 {
        6
    }

    fn decode(encoded: &[u8]) -> Option<Pair<Crossings, Metres>> {
        let (crossings, metres) = encoded.split_first_chunk()?;
        Some(Pair {
            first: Crossings(u16::from_be_bytes(*crossings)),
            second: Metres::decode(metres)?,
        })
    }

    fn encode(self, places: &mut [u8]) {
        if places.len() == 6 {
            let (crossings, metres) = places.split_at_mut(2);
            crossings.copy_from_slice(&self.first.0.to_be_bytes());
            self.second.encode(metres);
        }
    }
}
