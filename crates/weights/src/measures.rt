//! Weights that are plain numbers, and their total.

ghost use Rattle.std.specs.Prelude.{◌≡◌, ℕ, ◌+◌, ◌*◌, ◌<◌, ◌≤◌};
ghost use Rattle.std.proofs.Common.{rules};

use std::alloc::AllocError;
use std::marker::PhantomData;

/// A weight that is a plain number of at most 32 bits.
pub trait Measure: Copy {
    /// The number.
    ghost value: { Self → ℕ };

    /// No weight's number is higher.
    ghost most: { ℕ };

    /// The number.
    fn number(&self) -> u32
        ensures value { result ≡ value self.now }
        ensures most { result ≤ most };

    /// The weight of number 0.
    fn least() -> Self
        ensures { value result ≡ 0 };

    /// Two weights of one number are the same weight.
    ghost apart: { (x y : Self) → value x ≡ value y → x ≡ y };

    /// 63 such numbers add up to one of 64 bits.
    ghost narrow: { most ≤ 4294967295 };
}

/// The sum of up to 63 such numbers.
#[derive(Copy)]
#[derive_where(PartialEq, Eq, Debug)]
pub struct Total<M: Measure> {
    count: u8,
    sum: u64,
    of: PhantomData<M>,
    ghost few: { count ≤ 63 },
    ghost small: { sum ≤ count * M.Measure.most },
}

// Written out: a derive is refused where a ghost field speaks of the bound on a type parameter.
impl<M: Measure> Clone for Total<M> {
    ghost is_clone = { λ total copy. copy ≡ total };

    ghost is_infallible = { λ _. Unit {0} };

    fn clone(&self) -> Result<Total<M>, AllocError> {
        Ok(*self)
    }
}

impl<M: Measure> Total<M> {
    /// The total of no weights.
    pub fn nothing() -> Total<M>
        ensures count { result.count ≡ 0 }
        ensures sum { result.sum ≡ 0 }
    {
        Total {
            count: 0,
            sum: 0,
            of: PhantomData,
        }
    }

    /// How many weights were added.
    pub fn count(&self) -> u8
        ensures { result ≡ self.now.count }
    {
        self.count
    }

    /// The sum of their numbers.
    pub fn sum(&self) -> u64
        ensures { result ≡ self.now.sum }
    {
        self.sum
    }

    /// Adds a weight; a 64th leaves the total unaltered.
    pub fn add(&mut self, weight: M)
        ensures counts { self.old.count < 63 → self.new.count ≡ self.old.count + 1 }
        ensures adds { self.old.count < 63 → self.new.sum ≡ self.old.sum + M.Measure.value weight }
        ensures full { 63 ≤ self.old.count → self.new ≡ self.old }
    {
        if self.count < 63 {
            *self = Total {
                count: self.count + 1,
                sum: self.sum + u64::from(weight.number()),
                of: PhantomData,
            };
        }
    }
}
