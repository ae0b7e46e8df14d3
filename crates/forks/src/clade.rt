// A clade as a number, label L at bit L - 1.
ghost use Rattle.std.specs.Prelude.{◌≡◌, ◌-◌, ◌<◌, ◌≤◌};
ghost use Rattle.meaning.specs.Clade.{inside, lowest};
ghost use Rattle.families.specs.Clades.{size};
ghost use Rattle.families.specs.Grown.{low_bit, leads as leads_in, first_child};

use std::marker::Model;

/// A clade. Lent slices hold clades as numbers; one that is taken out of a slice is made a clade, which costs nothing.
#[derive(Clone, Copy, PartialEq, Eq)]
pub struct Clade {
    bits: u64,
}

impl Model for Clade {
    ghost use Rattle.std.specs.Prelude.{ℕ, ◌^◌, ◌<◌};

    ghost Value = { ℕ };

    ghost view = { λ c. c.bits };

    ghost invariant = { λ c. c.bits < 2 ^ 64 };

    ghost inverse = { λ n. record { bits = n } };
}

impl Clade {
    /// The clade of the labels L with a bit L - 1.
    // `Clade::from(c)` and `u64::from(c)` would say the same of a slice's number, in more letters.
    pub fn new(bits: u64) -> Self
        ensures { result ≡ bits }
    {
        Self { bits }
    }

    /// The number that lent slices hold for it.
    pub fn bits(self) -> u64
        ensures { result ≡ self }
    {
        let Self { bits } = self;
        bits
    }

    /// How many labels it has.
    // `as`, here and below: there is no `From` of a narrower type, and a `TryFrom` would have an `Err` that never comes.
    #[tactic(auto, using(crate::proofs::Labels::ones_is_size))]
    pub fn labels(self) -> u8
        ensures { result ≡ size self }
    {
        self.bits.count_ones() as u8
    }

    /// Its smallest label; 65 where it has none.
    // 65 and no None: document 01 asks for trailing zeros plus one, and each caller has a clade with labels.
    pub fn smallest(self) -> u8
        ensures { result ≡ lowest self }
    {
        self.bits.trailing_zeros() as u8 + 1
    }

    /// The smallest label's own clade.
    pub fn low_bit(self) -> Self
        requires { 0 < self }
        ensures { result ≡ low_bit self }
    {
        Self::new(1 << self.bits.trailing_zeros())
    }

    /// What is left of it without a clade inside it.
    pub fn without(self, inner: Self) -> Self
        requires { inner ≤ self }
        ensures { result ≡ self - inner }
    {
        Self::new(self.bits - inner.bits)
    }

    /// Whether every label is one of the other's.
    pub fn is_inside(self, other: Self) -> bool
        ensures { result ≡ inside self other }
    {
        self.bits & other.bits == self.bits
    }

    // Whether this is a smaller clade in c and has its smallest label, whose own clade is `low`.
    #[tactic(auto, using(crate::proofs::Growing::leads_is))]
    fn leads(self, c: Self, low: Self) -> bool
        requires { low ≡ low_bit c }
        ensures { result ≡ leads_in c self }
    {
        self != c && self.is_inside(c) && low.is_inside(self)
    }

    /// The child with the smallest label, where the slice has the clades of the tree.
    #[tactic(auto, using(crate::proofs::Growing::first_child_none, crate::proofs::Growing::first_child_more))]
    pub fn first_child(self, clades: &[u64]) -> Self
        requires { 0 < self }
        ensures { result ≡ first_child clades.now self }
    {
        let low = self.low_bit();
        let mut best = low.bits;
        for &d in clades {
            if Self::new(d).leads(self, low) && best < d {
                best = d;
            }
        }
        Self::new(best)
    }
}
