// Groups: sets of the variants 0 to 15, kept as a mask of 16 bits.
#![tactic(auto)]

ghost use Rattle.std.specs.Prelude.{◌≡◌, ℕ, ◌<◌, Bool, true, false, not, ◌&&◌, ◌||◌, MatchOption, ◌==◌, nat_lt};
ghost use Rattle.group.specs.Groups.{has, none, only, with, without, joined, shared, apart, is_empty, count};

// How many variants there are.
pub const VARIANTS: u8 = 16;

// A set of variants. No group has a variant above 15.
#[derive(Clone, Copy, PartialEq, Eq, PartialOrd, Ord, Debug)]
pub struct Group {
    mask: u16,
}

impl Group {
    #[tactic(auto, using(crate::proofs::Members::has_none))]
    pub fn empty() -> Group
        ensures value { result ≡ none }
        ensures members { (w : ℕ) → has result w ≡ false }
    {
        Group { mask: 0 }
    }

    // The group of v alone, empty if v is above 15.
    pub fn single(v: u8) -> Group
        ensures value { result ≡ only v }
        ensures members { (w : ℕ) → has result w ≡ (nat_lt v 16 && w == v) }
    {
        Group::empty().with(v)
    }

    #[tactic(auto, using(crate::proofs::Members::has_above), unfolding(crate::specs::Groups::has))]
    pub fn has(self, v: u8) -> bool
        ensures value { result ≡ has self v }
        ensures above { (w : ℕ) → nat_lt w 16 ≡ false → has self w ≡ false }
    {
        v < VARIANTS && (self.mask >> v) & 1 == 1
    }

    // With v too; the same group if v is above 15.
    #[tactic(auto, using(crate::proofs::Members::has_with, crate::proofs::Members::with_above), unfolding(crate::specs::Groups::with))]
    pub fn with(self, v: u8) -> Group
        ensures value { result ≡ with self v }
        ensures members { (w : ℕ) → has result w ≡ ((nat_lt v 16 && w == v) || has self w) }
    {
        if v >= VARIANTS {
            return self;
        }
        Group {
            mask: self.mask | 1u16 << v,
        }
    }

    #[tactic(auto, using(crate::proofs::Members::has_without, crate::proofs::Members::without_above), unfolding(crate::specs::Groups::without))]
    pub fn without(self, v: u8) -> Group
        ensures value { result ≡ without self v }
        ensures members { (w : ℕ) → has result w ≡ (not (w == v) && has self w) }
    {
        if v >= VARIANTS {
            return self;
        }
        Group {
            mask: self.mask & !(1u16 << v),
        }
    }

    // The variants of either.
    #[tactic(auto, using(crate::proofs::Members::has_joined))]
    pub fn union(self, other: Group) -> Group
        ensures value { result ≡ joined self other }
        ensures members { (w : ℕ) → has result w ≡ (has self w || has other w) }
    {
        Group {
            mask: self.mask | other.mask,
        }
    }

    // The variants of both.
    #[tactic(auto, using(crate::proofs::Members::has_shared))]
    pub fn intersection(self, other: Group) -> Group
        ensures value { result ≡ shared self other }
        ensures members { (w : ℕ) → has result w ≡ (has self w && has other w) }
    {
        Group {
            mask: self.mask & other.mask,
        }
    }

    // The variants that the other has not.
    #[tactic(auto, using(crate::proofs::Members::has_apart))]
    pub fn difference(self, other: Group) -> Group
        ensures value { result ≡ apart self other }
        ensures members { (w : ℕ) → has result w ≡ (has self w && not (has other w)) }
    {
        Group {
            mask: self.mask & !other.mask,
        }
    }

    #[tactic(auto, using(crate::proofs::Members::empty_none, crate::proofs::Members::not_empty_least), unfolding(crate::specs::Groups::is_empty))]
    pub fn is_empty(self) -> bool
        ensures value { result ≡ is_empty self }
        ensures members { result ≡ true → (w : ℕ) → has self w ≡ false }
        ensures inhabited { result ≡ false → (w : ℕ) × (has self w ≡ true) }
    {
        self.mask == 0
    }

    // How many variants it has.
    #[tactic(auto, using(crate::proofs::Members::ones_members))]
    pub fn size(self) -> u32
        ensures { result ≡ count (has self) 16 }
    {
        self.mask.count_ones()
    }

    // Its smallest variant.
    pub fn least(self) -> Option<u8>
        ensures { MatchOption result ((w : ℕ) → has self w ≡ false) (λ v. (has self v ≡ true) × ((w : ℕ) → w < v → has self w ≡ false)) }
    {
        if self.is_empty() {
            return None;
        }
        Some(self.mask.trailing_zeros() as u8)
    }

    // A number that tells groups apart.
    pub fn mask(self) -> u16
        ensures { result ≡ self.mask }
    {
        let Group { mask } = self;
        mask
    }
}
