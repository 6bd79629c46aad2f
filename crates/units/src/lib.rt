// People, cells, MHz-pops and weighted MHz-pops: units with names of their own (document 01, "Coverage and blocks"; document 02, Papers 1
// and 4). Sums and comparisons take one of them with itself, so no sum mixes them. The bridges are People::mhz_pops, MHz × people;
// MhzPops::weighted, weight × MHz-pops; and People::weighted, both at once.
// Coordinates are plain i32, in hundredths of an arc second.
#![tactic(auto, using(crate::proofs::Laws::stopped))]

ghost use Rattle.std.specs.Prelude.{◌≡◌, ◌+◌, ◌-◌, ◌*◌, ◌<◌, ◌^◌, ℕ};
ghost use Rattle.std.proofs.Common.{rules};
ghost use Rattle.units.specs.Sums.{capped};
ghost use Rattle.units.specs.Coordinates.{within_z};

// A count of people.
#[repr(C)]
#[derive(Clone, Copy, Debug, PartialEq, Eq, PartialOrd, Ord)]
pub struct People(pub u64);

// A count of cells.
#[repr(C)]
#[derive(Clone, Copy, Debug, PartialEq, Eq, PartialOrd, Ord)]
pub struct Cells(pub u64);

// An amount of MHz-pops: MHz × people.
#[repr(C)]
#[derive(Clone, Copy, Debug, PartialEq, Eq, PartialOrd, Ord)]
pub struct MhzPops(pub u64);

// An amount of weighted MHz-pops: MHz × weight × people.
#[derive(Clone, Copy, Debug, PartialEq, Eq, PartialOrd, Ord)]
pub struct Weighted(pub u64);

// A unit: its amounts are added to, and taken from, amounts of the same unit.
pub trait Amount: Copy {
    ghost count: { Self → ℕ };

    ghost of: { ℕ → Self };

    fn of(n: u64) -> Self
        ensures { result ≡ of n };

    fn count(self) -> u64
        ensures { result ≡ count self };

    ghost same: { (n : ℕ) → n < 2 ^ 64 → count (of n) ≡ n };

    // The sum, which stops at the largest u64.
    final fn plus(self, other: Self) -> Self
        ensures { count result ≡ capped (count self + count other) }
    {
        Self::of(self.count().saturating_add(other.count()))
    }

    // What is left, which stops at 0.
    final fn minus(self, other: Self) -> Self
        ensures { count result ≡ count self - count other }
    {
        Self::of(self.count().saturating_sub(other.count()))
    }
}

// Kept as four impls, alike but for the type: document 01 wants a tuple struct for each unit, and an impl that a macro writes is not accepted.
impl Amount for People {
    ghost count = { λ amount. amount.0 };

    ghost of = { λ n. record { 0 = n } };

    ghost same = { Prim.search rules };

    fn of(n: u64) -> Self {
        People(n)
    }

    fn count(self) -> u64 {
        self.0
    }
}

impl Amount for Cells {
    ghost count = { λ amount. amount.0 };

    ghost of = { λ n. record { 0 = n } };

    ghost same = { Prim.search rules };

    fn of(n: u64) -> Self {
        Cells(n)
    }

    fn count(self) -> u64 {
        self.0
    }
}

impl Amount for MhzPops {
    ghost count = { λ amount. amount.0 };

    ghost of = { λ n. record { 0 = n } };

    ghost same = { Prim.search rules };

    fn of(n: u64) -> Self {
        MhzPops(n)
    }

    fn count(self) -> u64 {
        self.0
    }
}

impl Amount for Weighted {
    ghost count = { λ amount. amount.0 };

    ghost of = { λ n. record { 0 = n } };

    ghost same = { Prim.search rules };

    fn of(n: u64) -> Self {
        Weighted(n)
    }

    fn count(self) -> u64 {
        self.0
    }
}

impl People {
    // The MHz-pops of these people over so many MHz, which stop at the largest u64.
    pub fn mhz_pops(self, mhz: u32) -> MhzPops
        ensures { result.0 ≡ capped (mhz * self.0) }
    {
        MhzPops(u64::from(mhz).saturating_mul(self.0))
    }

    // The weighted MHz-pops of these people over so many MHz at a weight, which stop at the largest u64.
    pub fn weighted(self, mhz: u32, weight: u32) -> Weighted
        ensures { result.0 ≡ capped (mhz * weight * self.0) }
    {
        Weighted((u64::from(mhz) * u64::from(weight)).saturating_mul(self.0))
    }
}

impl Cells {
    // These cells counted so many times, which stop at the largest u64.
    pub fn times(self, times: u32) -> Self
        ensures { result.0 ≡ capped (times * self.0) }
    {
        Cells(u64::from(times).saturating_mul(self.0))
    }
}

impl MhzPops {
    // The weighted MHz-pops of these at a weight, which stop at the largest u64.
    pub fn weighted(self, weight: u32) -> Weighted
        ensures { result.0 ≡ capped (weight * self.0) }
    {
        Weighted(u64::from(weight).saturating_mul(self.0))
    }
}

// Whether a coordinate lies in a range, both ends included.
pub fn in_range(low: i32, high: i32, z: i32) -> bool
    ensures { result ≡ within_z low high z }
{
    // Kept as two tests: in a loop over a row's cells `(low..=high).contains(&z)` took 95 us where these take 66.
    (low <= z) & (z <= high)
}
