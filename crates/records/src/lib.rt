// Document 02, Paper 2: coverage kept beside the register. A record keeps, for each area of one loaded map, what the map says of it and the
// sums over the licences in force; a grant adds what its ground covers and a cancellation subtracts what it strikes, so that a proposal
// from the record reads no map. The ways in are Record::load, grant, cancel and propose, and load_step,
// grant_step and cancel_step, which hand back what the caller goes on with in each case.
#![tactic(auto)]

ghost use Rattle.std.specs.Prelude.{ℕ, ◌≡◌, ◌≤◌, map as each};
ghost use Rattle.map.specs.Format.{read_map};
ghost use Rattle.map.specs.Answers.{checked_number};
ghost use Rattle.coverage.specs.declared.CoverageSums.{CoverageSums as Sums};
ghost use Rattle.proposal.specs.Promises.{Answers};
ghost use Rattle.records.specs.declared.KeptRefusal.TheVariants.{Map};
ghost use Rattle.records.specs.Record.{no_record, kept, entries, area_fault, record_fault, proposal_from};
ghost use Rattle.records.specs.Promises.{Numbered, LoadStep, LoadDone, GrantKept, GrantDone, CancelKept, CancelDone};
ghost use Rattle.records.specs.Promises.{next_step, next_record};
ghost use Rattle.records.specs.Code.{sums_in, plus_sums, minus_sums, moved, moved_all, held_by};

use coverage::{CoverageSums, Holding};
use map::Fault;
use proposal::{Proposal, ProposalRefusal};
use register::{GrantRefusal, Licence, NotInForce, Register, Step};
use units::{Amount, Cells, MhzPops, People};

// What a record keeps of an area: its number, weight and population as the map had them, and its sums over the licences in force, c in
// MHz-pops and cells. There is no padding.
#[repr(C)]
#[derive(Clone, Copy)]
pub struct Kept {
    pub number: u32,
    pub weight: u32,
    pub population: People,
    pub mhz_pops: MhzPops,
    pub cells: Cells,
}

// The record of a map: the first count of areas, and blank entries past them. There is no padding.
// Kept as an array with a count: the engine has no heap, and a record is to be kept and lent as it is laid out here.
#[repr(C)]
#[derive(Clone, Copy)]
pub struct Record {
    pub count: u64,
    pub areas: [Kept; Record::AREAS],
}

// Why a call with a record is refused: by the map, 1 to 5, or as without a record.
#[derive(Clone, Copy, Debug, PartialEq, Eq)]
pub enum KeptRefusal<E> {
    Map(Fault),
    Register(E),
}

// What an accepted call makes: the next register and the next record.
#[derive(Clone, Copy)]
pub struct Next {
    pub register: Register,
    pub kept: Record,
}

// What a load hands back in each case: the record, which is blank where the map is refused, and document 01's number of the refusal, 0 for
// none.
// Kept as a number beside the record: a Result has no record where the map is refused.
#[derive(Clone, Copy)]
pub struct Loaded {
    pub kept: Record,
    pub refusal: u32,
}

// What a grant or a cancellation hands back in each case: the step of the register, and the next record.
// Kept beside Next, which a refused call does not make.
#[derive(Clone, Copy)]
pub struct RecordStep {
    pub step: Step,
    pub kept: Record,
}

impl<E> From<Fault> for KeptRefusal<E> {
    ghost from_gives = { λ f r. r ≡ Map f };

    fn from(f: Fault) -> KeptRefusal<E> {
        KeptRefusal::Map(f)
    }
}

// Document 01's number of the refusal.
impl<E: Into<u32>> From<KeptRefusal<E>> for u32 {
    ghost from_gives = { λ r n. Numbered E.converts r n };

    fn from(r: KeptRefusal<E>) -> u32 {
        match r {
            KeptRefusal::Map(f) => u32::from(f),
            KeptRefusal::Register(e) => e.into(),
        }
    }
}

// What is kept of an area with its sums.
impl From<Holding> for Kept {
    ghost from_gives = { λ h k. k ≡ kept h };

    fn from(h: Holding) -> Kept {
        Kept {
            number: u32::from(h.number),
            weight: h.weight,
            population: h.population,
            mhz_pops: h.covered,
            cells: h.cells,
        }
    }
}

// The area as a proposal reads it. A number above the largest u16 is outside the limits, so it gets no proposal.
impl From<Kept> for Holding {
    ghost from_gives = { λ k h. h ≡ held_by k };

    fn from(k: Kept) -> Holding {
        Holding {
            number: (k.number % 65536) as u16,
            weight: k.weight,
            population: k.population,
            covered: k.mhz_pops,
            cells: k.cells,
        }
    }
}

impl Kept {
    // The first fault of an area, in the map's field order: number, weight, population.
    fn check(self, before: u32) -> Result<(), Fault>
        ensures { checked_number result ≡ area_fault before self }
    {
        if !(1..=416).contains(&self.number) {
            return Err(Fault::Limit);
        }
        if self.number <= before {
            return Err(Fault::Order);
        }
        if !(1..=65_535).contains(&self.weight) {
            return Err(Fault::Limit);
        }
        if !(1..=40_000_000).contains(&self.population.0) {
            return Err(Fault::Population);
        }
        Ok(())
    }

    // The area with sums added to its own.
    fn plus(self, sums: CoverageSums) -> Kept
        ensures { result ≡ plus_sums sums self }
    {
        Kept {
            mhz_pops: self.mhz_pops.plus(sums.mhz_pops),
            cells: self.cells.plus(sums.cells),
            ..self
        }
    }

    // The area with sums subtracted from its own.
    fn minus(self, sums: CoverageSums) -> Kept
        ensures { result ≡ minus_sums sums self }
    {
        Kept {
            mhz_pops: self.mhz_pops.minus(sums.mhz_pops),
            cells: self.cells.minus(sums.cells),
            ..self
        }
    }
}

impl Record {
    // The most areas that a map has.
    pub const AREAS: usize = 32;

    // The record of a map for an empty register: each area's number, weight and population, with sums of 0.
    pub fn load(map: &[u8]) -> Result<Record, Fault>
        ensures { LoadDone (read_map map.now) result }
    {
        let held = coverage::parts::holdings_in(map, Register::empty())?;
        Ok(Record {
            count: held.count as u64,
            areas: held.areas.map(Kept::from),
        })
    }

    // Refuses by 1 to 5, and then as the register's own grant does. Accepted, what the licence covers is added to the sums. What it covers
    // is counted from a register that has this licence alone.
    pub fn grant(
        self,
        map: &[u8],
        register: Register,
        l: Licence,
    ) -> Result<Next, KeptRefusal<GrantRefusal>>
        ensures { GrantDone (read_map map.now) register self l result }
    {
        let alone = Register::empty().grant_step(l).next;
        let held = coverage::parts::holdings_in(map, alone)?;
        let register = register.grant(l).map_err(KeptRefusal::Register)?;
        Ok(Next {
            register,
            kept: self.changed(held.areas(), Kept::plus),
        })
    }

    // Refuses by 1 to 5, and then as the register's own cancellation does. Accepted, what was struck is subtracted from the sums.
    pub fn cancel(
        self,
        map: &[u8],
        register: Register,
        call_sign: u32,
    ) -> Result<Next, KeptRefusal<NotInForce>>
        ensures { CancelDone (read_map map.now) register self call_sign result }
    {
        let held = coverage::parts::holdings_in(map, register.struck(call_sign))?;
        let register = register.cancel(call_sign).map_err(KeptRefusal::Register)?;
        Ok(Next {
            register,
            kept: self.changed(held.areas(), Kept::minus),
        })
    }

    // The record of no area: what a refused load hands back.
    pub fn blank() -> Record
        ensures { result ≡ no_record }
    {
        Record {
            count: 0,
            areas: [Kept::from(Holding::NONE); Self::AREAS],
        }
    }

    // A load that hands back a record in each case, with its refusal as a number beside it.
    pub fn load_step(map: &[u8]) -> Loaded
        ensures { LoadStep (read_map map.now) result.refusal result.kept }
    {
        match Record::load(map) {
            Ok(kept) => Loaded { kept, refusal: 0 },
            Err(fault) => Loaded {
                kept: Record::blank(),
                refusal: u32::from(fault),
            },
        }
    }

    // A grant that hands back register and record in each case, with its refusal as a number beside them. Refused, both are those passed.
    pub fn grant_step(self, map: &[u8], register: Register, l: Licence) -> RecordStep
        ensures { GrantKept (read_map map.now) register self l result.step result.kept }
    {
        handed_back(register, self, self.grant(map, register, l))
    }

    // So does a cancellation.
    pub fn cancel_step(self, map: &[u8], register: Register, call_sign: u32) -> RecordStep
        ensures { CancelKept (read_map map.now) register self call_sign result.step result.kept }
    {
        handed_back(register, self, self.cancel(map, register, call_sign))
    }

    // The proposal for what the record keeps: refused by its first fault, 2, 4 or 5, and then by 12.
    pub fn propose(self, draw: u32) -> Result<Proposal, ProposalRefusal>
        ensures { Answers (proposal_from self draw) result }
    {
        self.check()?;
        let areas = self.areas.map(Holding::from);
        proposal::parts::propose_from(&areas[..self.count as usize], draw)
    }

    // The first fault of a record in the map's field order: its count, then each area's number, weight and population in turn.
    fn check(self) -> Result<(), Fault>
        ensures { checked_number result ≡ record_fault self }
    {
        if !(1..=32).contains(&self.count) {
            return Err(Fault::Limit);
        }
        let mut before: u32 = 0;
        for k in &self.areas[..self.count as usize] {
            k.check(before)?;
            before = k.number;
        }
        Ok(())
    }

    // How many areas a grant and a cancellation take the record to have: at most 32.
    fn entries(self) -> usize
        ensures { (result ≡ entries self) × (result ≤ 32) }
    {
        self.count.min(32) as usize
    }

    // The areas up to the count, changed by what was counted in the areas of a map.
    fn changed<F: Fn(Kept, CoverageSums) -> Kept>(self, areas: &[Holding], change: F) -> Self
        requires { F.IsAlwaysCallable change }
        ensures { (by : Sums → Kept → Kept) → ((k : Kept) (s : Sums) (r : Kept) → F.post change k s r → r ≡ by s k)
            → result ≡ moved_all by areas.now self }
    {
        let entries = self.entries();
        let mut kept = self.areas;
        change_each(&mut kept[..entries], areas, change);
        Record {
            count: self.count,
            areas: kept,
        }
    }
}

// What a call hands back in each case: what it made, or, refused, what it was passed.
fn handed_back<E: Into<u32>>(
    register: Register,
    kept: Record,
    done: Result<Next, KeptRefusal<E>>,
) -> RecordStep
    ensures { (number : E → ℕ) → ((e : E) (n : ℕ) → E.converts e n → n ≡ number e)
        → (result.step ≡ next_step number register done) × (result.kept ≡ next_record kept done) }
{
    match done {
        Ok(next) => RecordStep {
            step: Step {
                next: next.register,
                refusal: 0,
            },
            kept: next.kept,
        },
        Err(refusal) => RecordStep {
            step: Step {
                next: register,
                refusal: u32::from(refusal),
            },
            kept,
        },
    }
}

// Each area changed by what was counted in the map's area of its number: it stays where the map has none.
fn change_each<F: Fn(Kept, CoverageSums) -> Kept>(
    entries: &mut [Kept],
    areas: &[Holding],
    change: F,
)
    requires { F.IsAlwaysCallable change }
    ensures { (by : Sums → Kept → Kept) → ((k : Kept) (s : Sums) (r : Kept) → F.post change k s r → r ≡ by s k)
        → entries.new ≡ each (λ k. moved by (sums_in k.number areas.now) k) entries.old }
{
    for k in entries {
        if let Some(sums) = sums_in(areas, k.number) {
            *k = change(*k, sums);
        }
    }
}

// c and the sum of cells of the area with a number.
fn sums_in(areas: &[Holding], number: u32) -> Option<CoverageSums>
    ensures { result ≡ sums_in number areas.now }
{
    areas
        .iter()
        .find(|h| u32::from(h.number) == number)
        .copied()
        .map(CoverageSums::from)
}
