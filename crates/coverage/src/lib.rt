// Document 01, "Coverage and blocks", and document 02, Papers 1 and 4: the MHz-pops and the cells that the licences in force cover in an
// area, and the blocks they come to. The ways in are coverage and blocks; the module parts serves the crates above.
#![tactic(auto)]

pub mod parts;

ghost use Rattle.std.specs.Prelude.{◌≡◌, ◌≤◌, cond, take};
ghost use Rattle.map.specs.Format.{read_map};
ghost use Rattle.map.specs.Answers.{sought_means, seek};
ghost use Rattle.register.specs.Licences.{in_force};
ghost use Rattle.coverage.specs.Cover.{holding_of, sums_of_holding};
ghost use Rattle.coverage.specs.Blocks.{blocks_of};
ghost use Rattle.coverage.specs.Limits.{Limits, in_limits, sums_by, HoldingDone};
ghost use Rattle.coverage.specs.Answers.{no_blocks, coverage_at, blocks_at, answer_of};

use map::parts::{CountedArea, Counts};
use map::{Area, Fault};
use register::{Naming, Register};
use units::{Amount, Cells, MhzPops, People, Weighted};

// An area of a map with c, the MHz-pops that licences in force cover in it, and its sum of cells, those that they cover.
#[derive(Clone, Copy)]
pub struct Holding {
    pub number: u16,
    pub weight: u32,
    pub population: People,
    pub covered: MhzPops,
    pub cells: Cells,
}

// The blocks of an area: whole ones, and the value v and the size M where it is partial, else 0.
#[derive(Clone, Copy, Debug, PartialEq, Eq)]
pub struct AreaBlocks {
    pub whole: u64,
    pub value: Weighted,
    pub size: Weighted,
}

// The MHz-pops and the cells that licences in force cover in an area. Each licence over a cell counts its people once for each MHz of its
// width, and the cell once.
#[derive(Clone, Copy, Debug, PartialEq, Eq)]
pub struct CoverageSums {
    pub mhz_pops: MhzPops,
    pub cells: Cells,
}

// The areas of a map: the first count of areas, with their c, and the first count of stands, with where their rows stand, so that
// the cells of one area are read without the others.
// Kept as two arrays with a count: the engine has no heap, and an ArrayVec is not copied as this is; a proposal is made of the areas alone.
#[derive(Clone, Copy)]
pub struct Holdings {
    pub count: usize,
    pub areas: [Holding; 32],
    pub stands: [Area; 32],
    pub ghost few: { count ≤ 32 },
}

impl Holding {
    // What stands at the entries past the areas of a map.
    pub const NONE: Holding = Holding {
        number: 0,
        weight: 0,
        population: People(0),
        covered: MhzPops(0),
        cells: Cells(0),
    };

    // The blocks of the area: none where its weight or population is outside the map's limits, as the population could be 0 there and
    // the products above the largest u64. No area of an accepted map is outside them.
    pub fn blocks(self) -> AreaBlocks
        ensures { result ≡ cond (in_limits self) (blocks_of self) no_blocks }
    {
        if self.in_limits() {
            self.blocks_within()
        } else {
            AreaBlocks::NONE
        }
    }

    // Whether the weight and the population are within the map's limits.
    #[tactic(auto, unfolding(crate::specs::Limits::in_limits))]
    fn in_limits(self) -> bool
        ensures { result ≡ in_limits self }
    {
        (1..=65535).contains(&self.weight) && (1..=40000000).contains(&self.population.0)
    }

    // The blocks of an area within the limits: a block is 100 MHz over all its people, and 99 of them round up.
    fn blocks_within(self) -> AreaBlocks
        requires { Limits self }
        ensures { result ≡ blocks_of self }
    {
        let block = self.population.mhz_pops(100);
        let nearly = self.population.mhz_pops(99);
        let whole = self.covered.0 / block.0;
        let rest = MhzPops(self.covered.0 % block.0);
        if nearly <= rest {
            return AreaBlocks {
                whole: whole + 1,
                ..AreaBlocks::NONE
            };
        }
        if rest.0 == 0 {
            return AreaBlocks {
                whole,
                ..AreaBlocks::NONE
            };
        }
        AreaBlocks {
            whole,
            value: rest.weighted(self.weight),
            size: self.population.weighted(100, self.weight),
        }
    }
}

impl AreaBlocks {
    // Neither whole blocks nor a part of one.
    const NONE: AreaBlocks = AreaBlocks {
        whole: 0,
        value: Weighted(0),
        size: Weighted(0),
    };
}

impl CoverageSums {
    // What is covered in no area.
    const NONE: CoverageSums = CoverageSums {
        mhz_pops: MhzPops(0),
        cells: Cells(0),
    };
}

// c and the sum of cells of an area.
impl From<Holding> for CoverageSums {
    ghost from_gives = { λ h s. s ≡ sums_of_holding h };

    fn from(h: Holding) -> CoverageSums {
        CoverageSums {
            mhz_pops: h.covered,
            cells: h.cells,
        }
    }
}

impl Holdings {
    // The areas with their c.
    pub fn areas(&self) -> &[Holding]
        ensures { result.now ≡ take self.now.count self.now.areas }
    {
        &self.areas[..self.count]
    }
}

// c and the sum of cells of an area by what one walk counted: the licences that always cover it, since they have the whole area, count all
// its people and cells; the boxes of the others count those under them.
fn sums_of(counts: Counts, always: Naming) -> CoverageSums
    ensures { result ≡ sums_by always counts }
{
    CoverageSums {
        mhz_pops: counts
            .people
            .mhz_pops(always.width)
            .plus(counts.boxed_mhz_pops),
        cells: counts.cells.times(always.licences).plus(counts.boxed_cells),
    }
}

// An area with its c and its sum of cells.
fn holding_of(a: CountedArea, register: Register) -> Holding
    ensures { HoldingDone (in_force register.places) a result }
{
    let area = a.area;
    let sums = sums_of(a.counts, register.naming(area.number));
    Holding {
        number: area.number,
        weight: area.weight,
        population: area.population,
        covered: sums.mhz_pops,
        cells: sums.cells,
    }
}

// The area with a number, if the map has it, with its c and its sum of cells.
fn find_holding(map: &[u8], register: Register, number: u16) -> Result<Option<Holding>, Fault>
    ensures { sought_means result ≡ seek (holding_of (in_force register.places)) number (read_map map.now) }
{
    let boxes = register.boxes();
    match map::parts::find(map, number, &boxes)? {
        None => Ok(None),
        Some(a) => Ok(Some(holding_of(a, register))),
    }
}

// c and the sum of cells of the area with a number: zeros for a number that the map lacks.
pub fn coverage(map: &[u8], register: Register, number: u16) -> Result<CoverageSums, Fault>
    ensures { answer_of result ≡ coverage_at number (in_force register.places) (read_map map.now) }
{
    match find_holding(map, register, number)? {
        None => Ok(CoverageSums::NONE),
        Some(h) => Ok(CoverageSums::from(h)),
    }
}

// The blocks of the area with a number: zeros for a number that the map lacks.
pub fn blocks(map: &[u8], register: Register, number: u16) -> Result<AreaBlocks, Fault>
    ensures { answer_of result ≡ blocks_at number (in_force register.places) (read_map map.now) }
{
    match find_holding(map, register, number)? {
        None => Ok(AreaBlocks::NONE),
        Some(h) => Ok(h.blocks()),
    }
}
