// What the crates above read of a map from a position: places, and areas with what is counted over their cells. No way in for users.
// Kept as bytes and a position, here and in fields: specs/Format.antt reads the map by position, so each clause would take a cursor of both apart.
ghost use Rattle.std.specs.Prelude.{◌≡◌, ℕ, ◌+◌, ◌-◌, ◌*◌, ◌/◌, ◌<◌, ◌≤◌, List, [], length, IfOk, IsErrAnd};
ghost use Rattle.boxes.specs.Boxes.{edges_of};
ghost use Rattle.map.specs.Reading.{bad, map_read};
ghost use Rattle.map.specs.Cells.{read_cells};
ghost use Rattle.map.specs.Format.{bit_at, clear_from, read_cell, read_place, read_row, read_rows, read_head, read_body, read_area};
ghost use Rattle.map.specs.Format.{read_rest, read_map};
ghost use Rattle.map.specs.Counting.{cell_counts, row_counts, grid_counts, capped_sum, Small};
ghost use Rattle.map.specs.Answers.{fault_number, read_means, place_means, head_of, area_means, counted_area, counted_for};
ghost use Rattle.map.specs.Answers.{sought_means, seek};

use super::head::Head;
use super::{Area, Cell, Fault, fields, rows};
use boxes::Boxes;
use units::{Amount, Cells, MhzPops, People};

// What one walk over cells counts: their people and their number, and of those under boxes the MHz-pops and the number, once for each box.
#[derive(Clone, Copy)]
pub struct Counts {
    pub people: People,
    pub cells: Cells,
    pub boxed_mhz_pops: MhzPops,
    pub boxed_cells: Cells,
}

// An area with what one walk over its cells counted.
#[derive(Clone, Copy)]
pub struct CountedArea {
    pub area: Area,
    pub counts: Counts,
}

impl Counts {
    // Nothing is counted yet.
    const NONE: Counts = Counts {
        people: People(0),
        cells: Cells(0),
        boxed_mhz_pops: MhzPops(0),
        boxed_cells: Cells(0),
    };

    // What two parts come to together; each sum stops at the largest u64.
    fn plus(self, other: Self) -> Self
        ensures { result ≡ capped_sum self other }
    {
        Counts {
            people: self.people.plus(other.people),
            cells: self.cells.plus(other.cells),
            boxed_mhz_pops: self.boxed_mhz_pops.plus(other.boxed_mhz_pops),
            boxed_cells: self.boxed_cells.plus(other.boxed_cells),
        }
    }
}

// The cell at a position, with the position after it.
#[tactic(auto, unfolding(crate::specs::Format::read_cell))]
fn cell_at(s: &[u8], at: usize) -> Result<(Cell, usize), Fault>
    ensures { read_means result ≡ read_cell s.now at }
{
    let (people, a) = fields::field::<4>(s, at, 0, 1000000)?;
    let (latitude, b) = fields::i32_field(s, a, -32400000, 32400000)?;
    let (longitude, e) = fields::i32_field(s, b, -64800000, 64800000)?;
    let cell = Cell {
        people,
        latitude,
        longitude,
    };
    Ok((cell, e))
}

// A column's bit of the bit map that starts at a position.
#[tactic(auto, unfolding(crate::specs::Format::bit_at))]
fn bit(s: &[u8], bits: usize, j: usize) -> bool
    requires { bits + j / 8 < length s.now }
    ensures { result ≡ bit_at s.now bits j }
{
    (u32::from(s[bits + j / 8]) >> (j % 8)) % 2 == 1
}

// What stands at column j of a row whose bit map starts at bits, wherever that is: past the map's end there is no cell.
#[tactic(auto, using(crate::proofs::FieldLaws::bit_past), unfolding(crate::specs::Format::read_place))]
pub fn place(s: &[u8], bits: usize, j: usize, at: usize) -> Result<(Option<Cell>, usize), Fault>
    ensures { place_means result ≡ read_place s.now bits j at }
{
    if fields::has_room(s, bits, j / 8 + 1) && bit(s, bits, j) {
        let (cell, next) = cell_at(s, at)?;
        return Ok((Some(cell), next));
    }
    Ok((None, at))
}

// Whether the bits from .. to of a bit map are 0.
#[tactic(auto, using(crate::proofs::LoopLaws::clear_step), unfolding(crate::specs::Format::clear_from))]
fn clear(s: &[u8], bits: usize, from: usize, to: usize) -> bool
    requires { bits + (to + 7) / 8 ≤ length s.now }
    ensures { result ≡ clear_from s.now bits from (to - from) }
{
    for j in from..to {
        if bit(s, bits, j) {
            return false;
        }
    }
    true
}

// The first fault of n cells from a position on, in byte order, if there is one.
fn first_fault(s: &[u8], start: usize, n: usize) -> Result<(), Fault>
    ensures { (f : ℕ) → read_cells s.now n start ≡ bad f → IsErrAnd result (λ e. fault_number e ≡ f) }
{
    let mut at = start;
    for _ in 0..n {
        let (_, next) = cell_at(s, at)?;
        at = next;
    }
    Ok(())
}

// The n cells of a row that stand in the map from a position on, under no box, so whatever the widths.
fn bare_row(s: &[u8], start: usize, n: usize) -> Result<(Counts, usize), Fault>
    requires { (start + 12 * n ≤ length s.now) × (n ≤ 256) }
    ensures value { (widths : List ℕ) → read_means result ≡ map_read (cell_counts [] widths) (read_cells s.now n start) }
    ensures small { IfOk result (λ t. Small n t.0) }
{
    let people = rows::sum_row(s, start, n).ok_or(Fault::Limit)?;
    let counts = Counts {
        people: People(u64::from(people)),
        cells: Cells(n as u64),
        boxed_mhz_pops: MhzPops(0),
        boxed_cells: Cells(0),
    };
    Ok((counts, start + 12 * n))
}

// The same under boxes. The cells are taken apart into the row's arrays, so that a box is held against several cells at once.
fn boxed_row(
    s: &[u8],
    start: usize,
    n: usize,
    boxes: &Boxes,
    cells: &mut boxes::Row,
) -> Result<(Counts, usize), Fault>
    requires { (start + 12 * n ≤ length s.now) × (n ≤ 256) }
    ensures value { read_means result ≡ map_read (cell_counts (edges_of boxes.now) boxes.now.widths) (read_cells s.now n start) }
    ensures small { IfOk result (λ t. Small n t.0) }
{
    rows::take_row(s, start, n, cells);
    let row = boxes::count_row(boxes, cells).ok_or(Fault::Limit)?;
    let counts = Counts {
        people: People(u64::from(row.people)),
        cells: Cells(n as u64),
        boxed_mhz_pops: MhzPops(row.boxed_mhz_pops),
        boxed_cells: Cells(row.boxed_cells),
    };
    Ok((counts, start + 12 * n))
}

// A row: its bit map, which tells how many cells there are, then its cells. What the cells' arrays hold before counts for nothing.
fn row(
    s: &[u8],
    h: Head,
    at: usize,
    boxes: &Boxes,
    cells: &mut boxes::Row,
) -> Result<(Counts, usize), Fault>
    ensures value { read_means result
        ≡ map_read (row_counts (edges_of boxes.now) boxes.now.widths) (read_row s.now h.columns at) }
    ensures small { IfOk result (λ t. Small h.columns t.0) }
{
    let w = (h.columns + 7) / 8;
    if !fields::has_room(s, at, w) {
        return Err(Fault::Ends);
    }
    if !clear(s, at, h.columns, w * 8) {
        return Err(Fault::Limit);
    }
    let n = rows::cells_in(s, at, w);
    let start = at + w;
    if !fields::has_room(s, start, 12 * n) {
        first_fault(s, start, n)?;
        return Err(Fault::Ends);
    }
    if boxes.count == 0 {
        return bare_row(s, start, n);
    }
    boxed_row(s, start, n, boxes, cells)
}

// The walk over an area's rows, one row a turn: its cells and their people, and the cells and the MHz-pops under the boxes.
fn walk(s: &[u8], h: Head, start: usize, boxes: &Boxes) -> Result<(Counts, usize), Fault>
    ensures { read_means result
        ≡ map_read (grid_counts (edges_of boxes.now) boxes.now.widths) (read_rows s.now h.columns h.rows start) }
{
    let mut cells = boxes::Row::EMPTY;
    let mut at = start;
    let mut sum = Counts::NONE;
    for _ in 0..h.rows {
        let (counts, next) = row(s, h, at, boxes, &mut cells)?;
        sum = sum.plus(counts);
        at = next;
    }
    Ok((sum, at))
}

// The head at a position, with a number above the one before.
#[tactic(auto, unfolding(crate::specs::Format::read_head))]
fn head_at(s: &[u8], before: u16, at: usize) -> Result<(Head, usize), Fault>
    ensures { map_read head_of (read_means result) ≡ read_head s.now before at }
{
    let (number, a) = fields::number_field(s, before, at)?;
    let (weight, b) = fields::field::<4>(s, a, 1, 65535)?;
    let (rows, d) = fields::size_field(s, b)?;
    let (columns, e) = fields::size_field(s, d)?;
    let head = Head {
        number: number as u16,
        weight,
        rows: rows as usize,
        columns: columns as usize,
    };
    Ok((head, e))
}

// The area whose head was read: its rows from start, and what is counted over them. Its people are its population.
fn area_from(s: &[u8], h: Head, start: usize, boxes: &Boxes) -> Result<CountedArea, Fault>
    ensures { area_means result
        ≡ map_read (counted_area (edges_of boxes.now) boxes.now.widths) (read_body s.now (head_of h) start) }
{
    let (counts, end) = walk(s, h, start, boxes)?;
    let population = counts.people;
    if !(People(1)..=People(40000000)).contains(&population) {
        return Err(Fault::Population);
    }
    let area = Area {
        number: h.number,
        weight: h.weight,
        rows: h.rows,
        columns: h.columns,
        population,
        start,
        end,
    };
    Ok(CountedArea { area, counts })
}

// The area at a position, with a number above the one before, counted under boxes.
#[tactic(auto, unfolding(crate::specs::Format::read_area))]
pub fn area_at(s: &[u8], before: u16, at: usize, boxes: &Boxes) -> Result<CountedArea, Fault>
    ensures { area_means result ≡ map_read (counted_area (edges_of boxes.now) boxes.now.widths) (read_area s.now before at) }
{
    let (h, start) = head_at(s, before, at)?;
    area_from(s, h, start, boxes)
}

// The area at a position, counted under boxes only if it has the number that is sought, so that no other area costs more than its check.
fn area_for(
    s: &[u8],
    before: u16,
    at: usize,
    number: u16,
    boxes: &Boxes,
) -> Result<CountedArea, Fault>
    ensures { area_means result
        ≡ map_read (counted_for number (edges_of boxes.now) boxes.now.widths) (read_area s.now before at) }
{
    let (h, start) = head_at(s, before, at)?;
    if h.number == number {
        return area_from(s, h, start, boxes);
    }
    let none = Boxes::NONE;
    area_from(s, h, start, &none)
}

// The areas of a map, from the first one's position to the end of the map.
fn areas(
    map: &[u8],
    number: u16,
    boxes: &Boxes,
    count: u32,
    first: usize,
) -> Result<Option<CountedArea>, Fault>
    requires { count ≤ 32 }
    ensures { sought_means result
        ≡ seek (counted_area (edges_of boxes.now) boxes.now.widths) number (read_rest map.now count first) }
{
    let mut at = first;
    let mut before: u16 = 0;
    let mut found = None;
    for _ in 0..count {
        let counted = area_for(map, before, at, number, boxes)?;
        let area = counted.area;
        found = found.or((area.number == number).then_some(counted));
        before = area.number;
        at = area.end;
    }
    if at == map.len() {
        Ok(found)
    } else {
        Err(Fault::Extra)
    }
}

// The area with a number, counted under boxes, in a map that is checked whole.
#[tactic(auto, unfolding(crate::specs::Format::read_map, crate::specs::Answers::seek))]
pub fn find(map: &[u8], number: u16, boxes: &Boxes) -> Result<Option<CountedArea>, Fault>
    ensures { sought_means result ≡ seek (counted_area (edges_of boxes.now) boxes.now.widths) number (read_map map.now) }
{
    let (count, first) = fields::field::<1>(map, 0, 1, 32)?;
    areas(map, number, boxes, count, first)
}
