// The cells of a row, which stand one after another and are read as one part of the map: index loops with no early exit, so that they
// take several cells at once. Serves the walks over rows and the crates above. No way in for users.
ghost use Rattle.std.specs.Prelude.{◌≡◌, ◌+◌, ◌*◌, ◌≤◌, length, count_ones, cond, Some, None};
ghost use Rattle.lists.specs.Sums.{total};
ghost use Rattle.map.specs.Cells.{bits_from, cell_at, cell_within, cells_within, cells_from, RowTaken};

use super::Cell;
use super::fields::number_at;
use boxes::Row;

// How many bits stand in the w bytes at a position: a row has so many cells. They are counted in u32, so that four bytes are taken at a
// time.
pub fn cells_in(s: &[u8], at: usize, w: usize) -> usize
    requires { (at + w ≤ length s.now) × (w ≤ 32) }
    ensures { (result ≡ bits_from s.now at 0 (w * 8)) × (result ≤ 8 * w) }
{
    let mut n: u32 = 0;
    for b in &s[at..at + w] {
        n += b.count_ones();
    }
    n as usize
}

// The cell whose 12 bytes stand at a position, whatever its fields are.
#[tactic(auto, using(crate::proofs::SignedLaws::signed_is), unfolding(crate::specs::Cells::cell_at))]
fn cell_at(s: &[u8], at: usize) -> Cell
    requires { at + 12 ≤ length s.now }
    ensures { result ≡ cell_at s.now at }
{
    Cell {
        people: number_at::<4>(s, at),
        latitude: number_at::<4>(s, at + 4).cast_signed(),
        longitude: number_at::<4>(s, at + 8).cast_signed(),
    }
}

// Whether the fields of a cell are within their limits.
#[tactic(auto, unfolding(crate::specs::Cells::cell_within))]
fn within(cell: Cell) -> bool
    ensures { result ≡ cell_within cell }
{
    (cell.people <= 1000000)
        & units::in_range(-32400000, 32400000, cell.latitude)
        & units::in_range(-64800000, 64800000, cell.longitude)
}

// The people of the n cells from a position on, if each cell is within its limits. The sum wraps, since a value past its limits may be
// any; 256 values within them do not wrap.
// Kept as a position and a count, here, in take_row and in parts: the definitions read the map by position, and a slice would need each twice.
pub fn sum_row(s: &[u8], at: usize, n: usize) -> Option<u32>
    requires { (at + 12 * n ≤ length s.now) × (n ≤ 256) }
    ensures { result
        ≡ cond (cells_within (cells_from s.now at n)) (Some (total (λ c. c.people) (cells_from s.now at n))) None }
{
    let mut fine = true;
    let mut people: u32 = 0;
    for k in 0..n {
        let cell = cell_at(s, at + 12 * k);
        fine &= within(cell);
        people = people.wrapping_add(cell.people);
    }
    fine.then_some(people)
}

// Lays the fields of the n cells from a position on into a row, which has room for the longest.
pub fn take_row(s: &[u8], at: usize, n: usize, row: &mut Row)
    requires { (at + 12 * n ≤ length s.now) × (n ≤ 256) }
    ensures fields { RowTaken s.now at n row.new.people row.new.latitudes row.new.longitudes }
    ensures count { row.new.count ≡ n }
{
    row.count = n;
    for k in 0..n {
        let cell = cell_at(s, at + 12 * k);
        row.people[k] = cell.people;
        row.latitudes[k] = cell.latitude;
        row.longitudes[k] = cell.longitude;
    }
}
