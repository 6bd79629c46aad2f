// An area's cells by place: people, cells and covered cells, decoded once from the rows of a map.
#![tactic(auto)]

ghost use Rattle.std.specs.Prelude.{◌≡◌, ◌*◌, ◌≤◌, ltb, length};
ghost use Rattle.map.specs.Format.{read_place, read_row, read_rows};
ghost use Rattle.boxes.specs.Boxes.{edges_of};
ghost use Rattle.places.specs.Places.{IsGood, LaidOut};
ghost use Rattle.places.specs.Rows.{PlaceShown, RowLaid};

use boxes::Boxes;
use map::Area;

// What is laid for a place: its people, 1 if it has a cell, and 1 if a licence covers the cell.
// Kept as the three numbers that are written, and no Option of a cell, which each list would take apart again.
#[derive(Clone, Copy)]
struct Shown {
    people: u32,
    cell: u8,
    covered: u8,
}

impl Shown {
    // What is laid for a place without a cell.
    const NONE: Shown = Shown {
        people: 0,
        cell: 0,
        covered: 0,
    };
}

// What is laid for the place at column j of a row whose bit map starts at bits, and the position after what stands there. A cell is
// covered by the area's own licences, always of them, and by those whose boxes cover it.
fn show(map: &[u8], bits: usize, j: usize, at: usize, always: u32, boxes: &Boxes) -> (Shown, usize)
    ensures { PlaceShown (read_place map.now bits j at) always (edges_of boxes.now) result }
{
    match map::parts::place(map, bits, j, at) {
        Err(_) => (Shown::NONE, at),
        Ok((None, next)) => (Shown::NONE, next),
        Ok((Some(cell), next)) => {
            let covered = 0 < always || 0 < boxes.covering(cell.latitude, cell.longitude);
            let shown = Shown {
                people: cell.people,
                cell: 1,
                covered: u8::from(covered),
            };
            (shown, next)
        }
    }
}

// Lays the row at a position from the first place of the three lists onward, and hands back the position after the row.
// Kept as three parameters, here and in lay_out: of a struct of three lent parts a contract reads `lists.exit.1.1.0.now` for `mask.new`.
// Kept as a clause, here and in lay_out: callers may make an Area of any sizes, and only a Head's are known to be few.
// Kept as two parameters: `boxes` is lent and `always` counted apart, and a struct of both would be taken apart by the definitions.
fn lay_row(
    map: &[u8],
    columns: usize,
    at: usize,
    always: u32,
    boxes: &Boxes,
    people: &mut [u32],
    cells: &mut [u8],
    mask: &mut [u8],
) -> usize
    requires { IsGood (read_row map.now columns at) × (columns ≤ 256)
        × (columns ≤ length people.old) × (columns ≤ length cells.old) × (columns ≤ length mask.old) }
    ensures { RowLaid (read_row map.now columns at) columns always (edges_of boxes.now)
        (record { people = people.old; cells = cells.old; mask = mask.old })
        (record { people = people.new; cells = cells.new; mask = mask.new }) result }
{
    let mut next = at + (columns + 7) / 8;
    for j in 0..columns {
        let (shown, after) = show(map, at, j, next, always, boxes);
        people[j] = shown.people;
        cells[j] = shown.cell;
        mask[j] = shown.covered;
        next = after;
    }
    next
}

// Lays an area's rows into three lists, one element for each place, row by row: the people of the place, 1 if it has a cell, and 1
// if a licence covers the cell; always licences have the whole area. Each row goes into the parts of the lists from its first place
// on. The rows must have been read before, so they are walked here once and without a test of the whole.
pub fn lay_out(
    map: &[u8],
    area: &Area,
    always: u32,
    boxes: &Boxes,
    people: &mut [u32],
    cells: &mut [u8],
    mask: &mut [u8],
)
    requires { IsGood (read_rows map.now area.now.columns area.now.rows area.now.start) × (area.now.columns ≤ 256)
        × (area.now.rows ≤ 256) × (area.now.rows * area.now.columns ≤ length people.old)
        × (area.now.rows * area.now.columns ≤ length cells.old) × (area.now.rows * area.now.columns ≤ length mask.old) }
    ensures { LaidOut (read_rows map.now area.now.columns area.now.rows area.now.start) area.now.columns area.now.rows always
        (edges_of boxes.now) (record { people = people.old; cells = cells.old; mask = mask.old })
        (record { people = people.new; cells = cells.new; mask = mask.new }) }
{
    let mut from = area.start;
    for r in 0..area.rows {
        let at = r * area.columns;
        from = lay_row(
            map,
            area.columns,
            from,
            always,
            boxes,
            &mut people[at..],
            &mut cells[at..],
            &mut mask[at..],
        );
    }
}
