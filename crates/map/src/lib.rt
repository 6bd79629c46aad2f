// The map (document 01, "The map" and refusals 1 to 5). The ways in are check, look_up and rows_of; the modules fields, parts and
// rows serve the crates above.
#![tactic(auto)]

pub mod fields;
pub mod head;
pub mod parts;
pub mod rows;

ghost use Rattle.std.specs.Prelude.{◌≡◌};
ghost use Rattle.map.specs.Format.{read_map};
ghost use Rattle.map.specs.Answers.{fault_number, checked_number, number_of, sought_means, look_up, part_of};

use boxes::Boxes;
use units::People;

// Why a map is refused (document 01, "Refused by the input").
#[derive(Clone, Copy, Debug, PartialEq, Eq)]
pub enum Fault {
    // The map ends before or inside a field.
    Ends = 1,
    // A field outside its limits, or a bit past the last column.
    Limit = 2,
    // Bytes after the last area.
    Extra = 3,
    // An area's number is not above the one before.
    Order = 4,
    // A population of 0 or above 40,000,000.
    Population = 5,
}

// Document 01's number of the refusal.
impl From<Fault> for u32 {
    ghost from_gives = { λ f n. n ≡ fault_number f };

    fn from(f: Fault) -> u32 {
        f as u32
    }
}

// The head of an area, and where its rows stand: the bytes from start to before end.
// Kept with the head's fields in it: they are open to callers, who may make any, where a Head's own fact says that its sizes are few.
#[derive(Clone, Copy)]
pub struct Area {
    pub number: u16,
    pub weight: u32,
    pub rows: usize,
    pub columns: usize,
    pub population: People,
    pub start: usize,
    pub end: usize,
}

// A cell: its people, and the point that stands for them in hundredths of an arc second.
#[derive(Clone, Copy)]
pub struct Cell {
    pub people: u32,
    pub latitude: i32,
    pub longitude: i32,
}

// Whether a map is accepted, or why not.
pub fn check(map: &[u8]) -> Result<(), Fault>
    ensures { checked_number result ≡ number_of (read_map map.now) }
{
    look_up(map, 0)?;
    Ok(())
}

// The area with a number, in a map that is checked whole.
pub fn look_up(map: &[u8], number: u16) -> Result<Option<Area>, Fault>
    ensures { sought_means result ≡ look_up number (read_map map.now) }
{
    let none = Boxes::NONE;
    let found = parts::find(map, number, &none)?;
    Ok(found.map(|counted| counted.area))
}

// The part of the map that holds an area's rows, first bit map to last cell: empty if the map lacks the number or is refused.
pub fn rows_of(map: &[u8], number: u16) -> &[u8]
    ensures { result.now ≡ part_of map.now number (read_map map.now) }
{
    match look_up(map, number) {
        Ok(Some(a)) => &map[a.start..a.end],
        Ok(None) => &map[..0],
        Err(_) => &map[..0],
    }
}
