// What the crates above read of coverage: all areas of a map with their c and where their rows stand. No way in for users.
ghost use Rattle.std.specs.Prelude.{◌≤◌};
ghost use Rattle.map.specs.Format.{read_rest, read_map};
ghost use Rattle.register.specs.Licences.{in_force};
ghost use Rattle.coverage.specs.Holdings.{HoldingsDone};

use super::{Holding, Holdings};
use map::{Area, Fault};
use register::Register;
use units::People;

// What stands at the entries past the areas of a map.
const NO_AREA: Area = Area {
    number: 0,
    weight: 0,
    rows: 0,
    columns: 0,
    population: People(0),
    start: 0,
    end: 0,
};

// The areas of a map with their c and where their rows stand, in one pass over the map.
pub fn holdings_in(map: &[u8], register: Register) -> Result<Holdings, Fault>
    ensures { HoldingsDone (in_force register.places) (read_map map.now) result }
{
    let (count, first) = map::fields::field::<1>(map, 0, 1, 32)?;
    holdings_from(map, register, count as usize, first)
}

// The areas of a map with their c and where their rows stand, from the first one's position to the end of the map.
// Kept beside map's own walk over areas: that one seeks one area and this one keeps all, and a closure over both would carry both contracts.
fn holdings_from(
    map: &[u8],
    register: Register,
    count: usize,
    first: usize,
) -> Result<Holdings, Fault>
    requires { count ≤ 32 }
    ensures { HoldingsDone (in_force register.places) (read_rest map.now count first) result }
{
    let boxes = register.boxes();
    let mut areas = [Holding::NONE; 32];
    let mut stands = [NO_AREA; 32];
    let mut before: u16 = 0;
    let mut at = first;
    for k in 0..count {
        let a = map::parts::area_at(map, before, at, &boxes)?;
        let area = a.area;
        areas[k] = super::holding_of(a, register);
        stands[k] = area;
        before = area.number;
        at = area.end;
    }
    if at == map.len() {
        Ok(Holdings {
            count,
            areas,
            stands,
        })
    } else {
        Err(Fault::Extra)
    }
}
