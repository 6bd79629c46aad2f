// Document 01, "The list of demand 3": a list of calls on one register, over one map. The way in is play.
#![tactic(auto)]

ghost use Rattle.std.specs.Prelude.{ℕ, ◌≡◌, List, length};
ghost use Rattle.ledger.specs.Played.{ground_at, item_at, PlayDone};
ghost use Rattle.ledger.specs.Code.{call_means, item_means, took_over, CallDone};

use register::{GeoBox, Ground, Licence, Register};

// What comes of a list: the register after its last call, how many calls were made, and how many of them were refused.
#[derive(Clone, Copy)]
pub struct Played {
    pub register: Register,
    pub calls: usize,
    pub refused: usize,
}

// A call of the list. A grant without a width is of the full one.
#[derive(Clone, Copy, Debug, PartialEq, Eq)]
enum Call {
    Grant(u32, Ground, Option<u32>),
    Cancel(u32),
    Propose(u32),
    Footprint(u32),
}

// The ground of a grant, in the eight words of an item.
fn ground_in(item: &[u32]) -> Ground
    requires { length item.now ≡ 8 }
    ensures { result ≡ ground_at item.now 0 }
{
    if item[2] == 0 {
        return Ground::Area((item[3] % 65536) as u16);
    }
    Ground::Box(GeoBox {
        south: item[4].cast_signed(),
        north: item[5].cast_signed(),
        west: item[6].cast_signed(),
        east: item[7].cast_signed(),
    })
}

// The call in the eight words of an item, by its kind; None where no call has that kind.
fn call_in(item: &[u32]) -> Option<Call>
    requires { length item.now ≡ 8 }
    ensures { (mask table : List ℕ) → item_means result mask table ≡ item_at item.now 0 mask table }
{
    let word = item[1];
    match item[0] {
        0 => Some(Call::Grant(word, ground_in(item), None)),
        1 => Some(Call::Cancel(word)),
        2 => Some(Call::Propose(word)),
        3 => Some(Call::Footprint(word)),
        4 => Some(Call::Grant(word, ground_in(item), Some(item[3] / 65536))),
        _ => None,
    }
}

// Goes on with the register of a grant or a cancellation, and says whether that was refused.
fn take_over<E: Copy>(register: &mut Register, answer: Result<Register, E>) -> bool
    ensures { took_over register.old answer register.new result }
{
    match answer {
        Ok(next) => {
            *register = next;
            false
        }
        Err(_) => true,
    }
}

// Makes a call, and says whether it was refused. A proposal and a footprint leave the register.
fn make(call: Call, map: &[u8], register: &mut Register, mask: &mut [u8], table: &mut [u16]) -> bool
    ensures { CallDone map.now register.old (call_means call mask.old table.old)
        (record { mask = mask.old; after = mask.new; table = table.old; entries = table.new; next = register.new; refused = result }) }
{
    match call {
        Call::Grant(call_sign, ground, width) => {
            let l = Licence {
                call_sign,
                ground,
                width: width.unwrap_or(Licence::FULL_WIDTH),
            };
            take_over(register, register.grant(l))
        }
        Call::Cancel(call_sign) => take_over(register, register.cancel(call_sign)),
        Call::Propose(draw) => proposal::propose(map, *register, draw).is_err(),
        Call::Footprint(draw) => footprint::footprint(map, *register, draw, mask, table).is_err(),
    }
}

// Plays a list of calls on one register, from an empty one, over one map; every footprint is lent the same mask and table. Eight words
// are an item of the list: its kind (0 a grant without a width, 1 a cancellation, 2 a proposal, 3 a footprint, 4 a grant with a width); its
// call sign or its draw; and the ground of a grant: 0 and an area's number, by the low 16 bits of the fourth word, or else anything but 0
// and, from the fifth word on, the edges south, north, west and east. A width is what stands above those 16 bits, for both grounds.
// The list ends before the first item of another kind, which makes no call, or with the last eight words: words after those are not read.
pub fn play(map: &[u8], calls: &[u32], mask: &mut [u8], table: &mut [u16]) -> Played
    ensures { PlayDone map.now calls.now mask.old mask.new
        table.old table.new result }
{
    let mut register = Register::empty();
    let mut made: usize = 0;
    let mut refused: usize = 0;
    for item in calls.chunks_exact(8) {
        let Some(call) = call_in(item) else {
            break;
        };
        refused += usize::from(make(call, map, &mut register, mask, table));
        made += 1;
    }
    Played {
        register,
        calls: made,
        refused,
    }
}
