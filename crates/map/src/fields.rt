// Fields of the map's bytes: each is its value with the position after it, or a fault.
// Kept as bytes and a position, here and in parts: specs/Format.antt reads the map by position, so each clause would take a cursor of both apart.
ghost use Rattle.std.specs.Prelude.{◌≡◌, ◌+◌, ◌≤◌, length, nat_le, IfOk};
ghost use Rattle.units.specs.Coordinates.{within_z};
ghost use Rattle.map.specs.Format.{number_at, unsigned_field, i32_field, size_field, number_field};
ghost use Rattle.map.specs.Answers.{read_means};

use super::Fault;

// Whether n bytes stand at a position, which may be any.
pub fn has_room(s: &[u8], at: usize, n: usize) -> bool
    ensures { result ≡ nat_le (at + n) (length s.now) }
{
    at <= s.len() && n <= s.len() - at
}

// The number in the N bytes at a position, lowest byte first.
pub(crate) fn number_at<const N: usize>(s: &[u8], at: usize) -> u32
    requires room { at + N ≤ length s.now }
    requires few { N ≤ 4 }
    ensures { result ≡ number_at s.now at N }
{
    let mut bytes = [0u8; 4];
    bytes[..N].copy_from_slice(&s[at..at + N]);
    u32::from_le_bytes(bytes)
}

// A field of N bytes without a sign.
#[tactic(auto, unfolding(crate::specs::Format::field))]
pub fn field<const N: usize>(
    s: &[u8],
    at: usize,
    low: u32,
    high: u32,
) -> Result<(u32, usize), Fault>
    requires { N ≤ 4 }
    ensures value { read_means result ≡ unsigned_field s.now at N low high }
    ensures limit { IfOk result (λ r. r.0 ≤ high) }
{
    if !has_room(s, at, N) {
        return Err(Fault::Ends);
    }
    let v = number_at::<N>(s, at);
    if (low..=high).contains(&v) {
        Ok((v, at + N))
    } else {
        Err(Fault::Limit)
    }
}

// A field of four bytes with a sign.
#[tactic(auto, using(crate::proofs::SignedLaws::signed_is), unfolding(crate::specs::Format::field))]
pub fn i32_field(s: &[u8], at: usize, low: i32, high: i32) -> Result<(i32, usize), Fault>
    ensures { read_means result ≡ i32_field s.now at (within_z low high) }
{
    if !has_room(s, at, 4) {
        return Err(Fault::Ends);
    }
    let v = number_at::<4>(s, at).cast_signed();
    if units::in_range(low, high, v) {
        Ok((v, at + 4))
    } else {
        Err(Fault::Limit)
    }
}

// Rows, or columns.
#[tactic(auto, unfolding(crate::specs::Format::size_field))]
pub fn size_field(s: &[u8], at: usize) -> Result<(u32, usize), Fault>
    ensures value { read_means result ≡ size_field s.now at }
    ensures limit { IfOk result (λ r. r.0 ≤ 128) }
{
    field::<1>(s, at, 1, 128)
}

// An area's number, above the one before.
#[tactic(auto, unfolding(crate::specs::Format::number_field))]
pub fn number_field(s: &[u8], before: u16, at: usize) -> Result<(u32, usize), Fault>
    ensures value { read_means result ≡ number_field s.now before at }
    ensures limit { IfOk result (λ r. r.0 ≤ 416) }
{
    let (n, next) = field::<2>(s, at, 1, 416)?;
    if u32::from(before) >= n {
        return Err(Fault::Order);
    }
    Ok((n, next))
}
