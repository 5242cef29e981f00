// Big-endian fields of 16 and 32 bits, read from and written to a place of a lent slice, and bytes copied to one. Every
// slice and every place is taken: where the bytes are not there, the answer is the refusal and nothing is touched. A read
// is told the area of the frame that it is in.
ghost use Rattle.std.specs.Prelude.{◌≡◌, [], ◌∷◌, ◌-◌, ◌≤◌, ◌<◌, length};
ghost use Rattle.base.specs.Bytes.{number};
ghost use Rattle.base.specs.Said.{after, done, within};
ghost use Rattle.base.specs.Answer.{said};
ghost use Rattle.base.specs.Field.{laid, read_bytes, read_field, write_bytes, write_field};

use crate::error::{Area, TpmError};

// How many of len bytes stand at a place and behind it: the library's method under the name that docs/ has, as be16 and be32 are.
pub fn left(len: usize, place: usize) -> usize
    ensures { result ≡ len - place }
{
    len.saturating_sub(place)
}

// The number that two bytes stand for.
#[tactic(auto, unfolding(crate::specs::Bytes::number))]
pub fn be16(a: u8, b: u8) -> u16
    ensures { result ≡ number (a ∷ b ∷ []) }
{
    u16::from_be_bytes([a, b])
}

// The number that four bytes stand for.
#[tactic(auto, unfolding(crate::specs::Bytes::number))]
pub fn be32(a: u8, b: u8, c: u8, d: u8) -> u32
    ensures { result ≡ number (a ∷ b ∷ c ∷ d ∷ []) }
{
    u32::from_be_bytes([a, b, c, d])
}

// As many bytes as a field has, from a place on.
fn read_array<const N: usize>(area: Area, s: &[u8], place: usize) -> Result<[u8; N], TpmError>
    requires { 0 < N }
    ensures { said result ≡ within area (read_bytes N place s.now) }
{
    let left = left(s.len(), place);
    if left < N {
        return Err(TpmError::UnexpectedEnd {
            area,
            offset: place,
            needed: N,
            available: left,
        });
    }
    Ok(*s[place..].first_chunk().unwrap())
}

// A function a width, as C calls them: what both do is `read_array`, and of the writes `write_bytes`.
pub fn read_u16(area: Area, s: &[u8], place: usize) -> Result<u16, TpmError>
    ensures { said result ≡ within area (read_field 2 place s.now) }
{
    Ok(u16::from_be_bytes(read_array(area, s, place)?))
}

pub fn read_u32(area: Area, s: &[u8], place: usize) -> Result<u32, TpmError>
    ensures { said result ≡ within area (read_field 4 place s.now) }
{
    Ok(u32::from_be_bytes(read_array(area, s, place)?))
}

pub fn write_u16(s: &mut [u8], place: usize, n: u16) -> Result<(), TpmError>
    ensures answer { said result ≡ done (write_field 2 place n s.old) }
    ensures bytes { s.new ≡ after s.old (write_field 2 place n s.old) }
{
    write_bytes(s, place, &n.to_be_bytes())
}

pub fn write_u32(s: &mut [u8], place: usize, n: u32) -> Result<(), TpmError>
    ensures answer { said result ≡ done (write_field 4 place n s.old) }
    ensures bytes { s.new ≡ after s.old (write_field 4 place n s.old) }
{
    write_bytes(s, place, &n.to_be_bytes())
}

// The bytes that are copied at once.
const BLOCK: usize = 4096;

// Copies all of t to a place of s. Where t is empty the place may lie past the end, and no part is taken.
fn lay(s: &mut [u8], place: usize, t: &[u8])
    requires { length t.now ≤ length s.old - place }
    ensures { s.new ≡ laid place t.now s.old }
{
    if 0 < t.len() {
        s[place..place + t.len()].copy_from_slice(t);
    }
}

// Copies all of t to a place of s, or refuses: fields, buffers and frames are written by it. Through an array of its own the compiler sees that nothing
// overlaps, and makes one move of the two: else it tests for that first, and has a loop for the other case.
pub fn write_bytes(s: &mut [u8], place: usize, t: &[u8]) -> Result<(), TpmError>
    ensures answer { said result ≡ done (write_bytes place t.now s.old) }
    ensures bytes { s.new ≡ after s.old (write_bytes place t.now s.old) }
{
    let left = left(s.len(), place);
    let needed = t.len();
    if left < needed {
        return Err(TpmError::BufferOverflow {
            area: Area::None,
            offset: place,
            needed,
            available: left,
        });
    }
    if BLOCK < needed {
        lay(s, place, t);
        return Ok(());
    }
    let mut block = [0; BLOCK];
    lay(&mut block, 0, t);
    lay(s, place, &block[..needed]);
    Ok(())
}
