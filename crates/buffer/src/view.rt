// The TPM2B view, over the caller's bytes. A capacity is the most bytes that a size may tell of. A range read says what is refused and
// why; the part read of the same name is then empty.
ghost use Rattle.std.specs.Prelude.{◌≡◌, length};
ghost use Rattle.std.specs.Borrow.{sem};
ghost use Rattle.base.specs.Answer.{said, said_range};
ghost use Rattle.base.specs.Parts.{IsPart, IsPartMut, LendsPart, behind, up_to};
ghost use Rattle.base.specs.Said.{done};
ghost use Rattle.buffer.specs.View.{data_range, is_empty, prefix, read_size, whole};

use base::error::{Area, TpmError};
use base::field::read_u16;
use base::part::{Span, behind, part, part_mut};

// The size field, not judged.
#[tactic(auto, using(crate::proofs::Views::size_field))]
pub fn size(s: &[u8]) -> Result<usize, TpmError>
    ensures { said result ≡ read_size s.now }
{
    Ok(read_u16(Area::None, s, 0)? as usize)
}

// How many bytes the TPM2B at the start of s takes.
#[tactic(auto, using(crate::proofs::Views::sized), unfolding(crate::specs::View::prefix))]
pub fn validate_prefix(capacity: usize, s: &[u8]) -> Result<usize, TpmError>
    ensures { said result ≡ prefix capacity s.now }
{
    let size = size(s)?;
    if capacity < size {
        return Err(TpmError::TooManyBytes {
            area: Area::None,
            offset: 0,
            limit: capacity,
            actual: size,
        });
    }
    let there = s.len() - 2;
    if there < size {
        return Err(TpmError::UnexpectedEnd {
            area: Area::None,
            offset: 2,
            needed: size,
            available: there,
        });
    }
    Ok(2 + size)
}

// Whether s is a TPM2B and nothing else.
#[tactic(auto, unfolding(crate::specs::View::whole))]
pub fn validate(capacity: usize, s: &[u8]) -> Result<(), TpmError>
    ensures { said result ≡ done (whole capacity s.now) }
{
    let n = validate_prefix(capacity, s)?;
    if n < s.len() {
        return Err(TpmError::TrailingData {
            area: Area::None,
            offset: n,
            actual: s.len() - n,
        });
    }
    Ok(())
}

// The view of s whole, by its start and its end.
#[tactic(auto, using(crate::proofs::Views::whole_range))]
pub fn cast_range(capacity: usize, s: &[u8]) -> Result<Span, TpmError>
    ensures { said_range result ≡ up_to (whole capacity s.now) }
{
    validate(capacity, s)?;
    Ok(Span {
        from: 0,
        to: s.len(),
    })
}

// The view of the TPM2B at the start of s.
pub fn cast_prefix_range(capacity: usize, s: &[u8]) -> Result<Span, TpmError>
    ensures { said_range result ≡ up_to (prefix capacity s.now) }
{
    let n = validate_prefix(capacity, s)?;
    Ok(Span { from: 0, to: n })
}

// What stands behind the TPM2B at the start of s.
fn prefix_tail_range(capacity: usize, s: &[u8]) -> Result<Span, TpmError>
    ensures { said_range result ≡ behind (up_to (prefix capacity s.now)) (length s.now) }
{
    behind(cast_prefix_range(capacity, s), s.len())
}

// Where the data stands: all behind the length field, which is not judged.
#[tactic(auto, unfolding(crate::specs::View::data_range))]
pub fn data_range(s: &[u8]) -> Result<Span, TpmError>
    ensures { said_range result ≡ data_range s.now }
{
    size(s)?;
    Ok(Span {
        from: 2,
        to: s.len(),
    })
}

// ---- the parts of these ranges

pub fn cast(capacity: usize, s: &[u8]) -> &[u8]
    ensures { IsPart (up_to (whole capacity s.now)) s.entry result }
{
    part(s, cast_range(capacity, s))
}

pub fn cast_prefix(capacity: usize, s: &[u8]) -> &[u8]
    ensures { IsPart (up_to (prefix capacity s.now)) s.entry result }
{
    part(s, cast_prefix_range(capacity, s))
}

pub fn cast_prefix_tail(capacity: usize, s: &[u8]) -> &[u8]
    ensures { IsPart (behind (up_to (prefix capacity s.now)) (length s.now)) s.entry result }
{
    part(s, prefix_tail_range(capacity, s))
}

pub fn data(s: &[u8]) -> &[u8]
    ensures { IsPart (data_range s.now) s.entry result }
{
    part(s, data_range(s))
}

pub fn cast_mut(capacity: usize, s: &mut [u8]) -> &mut [u8]
    ensures* writes_back { sem 𝓛 (LendsPart (up_to (whole capacity s.old)) s.entry result) }
    ensures part { IsPartMut (up_to (whole capacity s.old)) s.entry result }
{
    let range = cast_range(capacity, s);
    part_mut(s, range)
}

pub fn cast_prefix_mut(capacity: usize, s: &mut [u8]) -> &mut [u8]
    ensures* writes_back { sem 𝓛 (LendsPart (up_to (prefix capacity s.old)) s.entry result) }
    ensures part { IsPartMut (up_to (prefix capacity s.old)) s.entry result }
{
    let range = cast_prefix_range(capacity, s);
    part_mut(s, range)
}

pub fn cast_prefix_tail_mut(capacity: usize, s: &mut [u8]) -> &mut [u8]
    ensures* writes_back { sem 𝓛 (LendsPart (behind (up_to (prefix capacity s.old)) (length s.old)) s.entry result) }
    ensures part { IsPartMut (behind (up_to (prefix capacity s.old)) (length s.old)) s.entry result }
{
    let range = prefix_tail_range(capacity, s);
    part_mut(s, range)
}

pub fn data_mut(s: &mut [u8]) -> &mut [u8]
    ensures* writes_back { sem 𝓛 (LendsPart (data_range s.old) s.entry result) }
    ensures part { IsPartMut (data_range s.old) s.entry result }
{
    let range = data_range(s);
    part_mut(s, range)
}

// Whether the size field says 0.
#[tactic(auto, unfolding(crate::specs::View::is_empty))]
pub fn is_empty(s: &[u8]) -> Result<bool, TpmError>
    ensures { said result ≡ is_empty s.now }
{
    Ok(size(s)? == 0)
}

// The bytes that the view has.
pub fn len(s: &[u8]) -> usize
    ensures { result ≡ length s.now }
{
    s.len()
}
