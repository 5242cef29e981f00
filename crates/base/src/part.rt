// Parts of lent bytes by a range that was read. Where the range is refused the part is empty, and the read says why.
ghost use Rattle.std.specs.Prelude.{◌≡◌, ◌&&◌, leb};
ghost use Rattle.std.specs.Borrow.{sem};
ghost use Rattle.base.specs.Answer.{said_range};
ghost use Rattle.base.specs.Parts.{IsPart, IsPartMut, LendsPart, behind, placed};

use crate::error::TpmError;

// A part by its start and its end.
#[repr(C)]
#[derive(Clone, Copy)]
pub struct Span {
    pub from: usize,
    pub to: usize,
}

// Whether there is such a part of so many bytes.
fn fits(from: usize, to: usize, len: usize) -> bool
    ensures { result ≡ (leb from to && leb to len) }
{
    from <= to && to <= len
}

// Where the part of a range stands in so many bytes: at their start, and empty, where there is no such part.
fn placed(range: Result<Span, TpmError>, len: usize) -> Span
    ensures { result ≡ placed (said_range range) len }
{
    match range {
        Ok(Span { from, to }) => {
            if fits(from, to, len) {
                Span { from, to }
            } else {
                Span { from: 0, to: 0 }
            }
        }
        Err(_) => Span { from: 0, to: 0 },
    }
}

// What stands behind the part of a range in so many bytes, as a range.
pub fn behind(range: Result<Span, TpmError>, len: usize) -> Result<Span, TpmError>
    ensures { said_range result ≡ behind (said_range range) len }
{
    let part = range?;
    Ok(Span {
        from: part.to,
        to: len,
    })
}

pub fn part(s: &[u8], range: Result<Span, TpmError>) -> &[u8]
    ensures { IsPart (said_range range) s.entry result }
{
    let at = placed(range, s.len());
    &s[at.from..at.to]
}

// The same as a part that can be written to. Once its last bytes are known, so are those of the slice. The proof walks it by hand, local by local.
pub fn part_mut(s: &mut [u8], range: Result<Span, TpmError>) -> &mut [u8]
    ensures* writes_back { sem 𝓛 (LendsPart (said_range range) s.entry result) }
    ensures part { IsPartMut (said_range range) s.entry result }
{
    let at = placed(range, s.len());
    let from = at.from;
    let to = at.to;
    &mut s[from..to]
}
