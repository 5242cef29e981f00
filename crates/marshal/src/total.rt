// How long a frame gets, and whether it can be written: nothing here touches the room.
ghost use Rattle.std.specs.Prelude.{◌≡◌, [], ◌∷◌, ◌+◌, ◌≤◌, cond, eqb, leb};
ghost use Rattle.base.specs.Answer.{said, said_total};
ghost use Rattle.base.specs.Error.{numbered};
ghost use Rattle.base.specs.Said.{no_area};
ghost use Rattle.frame.specs.Answer.{handle_width};
ghost use Rattle.frame.specs.Header.{sessions};
ghost use Rattle.frame.specs.Parts.{entries_of};
ghost use Rattle.marshal.specs.Handed.{tag_for};
ghost use Rattle.marshal.specs.Looked.{handles_there, sized};
ghost use Rattle.marshal.specs.Write.{entries_length, entry_length, field_there, fitted, session_there, sessions_there};

use base::error::{Area, TpmError, WriteError};
use frame::header::{HEADER_SIZE, PLAIN, SESSIONS};
use frame::session::{Entries, Field, MAX_SESSIONS, Session};

// What is handed to a writer beside the tag and the codes. The writers take the parts one by one, as C hands them over and docs/ has them, and
// make one of this.
#[derive(Clone, Copy)]
pub(crate) struct Parts<'a> {
    pub(crate) handles: &'a [u8],
    pub(crate) sessions: &'a Entries,
    pub(crate) lent: &'a [u8],
    pub(crate) parameters: &'a [u8],
}

// The largest total that a size field holds.
const LARGEST_SIZE: usize = u32::MAX as usize;

// The tag that goes with so many sessions.
pub(crate) fn tag_for(count: usize) -> u16
    ensures { result ≡ tag_for count }
{
    if count == 0 { PLAIN } else { SESSIONS }
}

// The bytes of the size before the sized bytes: there is one under the sessions tag.
fn size_field(tag: u16) -> usize
    ensures { result ≡ cond (eqb tag sessions) 4 0 }
{
    if tag == SESSIONS { 4 } else { 0 }
}

// More than three sessions.
pub(crate) fn too_many(count: usize) -> TpmError
    ensures { numbered result ≡ no_area (6 ∷ 0 ∷ 3 ∷ count ∷ []) }
{
    TpmError::TooManyItems {
        area: Area::None,
        offset: 0,
        limit: MAX_SESSIONS,
        actual: count,
    }
}

// Whether a nonce or an HMAC stands within so many lent bytes. A position is never added to: it may be any number.
fn inside(f: Field, lent: usize) -> bool
    ensures { result ≡ leb (f.at + f.size) lent }
{
    f.at <= lent && f.size as usize <= lent - f.at
}

// Looks at a nonce or an HMAC: it is within the limit, and in the lent bytes.
fn look_at(limit: usize, f: Field, lent: usize) -> Result<(), TpmError>
    ensures { said result ≡ field_there limit lent f }
{
    let size = f.size as usize;
    if limit < size {
        return Err(TpmError::TooManyBytes {
            area: Area::None,
            offset: 0,
            limit,
            actual: size,
        });
    }
    if inside(f, lent) {
        return Ok(());
    }
    Err(TpmError::UnexpectedEnd {
        area: Area::None,
        offset: f.at,
        needed: size,
        available: lent.saturating_sub(f.at),
    })
}

// Looks at one session, the nonce before the HMAC.
fn look_at_both(limit: usize, e: Session, lent: usize) -> Result<(), TpmError>
    ensures { said result ≡ session_there limit lent e }
{
    look_at(limit, e.nonce, lent)?;
    look_at(limit, e.hmac, lent)
}

// Looks at the sessions in their order, for nonces and HMACs of at most so many bytes, in so many lent bytes. Behind the tests before it LLVM
// takes a call for cold: it is inlined by the hint alone, and so is entries_length, and else the record would go by memory.
#[inline(always)]
pub(crate) fn look(limit: usize, es: Entries, lent: usize) -> Result<(), TpmError>
    ensures { said result ≡ sessions_there limit lent (entries_of es) }
{
    if es.count == 0 {
        return Ok(());
    }
    look_at_both(limit, es.first, lent)?;
    if es.count == 1 {
        return Ok(());
    }
    look_at_both(limit, es.second, lent)?;
    if es.count == 2 {
        return Ok(());
    }
    look_at_both(limit, es.third, lent)
}

// The bytes that the entry of a session takes: a flag, as in frame::walk.
fn entry_length(command: bool, e: Session) -> usize
    ensures value { result ≡ entry_length (handle_width command) e }
    ensures few { result ≤ 131079 }
{
    let signed = 5 + e.nonce.size as usize + e.hmac.size as usize;
    if command { 4 + signed } else { signed }
}

// The bytes that the entries take, with the same flag.
#[inline(always)]
pub(crate) fn entries_length(command: bool, es: Entries) -> usize
    ensures value { result ≡ entries_length (handle_width command) (entries_of es) }
    ensures few { result ≤ 393237 }
{
    if es.count == 0 {
        return 0;
    }
    if es.count == 1 {
        return entry_length(command, es.first);
    }
    if es.count == 2 {
        return entry_length(command, es.first) + entry_length(command, es.second);
    }
    entry_length(command, es.first)
        + entry_length(command, es.second)
        + entry_length(command, es.third)
}

// Whether there are the handles of a row, four bytes each, and no more.
pub(crate) fn judge_handles(count: u8, handles: usize) -> Result<(), TpmError>
    ensures { said result ≡ handles_there count handles }
{
    let needed = 4 * (count as usize);
    if handles < needed {
        return Err(TpmError::UnexpectedEnd {
            area: Area::None,
            offset: 0,
            needed,
            available: handles,
        });
    }
    if needed < handles {
        return Err(TpmError::TrailingData {
            area: Area::None,
            offset: needed,
            actual: handles - needed,
        });
    }
    Ok(())
}

// The total, where there is room for it.
pub(crate) fn fits(total: usize, room: usize) -> Result<usize, WriteError>
    ensures { said_total result ≡ fitted total room }
{
    if room < total {
        return Err(TpmError::BufferOverflow {
            area: Area::None,
            offset: 0,
            needed: total,
            available: room,
        }
        .into());
    }
    Ok(total)
}

// The total of a frame with so many bytes of handles, entries and parameters. Only the parameters can be too many for a sum: a row has at
// most 255 handles, and three entries have at most 393,237 bytes, each a handle, two lengths, an attribute byte and twice 65,535.
pub(crate) fn judge_total(
    tag: u16,
    handles: usize,
    entries: usize,
    parameters: usize,
    room: usize,
) -> Result<usize, WriteError>
    requires few_handles { handles ≤ 1020 }
    requires few_entries { entries ≤ 393237 }
    ensures { said_total result ≡ sized (10 + handles + cond (eqb tag sessions) 4 0 + entries + parameters) room }
{
    let total = (HEADER_SIZE + handles + size_field(tag) + entries).saturating_add(parameters);
    if LARGEST_SIZE < total {
        return Err(WriteError::IntegerTooLarge {
            offset: 0,
            value: total as u64,
        });
    }
    fits(total, room)
}
