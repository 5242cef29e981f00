// The header of a frame: the fields that commands and responses share, and the envelope.
ghost use Rattle.std.specs.Prelude.{◌≡◌, [], ◌∷◌, ◌≤◌, eqb, length};
ghost use Rattle.base.specs.Answer.{said, said_tag};
ghost use Rattle.base.specs.Error.{numbered};
ghost use Rattle.base.specs.Said.{after, done, in_area};
ghost use Rattle.frame.specs.Header.{code_of, frame_prefix, frame_whole, is_of_two, is_response_tag, is_rsp_command, read_command_tag, read_response_tag, read_size, read_tag, set_tag, tag_of};
ghost use Rattle.frame.specs.Rules.{book_of};

use crate::rules::{Rules, knows_bad_tag};
use base::code::TpmSt;
use base::error::{Area, TpmError};
use base::field::{be16, be32, write_u16};
use table::tag::tag_known;

// The bytes of a header.
pub const HEADER_SIZE: usize = 10;

// The tags of a frame without sessions and of one with them.
pub const PLAIN: u16 = 0x8001;

pub const SESSIONS: u16 = 0x8002;

// The tag and the code of the answer to a bad tag (Part 2, TPM_ST_RSP_COMMAND and TPM_RC_BAD_TAG).
pub const RSP_COMMAND: u16 = 0x00c4;

pub const BAD_TAG: u32 = 0x1e;

// The refusal of bytes that have no whole header.
pub(crate) fn short(len: usize) -> TpmError
    ensures { numbered result ≡ in_area Area.Header (1 ∷ 0 ∷ 10 ∷ len ∷ []) }
{
    TpmError::UnexpectedEnd {
        area: Area::Header,
        offset: 0,
        needed: HEADER_SIZE,
        available: len,
    }
}

// The tag and the code of a header that is there, as they stand. That it is there, four functions ask: a type that says so would be taken apart in each.
pub(crate) fn tag_of(s: &[u8]) -> TpmSt
    requires { 10 ≤ length s.now }
    ensures { result.0 ≡ tag_of s.now }
{
    TpmSt(be16(s[0], s[1]))
}

pub(crate) fn code_of(s: &[u8]) -> u32
    requires { 10 ≤ length s.now }
    ensures { result ≡ code_of s.now }
{
    be32(s[6], s[7], s[8], s[9])
}

// The tag, one that TpmSt has.
pub fn tag(s: &[u8]) -> Result<TpmSt, TpmError>
    ensures { said_tag result ≡ read_tag s.now }
{
    if s.len() < HEADER_SIZE {
        return Err(short(s.len()));
    }
    let tag = tag_of(s);
    if tag_known(tag) {
        Ok(tag)
    } else {
        Err(tag.refused(Area::Header, 0))
    }
}

// The plain tag or the sessions tag.
fn is_of_two(tag: TpmSt) -> bool
    ensures { result ≡ is_of_two tag.0 }
{
    tag.0 == PLAIN || tag.0 == SESSIONS
}

// The tag of a command, one of the two.
pub(crate) fn command_tag(s: &[u8]) -> Result<TpmSt, TpmError>
    ensures { said_tag result ≡ read_command_tag s.now }
{
    if s.len() < HEADER_SIZE {
        return Err(short(s.len()));
    }
    let tag = tag_of(s);
    if is_of_two(tag) {
        Ok(tag)
    } else {
        Err(tag.refused(Area::Header, 0))
    }
}

// The tag of the answer to a bad tag, by rules that have it.
pub(crate) fn is_rsp_command(rules: Rules, tag: TpmSt) -> bool
    ensures { result ≡ is_rsp_command (book_of rules) tag.0 }
{
    knows_bad_tag(rules) && tag.0 == RSP_COMMAND
}

fn is_response_tag(rules: Rules, tag: TpmSt) -> bool
    ensures { result ≡ is_response_tag (book_of rules) tag.0 }
{
    is_of_two(tag) || is_rsp_command(rules, tag)
}

// The tag of a response: one of the two, or that of the answer to a bad tag.
pub(crate) fn response_tag(rules: Rules, s: &[u8]) -> Result<TpmSt, TpmError>
    ensures { said_tag result ≡ read_response_tag (book_of rules) s.now }
{
    if s.len() < HEADER_SIZE {
        return Err(short(s.len()));
    }
    let tag = tag_of(s);
    if is_response_tag(rules, tag) {
        Ok(tag)
    } else {
        Err(tag.refused(Area::Header, 0))
    }
}

// The size field, not judged.
pub fn size(s: &[u8]) -> Result<u32, TpmError>
    ensures { said result ≡ read_size s.now }
{
    if s.len() < HEADER_SIZE {
        return Err(short(s.len()));
    }
    Ok(be32(s[2], s[3], s[4], s[5]))
}

// Changes the tag and nothing else.
pub fn set_tag(s: &mut [u8], tag: TpmSt) -> Result<(), TpmError>
    ensures answer { said result ≡ done (set_tag tag.0 s.old) }
    ensures bytes { s.new ≡ after s.old (set_tag tag.0 s.old) }
{
    if s.len() < HEADER_SIZE {
        return Err(short(s.len()));
    }
    if tag_known(tag) {
        write_u16(s, 0, tag.0)
    } else {
        Err(tag.refused(Area::Header, 0))
    }
}

// The bytes of the frame at the start of s, by its size field.
pub(crate) fn frame_prefix(s: &[u8]) -> Result<usize, TpmError>
    ensures { said result ≡ frame_prefix s.now }
{
    if s.len() < HEADER_SIZE {
        return Err(short(s.len()));
    }
    let size = be32(s[2], s[3], s[4], s[5]) as usize;
    if size < HEADER_SIZE {
        return Err(TpmError::UnexpectedEnd {
            area: Area::Header,
            offset: 2,
            needed: HEADER_SIZE,
            available: size,
        });
    }
    if s.len() < size {
        return Err(TpmError::UnexpectedEnd {
            area: Area::Header,
            offset: s.len(),
            needed: size - s.len(),
            available: 0,
        });
    }
    Ok(size)
}

// The same of bytes that are one frame and nothing else.
pub(crate) fn frame_whole(s: &[u8]) -> Result<usize, TpmError>
    ensures { said result ≡ frame_whole s.now }
{
    let n = frame_prefix(s)?;
    if n < s.len() {
        return Err(TpmError::TrailingData {
            area: Area::Header,
            offset: n,
            actual: s.len() - n,
        });
    }
    Ok(n)
}

pub fn len(s: &[u8]) -> usize
    ensures { result ≡ length s.now }
{
    s.len()
}

pub fn is_empty(s: &[u8]) -> bool
    ensures { result ≡ eqb (length s.now) 0 }
{
    s.is_empty()
}
