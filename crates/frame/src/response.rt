// Responses. Whether a response passes depends on the command that it answers: its code is asked for.
ghost use Rattle.std.specs.Prelude.{◌≡◌, ◌≤◌, length, ◌||◌, eqb};
ghost use Rattle.std.specs.Borrow.{sem};
ghost use Rattle.base.specs.Answer.{said, said_range, said_response_code};
ghost use Rattle.base.specs.Parts.{IsPart, IsPartMut, LendsPart, behind, up_to};
ghost use Rattle.base.specs.Said.{after, done};
ghost use Rattle.frame.specs.Answer.{areas_of, response_by_value, said_response_sessions, signed, whole};
ghost use Rattle.frame.specs.Header.{is_rsp_command, plain, reads, read_rc, set_rc};
ghost use Rattle.frame.specs.Response.{body_range, cast_response, cast_response_prefix, error_areas, judge_response, read_response, response_areas, success_areas};
ghost use Rattle.frame.specs.Rules.{book_of};

use crate::areas::{Areas, handle_area, sized_area};
use crate::header::{
    BAD_TAG, HEADER_SIZE, PLAIN, SESSIONS, code_of, frame_prefix, frame_whole, is_rsp_command,
    response_tag, short, tag_of,
};
use crate::rules::{Rules, longest};
use crate::session::Entries;
use crate::walk::{entries, walk};
use base::code::{TpmCc, TpmRc, TpmSt};
use base::error::{Area, TpmError};
use base::field::write_u32;
use base::part::{Span, behind, part, part_mut};
use rc::code::read;
use table::dispatch::find;

// A passing response by value: its areas by where they stand, its entries by their count and the first three.
#[repr(C)]
#[derive(Clone, Copy)]
pub struct Response {
    pub tag: TpmSt,
    pub rc: TpmRc,
    pub handles: Span,
    pub auth: Span,
    pub parameters: Span,
    pub entries: Entries,
}

// What a passing response says of sessions: its code, and its entries.
#[derive(Clone, Copy)]
pub struct ResponseSessions {
    pub rc: TpmRc,
    pub entries: Entries,
}

// ---- the code

// Whether a code reads under a tag. Success is what most responses say, and it reads.
fn reads(rules: Rules, tag: TpmSt, rc: TpmRc) -> bool
    ensures { result ≡ reads (book_of rules) tag.0 rc.0 }
{
    if is_rsp_command(rules, tag) {
        return rc.0 == BAD_TAG;
    }
    if rc.0 == 0 {
        return true;
    }
    read(rc).is_ok()
}

// The response code, one that reads.
pub fn rc(rules: Rules, s: &[u8]) -> Result<TpmRc, TpmError>
    ensures { said_response_code result ≡ read_rc (book_of rules) s.now }
{
    if s.len() < HEADER_SIZE {
        return Err(short(s.len()));
    }
    let rc = TpmRc(code_of(s));
    if reads(rules, tag_of(s), rc) {
        Ok(rc)
    } else {
        Err(rc.refused(Area::Header, 6))
    }
}

// Changes the response code to one that reads, and nothing else.
pub fn set_rc(rules: Rules, s: &mut [u8], rc: TpmRc) -> Result<(), TpmError>
    ensures answer { said result ≡ done (set_rc (book_of rules) rc.0 s.old) }
    ensures bytes { s.new ≡ after s.old (set_rc (book_of rules) rc.0 s.old) }
{
    if s.len() < HEADER_SIZE {
        return Err(short(s.len()));
    }
    if reads(rules, tag_of(s), rc) {
        write_u32(s, 6, rc.0)
    } else {
        Err(rc.refused(Area::Header, 0))
    }
}

// ---- the body

pub fn body_range(s: &[u8]) -> Result<Span, TpmError>
    ensures { said_range result ≡ body_range s.now }
{
    if s.len() < HEADER_SIZE {
        return Err(short(s.len()));
    }
    Ok(Span {
        from: HEADER_SIZE,
        to: s.len(),
    })
}

pub fn body(s: &[u8]) -> &[u8]
    ensures { IsPart (body_range s.now) s.entry result }
{
    part(s, body_range(s))
}

pub fn body_mut(s: &mut [u8]) -> &mut [u8]
    ensures* writes_back { sem 𝓛 (LendsPart (body_range s.old) s.entry result) }
    ensures part { IsPartMut (body_range s.old) s.entry result }
{
    let range = body_range(s);
    part_mut(s, range)
}

// ---- casts

// What is judged of a response behind its size: its code, where it passes.
fn judge(rules: Rules, s: &[u8]) -> Result<TpmRc, TpmError>
    ensures { said_response_code result ≡ judge_response (book_of rules) s.now }
{
    response_tag(rules, s)?;
    rc(rules, s)
}

fn cast_code(rules: Rules, s: &[u8]) -> Result<TpmRc, TpmError>
    ensures { said_response_code result ≡ cast_response (book_of rules) s.now }
{
    frame_whole(s)?;
    judge(rules, s)
}

pub fn cast_range(rules: Rules, s: &[u8]) -> Result<Span, TpmError>
    ensures { said_range result ≡ whole s.now (cast_response (book_of rules) s.now) }
{
    cast_code(rules, s)?;
    Ok(Span {
        from: 0,
        to: s.len(),
    })
}

pub fn cast(rules: Rules, s: &[u8]) -> &[u8]
    ensures { IsPart (whole s.now (cast_response (book_of rules) s.now)) s.entry result }
{
    part(s, cast_range(rules, s))
}

pub fn cast_mut(rules: Rules, s: &mut [u8]) -> &mut [u8]
    ensures* writes_back { sem 𝓛 (LendsPart (whole s.old (cast_response (book_of rules) s.old)) s.entry result) }
    ensures part { IsPartMut (whole s.old (cast_response (book_of rules) s.old)) s.entry result }
{
    let range = cast_range(rules, s);
    part_mut(s, range)
}

// The response at the start of s.
pub fn cast_prefix_range(rules: Rules, s: &[u8]) -> Result<Span, TpmError>
    ensures { said_range result ≡ up_to (cast_response_prefix (book_of rules) s.now) }
{
    let to = frame_prefix(s)?;
    judge(rules, &s[..to])?;
    Ok(Span { from: 0, to })
}

pub fn cast_prefix(rules: Rules, s: &[u8]) -> &[u8]
    ensures { IsPart (up_to (cast_response_prefix (book_of rules) s.now)) s.entry result }
{
    part(s, cast_prefix_range(rules, s))
}

pub fn cast_prefix_mut(rules: Rules, s: &mut [u8]) -> &mut [u8]
    ensures* writes_back { sem 𝓛 (LendsPart (up_to (cast_response_prefix (book_of rules) s.old)) s.entry result) }
    ensures part { IsPartMut (up_to (cast_response_prefix (book_of rules) s.old)) s.entry result }
{
    let range = cast_prefix_range(rules, s);
    part_mut(s, range)
}

// What stands behind the response at the start of s.
fn prefix_tail_range(rules: Rules, s: &[u8]) -> Result<Span, TpmError>
    ensures { said_range result ≡ behind (up_to (cast_response_prefix (book_of rules) s.now)) (length s.now) }
{
    behind(cast_prefix_range(rules, s), s.len())
}

pub fn cast_prefix_tail(rules: Rules, s: &[u8]) -> &[u8]
    ensures { IsPart (behind (up_to (cast_response_prefix (book_of rules) s.now)) (length s.now)) s.entry result }
{
    part(s, prefix_tail_range(rules, s))
}

pub fn cast_prefix_tail_mut(rules: Rules, s: &mut [u8]) -> &mut [u8]
    ensures* writes_back { sem 𝓛 (LendsPart (behind (up_to (cast_response_prefix (book_of rules) s.old)) (length s.old)) s.entry result) }
    ensures part { IsPartMut (behind (up_to (cast_response_prefix (book_of rules) s.old)) (length s.old)) s.entry result }
{
    let range = prefix_tail_range(rules, s);
    part_mut(s, range)
}

// ---- the full check

// The areas of a success response.
fn success_areas(responses: u8, s: &[u8]) -> Result<Areas, TpmError>
    requires { 10 ≤ length s.now }
    ensures { said result ≡ success_areas responses s.now }
{
    let handles = handle_area(responses, s)?;
    let tag = tag_of(s);
    sized_area(Area::Parameters, tag.0 == SESSIONS, s.len(), s, handles)
}

// An error stands under the plain tag, or is the answer to a bad tag.
fn is_error_tag(rules: Rules, tag: TpmSt) -> bool
    ensures { result ≡ (eqb tag.0 plain || is_rsp_command (book_of rules) tag.0) }
{
    tag.0 == PLAIN || is_rsp_command(rules, tag)
}

// The areas of an error response: a bare header.
fn error_areas(rules: Rules, s: &[u8]) -> Result<Areas, TpmError>
    requires { 10 ≤ length s.now }
    ensures { said result ≡ error_areas (book_of rules) s.now }
{
    let tag = tag_of(s);
    if is_error_tag(rules, tag) {
        if HEADER_SIZE < s.len() {
            return Err(TpmError::TrailingData {
                area: Area::Header,
                offset: HEADER_SIZE,
                actual: s.len() - HEADER_SIZE,
            });
        }
        Ok(Areas {
            handles: HEADER_SIZE,
            from: HEADER_SIZE,
            to: HEADER_SIZE,
        })
    } else {
        Err(tag.refused(Area::Header, 0))
    }
}

// The search refuses in no area, and this is the header's: so no `?`.
fn areas(rules: Rules, cc: TpmCc, s: &[u8]) -> Result<Areas, TpmError>
    ensures { said result ≡ response_areas (book_of rules) cc.0 s.now }
{
    let code = cast_code(rules, s)?;
    let Ok(row) = find(rules.revision, cc) else {
        return Err(cc.refused(Area::Header, 0));
    };
    if code.0 == 0 {
        success_areas(row.responses, s)
    } else {
        error_areas(rules, s)
    }
}

// The areas, where the entries pass.
fn divide(rules: Rules, cc: TpmCc, s: &[u8]) -> Result<Areas, TpmError>
    ensures { said result ≡ areas_of (read_response (book_of rules) cc.0 s.now) }
{
    let a = areas(rules, cc, s)?;
    walk(longest(rules), false, s, a.to)?;
    Ok(a)
}

pub fn validate(rules: Rules, cc: TpmCc, s: &[u8]) -> Result<(), TpmError>
    ensures { said result ≡ done (read_response (book_of rules) cc.0 s.now) }
{
    divide(rules, cc, s)?;
    Ok(())
}

// All parts of a passing response.
pub fn parts(rules: Rules, cc: TpmCc, s: &[u8]) -> Result<Response, TpmError>
    ensures { said result ≡ response_by_value s.now (read_response (book_of rules) cc.0 s.now) }
{
    let a = divide(rules, cc, s)?;
    Ok(Response {
        tag: tag_of(s),
        rc: TpmRc(code_of(s)),
        handles: Span {
            from: HEADER_SIZE,
            to: a.handles,
        },
        auth: Span {
            from: a.to,
            to: s.len(),
        },
        parameters: Span {
            from: a.from,
            to: a.to,
        },
        entries: entries(false, s, a.to),
    })
}

// Code and entries of a passing response, for those who need no more.
pub fn sessions(rules: Rules, cc: TpmCc, s: &[u8]) -> Result<ResponseSessions, TpmError>
    ensures { said_response_sessions result ≡ signed s.now (read_response (book_of rules) cc.0 s.now) }
{
    let a = divide(rules, cc, s)?;
    let to = a.to;
    Ok(ResponseSessions {
        rc: TpmRc(code_of(s)),
        entries: entries(false, s, to),
    })
}
