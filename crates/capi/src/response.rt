// Responses, of frame::response. A part goes out as its start and its end.
ghost use Rattle.std.specs.Prelude.{◌≡◌, length};
ghost use Rattle.base.specs.Parts.{up_to};
ghost use Rattle.base.specs.Said.{after, done};
ghost use Rattle.frame.specs.Answer.{response_by_value, whole};
ghost use Rattle.frame.specs.Header.{read_rc, set_rc};
ghost use Rattle.frame.specs.Response.{body_range, cast_response, cast_response_prefix, read_response};
ghost use Rattle.marshal.specs.Handed.{handed};
ghost use Rattle.marshal.specs.Write.{counted, room_after, write_response};
ghost use Rattle.capi.specs.Frame.{no_response, part_and_tail};
ghost use Rattle.capi.specs.Rules.{under, under_mode};
ghost use Rattle.capi.specs.Out.{Reports, ends, none, one};

use crate::out::{Numbers, Refused, report, with_tail};
use crate::rules::{by_rules, response_rules_named, rules_named};
use base::code::{TpmCc, TpmRc, TpmSt};
use base::part::Span;
use frame::response::Response;
use frame::session::Entries;

#[unsafe(no_mangle)]
pub extern "C" fn skein_response_cast(rules: u32, s: &[u8], out: &mut Numbers) -> u32
    ensures { Reports ends (under rules λ book. whole s.now (cast_response book s.now)) out.old out.new result }
{
    by_rules(rules, out, |by| frame::response::cast_range(by, s))
}

// Where the response at the start stands, and where what is behind it.
#[unsafe(no_mangle)]
pub extern "C" fn skein_response_cast_prefix(rules: u32, s: &[u8], out: &mut Numbers) -> u32
    ensures { Reports (part_and_tail (length s.now)) (under rules λ book. up_to (cast_response_prefix book s.now)) out.old out.new result }
{
    match rules_named(rules) {
        Ok(by) => with_tail(frame::response::cast_prefix_range(by, s), s.len(), out),
        Err(unknown) => unknown.store(out),
    }
}

#[unsafe(no_mangle)]
pub extern "C" fn skein_response_validate(rules: u32, cc: u32, s: &[u8], out: &mut Numbers) -> u32
    ensures { Reports none (under rules λ book. done (read_response book cc s.now)) out.old out.new result }
{
    by_rules(rules, out, |by| frame::response::validate(by, TpmCc(cc), s))
}

#[unsafe(no_mangle)]
pub extern "C" fn skein_response_rc(rules: u32, s: &[u8], out: &mut Numbers) -> u32
    ensures { Reports one (under rules λ book. read_rc book s.now) out.old out.new result }
{
    by_rules(rules, out, |by| frame::response::rc(by, s))
}

#[unsafe(no_mangle)]
pub extern "C" fn skein_response_set_rc(rules: u32, rc: u32, s: &mut [u8], out: &mut Numbers) -> u32
    ensures reports { Reports none (under rules λ book. done (set_rc book rc s.old)) out.old out.new result }
    ensures s_after { s.new ≡ after s.old (under rules λ book. set_rc book rc s.old) }
{
    match rules_named(rules) {
        Ok(by) => report(frame::response::set_rc(by, s, TpmRc(rc)), out),
        Err(unknown) => unknown.store(out),
    }
}

#[unsafe(no_mangle)]
pub extern "C" fn skein_response_body(s: &[u8], out: &mut Numbers) -> u32
    ensures { Reports ends (body_range s.now) out.old out.new result }
{
    report(frame::response::body_range(s), out)
}

// All parts of a response to the command cc, by value as of a command.
#[repr(C)]
#[derive(Clone, Copy)]
pub struct ResponseParts {
    pub refusal: u32,
    pub response: Response,
}

// No Default of a response's own: zeros are what C gets of a refused one.
fn no_response() -> Response
    ensures { result ≡ no_response }
{
    let nowhere = Span { from: 0, to: 0 };
    Response {
        tag: TpmSt(0),
        rc: TpmRc(0),
        handles: nowhere,
        auth: nowhere,
        parameters: nowhere,
        entries: Entries::new(),
    }
}

// What C gets of one that is refused. By itself, so that the ways to it share no piece of the answer.
#[cold]
#[inline(never)]
fn refused(refusal: u32) -> ResponseParts
    ensures number { result.refusal ≡ refusal }
    ensures nothing { result.response ≡ no_response }
{
    ResponseParts {
        refusal,
        response: no_response(),
    }
}

#[unsafe(no_mangle)]
pub extern "C" fn skein_response_parts(
    rules: u32,
    cc: u32,
    s: &[u8],
    out: &mut Numbers,
) -> ResponseParts
    ensures reports { Reports none (under rules λ book. response_by_value s.now (read_response book cc s.now)) out.old out.new result.refusal }
    ensures response_value { result.response ≡ after no_response (under rules λ book. response_by_value s.now (read_response book cc s.now)) }
{
    match rules_named(rules) {
        Ok(by) => match frame::response::parts(by, TpmCc(cc), s) {
            Ok(response) => ResponseParts {
                refusal: 0,
                response,
            },
            Err(e) => refused(e.store(out)),
        },
        Err(unknown) => refused(unknown.store(out)),
    }
}

// Writes a response to the command cc, with the response code rc.
#[unsafe(no_mangle)]
pub extern "C" fn skein_response_write(
    rules: u32,
    rc: u32,
    cc: u32,
    handles: &[u8],
    sessions: Entries,
    lent: &[u8],
    parameters: &[u8],
    room: &mut [u8],
    out: &mut Numbers,
) -> u32
    ensures reports { Reports one (under_mode rules λ book asked. counted (write_response book asked cc rc (handed handles.now sessions lent.now parameters.now) (length room.old))) out.old out.new result }
    ensures room_after { room.new ≡ room_after room.old (under_mode rules λ book asked. write_response book asked cc rc (handed handles.now sessions lent.now parameters.now) (length room.old)) }
{
    match response_rules_named(rules) {
        Ok(by) => {
            let written = marshal::response::write(
                by,
                TpmRc(rc),
                TpmCc(cc),
                handles,
                sessions,
                lent,
                parameters,
                room,
            );
            report(written, out)
        }
        Err(unknown) => unknown.store(out),
    }
}
