// Exports of capi::response.
ghost use Rattle.std.specs.Prelude.{◌≡◌, length};
ghost use Rattle.base.specs.Parts.{up_to};
ghost use Rattle.base.specs.Said.{after, done};
ghost use Rattle.frame.specs.Answer.{response_by_value, whole};
ghost use Rattle.frame.specs.Header.{read_rc, set_rc};
ghost use Rattle.frame.specs.Response.{body_range, cast_response, cast_response_prefix, read_response};
ghost use Rattle.marshal.specs.Handed.{handed};
ghost use Rattle.marshal.specs.Write.{counted, room_after, write_response};
ghost use Rattle.capi.specs.Frame.{no_response, part_and_tail};
ghost use Rattle.capi.specs.Rules.{under, under_mode};
ghost use Rattle.capi.specs.Out.{Reports, ends, none, one};

use capi::out::Numbers;
use capi::response::ResponseParts;
use frame::session::Entries;

#[unsafe(no_mangle)]
pub extern "C" fn skein_response_cast(rules: u32, s: &[u8], out: &mut Numbers) -> u32
    ensures { Reports ends (under rules λ book. whole s.now (cast_response book s.now)) out.old out.new result }
{
    capi::response::skein_response_cast(rules, s, out)
}

#[unsafe(no_mangle)]
pub extern "C" fn skein_response_cast_prefix(rules: u32, s: &[u8], out: &mut Numbers) -> u32
    ensures { Reports (part_and_tail (length s.now)) (under rules λ book. up_to (cast_response_prefix book s.now)) out.old out.new result }
{
    capi::response::skein_response_cast_prefix(rules, s, out)
}

#[unsafe(no_mangle)]
pub extern "C" fn skein_response_validate(rules: u32, cc: u32, s: &[u8], out: &mut Numbers) -> u32
    ensures { Reports none (under rules λ book. done (read_response book cc s.now)) out.old out.new result }
{
    capi::response::skein_response_validate(rules, cc, s, out)
}

#[unsafe(no_mangle)]
pub extern "C" fn skein_response_rc(rules: u32, s: &[u8], out: &mut Numbers) -> u32
    ensures { Reports one (under rules λ book. read_rc book s.now) out.old out.new result }
{
    capi::response::skein_response_rc(rules, s, out)
}

#[unsafe(no_mangle)]
pub extern "C" fn skein_response_set_rc(rules: u32, rc: u32, s: &mut [u8], out: &mut Numbers) -> u32
    ensures reports { Reports none (under rules λ book. done (set_rc book rc s.old)) out.old out.new result }
    ensures s_after { s.new ≡ after s.old (under rules λ book. set_rc book rc s.old) }
{
    capi::response::skein_response_set_rc(rules, rc, s, out)
}

#[unsafe(no_mangle)]
pub extern "C" fn skein_response_body(s: &[u8], out: &mut Numbers) -> u32
    ensures { Reports ends (body_range s.now) out.old out.new result }
{
    capi::response::skein_response_body(s, out)
}

#[unsafe(no_mangle)]
pub extern "C" fn skein_response_parts(
    rules: u32,
    cc: u32,
    s: &[u8],
    out: &mut Numbers,
) -> ResponseParts
    ensures reports { Reports none (under rules λ book. response_by_value s.now (read_response book cc s.now)) out.old out.new result.refusal }
    ensures response_value { result.response ≡ after no_response (under rules λ book. response_by_value s.now (read_response book cc s.now)) }
{
    capi::response::skein_response_parts(rules, cc, s, out)
}

#[unsafe(no_mangle)]
pub extern "C" fn skein_response_write(
    rules: u32,
    rc: u32,
    cc: u32,
    handles: &[u8],
    sessions: Entries,
    lent: &[u8],
    parameters: &[u8],
    room: &mut [u8],
    out: &mut Numbers,
) -> u32
    ensures reports { Reports one (under_mode rules λ book asked. counted (write_response book asked cc rc (handed handles.now sessions lent.now parameters.now) (length room.old))) out.old out.new result }
    ensures room_after { room.new ≡ room_after room.old (under_mode rules λ book asked. write_response book asked cc rc (handed handles.now sessions lent.now parameters.now) (length room.old)) }
{
    capi::response::skein_response_write(
        rules, rc, cc, handles, sessions, lent, parameters, room, out,
    )
}
