// Exports of capi::command.
ghost use Rattle.std.specs.Prelude.{◌≡◌, length};
ghost use Rattle.base.specs.Parts.{up_to};
ghost use Rattle.base.specs.Said.{after, done};
ghost use Rattle.frame.specs.Answer.{command_by_value, whole};
ghost use Rattle.frame.specs.Command.{auth_range, cast_command, cast_command_prefix, handles_range, parameters_range, read_command};
ghost use Rattle.frame.specs.Header.{read_cc, set_cc};
ghost use Rattle.marshal.specs.Handed.{handed};
ghost use Rattle.marshal.specs.Write.{counted, room_after, write_command};
ghost use Rattle.capi.specs.Frame.{no_command, part_and_tail};
ghost use Rattle.capi.specs.Rules.{under};
ghost use Rattle.capi.specs.Out.{Reports, ends, none, one};

use capi::command::CommandParts;
use capi::out::Numbers;
use frame::session::Entries;

#[unsafe(no_mangle)]
pub extern "C" fn skein_command_cast(rules: u32, s: &[u8], out: &mut Numbers) -> u32
    ensures { Reports ends (under rules λ book. whole s.now (cast_command book s.now)) out.old out.new result }
{
    capi::command::skein_command_cast(rules, s, out)
}

#[unsafe(no_mangle)]
pub extern "C" fn skein_command_handles(rules: u32, s: &[u8], out: &mut Numbers) -> u32
    ensures { Reports ends (under rules λ book. handles_range book s.now) out.old out.new result }
{
    capi::command::skein_command_handles(rules, s, out)
}

#[unsafe(no_mangle)]
pub extern "C" fn skein_command_auth_area(rules: u32, s: &[u8], out: &mut Numbers) -> u32
    ensures { Reports ends (under rules λ book. auth_range book s.now) out.old out.new result }
{
    capi::command::skein_command_auth_area(rules, s, out)
}

#[unsafe(no_mangle)]
pub extern "C" fn skein_command_parameters(rules: u32, s: &[u8], out: &mut Numbers) -> u32
    ensures { Reports ends (under rules λ book. parameters_range book s.now) out.old out.new result }
{
    capi::command::skein_command_parameters(rules, s, out)
}

#[unsafe(no_mangle)]
pub extern "C" fn skein_command_cast_prefix(rules: u32, s: &[u8], out: &mut Numbers) -> u32
    ensures { Reports (part_and_tail (length s.now)) (under rules λ book. up_to (cast_command_prefix book s.now)) out.old out.new result }
{
    capi::command::skein_command_cast_prefix(rules, s, out)
}

#[unsafe(no_mangle)]
pub extern "C" fn skein_command_validate(rules: u32, s: &[u8], out: &mut Numbers) -> u32
    ensures { Reports none (under rules λ book. done (read_command book s.now)) out.old out.new result }
{
    capi::command::skein_command_validate(rules, s, out)
}

#[unsafe(no_mangle)]
pub extern "C" fn skein_command_cc(rules: u32, s: &[u8], out: &mut Numbers) -> u32
    ensures { Reports one (under rules λ book. read_cc book s.now) out.old out.new result }
{
    capi::command::skein_command_cc(rules, s, out)
}

#[unsafe(no_mangle)]
pub extern "C" fn skein_command_set_cc(rules: u32, cc: u32, s: &mut [u8], out: &mut Numbers) -> u32
    ensures reports { Reports none (under rules λ book. done (set_cc book cc s.old)) out.old out.new result }
    ensures s_after { s.new ≡ after s.old (under rules λ book. set_cc book cc s.old) }
{
    capi::command::skein_command_set_cc(rules, cc, s, out)
}

#[unsafe(no_mangle)]
pub extern "C" fn skein_command_parts(rules: u32, s: &[u8], out: &mut Numbers) -> CommandParts
    ensures reports { Reports none (under rules λ book. command_by_value s.now (read_command book s.now)) out.old out.new result.refusal }
    ensures command_value { result.command ≡ after no_command (under rules λ book. command_by_value s.now (read_command book s.now)) }
{
    capi::command::skein_command_parts(rules, s, out)
}

#[unsafe(no_mangle)]
pub extern "C" fn skein_command_write(
    rules: u32,
    tag: u16,
    cc: u32,
    handles: &[u8],
    sessions: Entries,
    lent: &[u8],
    parameters: &[u8],
    room: &mut [u8],
    out: &mut Numbers,
) -> u32
    ensures reports { Reports one (under rules λ book. counted (write_command book tag cc (handed handles.now sessions lent.now parameters.now) (length room.old))) out.old out.new result }
    ensures room_after { room.new ≡ room_after room.old (under rules λ book. write_command book tag cc (handed handles.now sessions lent.now parameters.now) (length room.old)) }
{
    capi::command::skein_command_write(
        rules, tag, cc, handles, sessions, lent, parameters, room, out,
    )
}
