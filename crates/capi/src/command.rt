// Commands, of frame::command. A part goes out as its start and its end.
ghost use Rattle.std.specs.Prelude.{◌≡◌, length};
ghost use Rattle.base.specs.Parts.{up_to};
ghost use Rattle.base.specs.Said.{after, done};
ghost use Rattle.frame.specs.Answer.{command_by_value, whole};
ghost use Rattle.frame.specs.Command.{auth_range, cast_command, cast_command_prefix, handles_range, parameters_range, read_command};
ghost use Rattle.frame.specs.Header.{read_cc, set_cc};
ghost use Rattle.marshal.specs.Handed.{handed};
ghost use Rattle.marshal.specs.Write.{counted, room_after, write_command};
ghost use Rattle.capi.specs.Frame.{no_command, part_and_tail};
ghost use Rattle.capi.specs.Rules.{under};
ghost use Rattle.capi.specs.Out.{Reports, ends, none, one};

use crate::out::{Numbers, Refused, report, with_tail};
use crate::rules::{by_rules, rules_named};
use base::code::{TpmCc, TpmSt};
use base::part::Span;
use frame::command::Command;
use frame::session::Entries;

#[unsafe(no_mangle)]
pub extern "C" fn skein_command_cast(rules: u32, s: &[u8], out: &mut Numbers) -> u32
    ensures { Reports ends (under rules λ book. whole s.now (cast_command book s.now)) out.old out.new result }
{
    by_rules(rules, out, |by| frame::command::cast_range(by, s))
}

#[unsafe(no_mangle)]
pub extern "C" fn skein_command_handles(rules: u32, s: &[u8], out: &mut Numbers) -> u32
    ensures { Reports ends (under rules λ book. handles_range book s.now) out.old out.new result }
{
    by_rules(rules, out, |by| frame::command::handles_range(by, s))
}

#[unsafe(no_mangle)]
pub extern "C" fn skein_command_auth_area(rules: u32, s: &[u8], out: &mut Numbers) -> u32
    ensures { Reports ends (under rules λ book. auth_range book s.now) out.old out.new result }
{
    by_rules(rules, out, |by| frame::command::auth_area_range(by, s))
}

#[unsafe(no_mangle)]
pub extern "C" fn skein_command_parameters(rules: u32, s: &[u8], out: &mut Numbers) -> u32
    ensures { Reports ends (under rules λ book. parameters_range book s.now) out.old out.new result }
{
    by_rules(rules, out, |by| frame::command::parameters_range(by, s))
}

// Where the command at the start stands, and where what is behind it.
#[unsafe(no_mangle)]
pub extern "C" fn skein_command_cast_prefix(rules: u32, s: &[u8], out: &mut Numbers) -> u32
    ensures { Reports (part_and_tail (length s.now)) (under rules λ book. up_to (cast_command_prefix book s.now)) out.old out.new result }
{
    match rules_named(rules) {
        Ok(by) => with_tail(frame::command::cast_prefix_range(by, s), s.len(), out),
        Err(unknown) => unknown.store(out),
    }
}

#[unsafe(no_mangle)]
pub extern "C" fn skein_command_validate(rules: u32, s: &[u8], out: &mut Numbers) -> u32
    ensures { Reports none (under rules λ book. done (read_command book s.now)) out.old out.new result }
{
    by_rules(rules, out, |by| frame::command::validate(by, s))
}

#[unsafe(no_mangle)]
pub extern "C" fn skein_command_cc(rules: u32, s: &[u8], out: &mut Numbers) -> u32
    ensures { Reports one (under rules λ book. read_cc book s.now) out.old out.new result }
{
    by_rules(rules, out, |by| frame::command::cc(by, s))
}

#[unsafe(no_mangle)]
pub extern "C" fn skein_command_set_cc(rules: u32, cc: u32, s: &mut [u8], out: &mut Numbers) -> u32
    ensures reports { Reports none (under rules λ book. done (set_cc book cc s.old)) out.old out.new result }
    ensures s_after { s.new ≡ after s.old (under rules λ book. set_cc book cc s.old) }
{
    match rules_named(rules) {
        Ok(by) => report(frame::command::set_cc(by, s, TpmCc(cc)), out),
        Err(unknown) => unknown.store(out),
    }
}

// All parts by value, behind the number that the other calls return; the array takes a refusal's fields alone.
// C has a record a kind, and so a call a kind.
#[repr(C)]
#[derive(Clone, Copy)]
pub struct CommandParts {
    pub refusal: u32,
    pub command: Command,
}

// No Default of a command's own: zeros are what C gets of a refused one.
fn no_command() -> Command
    ensures { result ≡ no_command }
{
    let nowhere = Span { from: 0, to: 0 };
    Command {
        tag: TpmSt(0),
        cc: TpmCc(0),
        handles: nowhere,
        auth: nowhere,
        parameters: nowhere,
        entries: Entries::new(),
    }
}

// What C gets of one that is refused. By itself, so that the ways to it share no piece of the answer.
#[cold]
#[inline(never)]
fn refused(refusal: u32) -> CommandParts
    ensures number { result.refusal ≡ refusal }
    ensures nothing { result.command ≡ no_command }
{
    CommandParts {
        refusal,
        command: no_command(),
    }
}

#[unsafe(no_mangle)]
pub extern "C" fn skein_command_parts(rules: u32, s: &[u8], out: &mut Numbers) -> CommandParts
    ensures reports { Reports none (under rules λ book. command_by_value s.now (read_command book s.now)) out.old out.new result.refusal }
    ensures command_value { result.command ≡ after no_command (under rules λ book. command_by_value s.now (read_command book s.now)) }
{
    match rules_named(rules) {
        Ok(by) => match frame::command::parts(by, s) {
            Ok(command) => CommandParts {
                refusal: 0,
                command,
            },
            Err(e) => refused(e.store(out)),
        },
        Err(unknown) => refused(unknown.store(out)),
    }
}

// Writes a command to the start of the room; the sessions come in the record that is among all parts.
#[unsafe(no_mangle)]
pub extern "C" fn skein_command_write(
    rules: u32,
    tag: u16,
    cc: u32,
    handles: &[u8],
    sessions: Entries,
    lent: &[u8],
    parameters: &[u8],
    room: &mut [u8],
    out: &mut Numbers,
) -> u32
    ensures reports { Reports one (under rules λ book. counted (write_command book tag cc (handed handles.now sessions lent.now parameters.now) (length room.old))) out.old out.new result }
    ensures room_after { room.new ≡ room_after room.old (under rules λ book. write_command book tag cc (handed handles.now sessions lent.now parameters.now) (length room.old)) }
{
    match rules_named(rules) {
        Ok(by) => {
            let written = marshal::command::write(
                by,
                TpmSt(tag),
                TpmCc(cc),
                handles,
                sessions,
                lent,
                parameters,
                room,
            );
            report(written, out)
        }
        Err(unknown) => unknown.store(out),
    }
}
