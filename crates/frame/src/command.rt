// Commands. A range read says what is refused and why; the part read of the same name is then empty.
ghost use Rattle.std.specs.Prelude.{◌≡◌, length};
ghost use Rattle.std.specs.Borrow.{sem};
ghost use Rattle.base.specs.Answer.{said, said_command_code, said_range};
ghost use Rattle.base.specs.Parts.{IsPart, IsPartMut, LendsPart, behind, up_to};
ghost use Rattle.base.specs.Said.{after, done};
ghost use Rattle.frame.specs.Answer.{areas_of, command_by_value, said_command_sessions, signed, whole};
ghost use Rattle.frame.specs.Command.{auth_range, cast_command, cast_command_prefix, command_areas, command_handles, handles_range, judge_command, parameters_range, read_command};
ghost use Rattle.frame.specs.Header.{read_cc, set_cc};
ghost use Rattle.frame.specs.Rules.{book_of};

use crate::areas::{Areas, handle_area, sized_area};
use crate::header::{
    HEADER_SIZE, SESSIONS, code_of, command_tag, frame_prefix, frame_whole, short, tag_of,
};
use crate::rules::{Rules, longest};
use crate::session::Entries;
use crate::walk::{entries, walk};
use base::code::{TpmCc, TpmSt};
use base::error::{Area, TpmError};
use base::field::write_u32;
use base::part::{Span, behind, part, part_mut};
use table::dispatch::{cc_known, find};
use table::tag::tag_known;

// A passing command by value: its areas by where they stand, its entries by their count and the first three.
#[repr(C)]
#[derive(Clone, Copy)]
pub struct Command {
    pub tag: TpmSt,
    pub cc: TpmCc,
    pub handles: Span,
    pub auth: Span,
    pub parameters: Span,
    pub entries: Entries,
}

// What a passing command says of sessions: its code, and its entries.
#[derive(Clone, Copy)]
pub struct CommandSessions {
    pub cc: TpmCc,
    pub entries: Entries,
}

// ---- the code

// The command code, one that is known.
pub fn cc(rules: Rules, s: &[u8]) -> Result<TpmCc, TpmError>
    ensures { said_command_code result ≡ read_cc (book_of rules) s.now }
{
    if s.len() < HEADER_SIZE {
        return Err(short(s.len()));
    }
    let cc = TpmCc(code_of(s));
    if cc_known(rules.revision, cc) {
        Ok(cc)
    } else {
        Err(cc.refused(Area::Header, 6))
    }
}

// Changes the command code to one that has a row, and nothing else. The search refuses in no area, and this is the header's: so no `?`.
pub fn set_cc(rules: Rules, s: &mut [u8], cc: TpmCc) -> Result<(), TpmError>
    ensures answer { said result ≡ done (set_cc (book_of rules) cc.0 s.old) }
    ensures bytes { s.new ≡ after s.old (set_cc (book_of rules) cc.0 s.old) }
{
    if s.len() < HEADER_SIZE {
        return Err(short(s.len()));
    }
    let Ok(_) = find(rules.revision, cc) else {
        return Err(cc.refused(Area::Header, 0));
    };
    write_u32(s, 6, cc.0)
}

// ---- the areas

// Where the handles end. The known codes are those with a row, by every table that can be named: so a code without one is not known.
fn handles_end(rules: Rules, s: &[u8]) -> Result<usize, TpmError>
    ensures { said result ≡ command_handles (book_of rules) s.now }
{
    if s.len() < HEADER_SIZE {
        return Err(short(s.len()));
    }
    let cc = TpmCc(code_of(s));
    let Ok(row) = find(rules.revision, cc) else {
        return Err(cc.refused(Area::Header, 6));
    };
    handle_area(row.handles, s)
}

fn areas(rules: Rules, s: &[u8]) -> Result<Areas, TpmError>
    ensures { said result ≡ command_areas (book_of rules) s.now }
{
    let handles = handles_end(rules, s)?;
    let tag = tag_of(s);
    if tag_known(tag) {
        sized_area(Area::Authorization, tag.0 == SESSIONS, handles, s, handles)
    } else {
        Err(tag.refused(Area::Header, 0))
    }
}

// What is judged of a command behind its size. A tag of the two is one that TpmSt has.
fn judge(rules: Rules, s: &[u8]) -> Result<Areas, TpmError>
    ensures { said result ≡ judge_command (book_of rules) s.now }
{
    let tag = command_tag(s)?;
    let handles = handles_end(rules, s)?;
    sized_area(Area::Authorization, tag.0 == SESSIONS, handles, s, handles)
}

fn cast_areas(rules: Rules, s: &[u8]) -> Result<Areas, TpmError>
    ensures { said result ≡ cast_command (book_of rules) s.now }
{
    frame_whole(s)?;
    judge(rules, s)
}

pub fn handles_range(rules: Rules, s: &[u8]) -> Result<Span, TpmError>
    ensures { said_range result ≡ handles_range (book_of rules) s.now }
{
    let to = handles_end(rules, s)?;
    Ok(Span {
        from: HEADER_SIZE,
        to,
    })
}

pub fn auth_area_range(rules: Rules, s: &[u8]) -> Result<Span, TpmError>
    ensures { said_range result ≡ auth_range (book_of rules) s.now }
{
    let a = areas(rules, s)?;
    Ok(Span {
        from: a.from,
        to: a.to,
    })
}

pub fn parameters_range(rules: Rules, s: &[u8]) -> Result<Span, TpmError>
    ensures { said_range result ≡ parameters_range (book_of rules) s.now }
{
    let a = areas(rules, s)?;
    Ok(Span {
        from: a.to,
        to: s.len(),
    })
}

pub fn handles(rules: Rules, s: &[u8]) -> &[u8]
    ensures { IsPart (handles_range (book_of rules) s.now) s.entry result }
{
    part(s, handles_range(rules, s))
}

pub fn auth_area(rules: Rules, s: &[u8]) -> &[u8]
    ensures { IsPart (auth_range (book_of rules) s.now) s.entry result }
{
    part(s, auth_area_range(rules, s))
}

pub fn parameters(rules: Rules, s: &[u8]) -> &[u8]
    ensures { IsPart (parameters_range (book_of rules) s.now) s.entry result }
{
    part(s, parameters_range(rules, s))
}

pub fn handles_mut(rules: Rules, s: &mut [u8]) -> &mut [u8]
    ensures* writes_back { sem 𝓛 (LendsPart (handles_range (book_of rules) s.old) s.entry result) }
    ensures part { IsPartMut (handles_range (book_of rules) s.old) s.entry result }
{
    let range = handles_range(rules, s);
    part_mut(s, range)
}

pub fn auth_area_mut(rules: Rules, s: &mut [u8]) -> &mut [u8]
    ensures* writes_back { sem 𝓛 (LendsPart (auth_range (book_of rules) s.old) s.entry result) }
    ensures part { IsPartMut (auth_range (book_of rules) s.old) s.entry result }
{
    let range = auth_area_range(rules, s);
    part_mut(s, range)
}

pub fn parameters_mut(rules: Rules, s: &mut [u8]) -> &mut [u8]
    ensures* writes_back { sem 𝓛 (LendsPart (parameters_range (book_of rules) s.old) s.entry result) }
    ensures part { IsPartMut (parameters_range (book_of rules) s.old) s.entry result }
{
    let range = parameters_range(rules, s);
    part_mut(s, range)
}

// ---- casts

pub fn cast_range(rules: Rules, s: &[u8]) -> Result<Span, TpmError>
    ensures { said_range result ≡ whole s.now (cast_command (book_of rules) s.now) }
{
    cast_areas(rules, s)?;
    Ok(Span {
        from: 0,
        to: s.len(),
    })
}

pub fn cast(rules: Rules, s: &[u8]) -> &[u8]
    ensures { IsPart (whole s.now (cast_command (book_of rules) s.now)) s.entry result }
{
    part(s, cast_range(rules, s))
}

pub fn cast_mut(rules: Rules, s: &mut [u8]) -> &mut [u8]
    ensures* writes_back { sem 𝓛 (LendsPart (whole s.old (cast_command (book_of rules) s.old)) s.entry result) }
    ensures part { IsPartMut (whole s.old (cast_command (book_of rules) s.old)) s.entry result }
{
    let range = cast_range(rules, s);
    part_mut(s, range)
}

// The command at the start of s.
pub fn cast_prefix_range(rules: Rules, s: &[u8]) -> Result<Span, TpmError>
    ensures { said_range result ≡ up_to (cast_command_prefix (book_of rules) s.now) }
{
    let to = frame_prefix(s)?;
    judge(rules, &s[..to])?;
    Ok(Span { from: 0, to })
}

pub fn cast_prefix(rules: Rules, s: &[u8]) -> &[u8]
    ensures { IsPart (up_to (cast_command_prefix (book_of rules) s.now)) s.entry result }
{
    part(s, cast_prefix_range(rules, s))
}

pub fn cast_prefix_mut(rules: Rules, s: &mut [u8]) -> &mut [u8]
    ensures* writes_back { sem 𝓛 (LendsPart (up_to (cast_command_prefix (book_of rules) s.old)) s.entry result) }
    ensures part { IsPartMut (up_to (cast_command_prefix (book_of rules) s.old)) s.entry result }
{
    let range = cast_prefix_range(rules, s);
    part_mut(s, range)
}

// What stands behind the command at the start of s.
fn prefix_tail_range(rules: Rules, s: &[u8]) -> Result<Span, TpmError>
    ensures { said_range result ≡ behind (up_to (cast_command_prefix (book_of rules) s.now)) (length s.now) }
{
    behind(cast_prefix_range(rules, s), s.len())
}

pub fn cast_prefix_tail(rules: Rules, s: &[u8]) -> &[u8]
    ensures { IsPart (behind (up_to (cast_command_prefix (book_of rules) s.now)) (length s.now)) s.entry result }
{
    part(s, prefix_tail_range(rules, s))
}

pub fn cast_prefix_tail_mut(rules: Rules, s: &mut [u8]) -> &mut [u8]
    ensures* writes_back { sem 𝓛 (LendsPart (behind (up_to (cast_command_prefix (book_of rules) s.old)) (length s.old)) s.entry result) }
    ensures part { IsPartMut (behind (up_to (cast_command_prefix (book_of rules) s.old)) (length s.old)) s.entry result }
{
    let range = prefix_tail_range(rules, s);
    part_mut(s, range)
}

// ---- the full check

// The areas, where the entries pass.
fn divide(rules: Rules, s: &[u8]) -> Result<Areas, TpmError>
    ensures { said result ≡ areas_of (read_command (book_of rules) s.now) }
{
    let a = cast_areas(rules, s)?;
    walk(longest(rules), true, &s[..a.to], a.from)?;
    Ok(a)
}

pub fn validate(rules: Rules, s: &[u8]) -> Result<(), TpmError>
    ensures { said result ≡ done (read_command (book_of rules) s.now) }
{
    divide(rules, s)?;
    Ok(())
}

// All parts of a passing command.
pub fn parts(rules: Rules, s: &[u8]) -> Result<Command, TpmError>
    ensures { said result ≡ command_by_value s.now (read_command (book_of rules) s.now) }
{
    let Areas { handles, from, to } = divide(rules, s)?;
    Ok(Command {
        tag: tag_of(s),
        cc: TpmCc(code_of(s)),
        handles: Span {
            from: HEADER_SIZE,
            to: handles,
        },
        auth: Span { from, to },
        parameters: Span {
            from: to,
            to: s.len(),
        },
        entries: entries(true, &s[..to], from),
    })
}

// Code and entries of a passing command, for those who need no more.
pub fn sessions(rules: Rules, s: &[u8]) -> Result<CommandSessions, TpmError>
    ensures { said_command_sessions result ≡ signed s.now (read_command (book_of rules) s.now) }
{
    let a = divide(rules, s)?;
    Ok(CommandSessions {
        cc: TpmCc(code_of(s)),
        entries: entries(true, &s[..a.to], a.from),
    })
}
