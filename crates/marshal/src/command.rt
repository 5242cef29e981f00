// The writer of commands.
ghost use Rattle.std.specs.Prelude.{◌≡◌, length};
ghost use Rattle.base.specs.Answer.{said_total};
ghost use Rattle.frame.specs.Layout.{layout_command};
ghost use Rattle.frame.specs.Rules.{book_of};
ghost use Rattle.marshal.specs.Handed.{command_frame, handed};
ghost use Rattle.marshal.specs.Looked.{handed_parts};
ghost use Rattle.base.specs.Field.{laid};
ghost use Rattle.marshal.specs.Write.{Ready, counted, room_after, write_command};

use crate::put::Cursor;
use crate::total::{Parts, entries_length, judge_handles, judge_total, look, tag_for, too_many};
use base::code::{TpmCc, TpmSt};
use base::error::{Area, WriteError};
use frame::rules::{Rules, longest};
use frame::session::{Entries, MAX_SESSIONS};
use table::dispatch::find;

// The total, or the first refusal.
fn judge_command(
    rules: Rules,
    tag: TpmSt,
    cc: TpmCc,
    parts: Parts,
    room: usize,
) -> Result<usize, WriteError>
    ensures { said_total result ≡ counted (write_command (book_of rules) tag.0 cc.0 (handed_parts parts.entry) room) }
{
    if tag.0 != tag_for(parts.sessions.count) {
        return Err(tag.refused(Area::None, 0).into());
    }
    if MAX_SESSIONS < parts.sessions.count {
        return Err(too_many(parts.sessions.count).into());
    }
    let row = find(rules.revision, cc)?;
    judge_handles(row.handles, parts.handles.len())?;
    look(longest(rules), *parts.sessions, parts.lent.len())?;
    judge_total(
        tag.0,
        parts.handles.len(),
        entries_length(true, *parts.sessions),
        parts.parameters.len(),
        room,
    )
}

// Lays out a command that was judged.
fn lay_command(tag: TpmSt, cc: TpmCc, parts: Parts, total: usize, room: &mut [u8])
    requires { Ready 4 tag.0 (handed_parts parts) total (length room.old) }
    ensures { room.new ≡ laid 0 (layout_command (command_frame tag.0 cc.0 (handed_parts parts.entry))) room.old }
{
    let mut out = Cursor { room, at: 0 };
    out.put_header(tag.0, total as u32, cc.0);
    out.put(parts.handles);
    if parts.sessions.count == 0 {
        out.put(parts.parameters);
        return;
    }
    let size = total - (out.at + 4 + parts.parameters.len());
    out.put(&(size as u32).to_be_bytes());
    out.put_entries(true, *parts.sessions, parts.lent);
    out.put(parts.parameters);
}

// Writes a command to the start of the room, and answers how many bytes it has. Nothing is written before all is judged.
pub fn write(
    rules: Rules,
    tag: TpmSt,
    cc: TpmCc,
    handles: &[u8],
    sessions: Entries,
    lent: &[u8],
    parameters: &[u8],
    room: &mut [u8],
) -> Result<usize, WriteError>
    ensures answer { said_total result ≡ counted (write_command (book_of rules) tag.0 cc.0 (handed handles.now sessions lent.now parameters.now) (length room.old)) }
    ensures bytes { room.new ≡ room_after room.old (write_command (book_of rules) tag.0 cc.0 (handed handles.now sessions lent.now parameters.now) (length room.old)) }
{
    let parts = Parts {
        handles,
        sessions: &sessions,
        lent,
        parameters,
    };
    let total = judge_command(rules, tag, cc, parts, room.len())?;
    lay_command(tag, cc, parts, total, room);
    Ok(total)
}
