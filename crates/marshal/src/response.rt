// The writer of responses.
ghost use Rattle.std.specs.Prelude.{◌≡◌, ◌||◌, [], ◌∷◌, eqb, length};
ghost use Rattle.base.specs.Answer.{said_total};
ghost use Rattle.base.specs.Said.{given, needs, no_area};
ghost use Rattle.rc.specs.Code.{read_code};
ghost use Rattle.frame.specs.Header.{bad_tag};
ghost use Rattle.frame.specs.Layout.{layout_response};
ghost use Rattle.marshal.specs.Handed.{error_tag, handed, success_frame, tag_for};
ghost use Rattle.marshal.specs.Mode.{asked, book_for};
ghost use Rattle.marshal.specs.Looked.{handed_parts};
ghost use Rattle.base.specs.Field.{laid};
ghost use Rattle.marshal.specs.Write.{Ready, counted, room_after, write_bad_tag, write_error, write_response};

use crate::mode::{ResponseRules, asks_bad_tag, rules_for};
use crate::put::Cursor;
use crate::total::{
    Parts, entries_length, fits, judge_handles, judge_total, look, tag_for, too_many,
};
use base::code::{TpmCc, TpmRc, TpmSt};
use base::error::{Area, WriteError};
use frame::header::{BAD_TAG, HEADER_SIZE, PLAIN, RSP_COMMAND, SESSIONS};
use frame::rules::longest;
use frame::session::{Entries, MAX_SESSIONS};
use rc::code::read;
use table::dispatch::find;

// A code other than success, with so many sessions.
fn judge_error(rc: TpmRc, count: usize, room: usize) -> Result<usize, WriteError>
    ensures { said_total result ≡ needs (given (read_code rc.0)) (no_area (5 ∷ 0 ∷ rc.0 ∷ [])) (counted (write_error rc.0 count room)) }
{
    read(rc)?;
    if count == 0 {
        return fits(HEADER_SIZE, room);
    }
    Err(TpmSt(SESSIONS).refused(Area::None, 0).into())
}

// The same with the tag of the answer to a bad tag asked for, which no other code gets.
fn judge_bad_tag(rc: TpmRc, count: usize, room: usize) -> Result<usize, WriteError>
    ensures { said_total result ≡ needs (given (read_code rc.0) || eqb rc.0 bad_tag) (no_area (5 ∷ 0 ∷ rc.0 ∷ [])) (counted (write_bad_tag rc.0 count room)) }
{
    if rc.0 == BAD_TAG {
        if count == 0 {
            return fits(HEADER_SIZE, room);
        }
        return Err(TpmSt(SESSIONS).refused(Area::None, 0).into());
    }
    if rc.0 == 0 {
        return Err(rc.refused(Area::None, 0).into());
    }
    read(rc)?;
    if count == 0 {
        return Err(rc.refused(Area::None, 0).into());
    }
    Err(TpmSt(SESSIONS).refused(Area::None, 0).into())
}

// The tag of an error response.
fn error_tag(rules: ResponseRules) -> u16
    ensures { result ≡ error_tag (asked rules) }
{
    if asks_bad_tag(rules) {
        RSP_COMMAND
    } else {
        PLAIN
    }
}

// The total, or the first refusal.
fn judge_response(
    rules: ResponseRules,
    rc: TpmRc,
    cc: TpmCc,
    parts: Parts,
    room: usize,
) -> Result<usize, WriteError>
    ensures { said_total result ≡ counted (write_response (book_for rules) (asked rules) cc.0 rc.0 (handed_parts parts.entry) room) }
{
    if MAX_SESSIONS < parts.sessions.count {
        return Err(too_many(parts.sessions.count).into());
    }
    let row = find(rules.revision, cc)?;
    if asks_bad_tag(rules) {
        return judge_bad_tag(rc, parts.sessions.count, room);
    }
    if rc.0 != 0 {
        return judge_error(rc, parts.sessions.count, room);
    }
    judge_handles(row.responses, parts.handles.len())?;
    look(longest(rules_for(rules)), *parts.sessions, parts.lent.len())?;
    judge_total(
        tag_for(parts.sessions.count),
        parts.handles.len(),
        entries_length(false, *parts.sessions),
        parts.parameters.len(),
        room,
    )
}

// Lays out a success response that was judged.
fn lay_success(parts: Parts, total: usize, room: &mut [u8])
    requires { Ready 0 (tag_for parts.sessions.now.count) (handed_parts parts) total (length room.old) }
    ensures { room.new ≡ laid 0 (layout_response (success_frame (handed_parts parts.entry))) room.old }
{
    let mut out = Cursor { room, at: 0 };
    out.put_header(tag_for(parts.sessions.count), total as u32, 0);
    out.put(parts.handles);
    if parts.sessions.count == 0 {
        out.put(parts.parameters);
        return;
    }
    out.put(&(parts.parameters.len() as u32).to_be_bytes());
    out.put(parts.parameters);
    out.put_entries(false, *parts.sessions, parts.lent);
}

// Writes a response to the command of a code to the start of the room, and answers how many bytes it has. Nothing is written
// before all is judged.
pub fn write(
    rules: ResponseRules,
    rc: TpmRc,
    cc: TpmCc,
    handles: &[u8],
    sessions: Entries,
    lent: &[u8],
    parameters: &[u8],
    room: &mut [u8],
) -> Result<usize, WriteError>
    ensures answer { said_total result ≡ counted (write_response (book_for rules) (asked rules) cc.0 rc.0 (handed handles.now sessions lent.now parameters.now) (length room.old)) }
    ensures bytes { room.new ≡ room_after room.old (write_response (book_for rules) (asked rules) cc.0 rc.0 (handed handles.now sessions lent.now parameters.now) (length room.old)) }
{
    let parts = Parts {
        handles,
        sessions: &sessions,
        lent,
        parameters,
    };
    let total = judge_response(rules, rc, cc, parts, room.len())?;
    if rc.0 == 0 {
        lay_success(parts, total, room);
    } else {
        let mut out = Cursor { room, at: 0 };
        out.put_header(error_tag(rules), HEADER_SIZE as u32, rc.0);
    }
    Ok(total)
}
