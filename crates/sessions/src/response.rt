// The writer of responses, over session records in a slice.
ghost use Rattle.std.specs.Prelude.{◌≡◌, length};
ghost use Rattle.base.specs.Answer.{said_total};
ghost use Rattle.frame.specs.Walk.{by_value};
ghost use Rattle.marshal.specs.Handed.{handed};
ghost use Rattle.marshal.specs.Mode.{asked, book_for};
ghost use Rattle.marshal.specs.Write.{counted, room_after, write_response};

use crate::records::first_three;
use base::code::{TpmCc, TpmRc};
use base::error::WriteError;
use frame::session::Session;
use marshal::mode::ResponseRules;

// Writes a response to the command of a code to the start of the room, and answers how many bytes it has. More than three records
// are refused by their number, before any of them is looked at.
pub fn write(
    rules: ResponseRules,
    rc: TpmRc,
    cc: TpmCc,
    handles: &[u8],
    sessions: &[Session],
    lent: &[u8],
    parameters: &[u8],
    room: &mut [u8],
) -> Result<usize, WriteError>
    ensures answer { said_total result ≡ counted (write_response (book_for rules) (asked rules) cc.0 rc.0 (handed handles.now (by_value sessions.now) lent.now parameters.now) (length room.old)) }
    ensures bytes { room.new ≡ room_after room.old (write_response (book_for rules) (asked rules) cc.0 rc.0 (handed handles.now (by_value sessions.now) lent.now parameters.now) (length room.old)) }
{
    marshal::response::write(
        rules,
        rc,
        cc,
        handles,
        first_three(sessions),
        lent,
        parameters,
        room,
    )
}
