// The writer of commands, over session records in a slice.
ghost use Rattle.std.specs.Prelude.{◌≡◌, length};
ghost use Rattle.base.specs.Answer.{said_total};
ghost use Rattle.frame.specs.Rules.{book_of};
ghost use Rattle.frame.specs.Walk.{by_value};
ghost use Rattle.marshal.specs.Handed.{handed};
ghost use Rattle.marshal.specs.Write.{counted, room_after, write_command};

use crate::records::first_three;
use base::code::{TpmCc, TpmSt};
use base::error::WriteError;
use frame::rules::Rules;
use frame::session::Session;

// Writes a command to the start of the room, and answers how many bytes it has. More than three records are refused by their
// number, before any of them is looked at.
pub fn write(
    rules: Rules,
    tag: TpmSt,
    cc: TpmCc,
    handles: &[u8],
    sessions: &[Session],
    lent: &[u8],
    parameters: &[u8],
    room: &mut [u8],
) -> Result<usize, WriteError>
    ensures answer { said_total result ≡ counted (write_command (book_of rules) tag.0 cc.0 (handed handles.now (by_value sessions.now) lent.now parameters.now) (length room.old)) }
    ensures bytes { room.new ≡ room_after room.old (write_command (book_of rules) tag.0 cc.0 (handed handles.now (by_value sessions.now) lent.now parameters.now) (length room.old)) }
{
    marshal::command::write(
        rules,
        tag,
        cc,
        handles,
        first_three(sessions),
        lent,
        parameters,
        room,
    )
}
