// Exports of capi::array.
ghost use Rattle.std.specs.Prelude.{◌≡◌, length};
ghost use Rattle.frame.specs.Walk.{by_value};
ghost use Rattle.marshal.specs.Handed.{handed};
ghost use Rattle.marshal.specs.Write.{counted, room_after, write_command, write_response};
ghost use Rattle.capi.specs.Rules.{under, under_mode};
ghost use Rattle.capi.specs.Out.{Reports, one};

use capi::out::Numbers;
use frame::session::Session;

#[unsafe(no_mangle)]
pub extern "C" fn skein_command_write_array(
    rules: u32,
    tag: u16,
    cc: u32,
    handles: &[u8],
    records: &[Session],
    lent: &[u8],
    parameters: &[u8],
    room: &mut [u8],
    out: &mut Numbers,
) -> u32
    ensures reports { Reports one (under rules λ book. counted (write_command book tag cc (handed handles.now (by_value records.now) lent.now parameters.now) (length room.old))) out.old out.new result }
    ensures room_after { room.new ≡ room_after room.old (under rules λ book. write_command book tag cc (handed handles.now (by_value records.now) lent.now parameters.now) (length room.old)) }
{
    capi::array::skein_command_write_array(
        rules, tag, cc, handles, records, lent, parameters, room, out,
    )
}

#[unsafe(no_mangle)]
pub extern "C" fn skein_response_write_array(
    rules: u32,
    rc: u32,
    cc: u32,
    handles: &[u8],
    records: &[Session],
    lent: &[u8],
    parameters: &[u8],
    room: &mut [u8],
    out: &mut Numbers,
) -> u32
    ensures reports { Reports one (under_mode rules λ book asked. counted (write_response book asked cc rc (handed handles.now (by_value records.now) lent.now parameters.now) (length room.old))) out.old out.new result }
    ensures room_after { room.new ≡ room_after room.old (under_mode rules λ book asked. write_response book asked cc rc (handed handles.now (by_value records.now) lent.now parameters.now) (length room.old)) }
{
    capi::array::skein_response_write_array(
        rules, rc, cc, handles, records, lent, parameters, room, out,
    )
}
