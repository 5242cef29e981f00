// The fixed buffer of 64 bytes, of buffer::fixed: its size is a number, and its room is lent. C has a name for each capacity.
ghost use Rattle.std.specs.Prelude.{◌≡◌, [], ◌∷◌, ◌+◌};
ghost use Rattle.base.specs.Said.{after, gives};
ghost use Rattle.buffer.specs.Fixed.{buffer as record_of, copied, count, equal, extended, marshalled, new, room_after, size_said, unmarshalled, wire_length};
ghost use Rattle.buffer.specs.View.{prefix};
ghost use Rattle.capi.specs.Buffer.{size_and_wire, size_alone};
ghost use Rattle.capi.specs.Out.{Reports, one, truth};

use crate::fixed;
use crate::out::Numbers;

pub type Room = [u8; 64];

#[unsafe(no_mangle)]
pub extern "C" fn skein_buffer64_new(data: &mut Room, out: &mut Numbers) -> u32
    ensures reports { Reports size_alone (gives (new 64)) out.old out.new result }
    ensures data_after { «data».new ≡ (new 64).room }
{
    fixed::new(data, out)
}

#[unsafe(no_mangle)]
pub extern "C" fn skein_buffer64_wire_len(size: u16, out: &mut Numbers) -> u32
    ensures { Reports one (wire_length 64 size) out.old out.new result }
{
    fixed::wire_len::<64>(size, out)
}

#[unsafe(no_mangle)]
pub extern "C" fn skein_buffer64_held(
    size: u16,
    data: &Room,
    room: &mut [u8],
    out: &mut Numbers,
) -> u32
    ensures reports { Reports one (count size (copied 64 (record_of size «data».now) room.old)) out.old out.new result }
    ensures room_after { room.new ≡ after room.old (copied 64 (record_of size «data».now) room.old) }
{
    fixed::held(size, data, room, out)
}

#[unsafe(no_mangle)]
pub extern "C" fn skein_buffer64_marshal(
    size: u16,
    data: &Room,
    room: &mut [u8],
    out: &mut Numbers,
) -> u32
    ensures reports { Reports one (count (2 + size) (marshalled 64 (record_of size «data».now) room.old)) out.old out.new result }
    ensures room_after { room.new ≡ after room.old (marshalled 64 (record_of size «data».now) room.old) }
{
    fixed::marshal(size, data, room, out)
}

#[unsafe(no_mangle)]
pub extern "C" fn skein_buffer64_eq(
    size: u16,
    data: &Room,
    other_size: u16,
    other: &Room,
    out: &mut Numbers,
) -> u32
    ensures { Reports truth (equal 64 (record_of size «data».now) (record_of other_size other.now)) out.old out.new result }
{
    fixed::eq(size, data, other_size, other, out)
}

#[unsafe(no_mangle)]
pub extern "C" fn skein_buffer64_push(
    byte: u8,
    size: u16,
    data: &mut Room,
    out: &mut Numbers,
) -> u32
    ensures reports { Reports size_alone (extended 64 (byte ∷ []) (record_of size «data».old)) out.old out.new result }
    ensures data_after { «data».new ≡ room_after «data».old (extended 64 (byte ∷ []) (record_of size «data».old)) }
{
    fixed::push(byte, size, data, out)
}

#[unsafe(no_mangle)]
pub extern "C" fn skein_buffer64_extend(
    s: &[u8],
    size: u16,
    data: &mut Room,
    out: &mut Numbers,
) -> u32
    ensures reports { Reports one (size_said (extended 64 s.now (record_of size «data».old))) out.old out.new result }
    ensures data_after { «data».new ≡ room_after «data».old (extended 64 s.now (record_of size «data».old)) }
{
    fixed::extend(s, size, data, out)
}

#[unsafe(no_mangle)]
pub extern "C" fn skein_buffer64_from_slice(s: &[u8], data: &mut Room, out: &mut Numbers) -> u32
    ensures reports { Reports size_alone (extended 64 s.now (new 64)) out.old out.new result }
    ensures data_after { «data».new ≡ room_after «data».old (extended 64 s.now (new 64)) }
{
    fixed::from_slice(s, data, out)
}

#[unsafe(no_mangle)]
pub extern "C" fn skein_buffer64_unmarshal(s: &[u8], data: &mut Room, out: &mut Numbers) -> u32
    ensures reports { Reports size_and_wire (prefix 64 s.now) out.old out.new result }
    ensures data_after { «data».new ≡ room_after «data».old (unmarshalled 64 s.now) }
{
    fixed::unmarshal(s, data, out)
}
