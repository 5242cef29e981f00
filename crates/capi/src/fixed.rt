// The calls on a fixed buffer, over any capacity: its size is a number, and its room is lent, as C has them. Those that have a
// whole buffer by value ask that it fits in memory, which no type says of a capacity.
ghost use Rattle.std.specs.Prelude.{◌≡◌, [], ◌∷◌, ◌+◌, ◌<◌};
ghost use Rattle.base.specs.Said.{after, gives};
ghost use Rattle.buffer.specs.Capacities.{most, of};
ghost use Rattle.buffer.specs.Fixed.{buffer as record_of, copied, count, equal, extended, marshalled, new, room_after, size_said, unmarshalled, wire_length};
ghost use Rattle.buffer.specs.View.{prefix};
ghost use Rattle.capi.specs.Buffer.{size_and_wire, size_alone};
ghost use Rattle.capi.specs.Out.{Reports, one, truth};

use crate::out::{Numbers, Refused, report};
use base::field::write_bytes;
use buffer::fixed::TpmBuffer;

// Lays a buffer down in lent room. No `*data = buffer.data`, which the check does not cover.
#[tactic(auto, using(base::proofs::Laid::all_written))]
fn lay<const N: usize>(buffer: &TpmBuffer<N>, data: &mut [u8; N], out: &mut Numbers) -> u32
    ensures reports { Reports size_alone (gives (of buffer.now)) out.old out.new result }
    ensures data_after { «data».new ≡ (of buffer.now).room }
{
    let _ = write_bytes(data, 0, &buffer.data);
    out[0] = buffer.size as u64;
    0
}

pub(crate) fn new<const N: usize>(data: &mut [u8; N], out: &mut Numbers) -> u32
    requires { N < 65536 }
    ensures reports { Reports size_alone (gives (new N)) out.old out.new result }
    ensures data_after { «data».new ≡ (new N).room }
{
    lay(&TpmBuffer::new(), data, out)
}

pub(crate) fn wire_len<const N: usize>(size: u16, out: &mut Numbers) -> u32
    requires { N < 65536 }
    ensures { Reports one (wire_length N size) out.old out.new result }
{
    let data = [0; N];
    report(TpmBuffer { size, data }.len(), out)
}

pub(crate) fn held<const N: usize>(
    size: u16,
    data: &[u8; N],
    room: &mut [u8],
    out: &mut Numbers,
) -> u32
    ensures reports { Reports one (count size (copied N (record_of size «data».now) room.old)) out.old out.new result }
    ensures room_after { room.new ≡ after room.old (copied N (record_of size «data».now) room.old) }
{
    report(TpmBuffer::copy_out_lent(size, data, room), out)
}

pub(crate) fn marshal<const N: usize>(
    size: u16,
    data: &[u8; N],
    room: &mut [u8],
    out: &mut Numbers,
) -> u32
    ensures reports { Reports one (count (2 + size) (marshalled N (record_of size «data».now) room.old)) out.old out.new result }
    ensures room_after { room.new ≡ after room.old (marshalled N (record_of size «data».now) room.old) }
{
    report(TpmBuffer::marshal_lent(size, data, room), out)
}

pub(crate) fn eq<const N: usize>(
    size: u16,
    data: &[u8; N],
    other_size: u16,
    other: &[u8; N],
    out: &mut Numbers,
) -> u32
    requires { N < 65536 }
    ensures { Reports truth (equal N (record_of size «data».now) (record_of other_size other.now)) out.old out.new result }
{
    let one = TpmBuffer { size, data: *data };
    let other = TpmBuffer {
        size: other_size,
        data: *other,
    };
    report(one.eq(&other), out)
}

pub(crate) fn extend<const N: usize>(
    s: &[u8],
    size: u16,
    data: &mut [u8; N],
    out: &mut Numbers,
) -> u32
    ensures reports { Reports one (size_said (extended (most N) s.now (record_of size «data».old))) out.old out.new result }
    ensures data_after { «data».new ≡ room_after «data».old (extended (most N) s.now (record_of size «data».old)) }
{
    report(TpmBuffer::extend_lent(size, data, s), out)
}

pub(crate) fn push<const N: usize>(
    byte: u8,
    size: u16,
    data: &mut [u8; N],
    out: &mut Numbers,
) -> u32
    ensures reports { Reports size_alone (extended (most N) (byte ∷ []) (record_of size «data».old)) out.old out.new result }
    ensures data_after { «data».new ≡ room_after «data».old (extended (most N) (byte ∷ []) (record_of size «data».old)) }
{
    extend(&[byte], size, data, out)
}

pub(crate) fn from_slice<const N: usize>(s: &[u8], data: &mut [u8; N], out: &mut Numbers) -> u32
    requires { N < 65536 }
    ensures reports { Reports size_alone (extended (most N) s.now (new N)) out.old out.new result }
    ensures data_after { «data».new ≡ room_after «data».old (extended (most N) s.now (new N)) }
{
    match &TpmBuffer::from_slice(s) {
        Ok(buffer) => lay(buffer, data, out),
        Err(e) => e.store(out),
    }
}

#[tactic(auto, using(base::proofs::Laid::all_written), unfolding(buffer::specs::Fixed::unmarshalled))]
pub(crate) fn unmarshal<const N: usize>(s: &[u8], data: &mut [u8; N], out: &mut Numbers) -> u32
    requires { N < 65536 }
    ensures reports { Reports size_and_wire (prefix N s.now) out.old out.new result }
    ensures data_after { «data».new ≡ room_after «data».old (unmarshalled N s.now) }
{
    match &TpmBuffer::<N>::unmarshal(s) {
        Ok((buffer, n)) => {
            let _ = write_bytes(data, 0, &buffer.data);
            out[0] = buffer.size as u64;
            out[1] = *n as u64;
            0
        }
        Err(e) => e.store(out),
    }
}
