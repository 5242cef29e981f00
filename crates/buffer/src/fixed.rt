// The fixed buffer (document 01, "Buffers"), over any capacity: a size, and the room that the bytes held stand at the start of.
ghost use Rattle.std.specs.Prelude.{◌≡◌, [], ◌∷◌, ◌+◌};
ghost use Rattle.base.specs.Answer.{said};
ghost use Rattle.base.specs.Said.{after, done, gives};
ghost use Rattle.buffer.specs.Capacities.{most, of, said_buffer, said_read, said_taken};
ghost use Rattle.buffer.specs.Fixed.{buffer, copied, count, equal, extended, grown, judged, marshalled, new, room_after, size_said, unmarshalled, wire_length};
ghost use Rattle.buffer.specs.View.{prefix};

use crate::view;
use base::error::{Area, TpmError};
use base::field::write_bytes;

// Fixed memory: no heap, so an array and its size, and no Vec.
#[derive(Clone, Copy)]
pub struct TpmBuffer<const N: usize> {
    pub size: u16,
    pub data: [u8; N],
}

pub type TpmBuffer64 = TpmBuffer<64>;

pub type TpmBuffer1024 = TpmBuffer<1024>;

// The size of a record, where it passes no capacity.
fn judge(capacity: usize, size: u16) -> Result<usize, TpmError>
    ensures { said result ≡ judged capacity size (gives size) }
{
    let size = size as usize;
    if capacity < size {
        return Err(TpmError::TooManyBytes {
            area: Area::None,
            offset: 0,
            limit: capacity,
            actual: size,
        });
    }
    Ok(size)
}

// The size after `count` bytes more.
#[tactic(auto, unfolding(crate::specs::Fixed::grown))]
fn grow(capacity: usize, size: u16, count: usize) -> Result<usize, TpmError>
    ensures { said result ≡ grown capacity size count }
{
    let size = judge(capacity, size)?;
    let left = capacity - size;
    if left < count {
        return Err(TpmError::BufferOverflow {
            area: Area::None,
            offset: size,
            needed: count,
            available: left,
        });
    }
    Ok(size + count)
}

impl<const N: usize> TpmBuffer<N> {
    // The most bytes that it holds: a size is a number of 16 bits.
    fn most() -> usize
        ensures { result ≡ most N }
    {
        N.min(u16::MAX as usize)
    }

    pub fn new() -> Self
        ensures { of result ≡ new N }
    {
        TpmBuffer {
            size: 0,
            data: [0; N],
        }
    }

    // One byte more.
    pub fn try_push(&mut self, byte: u8) -> Result<(), TpmError>
        ensures answer_value { said result ≡ done (extended (most N) (byte ∷ []) (of self.old)) }
        ensures buffer_value { of self.new ≡ after (of self.old) (extended (most N) (byte ∷ []) (of self.old)) }
    {
        self.try_extend_from_slice(&[byte])
    }

    // The given bytes behind those that it holds.
    #[tactic(auto, using(crate::proofs::Rooms::grown_size), unfolding(crate::specs::Fixed::extended))]
    pub fn try_extend_from_slice(&mut self, given: &[u8]) -> Result<(), TpmError>
        ensures answer_value { said result ≡ done (extended (most N) given.now (of self.old)) }
        ensures buffer_value { of self.new ≡ after (of self.old) (extended (most N) given.now (of self.old)) }
    {
        self.size = Self::extend_lent(self.size, &mut self.data, given)? as u16;
        Ok(())
    }

    // A buffer of the given bytes.
    pub fn from_slice(given: &[u8]) -> Result<Self, TpmError>
        ensures { said_buffer result ≡ extended (most N) given.now (new N) }
    {
        let mut buffer = Self::new();
        buffer.try_extend_from_slice(given)?;
        Ok(buffer)
    }

    // The bytes held, to the start of lent room.
    pub fn copy_out(&self, lent: &mut [u8]) -> Result<usize, TpmError>
        ensures result_value { said result ≡ count self.now.size (copied N (of self.now) lent.old) }
        ensures lent_after { lent.new ≡ after lent.old (copied N (of self.now) lent.old) }
    {
        Self::copy_out_lent(self.size, &self.data, lent)
    }

    // Whether two buffers hold the same bytes: no derived `==`, which would take what stands behind them too.
    #[tactic(auto, unfolding(crate::specs::Fixed::equal))]
    pub fn eq(&self, other: &Self) -> Result<bool, TpmError>
        ensures { said result ≡ equal N (of self.now) (of other.now) }
    {
        let size = judge(N, self.size)?;
        let other_size = judge(N, other.size)?;
        Ok(self.data[..size] == other.data[..other_size])
    }

    // The bytes that the buffer takes on the wire.
    #[tactic(auto, unfolding(crate::specs::Fixed::wire_length))]
    pub fn len(&self) -> Result<usize, TpmError>
        ensures { said result ≡ wire_length N self.now.size }
    {
        Ok(2 + judge(N, self.size)?)
    }

    // The buffer's TPM2B, to the start of lent room.
    pub fn marshal(&self, lent: &mut [u8]) -> Result<usize, TpmError>
        ensures result_value { said result ≡ count (2 + self.now.size) (marshalled N (of self.now) lent.old) }
        ensures lent_after { lent.new ≡ after lent.old (marshalled N (of self.now) lent.old) }
    {
        Self::marshal_lent(self.size, &self.data, lent)
    }

    // The buffer of the TPM2B at the start of s, with the bytes that this takes.
    #[tactic(auto, using(crate::proofs::Views::prefix_fits), unfolding(crate::specs::Fixed::unmarshalled))]
    pub fn unmarshal(s: &[u8]) -> Result<(Self, usize), TpmError>
        ensures taken { said_taken result ≡ prefix N s.now }
        ensures buffer_value { said_read result ≡ unmarshalled N s.now }
    {
        let n = view::validate_prefix(N, s)?;
        let size = n - 2;
        let mut data = [0; N];
        let room = &mut data[..];
        write_bytes(room, 0, &s[2..n])?;
        let size = size as u16;
        Ok((TpmBuffer { size, data }, n))
    }

    // Three of these on a size and a lent room, as C has them: nothing is copied but the bytes that move.
    #[tactic(auto, using(crate::proofs::Rooms::grown_size), unfolding(crate::specs::Fixed::extended))]
    pub fn extend_lent(size: u16, data: &mut [u8; N], given: &[u8]) -> Result<usize, TpmError>
        ensures result_value { said result ≡ size_said (extended (most N) given.now (buffer size «data».old)) }
        ensures data_after { «data».new ≡ room_after «data».old (extended (most N) given.now (buffer size «data».old)) }
    {
        let grown = grow(Self::most(), size, given.len())?;
        // A part to write to is lent from a slice, not from an array of N.
        let room = &mut data[..];
        write_bytes(room, size as usize, given)?;
        Ok(grown)
    }

    #[tactic(auto, unfolding(crate::specs::Fixed::emitted))]
    pub fn copy_out_lent(size: u16, data: &[u8; N], lent: &mut [u8]) -> Result<usize, TpmError>
        ensures result_value { said result ≡ count size (copied N (buffer size «data».now) lent.old) }
        ensures lent_after { lent.new ≡ after lent.old (copied N (buffer size «data».now) lent.old) }
    {
        let size = judge(N, size)?;
        write_bytes(lent, 0, &data[..size])?;
        Ok(size)
    }

    #[tactic(auto, unfolding(crate::specs::Fixed::emitted))]
    pub fn marshal_lent(size: u16, data: &[u8; N], lent: &mut [u8]) -> Result<usize, TpmError>
        ensures result_value { said result ≡ count (2 + size) (marshalled N (buffer size «data».now) lent.old) }
        ensures lent_after { lent.new ≡ after lent.old (marshalled N (buffer size «data».now) lent.old) }
    {
        let held = judge(N, size)?;
        let needed = 2 + held;
        if lent.len() < needed {
            return Err(TpmError::BufferOverflow {
                area: Area::None,
                offset: 0,
                needed,
                available: lent.len(),
            });
        }
        write_bytes(lent, 0, &size.to_be_bytes())?;
        write_bytes(lent, 2, &data[..held])?;
        Ok(needed)
    }
}
