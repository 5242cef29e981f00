// The calls on one field, at the place that the first number is.
use crate::answer::Report;
use crate::call::Call;
use base::error::TpmError;
use base::field::write_bytes;
use capi::field;

pub(crate) fn read(call: Call, bytes: &[u8]) -> Option<Report> {
    let out = &mut [0u64; 8];
    let number = match call.name {
        b"read_u16" => field::skein_read_u16(call.first, bytes, out),
        b"read_u32" => field::skein_read_u32(call.first, bytes, out),
        _ => return None,
    };
    Some(Report {
        number,
        count: 1,
        out: *out,
    })
}

pub(crate) fn write(call: Call, bytes: &mut [u8]) -> Option<Report> {
    let out = &mut [0u64; 8];
    let value = u32::try_from(call.second).ok()?;
    let number = match call.name {
        b"write_bytes" => return copied(call.first, value as usize, bytes),
        b"write_u32" => field::skein_write_u32(call.first, value, bytes, out),
        b"write_u16" => {
            let value = u16::try_from(value).ok()?;
            field::skein_write_u16(call.first, value, bytes, out)
        }
        _ => return None,
    };
    Some(Report::bare(number, *out))
}

// The copy of bytes, which has no call for C: so many of ff are put at the place. Its one refusal is told as a call for
// C would tell it.
fn copied(place: usize, count: usize, bytes: &mut [u8]) -> Option<Report> {
    let ones = [255u8; 64];
    let given = ones.get(..count).unwrap_or(&[]);
    let mut out = [0u64; 8];
    match write_bytes(bytes, place, given) {
        Ok(()) => Some(Report::bare(0, out)),
        Err(
            TpmError::BufferOverflow {
                area,
                offset,
                needed,
                available,
            },
        ) => {
            out[4] = offset as u64;
            out[5] = needed as u64;
            out[6] = available as u64;
            out[7] = area.number() as u64;
            Some(Report::bare(9, out))
        }
        Err(_) => None,
    }
}
