// The calls on a TPM2B, of which the first number is the capacity, and those of the fixed buffers that start from
// nothing, each on a room of its own.
use crate::answer::Report;
use crate::call::Call;
use capi::{buffer64, buffer1024, tpm2b};

pub(crate) fn read(call: Call, bytes: &[u8]) -> Option<Report> {
    let out = &mut [0u64; 8];
    let capacity = call.first;
    let (count, number) = match call.name {
        b"tpm2b_validate_prefix" => (1, tpm2b::skein_tpm2b_validate_prefix(capacity, bytes, out)),
        b"tpm2b_validate" => (0, tpm2b::skein_tpm2b_validate(capacity, bytes, out)),
        b"tpm2b_cast" => (2, tpm2b::skein_tpm2b_cast(capacity, bytes, out)),
        b"tpm2b_cast_prefix" => (4, tpm2b::skein_tpm2b_cast_prefix(capacity, bytes, out)),
        b"tpm2b_size" => (1, tpm2b::skein_tpm2b_size(bytes, out)),
        b"tpm2b_data" => (2, tpm2b::skein_tpm2b_data(bytes, out)),
        b"tpm2b_is_empty" => (1, tpm2b::skein_tpm2b_is_empty(bytes, out)),
        b"tpm2b_len" => (1, tpm2b::skein_tpm2b_len(bytes, out)),
        b"buffer64_from_slice" => (
            1,
            buffer64::skein_buffer64_from_slice(bytes, &mut [0u8; 64], out),
        ),
        b"buffer64_unmarshal" => (
            2,
            buffer64::skein_buffer64_unmarshal(bytes, &mut [0u8; 64], out),
        ),
        b"buffer64_wire_len" => (1, buffer64::skein_buffer64_wire_len(call.tag()?, out)),
        b"buffer1024_from_slice" => (
            1,
            buffer1024::skein_buffer1024_from_slice(bytes, &mut [0u8; 1024], out),
        ),
        b"buffer1024_unmarshal" => (
            2,
            buffer1024::skein_buffer1024_unmarshal(bytes, &mut [0u8; 1024], out),
        ),
        b"buffer1024_wire_len" => (1, buffer1024::skein_buffer1024_wire_len(call.tag()?, out)),
        _ => return None,
    };
    Some(Report {
        number,
        count,
        out: *out,
    })
}
