// Exports of capi::tpm2b.
ghost use Rattle.std.specs.Prelude.{length};
ghost use Rattle.base.specs.Parts.{up_to};
ghost use Rattle.base.specs.Said.{done, gives};
ghost use Rattle.buffer.specs.View.{data_range, is_empty, prefix, read_size, whole};
ghost use Rattle.capi.specs.Frame.{part_and_tail};
ghost use Rattle.capi.specs.Out.{Reports, ends, none, one, truth};

use capi::out::Numbers;

#[unsafe(no_mangle)]
pub extern "C" fn skein_tpm2b_validate_prefix(capacity: usize, s: &[u8], out: &mut Numbers) -> u32
    ensures { Reports one (prefix capacity s.now) out.old out.new result }
{
    capi::tpm2b::skein_tpm2b_validate_prefix(capacity, s, out)
}

#[unsafe(no_mangle)]
pub extern "C" fn skein_tpm2b_validate(capacity: usize, s: &[u8], out: &mut Numbers) -> u32
    ensures { Reports none (done (whole capacity s.now)) out.old out.new result }
{
    capi::tpm2b::skein_tpm2b_validate(capacity, s, out)
}

#[unsafe(no_mangle)]
pub extern "C" fn skein_tpm2b_cast(capacity: usize, s: &[u8], out: &mut Numbers) -> u32
    ensures { Reports ends (up_to (whole capacity s.now)) out.old out.new result }
{
    capi::tpm2b::skein_tpm2b_cast(capacity, s, out)
}

#[unsafe(no_mangle)]
pub extern "C" fn skein_tpm2b_cast_prefix(capacity: usize, s: &[u8], out: &mut Numbers) -> u32
    ensures { Reports (part_and_tail (length s.now)) (up_to (prefix capacity s.now)) out.old out.new result }
{
    capi::tpm2b::skein_tpm2b_cast_prefix(capacity, s, out)
}

#[unsafe(no_mangle)]
pub extern "C" fn skein_tpm2b_size(s: &[u8], out: &mut Numbers) -> u32
    ensures { Reports one (read_size s.now) out.old out.new result }
{
    capi::tpm2b::skein_tpm2b_size(s, out)
}

#[unsafe(no_mangle)]
pub extern "C" fn skein_tpm2b_data(s: &[u8], out: &mut Numbers) -> u32
    ensures { Reports ends (data_range s.now) out.old out.new result }
{
    capi::tpm2b::skein_tpm2b_data(s, out)
}

#[unsafe(no_mangle)]
pub extern "C" fn skein_tpm2b_is_empty(s: &[u8], out: &mut Numbers) -> u32
    ensures { Reports truth (is_empty s.now) out.old out.new result }
{
    capi::tpm2b::skein_tpm2b_is_empty(s, out)
}

#[unsafe(no_mangle)]
pub extern "C" fn skein_tpm2b_len(s: &[u8], out: &mut Numbers) -> u32
    ensures { Reports one (gives (length s.now)) out.old out.new result }
{
    capi::tpm2b::skein_tpm2b_len(s, out)
}
