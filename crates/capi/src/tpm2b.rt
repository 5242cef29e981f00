// The TPM2B view, of buffer::view. A part goes out as its start and its end.
ghost use Rattle.std.specs.Prelude.{length};
ghost use Rattle.base.specs.Parts.{up_to};
ghost use Rattle.base.specs.Said.{done, gives};
ghost use Rattle.buffer.specs.View.{data_range, is_empty, prefix, read_size, whole};
ghost use Rattle.capi.specs.Frame.{part_and_tail};
ghost use Rattle.capi.specs.Out.{Reports, ends, none, one, truth};

use crate::out::{Numbers, give, report, with_tail};

#[unsafe(no_mangle)]
pub extern "C" fn skein_tpm2b_validate_prefix(capacity: usize, s: &[u8], out: &mut Numbers) -> u32
    ensures { Reports one (prefix capacity s.now) out.old out.new result }
{
    report(buffer::view::validate_prefix(capacity, s), out)
}

#[unsafe(no_mangle)]
pub extern "C" fn skein_tpm2b_validate(capacity: usize, s: &[u8], out: &mut Numbers) -> u32
    ensures { Reports none (done (whole capacity s.now)) out.old out.new result }
{
    report(buffer::view::validate(capacity, s), out)
}

// Where the view of s whole stands.
#[unsafe(no_mangle)]
pub extern "C" fn skein_tpm2b_cast(capacity: usize, s: &[u8], out: &mut Numbers) -> u32
    ensures { Reports ends (up_to (whole capacity s.now)) out.old out.new result }
{
    report(buffer::view::cast_range(capacity, s), out)
}

// Where the view of the TPM2B at the start stands, and where what is behind it.
#[unsafe(no_mangle)]
pub extern "C" fn skein_tpm2b_cast_prefix(capacity: usize, s: &[u8], out: &mut Numbers) -> u32
    ensures { Reports (part_and_tail (length s.now)) (up_to (prefix capacity s.now)) out.old out.new result }
{
    with_tail(buffer::view::cast_prefix_range(capacity, s), s.len(), out)
}

#[unsafe(no_mangle)]
pub extern "C" fn skein_tpm2b_size(s: &[u8], out: &mut Numbers) -> u32
    ensures { Reports one (read_size s.now) out.old out.new result }
{
    report(buffer::view::size(s), out)
}

#[unsafe(no_mangle)]
pub extern "C" fn skein_tpm2b_data(s: &[u8], out: &mut Numbers) -> u32
    ensures { Reports ends (data_range s.now) out.old out.new result }
{
    report(buffer::view::data_range(s), out)
}

#[unsafe(no_mangle)]
pub extern "C" fn skein_tpm2b_is_empty(s: &[u8], out: &mut Numbers) -> u32
    ensures { Reports truth (is_empty s.now) out.old out.new result }
{
    report(buffer::view::is_empty(s), out)
}

#[unsafe(no_mangle)]
pub extern "C" fn skein_tpm2b_len(s: &[u8], out: &mut Numbers) -> u32
    ensures { Reports one (gives (length s.now)) out.old out.new result }
{
    give(buffer::view::len(s), out)
}
