// What commands and responses share, of frame::header.
ghost use Rattle.std.specs.Prelude.{◌≡◌, eqb, length};
ghost use Rattle.base.specs.Said.{after, done, gives};
ghost use Rattle.frame.specs.Header.{read_size, read_tag, set_tag};
ghost use Rattle.capi.specs.Out.{Reports, none, one, truth};

use crate::out::{Numbers, give, report};
use base::code::TpmSt;

#[unsafe(no_mangle)]
pub extern "C" fn skein_frame_tag(s: &[u8], out: &mut Numbers) -> u32
    ensures { Reports one (read_tag s.now) out.old out.new result }
{
    report(frame::header::tag(s), out)
}

#[unsafe(no_mangle)]
pub extern "C" fn skein_frame_size(s: &[u8], out: &mut Numbers) -> u32
    ensures { Reports one (read_size s.now) out.old out.new result }
{
    report(frame::header::size(s), out)
}

#[unsafe(no_mangle)]
pub extern "C" fn skein_frame_set_tag(tag: u16, s: &mut [u8], out: &mut Numbers) -> u32
    ensures reports { Reports none (done (set_tag tag s.old)) out.old out.new result }
    ensures s_after { s.new ≡ after s.old (set_tag tag s.old) }
{
    report(frame::header::set_tag(s, TpmSt(tag)), out)
}

#[unsafe(no_mangle)]
pub extern "C" fn skein_frame_len(s: &[u8], out: &mut Numbers) -> u32
    ensures { Reports one (gives (length s.now)) out.old out.new result }
{
    give(frame::header::len(s), out)
}

#[unsafe(no_mangle)]
pub extern "C" fn skein_frame_is_empty(s: &[u8], out: &mut Numbers) -> u32
    ensures { Reports truth (gives (eqb (length s.now) 0)) out.old out.new result }
{
    give(frame::header::is_empty(s), out)
}
