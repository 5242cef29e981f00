// The field calls of base::field.
ghost use Rattle.std.specs.Prelude.{◌≡◌};
ghost use Rattle.base.specs.Field.{read_field, write_field};
ghost use Rattle.base.specs.Said.{after, done};
ghost use Rattle.capi.specs.Out.{Reports, one, none};

use crate::out::{Numbers, report};
use base::error::Area;

#[unsafe(no_mangle)]
pub extern "C" fn skein_read_u16(place: usize, s: &[u8], out: &mut Numbers) -> u32
    ensures { Reports one (read_field 2 place s.now) out.old out.new result }
{
    report(base::field::read_u16(Area::None, s, place), out)
}

#[unsafe(no_mangle)]
pub extern "C" fn skein_read_u32(place: usize, s: &[u8], out: &mut Numbers) -> u32
    ensures { Reports one (read_field 4 place s.now) out.old out.new result }
{
    report(base::field::read_u32(Area::None, s, place), out)
}

#[unsafe(no_mangle)]
pub extern "C" fn skein_write_u16(place: usize, n: u16, s: &mut [u8], out: &mut Numbers) -> u32
    ensures reports { Reports none (done (write_field 2 place n s.old)) out.old out.new result }
    ensures s_after { s.new ≡ after s.old (write_field 2 place n s.old) }
{
    report(base::field::write_u16(s, place, n), out)
}

#[unsafe(no_mangle)]
pub extern "C" fn skein_write_u32(place: usize, n: u32, s: &mut [u8], out: &mut Numbers) -> u32
    ensures reports { Reports none (done (write_field 4 place n s.old)) out.old out.new result }
    ensures s_after { s.new ≡ after s.old (write_field 4 place n s.old) }
{
    report(base::field::write_u32(s, place, n), out)
}
