// Exports of capi::code.
ghost use Rattle.rc.specs.Code.{read_code};
ghost use Rattle.capi.specs.Code.{code_of, parts_and_value, value};
ghost use Rattle.capi.specs.Out.{Reports};

use capi::out::Numbers;

#[unsafe(no_mangle)]
pub extern "C" fn skein_rc_read(rc: u32, out: &mut Numbers) -> u32
    ensures { Reports parts_and_value (read_code rc) out.old out.new result }
{
    capi::code::skein_rc_read(rc, out)
}

#[unsafe(no_mangle)]
pub extern "C" fn skein_rc_value(kind: u32, base: u32, index: u8, out: &mut Numbers) -> u32
    ensures { Reports value (code_of kind base index) out.old out.new result }
{
    capi::code::skein_rc_value(kind, base, index, out)
}
