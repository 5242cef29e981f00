// The response code, of crate rc. A code goes out as the number of its kind, its base, the number of its part and its value.
ghost use Rattle.std.specs.Prelude.{◌≡◌};
ghost use Rattle.rc.specs.declared.code.Code.{Code};
ghost use Rattle.rc.specs.Code.{read_code};
ghost use Rattle.capi.specs.Code.{code_of, parts_and_value, value};
ghost use Rattle.capi.specs.Out.{Reports};

use crate::out::{Answer, Numbers, Refused, report};
use crate::rules::Unknown;
use base::code::TpmRc;
use rc::code::{Code, Kind};

impl Answer for Code {
    ghost Told = { Code };

    ghost told = { λ c. c };

    ghost numbers = { parts_and_value };

    fn store(self, out: &mut Numbers) {
        out[0] = self.kind().number() as u64;
        out[1] = self.base().0 as u64;
        out[2] = self.index() as u64;
        out[3] = self.value() as u64;
    }
}

#[unsafe(no_mangle)]
pub extern "C" fn skein_rc_read(rc: u32, out: &mut Numbers) -> u32
    ensures { Reports parts_and_value (read_code rc) out.old out.new result }
{
    report(rc::code::read(TpmRc(rc)), out)
}

// The value of the code of a kind, by its number, a base and an index.
#[tactic(auto, using(crate::proofs::Numbered::no_kind))]
#[unsafe(no_mangle)]
pub extern "C" fn skein_rc_value(kind: u32, base: u32, index: u8, out: &mut Numbers) -> u32
    ensures { Reports value (code_of kind base index) out.old out.new result }
{
    match Kind::try_from(kind) {
        Ok(kind) => {
            out[0] = Code::from_parts(kind, base, index).value() as u64;
            0
        }
        Err(_) => Unknown::Kind(kind).store(out),
    }
}
