// A response code taken apart, and put together again.
ghost use Rattle.std.specs.Prelude.{◌≡◌, ◌&&◌, ◌*◌, ◌%◌};
ghost use Rattle.base.specs.Answer.{said};
ghost use Rattle.rc.specs.Code.{IsKindOf, base_of, bit, found, index_of, kind_number, kind_of, of_parts, read_code, read_fmt1, value_of};

use crate::known::base_known;
use base::code::TpmRc;
use base::error::{Area, TpmError};

// A base code. Reading gives known ones alone.
#[derive(Clone, Copy)]
pub struct TpmRcBase(pub u32);

// What a response code says: format zero, an error or a warning; or format one, of no part, or of the parameter,
// handle or session of a number.
#[derive(Clone, Copy)]
pub enum Code {
    Fmt0(TpmRcBase),
    Warn(TpmRcBase),
    Fmt1(TpmRcBase),
    Parameter(TpmRcBase, u8),
    Handle(TpmRcBase, u8),
    Session(TpmRcBase, u8),
}

// The kinds of codes, in the order of the variants of Code.
#[derive(Clone, Copy)]
pub enum Kind {
    Fmt0,
    Warn,
    Fmt1,
    Parameter,
    Handle,
    Session,
}

// A number that names no kind.
#[derive(Clone, Copy)]
pub struct UnknownKind(pub u32);

// What a response code says. README and docs/ name `read`, and a TryFrom beside it would say the same.
pub fn read(rc: TpmRc) -> Result<Code, TpmError>
    ensures { said result ≡ read_code rc.0 }
{
    code_of(rc.0).ok_or(rc.refused(Area::None, 0))
}

// The code of a value that has one. Bit 7 tells the format, and so it is looked at before the warning's bits.
#[tactic(auto, unfolding(crate::specs::Code::read_code, crate::specs::Code::read_fmt0))]
fn code_of(value: u32) -> Option<Code>
    ensures { found value result ≡ read_code value }
{
    if is_fmt1(value) {
        fmt1_of(value)
    } else if !base_known(value) {
        None
    } else if is_warning(value) {
        Some(Code::Warn(TpmRcBase(value)))
    } else {
        Some(Code::Fmt0(TpmRcBase(value)))
    }
}

// Bit 7.
#[tactic(auto, using(crate::proofs::Bits::masked))]
fn is_fmt1(value: u32) -> bool
    ensures { result ≡ bit 128 value }
{
    value & 0x80 != 0
}

// Bits 8 and 11.
#[tactic(auto, using(crate::proofs::Bits::masked))]
fn is_warning(value: u32) -> bool
    ensures { result ≡ (bit 256 value && bit 2048 value) }
{
    value & 0x100 != 0 && value & 0x800 != 0
}

// P, bit 6.
#[tactic(auto, using(crate::proofs::Bits::masked))]
fn is_parameter(value: u32) -> bool
    ensures { result ≡ bit 64 value }
{
    value & 0x40 != 0
}

// The same of a value whose bit 7 is set: bits 0 to 5 are the base's, bit 6 is P, bits 8 to 11 are N. Fields of bits are taken by division,
// as the definition has them; a mask is plainer for one bit alone.
#[tactic(auto, unfolding(crate::specs::Code::read_fmt1, crate::specs::Code::read_index))]
fn fmt1_of(value: u32) -> Option<Code>
    ensures { found value result ≡ read_fmt1 value }
{
    if value >= 4096 {
        return None;
    }
    let base = 128 + value % 64;
    if !base_known(base) {
        return None;
    }
    let base = TpmRcBase(base);
    match (is_parameter(value), (value / 256 % 16) as u8) {
        (true, 0) => None,
        (true, n) => Some(Code::Parameter(base, n)),
        (false, 0) => Some(Code::Fmt1(base)),
        (false, n @ 1..=7) => Some(Code::Handle(base, n)),
        (false, n) => Some(Code::Session(base, n - 8)),
    }
}

impl Code {
    // The code of a kind, a base and an index, of which kinds without one take no notice.
    pub fn from_parts(kind: Kind, base: u32, index: u8) -> Self
        ensures { result ≡ of_parts kind base index }
    {
        let base = TpmRcBase(base);
        match kind {
            Kind::Fmt0 => Code::Fmt0(base),
            Kind::Warn => Code::Warn(base),
            Kind::Fmt1 => Code::Fmt1(base),
            Kind::Parameter => Code::Parameter(base, index),
            Kind::Handle => Code::Handle(base, index),
            Kind::Session => Code::Session(base, index),
        }
    }

    pub fn kind(self) -> Kind
        ensures { result ≡ kind_of self }
    {
        match self {
            Code::Fmt0(_) => Kind::Fmt0,
            Code::Warn(_) => Kind::Warn,
            Code::Fmt1(_) => Kind::Fmt1,
            Code::Parameter(_, _) => Kind::Parameter,
            Code::Handle(_, _) => Kind::Handle,
            Code::Session(_, _) => Kind::Session,
        }
    }

    // The number of the part that a code speaks of, 0 where it speaks of none.
    pub fn index(self) -> u8
        ensures { result ≡ index_of self }
    {
        match self {
            Code::Fmt0(_) | Code::Warn(_) | Code::Fmt1(_) => 0,
            Code::Parameter(_, n) | Code::Handle(_, n) | Code::Session(_, n) => n,
        }
    }

    // The value of a code, an index masked to four bits. A method and no From: a code has three numbers more, and a method's name says which.
    pub fn value(self) -> u32
        ensures { result ≡ value_of self }
    {
        match self {
            Code::Fmt0(base) | Code::Warn(base) | Code::Fmt1(base) => base.0,
            Code::Parameter(base, n) => base.0 | 64 | shifted(n as u32),
            Code::Handle(base, n) => base.0 | shifted(n as u32),
            Code::Session(base, n) => base.0 | shifted(n as u32 + 8),
        }
    }

    // The base code under any code.
    pub fn base(self) -> TpmRcBase
        ensures { result.0 ≡ base_of self }
    {
        match self {
            Code::Fmt0(base) | Code::Warn(base) | Code::Fmt1(base) => base,
            Code::Parameter(base, _) | Code::Handle(base, _) | Code::Session(base, _) => base,
        }
    }
}

impl Kind {
    // The number of a kind, from 0 in the order of the variants: C counts kinds by it.
    pub fn number(self) -> u32
        ensures { result ≡ kind_number self }
    {
        self as u32
    }
}

// The kind of a number, as it comes from C.
impl TryFrom<u32> for Kind {
    type Error = UnknownKind;

    ghost try_from_gives = { IsKindOf };

    fn try_from(number: u32) -> Result<Kind, UnknownKind> {
        match number {
            0 => Ok(Kind::Fmt0),
            1 => Ok(Kind::Warn),
            2 => Ok(Kind::Fmt1),
            3 => Ok(Kind::Parameter),
            4 => Ok(Kind::Handle),
            5 => Ok(Kind::Session),
            _ => Err(UnknownKind(number)),
        }
    }
}

// The low four bits of a number, at the bits of N, told as the definition tells them.
fn shifted(n: u32) -> u32
    ensures { result ≡ n % 16 * 256 }
{
    n % 16 * 256
}
