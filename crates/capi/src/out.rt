// How an answer goes out: one place for every call.
ghost use Rattle.std.specs.Prelude.{◌≡◌, ℕ, Bool, List, [], ◌∷◌};
ghost use Rattle.base.specs.Error.{numbered, writer_numbered};
ghost use Rattle.base.specs.Answer.{Part, said_by, said_range};
ghost use Rattle.base.specs.Said.{Why, gives, in_area, no_area, number_of};
ghost use Rattle.capi.specs.Frame.{part_and_tail};
ghost use Rattle.capi.specs.Out.{Reports, answer_over, ends, none, one, refusal_over, truth};

use base::code::{TpmCc, TpmRc, TpmSt};
use base::error::{Area, TpmError, WriteError};
use base::part::Span;

// The lent array: an answer's numbers from place 0 on, at most four; a refusal's fields from place 4 on, and its area at place 7.
pub type Numbers = [u64; 8];

// Refusals of no field, of two and of three. The area is stored first: the last store is then one that answers have too,
// and the compiler makes one of them.
pub(crate) fn bare(number: u32, out: &mut Numbers) -> u32
    ensures value { result ≡ number }
    ensures out_after { out.new ≡ refusal_over (no_area (number ∷ [])) out.old }
{
    out[7] = Area::None.number() as u64;
    number
}

pub(crate) fn two(number: u32, area: Area, offset: usize, b: u64, out: &mut Numbers) -> u32
    ensures value { result ≡ number }
    ensures out_after { out.new ≡ refusal_over (in_area area (number ∷ offset ∷ b ∷ [])) out.old }
{
    out[7] = area.number() as u64;
    out[4] = offset as u64;
    out[5] = b;
    number
}

fn three(number: u32, area: Area, offset: usize, b: usize, c: usize, out: &mut Numbers) -> u32
    ensures value { result ≡ number }
    ensures out_after { out.new ≡ refusal_over (in_area area (number ∷ offset ∷ b ∷ c ∷ [])) out.old }
{
    out[7] = area.number() as u64;
    out[4] = offset as u64;
    out[5] = b as u64;
    out[6] = c as u64;
    number
}

// A value that an answer can be: what it stands for, and the numbers by which that goes out.
pub(crate) trait Answer {
    ghost Told: { Type 0 };

    ghost told: { Self → Told };

    ghost numbers: { Told → List ℕ };

    fn store(self, out: &mut Numbers)
        ensures { out.new ≡ answer_over (numbers (told self)) out.old };
}

// What a call may refuse with: its number is returned, and its fields and its area go into the array.
pub(crate) trait Refused {
    ghost why: { Self → Why };

    fn store(self, out: &mut Numbers) -> u32
        ensures value { result ≡ number_of (why self) }
        ensures out_after { out.new ≡ refusal_over (why self) out.old };
}

// How a call ends that refuses nothing, and how one that may refuse.
pub(crate) fn give<T: Answer>(x: T, out: &mut Numbers) -> u32
    ensures { Reports T.numbers (gives (T.told x)) out.old out.new result }
{
    x.store(out);
    0
}

pub(crate) fn report<T: Answer, E: Refused>(a: Result<T, E>, out: &mut Numbers) -> u32
    ensures { Reports T.numbers (said_by T.told E.why a) out.old out.new result }
{
    match a {
        Ok(x) => give(x, out),
        Err(e) => e.store(out),
    }
}

impl Answer for () {
    ghost Told = { Unit {0} };

    ghost told = { λ u. u };

    ghost numbers = { none };

    fn store(self, _out: &mut Numbers) {}
}

// A number goes out as itself, and a tag and the two codes by theirs. Each type has an impl of its own: a macro may write none.
impl Answer for u16 {
    ghost Told = { ℕ };

    ghost told = { λ n. n };

    ghost numbers = { one };

    fn store(self, out: &mut Numbers) {
        out[0] = self as u64;
    }
}

impl Answer for u32 {
    ghost Told = { ℕ };

    ghost told = { λ n. n };

    ghost numbers = { one };

    fn store(self, out: &mut Numbers) {
        out[0] = self as u64;
    }
}

impl Answer for usize {
    ghost Told = { ℕ };

    ghost told = { λ n. n };

    ghost numbers = { one };

    fn store(self, out: &mut Numbers) {
        out[0] = self as u64;
    }
}

impl Answer for TpmSt {
    ghost Told = { ℕ };

    ghost told = { λ t. t.0 };

    ghost numbers = { one };

    fn store(self, out: &mut Numbers) {
        out[0] = self.0 as u64;
    }
}

impl Answer for TpmCc {
    ghost Told = { ℕ };

    ghost told = { λ c. c.0 };

    ghost numbers = { one };

    fn store(self, out: &mut Numbers) {
        out[0] = self.0 as u64;
    }
}

impl Answer for TpmRc {
    ghost Told = { ℕ };

    ghost told = { λ c. c.0 };

    ghost numbers = { one };

    fn store(self, out: &mut Numbers) {
        out[0] = self.0 as u64;
    }
}

impl Answer for bool {
    ghost Told = { Bool };

    ghost told = { λ b. b };

    ghost numbers = { truth };

    fn store(self, out: &mut Numbers) {
        out[0] = self as u64;
    }
}

impl Answer for Span {
    ghost Told = { Part };

    ghost told = { λ p. record { from = p.from; to = p.to } };

    ghost numbers = { ends };

    fn store(self, out: &mut Numbers) {
        out[0] = self.from as u64;
        out[1] = self.to as u64;
    }
}

impl Refused for TpmError {
    ghost why = { numbered };

    fn store(self, out: &mut Numbers) -> u32 {
        match self {
            TpmError::UnexpectedEnd {
                area,
                offset,
                needed,
                available,
            } => three(1, area, offset, needed, available, out),
            TpmError::TrailingData {
                area,
                offset,
                actual,
            } => two(2, area, offset, actual as u64, out),
            TpmError::InvalidTag {
                area,
                offset,
                value,
            } => two(3, area, offset, value, out),
            TpmError::InvalidCc {
                area,
                offset,
                value,
            } => two(4, area, offset, value, out),
            TpmError::InvalidRc {
                area,
                offset,
                value,
            } => two(5, area, offset, value, out),
            TpmError::TooManyItems {
                area,
                offset,
                limit,
                actual,
            } => three(6, area, offset, limit, actual, out),
            TpmError::TooManyBytes {
                area,
                offset,
                limit,
                actual,
            } => three(8, area, offset, limit, actual, out),
            TpmError::BufferOverflow {
                area,
                offset,
                needed,
                available,
            } => three(9, area, offset, needed, available, out),
        }
    }
}

// A writer's: the same, and 7.
impl Refused for WriteError {
    ghost why = { writer_numbered };

    fn store(self, out: &mut Numbers) -> u32 {
        match self {
            WriteError::Common(e) => e.store(out),
            WriteError::IntegerTooLarge { offset, value } => two(7, Area::None, offset, value, out),
        }
    }
}

// A part from the start of so many bytes, and what is behind it. No `Answer`: how many bytes there are no span tells.
pub(crate) fn with_tail(a: Result<Span, TpmError>, all: usize, out: &mut Numbers) -> u32
    ensures { Reports (part_and_tail all) (said_range a) out.old out.new result }
{
    match a {
        Ok(Span { from, to }) => {
            out[0] = from as u64;
            out[1] = to as u64;
            out[2] = to as u64;
            out[3] = all as u64;
            0
        }
        Err(e) => e.store(out),
    }
}
