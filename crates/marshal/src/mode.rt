// How a response is written: in the Rust's mode, or in the standard one, and there with the tag of the answer to a bad tag asked
// for or not. The Rust's mode cannot be asked for that tag.
ghost use Rattle.std.specs.Prelude.{◌≡◌};
ghost use Rattle.marshal.specs.Mode.{asked, reading_of, rules_for};

use frame::rules::{Reading, Rules};
use table::revision::Revision;

#[derive(Clone, Copy, PartialEq)]
pub enum Mode {
    Rust,
    Standard,
    BadTag,
}

// Of the writer of responses: the mode, and the table of commands.
#[derive(Clone, Copy)]
pub struct ResponseRules {
    pub mode: Mode,
    pub revision: Revision,
}

pub(crate) fn asks_bad_tag(rules: ResponseRules) -> bool
    ensures { result ≡ asked rules }
{
    rules.mode == Mode::BadTag
}

// The reading by which what is written in a mode is read again. No From, nor is there one below: it would be a public promise.
fn reading_of(mode: Mode) -> Reading
    ensures { result ≡ reading_of mode }
{
    match mode {
        Mode::Rust => Reading::Rust,
        Mode::Standard => Reading::Standard,
        Mode::BadTag => Reading::Standard,
    }
}

// The rules by which what is written is read again.
pub(crate) fn rules_for(rules: ResponseRules) -> Rules
    ensures { result ≡ rules_for rules }
{
    Rules {
        reading: reading_of(rules.mode),
        revision: rules.revision,
    }
}
