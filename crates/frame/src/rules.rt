// By which rules a frame is judged.
ghost use Rattle.std.specs.Prelude.{◌≡◌};
ghost use Rattle.frame.specs.Rules.{book_of};

use table::revision::Revision;

// The Rust's reading, or the standard one, which knows the answer to a bad tag and how long a nonce or an HMAC can be.
#[derive(Clone, Copy, PartialEq)]
pub enum Reading {
    Rust,
    Standard,
}

// Every call that judges a frame takes one: the reading, and the table of commands.
#[derive(Clone, Copy)]
pub struct Rules {
    pub reading: Reading,
    pub revision: Revision,
}

// Whether the answer to a bad tag is a response.
pub(crate) fn knows_bad_tag(rules: Rules) -> bool
    ensures { result ≡ (book_of rules).answers_bad_tag }
{
    rules.reading == Reading::Standard
}

// The most bytes of a nonce or an HMAC: what a length of two bytes can say, or the longest digest that the Library has. By a `match`: a third reading has to say its own.
pub fn longest(rules: Rules) -> usize
    ensures { result ≡ (book_of rules).longest }
{
    match rules.reading {
        Reading::Rust => u16::MAX as usize,
        Reading::Standard => 64,
    }
}
