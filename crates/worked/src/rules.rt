// The rules that a line names by words behind its numbers: `standard` is the standard reading, else it is the Rust's;
// behind it `1.38` or `1.59` is the table of that revision, else it is the crate's.
ghost use Rattle.std.specs.Prelude.{◌<◌};

use frame::rules::{Reading, Rules};
use table::revision::Revision;

pub(crate) fn named(words: Option<&[u8]>) -> Option<Rules> {
    let (reading, revision) = match words {
        None => (Reading::Rust, Revision::Crate),
        Some(b"standard") => (Reading::Standard, Revision::Crate),
        Some(b"1.38") => (Reading::Rust, Revision::Lib138),
        Some(b"standard 1.38") => (Reading::Standard, Revision::Lib138),
        Some(b"1.59") => (Reading::Rust, Revision::Lib159),
        Some(b"standard 1.59") => (Reading::Standard, Revision::Lib159),
        Some(_) => return None,
    };
    Some(Rules { reading, revision })
}

// The numbers that C has for a table alone, and for the rules.
pub(crate) fn table_number(revision: Revision) -> u32
    ensures { result < 48 }
{
    16 * revision as u32
}

pub(crate) fn number(rules: Rules) -> u32
    ensures { result < 50 }
{
    table_number(rules.revision) + rules.reading as u32
}
