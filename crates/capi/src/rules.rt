// What a number in a call names: a kind of response code; a table; rules, sixteen times the table's number and the reading's; or a mode,
// sixteen times the table's and the mode's.
ghost use Rattle.std.specs.Prelude.{◌≡◌, Result};
ghost use Rattle.base.specs.Answer.{said_by};
ghost use Rattle.base.specs.Said.{Said, then};
ghost use Rattle.frame.specs.declared.rules.Rules.{Rules};
ghost use Rattle.capi.specs.Out.{Reports};
ghost use Rattle.capi.specs.Rules.{mode_named, mode_numbered, named, reading_named, revision_numbered, rules_numbered, table_named, unknown};

use crate::out::{Answer, Numbers, Refused, report, two};
use base::error::Area;
use frame::rules::{Reading, Rules};
use marshal::mode::{Mode, ResponseRules};
use table::revision::Revision;

// A number that names nothing. Its refusal's number is this crate's own.
#[derive(Clone, Copy)]
pub(crate) enum Unknown {
    Kind(u32),
    Rules(u32),
}

impl Refused for Unknown {
    ghost why = { unknown };

    fn store(self, out: &mut Numbers) -> u32 {
        match self {
            Unknown::Kind(n) => two(100, Area::None, 0, n as u64, out),
            Unknown::Rules(n) => two(101, Area::None, 0, n as u64, out),
        }
    }
}

// The table at a place of their list, in a number. This and the two like it are C's numbers, which the enums' own crates do not know, and one over
// a trait of the three would take an impl of each.
fn table_named(number: u32, place: u32) -> Result<Revision, Unknown>
    ensures { named result ≡ table_named number place }
{
    match place {
        0 => Ok(Revision::Crate),
        1 => Ok(Revision::Lib138),
        2 => Ok(Revision::Lib159),
        _ => Err(Unknown::Rules(number)),
    }
}

// Of a call that takes a table alone.
#[tactic(auto, unfolding(crate::specs::Rules::revision_numbered))]
pub(crate) fn revision_named(number: u32) -> Result<Revision, Unknown>
    ensures { named result ≡ revision_numbered number }
{
    if number % 16 == 0 {
        table_named(number, number / 16)
    } else {
        Err(Unknown::Rules(number))
    }
}

// The reading at a place of their list, in a number.
fn reading_named(number: u32, place: u32) -> Result<Reading, Unknown>
    ensures { named result ≡ reading_named number place }
{
    match place {
        0 => Ok(Reading::Rust),
        1 => Ok(Reading::Standard),
        _ => Err(Unknown::Rules(number)),
    }
}

// Of a call that judges a frame, and of the writer of commands.
#[tactic(auto, unfolding(crate::specs::Rules::rules_numbered))]
pub(crate) fn rules_named(number: u32) -> Result<Rules, Unknown>
    ensures { named result ≡ rules_numbered number }
{
    let revision = table_named(number, number / 16)?;
    let reading = reading_named(number, number % 16)?;
    Ok(Rules { reading, revision })
}

// The mode at a place of their list, in a number.
fn mode_named(number: u32, place: u32) -> Result<Mode, Unknown>
    ensures { named result ≡ mode_named number place }
{
    match place {
        0 => Ok(Mode::Rust),
        1 => Ok(Mode::Standard),
        2 => Ok(Mode::BadTag),
        _ => Err(Unknown::Rules(number)),
    }
}

// Of the writer of responses.
#[tactic(auto, unfolding(crate::specs::Rules::mode_numbered))]
pub(crate) fn response_rules_named(number: u32) -> Result<ResponseRules, Unknown>
    ensures { named result ≡ mode_numbered number }
{
    let revision = table_named(number, number / 16)?;
    let mode = mode_named(number, number % 16)?;
    Ok(ResponseRules { mode, revision })
}

// What a call answers by the rules of a number. A call that writes to lent bytes takes the number by itself: where none are named the closure
// is not called, and no clause says that what it would write to stays.
pub(crate) fn by_rules<T: Answer, E: Refused, F: FnOnce(Rules) -> Result<T, E>>(
    number: u32,
    out: &mut Numbers,
    call: F,
) -> u32
    requires { F.IsAlwaysCallable call }
    ensures { (say : Rules → Said T.Told) → ((by : Rules) (a : Result T E) → F.post call by a → said_by T.told E.why a ≡ say by) → Reports T.numbers (then (rules_numbered number) say) out.old out.new result }
{
    match rules_named(number) {
        Ok(by) => report(call(by), out),
        Err(unknown) => unknown.store(out),
    }
}
