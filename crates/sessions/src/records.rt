// A lent slice of session records by value, as the writers of marshal take it.
ghost use Rattle.std.specs.Prelude.{◌≡◌};
ghost use Rattle.frame.specs.Walk.{by_value};

use frame::session::{Entries, Session};

// How many records there are, and the first three; zeros stand for a record that is not there. They are made once and copied whole, as
// records are: where a slot gets a record or zeros field by field, LLVM copies the record piece by piece, padding and all.
pub fn first_three(s: &[Session]) -> Entries
    ensures { result ≡ by_value s.now }
{
    let none = Entries::new().first;
    Entries {
        count: s.len(),
        first: s.first().copied().unwrap_or(none),
        second: s.get(1).copied().unwrap_or(none),
        third: s.get(2).copied().unwrap_or(none),
    }
}
