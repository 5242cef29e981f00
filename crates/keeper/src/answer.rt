// An answer of the TPM, with the command that it answers: each open session that the command names moves to the nonce at the same
// position of the answer.
ghost use Rattle.std.specs.Prelude.{◌≡◌, ◌||◌, ◌≤◌, ◌<◌, length};
ghost use Rattle.base.specs.Said.{after, done};
ghost use Rattle.frame.specs.Parts.{EachField, Kept, entries_of, field_in};
ghost use Rattle.keeper.specs.Keeper.{answered, settling};
ghost use Rattle.keeper.specs.Refusal.{said_done};
ghost use Rattle.keeper.specs.State.{answered_in, counted, held, place_named, renewed_at, same_place, settled_in};

use crate::refusal::Refusal;
use crate::state::{State, place, renew};
use frame::rules::{Reading, Rules};
use frame::session::{Entries, Field};
use table::revision::Revision;

// The place of the session of a handle, where there is one and the session is open.
fn named(s: &State, handle: Option<u32>) -> Option<usize>
    ensures { counted result ≡ place_named s.now handle }
{
    place(s, handle?)
}

// Whether two are one place.
fn same(first: Option<usize>, second: Option<usize>) -> bool
    ensures { result ≡ same_place (counted first) (counted second) }
{
    first.is_some() && first == second
}

// Whether two of three are.
fn repeated(first: Option<usize>, second: Option<usize>, third: Option<usize>) -> bool
    ensures { result ≡ (same_place (counted first) (counted second) || (same_place (counted first) (counted third) || same_place (counted second) (counted third))) }
{
    same(first, second) || same(first, third) || same(second, third)
}

// Gives the session at a place, if there is one, a nonce of the answer.
fn move_to(s: &mut State, at: Option<usize>, nonce: Field, response: &[u8])
    requires { (counted at ≤ 64) × (0 < counted at → Kept 64 (length response.now) nonce) }
    ensures { s.new ≡ renewed_at (counted at) (field_in response.now nonce) s.old }
{
    if let Some(i) = at {
        renew(s, i, &response[nonce.at..nonce.at + nonce.size as usize]);
    }
}

// What is checked of the entries of the two frames, and then the moves.
fn settle(s: &mut State, command: Entries, response: Entries, bytes: &[u8]) -> Result<(), Refusal>
    requires { (command.count ≤ 3) × (response.count ≤ 3) × EachField (Kept 64 (length bytes.now)) (entries_of response) }
    ensures answer { said_done result ≡ done (settling bytes.now (entries_of command) (entries_of response) (held s.old)) }
    ensures later { s.new ≡ after s.old (settled_in bytes.now (entries_of command) (entries_of response) s.old) }
{
    let count = command.count;
    let first = named(s, (0 < count).then_some(command.first.handle));
    let second = named(s, (1 < count).then_some(command.second.handle));
    let third = named(s, (2 < count).then_some(command.third.handle));
    if repeated(first, second, third) {
        return Err(Refusal::HandleRepeated);
    }
    if count != response.count {
        return Err(Refusal::CountsDiffer);
    }
    move_to(s, first, response.first.nonce, bytes);
    move_to(s, second, response.second.nonce, bytes);
    move_to(s, third, response.third.nonce, bytes);
    Ok(())
}

// Both frames pass in the standard reading, at the table that is named.
pub fn answer(
    revision: Revision,
    keeper: &mut State,
    command: &[u8],
    response: &[u8],
) -> Result<(), Refusal>
    ensures answer { said_done result ≡ done (answered revision command.now response.now (held keeper.old)) }
    ensures sessions { held keeper.new ≡ after (held keeper.old) (answered revision command.now response.now (held keeper.old)) }
    ensures bytes { keeper.new ≡ after keeper.old (answered_in revision command.now response.now keeper.old) }
{
    let by = Rules {
        reading: Reading::Standard,
        revision,
    };
    let asked = frame::command::sessions(by, command)?;
    let told = frame::response::sessions(by, asked.cc, response)?;
    if told.rc.0 == 0 {
        settle(keeper, asked.entries, told.entries, response)
    } else {
        Ok(())
    }
}
