// Opening, closing and asking.
ghost use Rattle.std.specs.Prelude.{◌≡◌, length, replicate};
ghost use Rattle.base.specs.Said.{after, done};
ghost use Rattle.keeper.specs.Keeper.{asked, closed, opened};
ghost use Rattle.keeper.specs.Refusal.{said_asked, said_done};
ghost use Rattle.keeper.specs.State.{asked_in, bytes_of, closed_in, held, opened_in};

use crate::refusal::Refusal;
use crate::state::{COUNT, NONCES, PLACES, State, count, place, put, shift, size_at};
use base::error::{Area, TpmError};
use base::part::Span;

// The most bytes of a nonce (document 02, W6 and W8).
const LONGEST: usize = 64;

// A keeper with no session.
pub fn new(keeper: &mut State)
    ensures { keeper.new ≡ replicate 4424 0 }
{
    *keeper = [0; 4424];
}

// How many sessions are open.
#[tactic(auto, using(crate::proofs::Found::length_held))]
pub fn len(keeper: &State) -> usize
    ensures { result ≡ length (held keeper.now) }
{
    count(keeper)
}

// Opens a session with its first nonce.
pub fn open(keeper: &mut State, handle: u32, nonce: &[u8]) -> Result<(), Refusal>
    ensures answer { said_done result ≡ done (opened handle nonce.now (held keeper.old)) }
    ensures sessions { held keeper.new ≡ after (held keeper.old) (opened handle nonce.now (held keeper.old)) }
    ensures bytes { keeper.new ≡ after keeper.old (opened_in handle nonce.now keeper.old) }
{
    if place(keeper, handle).is_some() {
        return Err(Refusal::AlreadyOpen);
    }
    if LONGEST < nonce.len() {
        return Err(Refusal::Frame(TpmError::TooManyBytes {
            area: Area::None,
            offset: 0,
            limit: LONGEST,
            actual: nonce.len(),
        }));
    }
    let n = count(keeper);
    if PLACES <= n {
        return Err(Refusal::AllOpen);
    }
    put(keeper, n, handle, nonce);
    keeper[COUNT] = n as u8 + 1;
    Ok(())
}

// Closes a session. The last one takes its place.
#[tactic(auto, using(crate::proofs::Calls::place_inside, crate::proofs::Places::count_most))]
pub fn close(keeper: &mut State, handle: u32) -> Result<(), Refusal>
    ensures answer { said_done result ≡ done (closed handle (held keeper.old)) }
    ensures sessions { held keeper.new ≡ after (held keeper.old) (closed handle (held keeper.old)) }
    ensures bytes { keeper.new ≡ after keeper.old (closed_in handle keeper.old) }
{
    let Some(at) = place(keeper, handle) else {
        return Err(Refusal::NotOpen);
    };
    let last = count(keeper) - 1;
    shift(keeper, last, at);
    keeper[COUNT] = last as u8;
    Ok(())
}

// Where the nonce of a session stands in the keeper's bytes.
#[tactic(auto, using(crate::proofs::Calls::place_inside, crate::proofs::Places::count_most, crate::proofs::Places::size_most))]
pub fn ask(keeper: &State, handle: u32) -> Result<Span, Refusal>
    ensures nonce { bytes_of (said_asked result) keeper.now ≡ asked handle (held keeper.now) }
    ensures place { said_asked result ≡ asked_in handle keeper.now }
{
    let Some(at) = place(keeper, handle) else {
        return Err(Refusal::NotOpen);
    };
    let from = NONCES + 64 * at;
    Ok(Span {
        from,
        to: from + size_at(keeper, at),
    })
}
