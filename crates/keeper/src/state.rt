// The keeper's bytes: for each of 64 places a handle, the size of a nonce, and room for its bytes; and how many places are open. The
// open ones are the first so many (specs/State.antt). An array and no struct: C lends it as one opaque block, and all bytes are a state.
ghost use Rattle.std.specs.Prelude.{◌≡◌, false, ℕ, ◌+◌, ◌≤◌, ◌<◌, length};
ghost use Rattle.keeper.specs.State.{capped, count_of, counted, counted_or, handle_at, place_below, place_of, put, renewed, shifted, size_at};

use base::field::write_bytes;

pub type State = [u8; 4424];

pub(crate) const PLACES: usize = 64;

// The places of a group are looked at together.
const GROUP: usize = 8;

pub(crate) const COUNT: usize = 0;

const HANDLES: usize = 8;

const SIZES: usize = 264;

pub(crate) const NONCES: usize = 328;

// A count or a size, which is at most 64.
fn capped(n: u8) -> usize
    ensures { result ≡ capped n }
{
    (n as usize).min(PLACES)
}

// How many sessions are open.
#[tactic(auto, unfolding(crate::specs::State::count_of))]
pub(crate) fn count(s: &State) -> usize
    ensures { result ≡ count_of s.now }
{
    capped(s[COUNT])
}

// ---- one place: a plain number below 64, since the search reckons with it, and would take a type of its own apart at every use

// Its handle stands with the last byte first, as most machines have their numbers.
#[tactic(auto, unfolding(crate::specs::State::handle_at, base::specs::Bytes::number))]
fn handle_at(s: &State, i: usize) -> u32
    requires { i < 64 }
    ensures { result ≡ handle_at s.now i }
{
    let at = HANDLES + 4 * i;
    u32::from_le_bytes([s[at], s[at + 1], s[at + 2], s[at + 3]])
}

// The bytes of its nonce, of which it has room for 64.
#[tactic(auto, unfolding(crate::specs::State::size_at))]
pub(crate) fn size_at(s: &State, i: usize) -> usize
    requires { i < 64 }
    ensures { result ≡ size_at s.now i }
{
    capped(s[SIZES + i])
}

// Another nonce for it.
#[tactic(auto, unfolding(crate::specs::State::renewed))]
pub(crate) fn renew(s: &mut State, i: usize, nonce: &[u8])
    requires { (i < 64) × (length nonce.now ≤ 64) }
    ensures { s.new ≡ renewed i nonce.now s.old }
{
    let at = NONCES + 64 * i;
    s[SIZES + i] = nonce.len() as u8;
    let _ = write_bytes(s, at, nonce);
}

// Another session for it.
#[tactic(auto, using(crate::proofs::Places::handle_laid))]
pub(crate) fn put(s: &mut State, i: usize, handle: u32, nonce: &[u8])
    requires { (i < 64) × (length nonce.now ≤ 64) }
    ensures { s.new ≡ put i handle nonce.now s.old }
{
    let at = HANDLES + 4 * i;
    let _ = write_bytes(s, at, &handle.to_le_bytes());
    renew(s, i, nonce);
}

// The session of one place at another.
#[tactic(auto, using(crate::proofs::Places::size_most, crate::proofs::Places::length_nonce, crate::proofs::Places::nonce_through))]
pub(crate) fn shift(s: &mut State, from: usize, to: usize)
    requires { (from < 64) × (to < 64) }
    ensures bytes { s.new ≡ shifted from to s.old }
    ensures fits { handle_at s.old from < 4294967296 }
{
    let size = size_at(s, from);
    let handle = handle_at(s, from);
    let start = NONCES + 64 * from;
    let mut nonce = [0; 64];
    let _ = write_bytes(&mut nonce, 0, &s[start..start + 64]);
    put(s, to, handle, &nonce[..size]);
}

// ---- the place of a handle

// Whether a place of a group has the handle: all are looked at, so that they are compared at once, where `any` stops at the first.
#[tactic(auto, using(crate::proofs::Found::none_more))]
fn has(s: &State, from: usize, handle: u32) -> bool
    requires { from + 8 ≤ 64 }
    ensures { result ≡ false → (k : ℕ) → k ≤ 8 → place_below s.now handle (from + k) ≡ place_below s.now handle from }
{
    let mut any = false;
    for i in 0..GROUP {
        if handle_at(s, from + i) == handle {
            any = true;
        }
    }
    any
}

// The last place that has the handle, of those from one on up to another. No `find`: its closure would have to ask for a place below 64.
#[tactic(auto, using(crate::proofs::Found::place_hit, crate::proofs::Found::place_miss))]
fn within(s: &State, from: usize, to: usize, handle: u32) -> Option<usize>
    requires { (from ≤ to) × (to ≤ 64) }
    ensures { place_below s.now handle to ≡ counted_or (place_below s.now handle from) result }
{
    for i in (from..to).rev() {
        if handle_at(s, i) == handle {
            return Some(i);
        }
    }
    None
}

// The same of all open places: a group is looked at one by one only where it has the handle. Where one group starts the one before it
// ends, so a `for` over the groups, which reckons both anew, is no plainer.
#[tactic(auto, using(crate::proofs::Found::group_passed, crate::proofs::Found::nothing_below, crate::proofs::Places::count_most), unfolding(crate::specs::State::place_of))]
pub(crate) fn place(s: &State, handle: u32) -> Option<usize>
    ensures { counted result ≡ place_of s.now handle }
{
    let mut to = count(s);
    while 0 < to {
        let from = (to - 1) / GROUP * GROUP;
        if has(s, from, handle) {
            if let Some(at) = within(s, from, to, handle) {
                return Some(at);
            }
        }
        to = from;
    }
    None
}
