// The walk over the entries of an authorization area, one for commands and responses. `command` is a flag and no closure: the two differ in the
// handle before an entry alone, and the definitions take its width.
ghost use Rattle.std.specs.Prelude.{◌≡◌, ℕ, ◌≤◌};
ghost use Rattle.base.specs.Answer.{said};
ghost use Rattle.base.specs.Said.{done, gives, within};
ghost use Rattle.frame.specs.Answer.{behind_of, entries_by_value, handle_width};
ghost use Rattle.frame.specs.Rules.{unlimited};
ghost use Rattle.frame.specs.Walk.{read_entry, read_signed, read_tpm2b, walk};

use crate::session::{Entries, Field, MAX_SESSIONS, Session};
use base::error::{Area, TpmError};
use base::field::{be16, be32, read_u16, read_u32};

// The size of the TPM2B at a place, which is within the limit. A long or a short one is refused at its length field, and of a short one the
// length counts.
fn tpm2b(limit: usize, s: &[u8], place: usize) -> Result<u16, TpmError>
    ensures result_value { said result ≡ read_tpm2b limit s.now place }
    ensures within { (size : ℕ) → said result ≡ gives size → size ≤ limit }
{
    let size = read_u16(Area::Authorization, s, place)?;
    if limit < size as usize {
        return Err(TpmError::TooManyBytes {
            area: Area::Authorization,
            offset: place,
            limit,
            actual: size as usize,
        });
    }
    let needed = 2 + size as usize;
    let left = s.len() - place;
    if left < needed {
        return Err(TpmError::UnexpectedEnd {
            area: Area::Authorization,
            offset: place,
            needed,
            available: left,
        });
    }
    Ok(size)
}

// The place behind what every entry has: nonce, attribute byte and HMAC.
fn behind_signed(limit: usize, s: &[u8], place: usize) -> Result<usize, TpmError>
    ensures { said result ≡ behind_of (read_signed limit 0 s.now place) }
{
    let nonce = tpm2b(limit, s, place)?;
    let at = place + 2 + nonce as usize;
    if s.len() <= at {
        return Err(TpmError::UnexpectedEnd {
            area: Area::Authorization,
            offset: at,
            needed: 1,
            available: 0,
        });
    }
    let hmac = tpm2b(limit, s, at + 1)?;
    Ok(at + 3 + hmac as usize)
}

// The place behind an entry, with a handle before it in a command.
fn behind_entry(limit: usize, command: bool, s: &[u8], place: usize) -> Result<usize, TpmError>
    ensures { said result ≡ behind_of (read_entry limit (handle_width command) s.now place) }
{
    if command {
        read_u32(Area::Authorization, s, place)?;
        behind_signed(limit, s, place + 4)
    } else {
        behind_signed(limit, s, place)
    }
}

// Whether what stands from a place of s to its end is entries, with nonces and HMACs of at most so many bytes.
pub(crate) fn walk(limit: usize, command: bool, s: &[u8], place: usize) -> Result<(), TpmError>
    ensures { said result ≡ done (walk limit 3 (handle_width command) s.now place) }
{
    let mut at = place;
    for _ in 0..MAX_SESSIONS {
        if s.len() <= at {
            return Ok(());
        }
        at = behind_entry(limit, command, s, at)?;
    }
    if at < s.len() {
        return Err(TpmError::TooManyItems {
            area: Area::Authorization,
            offset: at,
            limit: MAX_SESSIONS,
            actual: MAX_SESSIONS + 1,
        });
    }
    Ok(())
}

// ---- what was walked over, read without a check: by any limit it is the same

// What every entry has, where it stands.
fn signed_at(handle: u32, s: &[u8], place: usize) -> Session
    requires { done (read_signed unlimited handle s.now place) ≡ gives tt }
    ensures { gives result ≡ read_signed unlimited handle s.now place }
{
    let nonce = be16(s[place], s[place + 1]);
    let at = place + 2 + nonce as usize;
    Session {
        handle,
        nonce: Field {
            at: place + 2,
            size: nonce,
        },
        attributes: s[at],
        hmac: Field {
            at: at + 3,
            size: be16(s[at + 1], s[at + 2]),
        },
    }
}

// An entry, where one stands.
fn entry_at(command: bool, s: &[u8], place: usize) -> Session
    requires { done (read_entry unlimited (handle_width command) s.now place) ≡ gives tt }
    ensures { gives result ≡ read_entry unlimited (handle_width command) s.now place }
{
    if command {
        let handle = be32(s[place], s[place + 1], s[place + 2], s[place + 3]);
        signed_at(handle, s, place + 4)
    } else {
        signed_at(0, s, place)
    }
}

// The entries from a place of s to its end. Inlined, or the record is copied.
#[inline(always)]
pub(crate) fn entries(command: bool, s: &[u8], place: usize) -> Entries
    requires { done (walk unlimited 3 (handle_width command) s.now place) ≡ gives tt }
    ensures { gives result ≡ entries_by_value (walk unlimited 3 (handle_width command) s.now place) }
{
    let mut found = Entries::new();
    // A cursor and no count: what stands up to the end is whole entries, as the contract asks.
    let mut at = place;
    while at < s.len() {
        let e = entry_at(command, s, at);
        at = e.hmac.at + e.hmac.size as usize;
        if found.count == 0 {
            found.count = 1;
            found.first = e;
            continue;
        }
        if found.count == 1 {
            found.count = 2;
            found.second = e;
            continue;
        }
        found.count = MAX_SESSIONS;
        found.third = e;
    }
    found
}
