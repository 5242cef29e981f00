// What writes: each call puts its bytes where a cursor stands and goes behind them, and asks that there is room for them, which the
// writers have judged before the first byte. An entry is inlined by the hint alone: else its record would go by memory.
ghost use Rattle.std.specs.Prelude.{◌≡◌, ◌++◌, ◌+◌, ◌≤◌, length};
ghost use Rattle.base.specs.Bytes.{bytes};
ghost use Rattle.base.specs.Said.{gives};
ghost use Rattle.base.specs.Tpm2b.{tpm2b};
ghost use Rattle.frame.specs.Answer.{handle_width};
ghost use Rattle.frame.specs.Layout.{layout_entries, layout_entry};
ghost use Rattle.frame.specs.Parts.{entries_in, entries_of, entry_in, field_in};
ghost use Rattle.frame.specs.Rules.{unlimited};
ghost use Rattle.marshal.specs.Laid.{Put, RoomFor, layout_signed};
ghost use Rattle.marshal.specs.Write.{field_there, session_there, sessions_there};

use base::field::write_bytes;
use frame::session::{Entries, Field, Session};

// Lent room, and the place where what comes next is put.
#[derive(Drop)]
pub(crate) struct Cursor<'a> {
    pub(crate) room: &'a mut [u8],
    pub(crate) at: usize,
}

impl Cursor<'_> {
    // Copies all of t. There is room for it, as the contract asks, so no refusal is dropped.
    pub(crate) fn put(&mut self, t: &[u8])
        requires { RoomFor t.now self.old }
        ensures same_reference { self.new.room.ghost_name ≡ self.old.room.ghost_name }
        ensures puts { Put t.now self.old self.new }
    {
        let _ = write_bytes(self.room, self.at, t);
        self.at += t.len();
    }

    // A nonce or an HMAC of the lent session bytes, as a TPM2B.
    fn put_tpm2b(&mut self, f: Field, lent: &[u8])
        requires f_value { field_there unlimited (length lent.now) f ≡ gives tt }
        requires f_in_bounds { RoomFor (tpm2b (field_in lent.now f)) self.old }
        ensures same_reference { self.new.room.ghost_name ≡ self.old.room.ghost_name }
        ensures puts { Put (tpm2b (field_in lent.now f)) self.old self.new }
    {
        self.put(&f.size.to_be_bytes());
        self.put(&lent[f.at..f.at + f.size as usize]);
    }

    // What every entry has: nonce, attribute byte and HMAC.
    #[inline]
    fn put_signed(&mut self, e: Session, lent: &[u8])
        requires e_value { session_there unlimited (length lent.now) e ≡ gives tt }
        requires e_in_bounds { RoomFor (layout_signed (entry_in lent.now e)) self.old }
        ensures same_reference { self.new.room.ghost_name ≡ self.old.room.ghost_name }
        ensures puts { Put (layout_signed (entry_in lent.now e)) self.old self.new }
    {
        self.put_tpm2b(e.nonce, lent);
        self.room[self.at] = e.attributes;
        self.at += 1;
        self.put_tpm2b(e.hmac, lent);
    }

    // An entry, with a handle before it in a command: a flag, as in frame::walk.
    #[inline]
    fn put_entry(&mut self, command: bool, e: Session, lent: &[u8])
        requires e_value { session_there unlimited (length lent.now) e ≡ gives tt }
        requires e_in_bounds { RoomFor (layout_entry (handle_width command) (entry_in lent.now e)) self.old }
        ensures same_reference { self.new.room.ghost_name ≡ self.old.room.ghost_name }
        ensures puts { Put (layout_entry (handle_width command) (entry_in lent.now e)) self.old self.new }
    {
        if command {
            self.put(&e.handle.to_be_bytes());
            self.put_signed(e, lent);
            return;
        }
        self.put_signed(e, lent);
    }

    // The entries of all sessions.
    pub(crate) fn put_entries(&mut self, command: bool, es: Entries, lent: &[u8])
        requires es_value { sessions_there unlimited (length lent.now) (entries_of es) ≡ gives tt }
        requires es_in_bounds { RoomFor (layout_entries (handle_width command) (entries_in lent.now (entries_of es))) self.old }
        ensures same_reference { self.new.room.ghost_name ≡ self.old.room.ghost_name }
        ensures puts { Put (layout_entries (handle_width command) (entries_in lent.now (entries_of es))) self.old self.new }
    {
        if es.count == 0 {
            return;
        }
        self.put_entry(command, es.first, lent);
        if es.count == 1 {
            return;
        }
        self.put_entry(command, es.second, lent);
        if es.count == 2 {
            return;
        }
        self.put_entry(command, es.third, lent);
    }

    // A header.
    pub(crate) fn put_header(&mut self, tag: u16, total: u32, code: u32)
        requires { self.old.at + 10 ≤ length self.old.room.now }
        ensures same_reference { self.new.room.ghost_name ≡ self.old.room.ghost_name }
        ensures puts { Put (bytes 2 tag ++ (bytes 4 total ++ bytes 4 code)) self.old self.new }
    {
        self.put(&tag.to_be_bytes());
        self.put(&total.to_be_bytes());
        self.put(&code.to_be_bytes());
    }
}
