// A response to the command of one code, that passes `cast`, held as its lent bytes; a view of bytes that do not pass holds an empty
// part of them.
ghost use Rattle.std.specs.Prelude.{◌≡◌, eqb, length};
ghost use Rattle.std.specs.Borrow.{sem};
ghost use Rattle.base.specs.Answer.{said, said_response_code, said_tag};
ghost use Rattle.base.specs.Parts.{IsPart, IsPartMut, LendsPart};
ghost use Rattle.base.specs.Said.{done};
ghost use Rattle.frame.specs.Answer.{whole};
ghost use Rattle.frame.specs.Header.{read_rc, read_size, read_tag};
ghost use Rattle.frame.specs.Response.{body_range, cast_response, read_response};
ghost use Rattle.frame.specs.Rules.{book_of};

use base::code::{TpmCc, TpmRc, TpmSt};
use base::error::TpmError;
use frame::rules::Rules;

#[derive(Clone, Copy)]
pub struct TpmResponse<'a> {
    frame: &'a [u8],
    rules: Rules,
    cc: TpmCc,
}

impl<'a> TpmResponse<'a> {
    pub fn cast(rules: Rules, cc: TpmCc, s: &'a [u8]) -> TpmResponse<'a>
        ensures { IsPart (whole s.now (cast_response (book_of rules) s.now)) s.entry result.frame × (result.rules ≡ rules) × (result.cc ≡ cc) }
    {
        TpmResponse {
            frame: frame::response::cast(rules, s),
            rules,
            cc,
        }
    }

    pub fn tag(self) -> Result<TpmSt, TpmError>
        ensures { said_tag result ≡ read_tag self.entry.frame.now }
    {
        frame::header::tag(self.frame)
    }

    pub fn size(self) -> Result<u32, TpmError>
        ensures { said result ≡ read_size self.entry.frame.now }
    {
        frame::header::size(self.frame)
    }

    pub fn rc(self) -> Result<TpmRc, TpmError>
        ensures { said_response_code result ≡ read_rc (book_of self.entry.rules) self.entry.frame.now }
    {
        frame::response::rc(self.rules, self.frame)
    }

    pub fn len(self) -> usize
        ensures { result ≡ length self.entry.frame.now }
    {
        frame::header::len(self.frame)
    }

    pub fn is_empty(self) -> bool
        ensures { result ≡ eqb (length self.entry.frame.now) 0 }
    {
        frame::header::is_empty(self.frame)
    }

    pub fn body(self) -> &'a [u8]
        ensures { IsPart (body_range self.entry.frame.now) self.entry.frame result }
    {
        frame::response::body(self.frame)
    }

    pub fn validate(self) -> Result<(), TpmError>
        ensures { said result ≡ done (read_response (book_of self.entry.rules) self.entry.cc.0 self.entry.frame.now) }
    {
        frame::response::validate(self.rules, self.cc, self.frame)
    }
}

// The same that can be written through. It is given up for a part of what it holds.
#[derive(Drop)]
pub struct TpmResponseMut<'a> {
    frame: &'a mut [u8],
}

impl<'a> TpmResponseMut<'a> {
    pub fn cast_mut(rules: Rules, s: &'a mut [u8]) -> TpmResponseMut<'a>
        ensures* writes_back { sem 𝓛 (LendsPart (whole s.old (cast_response (book_of rules) s.old)) s.entry result.frame) }
        ensures part { IsPartMut (whole s.old (cast_response (book_of rules) s.old)) s.entry result.frame }
    {
        TpmResponseMut {
            frame: frame::response::cast_mut(rules, s),
        }
    }

    pub fn body_mut(self) -> &'a mut [u8]
        ensures* writes_back { sem 𝓛 (LendsPart (body_range self.entry.frame.now) self.entry.frame result) }
        ensures part { IsPartMut (body_range self.entry.frame.now) self.entry.frame result }
    {
        frame::response::body_mut(self.frame)
    }
}
