// A command that passes `cast`, held as its lent bytes; a view of bytes that do not pass holds an empty part of them.
ghost use Rattle.std.specs.Prelude.{◌≡◌, eqb, length};
ghost use Rattle.std.specs.Borrow.{sem};
ghost use Rattle.base.specs.Answer.{said, said_command_code, said_tag};
ghost use Rattle.base.specs.Parts.{IsPart, IsPartMut, LendsPart};
ghost use Rattle.base.specs.Said.{done};
ghost use Rattle.frame.specs.Answer.{whole};
ghost use Rattle.frame.specs.Command.{auth_range, cast_command, handles_range, parameters_range, read_command};
ghost use Rattle.frame.specs.Header.{read_cc, read_size, read_tag};
ghost use Rattle.frame.specs.Rules.{book_of};

use base::code::{TpmCc, TpmSt};
use base::error::TpmError;
use frame::rules::Rules;

#[derive(Clone, Copy)]
pub struct TpmCommand<'a> {
    frame: &'a [u8],
    rules: Rules,
}

impl<'a> TpmCommand<'a> {
    pub fn cast(rules: Rules, s: &'a [u8]) -> TpmCommand<'a>
        ensures { IsPart (whole s.now (cast_command (book_of rules) s.now)) s.entry result.frame × (result.rules ≡ rules) }
    {
        TpmCommand {
            frame: frame::command::cast(rules, s),
            rules,
        }
    }

    pub fn tag(self) -> Result<TpmSt, TpmError>
        ensures { said_tag result ≡ read_tag self.entry.frame.now }
    {
        frame::header::tag(self.frame)
    }

    pub fn size(self) -> Result<u32, TpmError>
        ensures { said result ≡ read_size self.entry.frame.now }
    {
        frame::header::size(self.frame)
    }

    pub fn cc(self) -> Result<TpmCc, TpmError>
        ensures { said_command_code result ≡ read_cc (book_of self.entry.rules) self.entry.frame.now }
    {
        frame::command::cc(self.rules, self.frame)
    }

    pub fn len(self) -> usize
        ensures { result ≡ length self.entry.frame.now }
    {
        frame::header::len(self.frame)
    }

    pub fn is_empty(self) -> bool
        ensures { result ≡ eqb (length self.entry.frame.now) 0 }
    {
        frame::header::is_empty(self.frame)
    }

    pub fn handles(self) -> &'a [u8]
        ensures { IsPart (handles_range (book_of self.entry.rules) self.entry.frame.now) self.entry.frame result }
    {
        frame::command::handles(self.rules, self.frame)
    }

    pub fn auth_area(self) -> &'a [u8]
        ensures { IsPart (auth_range (book_of self.entry.rules) self.entry.frame.now) self.entry.frame result }
    {
        frame::command::auth_area(self.rules, self.frame)
    }

    pub fn parameters(self) -> &'a [u8]
        ensures { IsPart (parameters_range (book_of self.entry.rules) self.entry.frame.now) self.entry.frame result }
    {
        frame::command::parameters(self.rules, self.frame)
    }

    pub fn validate(self) -> Result<(), TpmError>
        ensures { said result ≡ done (read_command (book_of self.entry.rules) self.entry.frame.now) }
    {
        frame::command::validate(self.rules, self.frame)
    }
}

// The same that can be written through. It is given up for a part of what it holds.
#[derive(Drop)]
pub struct TpmCommandMut<'a> {
    frame: &'a mut [u8],
    rules: Rules,
}

impl<'a> TpmCommandMut<'a> {
    pub fn cast_mut(rules: Rules, s: &'a mut [u8]) -> TpmCommandMut<'a>
        ensures* writes_back { sem 𝓛 (LendsPart (whole s.old (cast_command (book_of rules) s.old)) s.entry result.frame) }
        ensures part { IsPartMut (whole s.old (cast_command (book_of rules) s.old)) s.entry result.frame × (result.rules ≡ rules) }
    {
        TpmCommandMut {
            frame: frame::command::cast_mut(rules, s),
            rules,
        }
    }

    pub fn handles_mut(self) -> &'a mut [u8]
        ensures* writes_back { sem 𝓛 (LendsPart (handles_range (book_of self.entry.rules) self.entry.frame.now) self.entry.frame result) }
        ensures part { IsPartMut (handles_range (book_of self.entry.rules) self.entry.frame.now) self.entry.frame result }
    {
        frame::command::handles_mut(self.rules, self.frame)
    }

    pub fn auth_area_mut(self) -> &'a mut [u8]
        ensures* writes_back { sem 𝓛 (LendsPart (auth_range (book_of self.entry.rules) self.entry.frame.now) self.entry.frame result) }
        ensures part { IsPartMut (auth_range (book_of self.entry.rules) self.entry.frame.now) self.entry.frame result }
    {
        frame::command::auth_area_mut(self.rules, self.frame)
    }

    pub fn parameters_mut(self) -> &'a mut [u8]
        ensures* writes_back { sem 𝓛 (LendsPart (parameters_range (book_of self.entry.rules) self.entry.frame.now) self.entry.frame result) }
        ensures part { IsPartMut (parameters_range (book_of self.entry.rules) self.entry.frame.now) self.entry.frame result }
    {
        frame::command::parameters_mut(self.rules, self.frame)
    }
}
