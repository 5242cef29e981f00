// The nonce keeper, of crate keeper. Its state is one lent array, which to C is one opaque struct.
ghost use Rattle.std.specs.Prelude.{◌≡◌, length, replicate};
ghost use Rattle.base.specs.Said.{after, done, gives};
ghost use Rattle.keeper.specs.Keeper.{answered, closed, opened};
ghost use Rattle.keeper.specs.Refusal.{numbered};
ghost use Rattle.keeper.specs.State.{answered_in, asked_in, closed_in, held, opened_in};
ghost use Rattle.capi.specs.Out.{Reports, ends, none, one};
ghost use Rattle.capi.specs.Rules.{at_table};

use crate::out::{Numbers, Refused, bare, give, report};
use crate::rules::revision_named;
use keeper::refusal::Refusal;
use keeper::state::State;

// A frame's own refusal, or a number without fields: numbers are C's, and keeper has none.
impl Refused for Refusal {
    ghost why = { numbered };

    fn store(self, out: &mut Numbers) -> u32 {
        match self {
            Refusal::Frame(e) => e.store(out),
            Refusal::HandleRepeated => bare(13, out),
            Refusal::CountsDiffer => bare(14, out),
            Refusal::AlreadyOpen => bare(15, out),
            Refusal::AllOpen => bare(16, out),
            Refusal::NotOpen => bare(17, out),
        }
    }
}

#[unsafe(no_mangle)]
pub extern "C" fn skein_keeper_new(keeper: &mut State, out: &mut Numbers) -> u32
    ensures reports { Reports none (gives (tt {0})) out.old out.new result }
    ensures keeper_after { keeper.new ≡ replicate 4424 0 }
{
    keeper::session::new(keeper);
    0
}

#[unsafe(no_mangle)]
pub extern "C" fn skein_keeper_open(
    handle: u32,
    nonce: &[u8],
    keeper: &mut State,
    out: &mut Numbers,
) -> u32
    ensures reports { Reports none (done (opened handle nonce.now (held keeper.old))) out.old out.new result }
    ensures keeper_after { keeper.new ≡ after keeper.old (opened_in handle nonce.now keeper.old) }
{
    report(keeper::session::open(keeper, handle, nonce), out)
}

#[unsafe(no_mangle)]
pub extern "C" fn skein_keeper_answer(
    revision: u32,
    command: &[u8],
    response: &[u8],
    keeper: &mut State,
    out: &mut Numbers,
) -> u32
    ensures reports { Reports none (at_table revision λ table. done (answered table command.now response.now (held keeper.old))) out.old out.new result }
    ensures keeper_after { keeper.new ≡ after keeper.old (at_table revision λ table. answered_in table command.now response.now keeper.old) }
{
    match revision_named(revision) {
        Ok(table) => report(
            keeper::answer::answer(table, keeper, command, response),
            out,
        ),
        Err(unknown) => unknown.store(out),
    }
}

#[unsafe(no_mangle)]
pub extern "C" fn skein_keeper_close(handle: u32, keeper: &mut State, out: &mut Numbers) -> u32
    ensures reports { Reports none (done (closed handle (held keeper.old))) out.old out.new result }
    ensures keeper_after { keeper.new ≡ after keeper.old (closed_in handle keeper.old) }
{
    report(keeper::session::close(keeper, handle), out)
}

// Where the nonce of a session stands in the keeper's own bytes.
#[unsafe(no_mangle)]
pub extern "C" fn skein_keeper_ask(handle: u32, keeper: &State, out: &mut Numbers) -> u32
    ensures { Reports ends (asked_in handle keeper.now) out.old out.new result }
{
    report(keeper::session::ask(keeper, handle), out)
}

#[unsafe(no_mangle)]
pub extern "C" fn skein_keeper_len(keeper: &State, out: &mut Numbers) -> u32
    ensures { Reports one (gives (length (held keeper.now))) out.old out.new result }
{
    give(keeper::session::len(keeper), out)
}
