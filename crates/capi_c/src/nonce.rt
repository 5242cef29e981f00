// Exports of capi::nonce.
ghost use Rattle.std.specs.Prelude.{◌≡◌, length, replicate};
ghost use Rattle.base.specs.Said.{after, done, gives};
ghost use Rattle.keeper.specs.Keeper.{answered, closed, opened};
ghost use Rattle.keeper.specs.State.{answered_in, asked_in, closed_in, held, opened_in};
ghost use Rattle.capi.specs.Out.{Reports, ends, none, one};
ghost use Rattle.capi.specs.Rules.{at_table};

use capi::out::Numbers;
use keeper::state::State;

#[unsafe(no_mangle)]
pub extern "C" fn skein_keeper_new(keeper: &mut State, out: &mut Numbers) -> u32
    ensures reports { Reports none (gives (tt {0})) out.old out.new result }
    ensures keeper_after { keeper.new ≡ replicate 4424 0 }
{
    capi::nonce::skein_keeper_new(keeper, out)
}

#[unsafe(no_mangle)]
pub extern "C" fn skein_keeper_open(
    handle: u32,
    nonce: &[u8],
    keeper: &mut State,
    out: &mut Numbers,
) -> u32
    ensures reports { Reports none (done (opened handle nonce.now (held keeper.old))) out.old out.new result }
    ensures keeper_after { keeper.new ≡ after keeper.old (opened_in handle nonce.now keeper.old) }
{
    capi::nonce::skein_keeper_open(handle, nonce, keeper, out)
}

#[unsafe(no_mangle)]
pub extern "C" fn skein_keeper_answer(
    revision: u32,
    command: &[u8],
    response: &[u8],
    keeper: &mut State,
    out: &mut Numbers,
) -> u32
    ensures reports { Reports none (at_table revision λ table. done (answered table command.now response.now (held keeper.old))) out.old out.new result }
    ensures keeper_after { keeper.new ≡ after keeper.old (at_table revision λ table. answered_in table command.now response.now keeper.old) }
{
    capi::nonce::skein_keeper_answer(revision, command, response, keeper, out)
}

#[unsafe(no_mangle)]
pub extern "C" fn skein_keeper_close(handle: u32, keeper: &mut State, out: &mut Numbers) -> u32
    ensures reports { Reports none (done (closed handle (held keeper.old))) out.old out.new result }
    ensures keeper_after { keeper.new ≡ after keeper.old (closed_in handle keeper.old) }
{
    capi::nonce::skein_keeper_close(handle, keeper, out)
}

#[unsafe(no_mangle)]
pub extern "C" fn skein_keeper_ask(handle: u32, keeper: &State, out: &mut Numbers) -> u32
    ensures { Reports ends (asked_in handle keeper.now) out.old out.new result }
{
    capi::nonce::skein_keeper_ask(handle, keeper, out)
}

#[unsafe(no_mangle)]
pub extern "C" fn skein_keeper_len(keeper: &State, out: &mut Numbers) -> u32
    ensures { Reports one (gives (length (held keeper.now))) out.old out.new result }
{
    capi::nonce::skein_keeper_len(keeper, out)
}
