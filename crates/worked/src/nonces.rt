// The calls on the nonce keeper, of which there is one for all lines: a line finds it as the lines before have left it.
use crate::answer::{Answer, Report};
use crate::call::Call;
use crate::rules::table_number;
use base::part::{Span, part};
use capi::nonce;
use keeper::state::State;

pub(crate) fn call(call: Call, bytes: &[u8], keeper: &mut State) -> Option<Report> {
    let out = &mut [0u64; 8];
    let (count, number) = match call.name {
        b"keeper_new" => (0, nonce::skein_keeper_new(keeper, out)),
        b"keeper_len" => (1, nonce::skein_keeper_len(keeper, out)),
        b"keeper_open" => (
            0,
            nonce::skein_keeper_open(call.code()?, bytes, keeper, out),
        ),
        b"keeper_close" => (0, nonce::skein_keeper_close(call.code()?, keeper, out)),
        b"keeper_answer" => {
            let table = table_number(call.rules.revision);
            let (command, response) = bytes.split_at_checked(call.first)?;
            (
                0,
                nonce::skein_keeper_answer(table, command, response, keeper, out),
            )
        }
        _ => return None,
    };
    Some(Report {
        number,
        count,
        out: *out,
    })
}

// The nonce's own bytes are shown, not where the keeper has them.
pub(crate) fn ask(handle: u32, keeper: &State) -> Answer<'_> {
    let mut out = [0u64; 8];
    let number = nonce::skein_keeper_ask(handle, keeper, &mut out);
    if number != 0 {
        return Answer::Read(Report::bare(number, out));
    }
    let place = Span {
        from: out[0] as usize,
        to: out[1] as usize,
    };
    Answer::Nonce(part(keeper, Ok(place)))
}
