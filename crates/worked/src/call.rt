// A line's call, by its name.
use crate::answer::{Answer, Report};
use crate::{buffers, fields, frames, nonces, parts, records, rules, text};
use base::code::TpmCc;
use frame::rules::Rules;
use keeper::state::State;
use std::io;
use view::command::TpmCommand;
use view::response::TpmResponse;

// The name, the two numbers and the rules of a line. Its bytes stand beside them, since calls write to them.
#[derive(Clone, Copy)]
pub(crate) struct Call<'a> {
    pub name: &'a [u8],
    pub first: usize,
    pub second: usize,
    pub rules: Rules,
}

impl Call<'_> {
    // The first number where it is a code or a handle, and a tag or a size.
    pub(crate) fn code(&self) -> Option<u32> {
        u32::try_from(self.first).ok()
    }

    pub(crate) fn tag(&self) -> Option<u16> {
        u16::try_from(self.first).ok()
    }
}

// The line, which need not be text, and its answer behind it.
pub(crate) fn line(rt: &impl Print, s: &[u8], keeper: &mut State) -> io::Result<()> {
    rt.write_all(s)?;
    if let b"#" | [b'#', b' ', ..] = s {
        return println!(rt);
    }
    let mut room = [0u8; 4096];
    match answer(s, &mut room, keeper) {
        Some(answer) => println!(rt; "{answer}"),
        None => println!(rt; " ?"),
    }
}

// The answer, where the line has the form of a call and there is such a call.
fn answer<'a>(s: &[u8], room: &'a mut [u8], keeper: &'a mut State) -> Option<Answer<'a>> {
    let mut words = s.splitn(5, |byte| *byte == b' ');
    let name = words.next()?;
    let bytes = text::unhex(words.next()?, room)?;
    let call = Call {
        name,
        first: text::decimal(words.next()?)?,
        second: text::decimal(words.next()?)?,
        rules: rules::named(words.next())?,
    };
    answer_of(call, bytes, keeper)
}

// The answer of the call of that name.
fn answer_of<'a>(call: Call, bytes: &'a mut [u8], keeper: &'a mut State) -> Option<Answer<'a>> {
    match call.name {
        b"command_parts" => Some(records::command_parts(call, bytes)),
        b"response_parts" => records::response_parts(call, bytes),
        b"command_again" => records::command_again(call, bytes),
        b"response_again" => records::response_again(call, bytes),
        b"command_view" => Some(Answer::Command(TpmCommand::cast(call.rules, bytes))),
        b"response_view" => {
            let cc = TpmCc(call.code()?);
            Some(Answer::Response(TpmResponse::cast(call.rules, cc, bytes)))
        }
        b"keeper_ask" => Some(nonces::ask(call.code()?, keeper)),
        _ => reported(call, bytes, keeper),
    }
}

fn reported<'a>(call: Call, bytes: &'a mut [u8], keeper: &mut State) -> Option<Answer<'a>> {
    if let Some(report) = read(call, bytes, keeper) {
        return Some(Answer::Read(report));
    }
    let report = written(call, bytes)?;
    Some(Answer::Wrote(report, bytes))
}

fn read(call: Call, bytes: &[u8], keeper: &mut State) -> Option<Report> {
    fields::read(call, bytes)
        .or_else(|| buffers::read(call, bytes))
        .or_else(|| frames::read(call, bytes))
        .or_else(|| nonces::call(call, bytes, keeper))
}

// A part that can be written through is filled, which shows where it stands and what it leaves alone.
fn written(call: Call, bytes: &mut [u8]) -> Option<Report> {
    if let Some(part) = parts::part_mut(call, bytes) {
        part.fill(255);
        return Some(Report::bare(0, [0; 8]));
    }
    fields::write(call, bytes).or_else(|| frames::write(call, bytes))
}
