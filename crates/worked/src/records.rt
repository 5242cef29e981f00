// The calls that give the parts of a frame by value, and those that take them: all parts, and what was read, written
// again. It is written into the first bytes of where it stood, which are filled before, so that all of the frame that is
// there later was written.
use crate::answer::{Answer, Report};
use crate::call::Call;
use crate::rules::number;
use base::code::TpmSt;
use base::field::write_bytes;
use base::part::part;
use capi::{command, response};
use frame::header::RSP_COMMAND;
use frame::rules::Rules;

// The tag, the code, where the handles end, the areas in the order of the wire, and how many entries there are.
pub(crate) fn command_parts<'a>(call: Call, bytes: &[u8]) -> Answer<'a> {
    let mut out = [0u64; 8];
    let parts = command::skein_command_parts(number(call.rules), bytes, &mut out);
    if parts.refusal != 0 {
        return Answer::Read(Report::bare(parts.refusal, out));
    }
    let c = parts.command;
    Answer::Parts {
        numbers: [
            c.tag.0 as u64,
            c.cc.0 as u64,
            c.handles.to as u64,
            c.auth.from as u64,
            c.auth.to as u64,
            c.parameters.from as u64,
            c.parameters.to as u64,
            c.entries.count as u64,
        ],
        entries: c.entries,
    }
}

pub(crate) fn response_parts<'a>(call: Call, bytes: &[u8]) -> Option<Answer<'a>> {
    let mut out = [0u64; 8];
    let parts = response::skein_response_parts(number(call.rules), call.code()?, bytes, &mut out);
    if parts.refusal != 0 {
        return Some(Answer::Read(Report::bare(parts.refusal, out)));
    }
    let r = parts.response;
    Some(Answer::Parts {
        numbers: [
            r.tag.0 as u64,
            r.rc.0 as u64,
            r.handles.to as u64,
            r.parameters.from as u64,
            r.parameters.to as u64,
            r.auth.from as u64,
            r.auth.to as u64,
            r.entries.count as u64,
        ],
        entries: r.entries,
    })
}

// The first number is how much room the command has. What follows for responses is alike in shape alone: C's calls differ, and the order of
// their fields.
pub(crate) fn command_again<'a>(call: Call, bytes: &'a mut [u8]) -> Option<Answer<'a>> {
    if call.first > bytes.len() {
        return None;
    }
    let rules = number(call.rules);
    let mut out = [0u64; 8];
    let parts = command::skein_command_parts(rules, bytes, &mut out);
    if parts.refusal != 0 {
        return Some(Answer::Wrote(Report::bare(parts.refusal, out), bytes));
    }
    let mut copy = [0u8; 4096];
    let s = filled(bytes, &mut copy)?;
    let c = parts.command;
    let number = command::skein_command_write(
        rules,
        c.tag.0,
        c.cc.0,
        part(s, Ok(c.handles)),
        c.entries,
        s,
        part(s, Ok(c.parameters)),
        &mut bytes[..call.first],
        &mut out,
    );
    let report = Report {
        number,
        count: 1,
        out,
    };
    Some(Answer::Wrote(report, bytes))
}

// The first number is the command code, the second how much room the response has.
pub(crate) fn response_again<'a>(call: Call, bytes: &'a mut [u8]) -> Option<Answer<'a>> {
    let cc = call.code()?;
    if call.second > bytes.len() {
        return None;
    }
    let mut out = [0u64; 8];
    let parts = response::skein_response_parts(number(call.rules), cc, bytes, &mut out);
    if parts.refusal != 0 {
        return Some(Answer::Wrote(Report::bare(parts.refusal, out), bytes));
    }
    let mut copy = [0u8; 4096];
    let s = filled(bytes, &mut copy)?;
    let r = parts.response;
    let number = response::skein_response_write(
        mode(call.rules, r.tag),
        r.rc.0,
        cc,
        part(s, Ok(r.handles)),
        r.entries,
        s,
        part(s, Ok(r.parameters)),
        &mut bytes[..call.second],
        &mut out,
    );
    let report = Report {
        number,
        count: 1,
        out,
    };
    Some(Answer::Wrote(report, bytes))
}

// The bytes are filled; what they were is kept in the copy.
fn filled<'a>(bytes: &mut [u8], copy: &'a mut [u8]) -> Option<&'a [u8]> {
    let kept = copy.get_mut(..bytes.len())?;
    let _ = write_bytes(kept, 0, bytes);
    bytes.fill(255);
    Some(kept)
}

// The tag of the answer to a bad tag is asked for where it was read: the number behind that of the standard reading.
fn mode(rules: Rules, tag: TpmSt) -> u32 {
    if tag.0 == RSP_COMMAND {
        number(rules) + 1
    } else {
        number(rules)
    }
}
