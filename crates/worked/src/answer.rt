// What is written of a call: numbers in decimal with a space before each, bytes in hex.
use base::error::TpmError;
use capi::out::Numbers;
use frame::session::{Entries, Session};
use std::fmt;
use view::command::TpmCommand;
use view::response::TpmResponse;

// What a call returned, 0 or a refusal's number, and what it reported; an answer of it has the first `count` numbers.
#[derive(Clone, Copy)]
pub(crate) struct Report {
    pub number: u32,
    pub count: usize,
    pub out: Numbers,
}

impl Report {
    // Of a call that reports no numbers, or a refusal.
    pub(crate) fn bare(number: u32, out: Numbers) -> Self {
        Report {
            number,
            count: 0,
            out,
        }
    }
}

impl fmt::Display for Report {
    fn fmt<W: fmt::Write>(&self, f: &mut fmt::Formatter<W>) -> fmt::Result {
        write!(f, "{}", self.number)?;
        if self.number == 0 {
            return row(f, &self.out, self.count);
        }
        // A refusal has its own fields, at their own places, and then its area.
        row(f, &self.out[4..], fields(self.number))?;
        write!(f, " {}", area(self.out[7]))
    }
}

// The answer of a line's call.
#[derive(Drop)]
pub(crate) enum Answer<'a> {
    Read(Report),
    // With the bytes as the call left them.
    Wrote(Report, &'a [u8]),
    // The parts of a frame by value.
    Parts { numbers: [u64; 8], entries: Entries },
    // A nonce's own bytes.
    Nonce(&'a [u8]),
    // A view, which is asked: how many bytes it holds, whether they pass the full check, and its parts. A view of bytes
    // that `cast` refuses holds none.
    Command(TpmCommand<'a>),
    Response(TpmResponse<'a>),
}

impl fmt::Display for Answer<'_> {
    fn fmt<W: fmt::Write>(&self, f: &mut fmt::Formatter<W>) -> fmt::Result {
        f.write_str(" = ")?;
        match self {
            Answer::Read(report) => write!(f, "{report}"),
            Answer::Wrote(report, bytes) => write!(f, "{report} ; {}", Hex(bytes)),
            Answer::Parts { numbers, entries } => {
                f.write_str("0")?;
                row(f, numbers, 8)?;
                entry(f, &entries.first)?;
                entry(f, &entries.second)?;
                entry(f, &entries.third)
            }
            Answer::Nonce(bytes) => write!(f, "0 {}", Hex(bytes)),
            Answer::Command(view) => {
                held(f, view.len(), view.validate())?;
                part(f, view.handles())?;
                part(f, view.auth_area())?;
                part(f, view.parameters())
            }
            Answer::Response(view) => {
                held(f, view.len(), view.validate())?;
                part(f, view.body())
            }
        }
    }
}

// Bytes in hex, `-` for none.
#[derive(Clone, Copy)]
struct Hex<'a>(&'a [u8]);

impl fmt::Display for Hex<'_> {
    fn fmt<W: fmt::Write>(&self, f: &mut fmt::Formatter<W>) -> fmt::Result {
        if self.0.is_empty() {
            return f.write_str("-");
        }
        for byte in self.0 {
            write!(f, "{byte:02x}")?;
        }
        Ok(())
    }
}

// How many bytes a view holds, and whether they pass the full check.
fn held<W: fmt::Write>(
    f: &mut fmt::Formatter<W>,
    len: usize,
    full: Result<(), TpmError>,
) -> fmt::Result {
    match full {
        Ok(()) => write!(f, "{len} passes"),
        Err(_) => write!(f, "{len} refused"),
    }
}

fn part<W: fmt::Write>(f: &mut fmt::Formatter<W>, bytes: &[u8]) -> fmt::Result {
    write!(f, " {}", Hex(bytes))
}

// The first so many of the numbers.
fn row<W: fmt::Write>(f: &mut fmt::Formatter<W>, numbers: &[u64], count: usize) -> fmt::Result {
    for number in numbers.iter().take(count) {
        write!(f, " {number}")?;
    }
    Ok(())
}

// In the order of the wire.
fn entry<W: fmt::Write>(f: &mut fmt::Formatter<W>, entry: &Session) -> fmt::Result {
    let Session {
        handle,
        nonce,
        attributes,
        hmac,
    } = entry;
    write!(f, " {handle} {} {}", nonce.at, nonce.size)?;
    write!(f, " {attributes} {} {}", hmac.at, hmac.size)
}

// How many fields a refusal has, which comes by its number, as to C: document 01's have two or three, the keeper's own (document 02, W8) none.
fn fields(number: u32) -> usize {
    match number {
        13..=17 => 0,
        1 | 6 | 8 | 9 => 3,
        _ => 2,
    }
}

// The area of a refusal, by the number that stands for it to C.
fn area(number: u64) -> &'static str {
    match number {
        1 => "header",
        2 => "handles",
        3 => "authorization",
        4 => "parameters",
        _ => "none",
    }
}
