// Runs the calls that standard input lists, one to a line, and writes each line again with its answer behind it:
// the refusal's number (0: an answer), the numbers reported and a refusal's area, and for a write the bytes as they are
// later.
// A line is CALL BYTES NUMBER NUMBER, at most 4,096 bytes in hex and numbers in decimal, `-` for none: a place, a
// capacity, a size, a tag, a code, a session's handle or how much room, then what is to be written. The word `standard`
// behind them names the standard reading, and `1.38` or `1.59` behind that the table of that revision. The calls on the
// nonce keeper (document 02, W8) have one keeper, empty at first and kept from line to line; the bytes of keeper_answer
// are the command's, as many as the number says, and behind them the response's, and keeper_ask shows the nonce. A line
// that starts with # and a space is written as it is. A question mark stands behind a line that calls nothing: it has
// another form, 16,384 bytes or more, no such call, or a number that does not fit it. A read or a write that fails ends
// the program with its error. What the program must write, crates/worked/stdout, is document 01's, 02's and the Rust's
// word.
#![tactic(auto)]

mod answer;
mod buffers;
mod call;
mod fields;
mod frames;
mod lines;
mod nonces;
mod parts;
mod records;
mod rules;
mod text;

use std::io;

fn main(rt: HostRuntime) -> io::Result<()> {
    lines::each(&rt, &mut rt.stdin())
}
