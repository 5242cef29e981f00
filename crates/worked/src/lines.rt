// Standard input line by line, whatever its length. A line is at hand whole while it is shorter than its room.
ghost use Rattle.std.specs.Prelude.{◌<◌};
ghost use Rattle.worked.specs.declared.lines.TheConstants.{ROOM};

use crate::call;
use keeper::state::State;
use std::io;
use std::io::Read;

const ROOM: usize = 16384;

// The line that is coming in: how many of its bytes stand in the room, and whether others were written before them.
// Fixed memory, so an array and no Vec: a line may be of any length.
#[derive(Drop)]
struct Coming {
    room: [u8; ROOM],
    len: usize,
    long: bool,
    ghost within: { len < ROOM },
}

// A proved loop has to end, and nothing says that the input does: it has more turns than a run uses up.
pub(crate) fn each(rt: &impl Print, input: &mut impl Read) -> io::Result<()> {
    let mut chunk = [0u8; 65536];
    let mut keeper = [0u8; 4424];
    let mut line = Coming {
        room: [0; ROOM],
        len: 0,
        long: false,
    };
    for _ in 0..u64::MAX {
        let n = input.read(&mut chunk)?;
        if n == 0 {
            break;
        }
        for byte in &chunk[..n] {
            match *byte {
                b'\n' => line.end(rt, &mut keeper)?,
                byte => line.push(rt, byte)?,
            }
        }
    }
    if line.len > 0 || line.long {
        line.end(rt, &mut keeper)?;
    }
    Ok(())
}

impl Coming {
    // A room that is full is written and used again.
    fn push(&mut self, rt: &impl Print, byte: u8) -> io::Result<()> {
        let len = self.len;
        self.room[len] = byte;
        if len + 1 < ROOM {
            self.len = len + 1;
            return Ok(());
        }
        self.len = 0;
        self.long = true;
        rt.write_all(&self.room)
    }

    fn end(&mut self, rt: &impl Print, keeper: &mut State) -> io::Result<()> {
        let line = &self.room[..self.len];
        if self.long {
            rt.write_all(line)?;
            println!(rt; " ?")?;
        } else {
            call::line(rt, line, keeper)?;
        }
        self.len = 0;
        self.long = false;
        Ok(())
    }
}
