// The search of a table of commands, and the codes that are known where it judges.
ghost use Rattle.std.specs.Prelude.{◌≡◌, ◌≤◌};
ghost use Rattle.base.specs.Answer.{said};
ghost use Rattle.base.specs.Members.{is_in};
ghost use Rattle.table.specs.Dispatch.{codes_of, place_of, table_of};
ghost use Rattle.table.specs.Table.{row_for};

use crate::parts;
use crate::revision::Revision;
use crate::row::Row;
use base::code::TpmCc;
use base::error::{Area, TpmError};

// The place of a code's row, if it has one: as far from the table's first row as the code is from the first code, less the codes on
// the way that have no row. If it has none, another place.
fn place(revision: Revision, code: u32) -> usize
    ensures { result ≡ place_of revision code }
{
    match code {
        0x194.. => own_place(revision, code),
        0x175.. => (code - 0x124) as usize,
        0x166.. => (code - 0x123) as usize,
        0x15f.. => (code - 0x122) as usize,
        0x15a.. => (code - 0x121) as usize,
        0x123.. => (code - 0x120) as usize,
        0x11f.. => (code - 0x11f) as usize,
        _ => 0,
    }
}

// Of a code behind those of the rows that all tables share. Revision 1.38 has one such row: 112 is its place, and no kind's number.
fn own_place(revision: Revision, code: u32) -> usize
    requires { 0x194 ≤ code }
    ensures { result ≡ place_of revision code }
{
    match revision {
        Revision::Crate => match code {
            0x1a2.. => 125,
            0x197.. => (code - 0x125) as usize,
            _ => (code - 0x124) as usize,
        },
        Revision::Lib138 => 112,
        Revision::Lib159 => match code {
            0x199.. => 117,
            _ => (code - 0x124) as usize,
        },
    }
}

// The row of a code. It stands at the code's place or nowhere, so one look settles it.
#[tactic(auto, using(crate::proofs::Table::place_inside))]
pub fn find(revision: Revision, cc: TpmCc) -> Result<Row, TpmError>
    ensures { said result ≡ row_for (table_of revision) cc.0 }
{
    let row = parts::row_at(revision, place(revision, cc.0));
    if row.code == cc.0 {
        return Ok(row);
    }
    Err(cc.refused(Area::None, 0))
}

// Whether a code is known: TpmCc has those of the crate's table, and a table of the Library judges by its own.
pub fn cc_known(revision: Revision, cc: TpmCc) -> bool
    ensures { result ≡ is_in cc.0 (codes_of revision) }
{
    find(revision, cc).is_ok()
}
