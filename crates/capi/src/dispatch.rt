// The dispatch table and the tags, of crate table.
ghost use Rattle.base.specs.Members.{is_in};
ghost use Rattle.base.specs.Said.{gives};
ghost use Rattle.table.specs.Dispatch.{codes_of, table_of};
ghost use Rattle.table.specs.Table.{row_for};
ghost use Rattle.table.specs.Tags.{tags};
ghost use Rattle.capi.specs.Frame.{handle_counts};
ghost use Rattle.capi.specs.Out.{Reports, truth};
ghost use Rattle.capi.specs.Rules.{at_table};

use crate::out::{Numbers, Refused, give, report};
use crate::rules::revision_named;
use base::code::{TpmCc, TpmSt};

// The handles and the response handles of a command's row. It is matched on here: `report` would take it by value, and the two be shifted out
// of it, four instructions more.
#[unsafe(no_mangle)]
pub extern "C" fn skein_table_find(revision: u32, cc: u32, out: &mut Numbers) -> u32
    ensures { Reports handle_counts (at_table revision λ table. row_for (table_of table) cc) out.old out.new result }
{
    match revision_named(revision) {
        Ok(table) => match table::dispatch::find(table, TpmCc(cc)) {
            Ok(row) => {
                out[0] = row.handles as u64;
                out[1] = row.responses as u64;
                0
            }
            Err(e) => e.store(out),
        },
        Err(unknown) => unknown.store(out),
    }
}

#[unsafe(no_mangle)]
pub extern "C" fn skein_table_known(revision: u32, cc: u32, out: &mut Numbers) -> u32
    ensures { Reports truth (at_table revision λ table. gives (is_in cc (codes_of table))) out.old out.new result }
{
    let known = revision_named(revision).map(|table| table::dispatch::cc_known(table, TpmCc(cc)));
    report(known, out)
}

#[unsafe(no_mangle)]
pub extern "C" fn skein_tag_known(tag: u16, out: &mut Numbers) -> u32
    ensures { Reports truth (gives (is_in tag tags)) out.old out.new result }
{
    give(table::tag::tag_known(TpmSt(tag)), out)
}
