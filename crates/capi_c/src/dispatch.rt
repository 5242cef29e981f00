// Exports of capi::dispatch.
ghost use Rattle.base.specs.Members.{is_in};
ghost use Rattle.base.specs.Said.{gives};
ghost use Rattle.table.specs.Dispatch.{codes_of, table_of};
ghost use Rattle.table.specs.Table.{row_for};
ghost use Rattle.table.specs.Tags.{tags};
ghost use Rattle.capi.specs.Frame.{handle_counts};
ghost use Rattle.capi.specs.Out.{Reports, truth};
ghost use Rattle.capi.specs.Rules.{at_table};

use capi::out::Numbers;

#[unsafe(no_mangle)]
pub extern "C" fn skein_table_find(revision: u32, cc: u32, out: &mut Numbers) -> u32
    ensures { Reports handle_counts (at_table revision λ table. row_for (table_of table) cc) out.old out.new result }
{
    capi::dispatch::skein_table_find(revision, cc, out)
}

#[unsafe(no_mangle)]
pub extern "C" fn skein_table_known(revision: u32, cc: u32, out: &mut Numbers) -> u32
    ensures { Reports truth (at_table revision λ table. gives (is_in cc (codes_of table))) out.old out.new result }
{
    capi::dispatch::skein_table_known(revision, cc, out)
}

#[unsafe(no_mangle)]
pub extern "C" fn skein_tag_known(tag: u16, out: &mut Numbers) -> u32
    ensures { Reports truth (gives (is_in tag tags)) out.old out.new result }
{
    capi::dispatch::skein_tag_known(tag, out)
}
