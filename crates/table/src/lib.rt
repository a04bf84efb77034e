// A table as a whole: whether it is sound, its facts from its entries, and a table from its file. What is judged is judged before anything is
// written: a refusal answers a number and a place, and leaves every column and group as it stood. Assumes nothing: each call judges all that it
// is handed.
#![tactic(auto)]

ghost use Rattle.std.specs.Prelude.{◌≡◌};
ghost use Rattle.meaning.specs.Tables.{columns};
ghost use Rattle.meaning.specs.TypeCalls.{check_table_call, fill_facts_call, fill_facts_out, read_table_call, read_table_columns_out, read_table_groups_out};
ghost use Rattle.answers.specs.Verdicts.{done_of, count_of};

use answers::Refusal;
use tables::{Columns, Table};

// The table is sound.
pub fn check_table(table: &Table<'_>) -> Result<(), Refusal>
    ensures { done_of result ≡ check_table_call table.now }
{
    checked_table::sound(table)?;
    Ok(())
}

// Fills in the facts of each node by its tree.
pub fn fill_facts(columns: &Columns<'_>, count: usize, groups: &mut [u8]) -> Result<(), Refusal>
    ensures result_value { done_of result ≡ fill_facts_call columns.now count groups.old }
    ensures groups_after { groups.new ≡ fill_facts_out columns.now count groups.old }
{
    table_filling::may_fill(columns, count, groups)?;
    facts::fill(columns, count, groups);
    Ok(())
}

// Reads a table from its file, and fills in its facts.
pub fn read_table(
    file: &[u8],
    kinds: &mut [u8],
    lefts: &mut [u16],
    rights: &mut [u16],
    groups: &mut [u8],
) -> Result<usize, Refusal>
    ensures result_value { count_of result ≡ read_table_call file.now
        (columns kinds.old lefts.old rights.old)
        groups.old }
    ensures kinds_after { kinds.new ≡ (read_table_columns_out file.now
        (columns kinds.old lefts.old rights.old)
        groups.old).kinds }
    ensures lefts_after { lefts.new ≡ (read_table_columns_out file.now
        (columns kinds.old lefts.old rights.old)
        groups.old).lefts }
    ensures rights_after { rights.new ≡ (read_table_columns_out file.now
        (columns kinds.old lefts.old rights.old)
        groups.old).rights }
    ensures groups_after { groups.new ≡ read_table_groups_out file.now
        (columns kinds.old lefts.old rights.old)
        groups.old }
{
    let lent = Columns {
        kinds,
        lefts,
        rights,
    };
    let count = table_reading::may_read(file, &lent, groups)?;
    table_reading::write_table(file, kinds, lefts, rights, groups, count);
    Ok(count)
}
