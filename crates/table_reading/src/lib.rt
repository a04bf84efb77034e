// A table from its file: first the judgement, which writes nothing, and then what is written once it has passed.
#![tactic(auto)]

ghost use Rattle.std.specs.Prelude.{◌≡◌};
ghost use Rattle.meaning.specs.Tables.{columns};
ghost use Rattle.meaning.specs.Files.{table_in};
ghost use Rattle.meaning.specs.Ladder.{accepted};
ghost use Rattle.meaning.specs.TypeCalls.{read_table_call, entries_in, entries_written, groups_written};
ghost use Rattle.answers.specs.Verdicts.{count_of};

use answers::Refusal;
use tables::Columns;

// Whether a table can be read: the file is sound, and there is room. The count of its nodes.
pub fn may_read(file: &[u8], columns: &Columns<'_>, groups: &[u8]) -> Result<usize, Refusal>
    ensures { count_of result ≡ read_table_call file.now columns.now groups.now }
{
    let count = match files::judge_file(file) {
        Ok(count) => count,
        Err(fault) => return Err(Refusal::Unsound { place: fault.place }),
    };
    if !table_room::columns_reach(columns, count) {
        return Err(Refusal::NoRoom);
    }
    if !table_room::groups_reach(groups, count) {
        return Err(Refusal::NoRoom);
    }
    Ok(count)
}

// Writes the nodes of a file that can be read over the columns, and fills in their facts.
pub fn write_table(
    file: &[u8],
    kinds: &mut [u8],
    lefts: &mut [u16],
    rights: &mut [u16],
    groups: &mut [u8],
    count: usize,
)
    requires { accepted count ≡ read_table_call file.now (columns kinds.old lefts.old rights.old) groups.old }
    ensures rights_after { columns kinds.new lefts.new rights.new
        ≡ entries_written (entries_in (table_in file.now)) (columns kinds.old lefts.old rights.old) }
    ensures groups_after { groups.new ≡ groups_written
        (columns kinds.new lefts.new rights.new) count
        groups.old }
{
    files::write_columns(file, kinds, lefts, rights);
    let written = Columns {
        kinds,
        lefts,
        rights,
    };
    facts::fill(&written, count, groups);
}
