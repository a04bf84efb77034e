// Rung 1 of the ladder: the table, whatever is handed in. `table::check_table` asks no more, and every other call that is handed facts begins here.
#![tactic(auto)]

ghost use Rattle.std.specs.Prelude.{◌≡◌, IfOk};
ghost use Rattle.meaning.specs.TypeCalls.{check_table_call};
ghost use Rattle.answers.specs.Verdicts.{done_of};

use answers::{Refusal, UNSOUND};
use nodes::Checked;
use tables::{Columns, Table};

// 1: the table is sound. What is accepted is that table, checked.
pub fn sound<'a>(table: &Table<'a>) -> Result<Checked<'a>, Refusal>
    ensures answer { done_of result ≡ check_table_call table.now }
    ensures same { IfOk result (λ t. t ≡ table.now) }
{
    let columns: &Columns<'a> = &table.columns;
    let groups = table.groups;
    let count = table.count;
    if count == 0 {
        return Err(UNSOUND);
    }
    if 1024 < count {
        return Err(UNSOUND);
    }
    if columns.kinds.len() < count {
        return Err(UNSOUND);
    }
    if columns.lefts.len() < count {
        return Err(UNSOUND);
    }
    if columns.rights.len() < count {
        return Err(UNSOUND);
    }
    if groups.len() < groups::GROUP_BYTES * count {
        return Err(UNSOUND);
    }
    let bad = facts::first_bad(table);
    if bad < count {
        return Err(Refusal::Unsound { place: bad });
    }
    Ok(Checked::new(table))
}
