// Whether facts can be filled in, judged before anything is written.
#![tactic(auto)]

ghost use Rattle.std.specs.Prelude.{◌≡◌};
ghost use Rattle.meaning.specs.TypeCalls.{fill_facts_call};
ghost use Rattle.answers.specs.Verdicts.{done_of};

use answers::{Refusal, UNSOUND};
use tables::Columns;

// Whether facts can be filled in: the entries are right, and there is room.
pub fn may_fill(columns: &Columns<'_>, count: usize, groups: &[u8]) -> Result<(), Refusal>
    ensures { done_of result ≡ fill_facts_call columns.now count groups.now }
{
    if count < 1 {
        return Err(UNSOUND);
    }
    if 1024 < count {
        return Err(UNSOUND);
    }
    if !table_room::columns_reach(columns, count) {
        return Err(UNSOUND);
    }
    let bad = facts_entries::first_bad_entry(columns, count);
    if bad < count {
        return Err(Refusal::Unsound { place: bad });
    }
    if !table_room::groups_reach(groups, count) {
        return Err(Refusal::NoRoom);
    }
    Ok(())
}
