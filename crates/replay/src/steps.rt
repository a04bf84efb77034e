// One step through a list: the next table is read, or the next case is replayed.
ghost use Rattle.std.specs.Prelude.{◌≡◌, ◌≤◌};
ghost use Rattle.replay.specs.Entries.{entry_number};

use crate::cases::replay_case;
use lists::Reader;
use replay_parts::Table;
use samples_names::{CALLS, Call, NoCall};
use std::fmt;

// The byte that announces a table.
const TABLE: u8 = 255;

// The last number of an entry, which tables have.
pub const LAST_NUMBER: u8 = CALLS;

// What a list has at a place: a case of a call, or a table, which counts as a case.
#[derive(Clone, Copy, PartialEq, Eq)]
pub enum Entry {
    Call(Call),
    Table,
}

impl Entry {
    // By which it is counted: a call has its own number, and a table the one after all calls'.
    pub fn number(self) -> u8
        ensures named { result ≡ entry_number self }
        ensures within { result ≤ LAST_NUMBER }
    {
        match self {
            Entry::Call(call) => call.number(),
            Entry::Table => LAST_NUMBER,
        }
    }

    // The entry that has a number.
    pub fn numbered(number: u8) -> Self
        ensures { number ≤ LAST_NUMBER → entry_number result ≡ number }
    {
        match Call::try_from(number) {
            Ok(call) => Entry::Call(call),
            Err(_) => Entry::Table,
        }
    }
}

impl TryFrom<u8> for Entry {
    type Error = NoCall;

    fn try_from(byte: u8) -> Result<Self, NoCall> {
        match byte {
            TABLE => Ok(Entry::Table),
            number => Ok(Entry::Call(Call::try_from(number)?)),
        }
    }
}

impl fmt::Display for Entry {
    fn fmt<W: fmt::Write>(&self, f: &mut fmt::Formatter<W>) -> fmt::Result {
        match self {
            Entry::Call(call) => call.fmt(f),
            Entry::Table => f.write_str("table"),
        }
    }
}

// What was replayed, and whether all was as expected.
#[derive(Clone, Copy)]
pub struct Step {
    pub entry: Entry,
    pub agrees: bool,
}

// Reads a table from its file. One that is not sound is damage.
fn read_table(file: &[u8], table: &mut Table) -> Option<()> {
    let mut count = 0;
    let code = exports::qv_read_table(
        file,
        &mut table.kinds,
        &mut table.lefts,
        &mut table.rights,
        &mut table.groups,
        &mut count,
    );
    table.count = count as usize;
    (code == 0).then_some(())
}

// Replays what stands next in the list, with the table that was read last. Nothing if the list is damaged there.
pub fn take_step(list: &mut Reader, table: &mut Table) -> Option<Step> {
    let byte = list.byte()?;
    let entry = Entry::try_from(byte).ok()?;
    let agrees = match entry {
        Entry::Call(call) => replay_case(call, table, &list.case()?)?,
        Entry::Table => {
            read_table(list.run()?, table)?;
            true
        }
    };
    Some(Step { entry, agrees })
}
