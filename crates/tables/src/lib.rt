// A lent table as one value: the columns of its entries, the groups of its facts, and its count. Nothing is known of it: whoever asks a question
// hands in whatever there is.
#![tactic(auto)]

ghost use Rattle.std.specs.Prelude.{◌≡◌};
ghost use Rattle.meaning.specs.Tables.{table};
ghost use Rattle.tables.specs.Kinds.{Decodes};

use std::marker::Model;

// What a node is.
#[derive(Clone, Copy, PartialEq, Eq)]
pub enum Kind {
    Unit,
    Sum,
    Product,
}

// A number above 2, which is no kind's.
#[derive(Clone, Copy, PartialEq, Eq)]
pub struct UnknownKind(pub u8);

impl TryFrom<u8> for Kind {
    type Error = UnknownKind;

    ghost try_from_gives = { Decodes };

    fn try_from(number: u8) -> Result<Kind, UnknownKind> {
        match number {
            0 => Ok(Kind::Unit),
            1 => Ok(Kind::Sum),
            2 => Ok(Kind::Product),
            _ => Err(UnknownKind(number)),
        }
    }
}

// The entries of the nodes in three columns, by reference: a kind, and the numbers of the two sides.
#[derive(Drop)]
pub struct Columns<'a> {
    pub kinds: &'a [u8],
    pub lefts: &'a [u16],
    pub rights: &'a [u16],
}

impl<'a> Model for Columns<'a> {
    ghost use Rattle.meaning.specs.Tables.{Columns, columns};

    ghost Value = { Columns };

    ghost view = { λ c. columns c.kinds.now c.lefts.now c.rights.now };
}

// A table with its facts, as it is handed to a call. A clause sees the table that the columns and the groups make.
#[derive(Drop)]
pub struct Table<'a> {
    pub columns: Columns<'a>,
    pub groups: &'a [u8],
    pub count: usize,
}

impl<'a> Model for Table<'a> {
    ghost use Rattle.meaning.specs.Tables.{Table, facts_in};

    ghost Value = { Table };

    ghost view = { λ t. record { columns = t.columns; facts = facts_in t.groups.now; count = t.count } };
}

impl<'a> Table<'a> {
    // A table from its columns, its groups and its count.
    pub fn new(
        kinds: &'a [u8],
        lefts: &'a [u16],
        rights: &'a [u16],
        groups: &'a [u8],
        count: usize,
    ) -> Table<'a>
        ensures { result ≡ table kinds.now lefts.now rights.now groups.now count }
    {
        Table {
            columns: Columns {
                kinds,
                lefts,
                rights,
            },
            groups,
            count,
        }
    }
}
