// A checked table, and one node of it as the walkers above read it, with the side that a tag takes. Inner: a table is checked by the first rung of
// every public call.
#![tactic(auto)]

ghost use Rattle.std.specs.Prelude.{◌≡◌, ◌<◌};
ghost use Rattle.meaning.specs.Types.{width, size};
ghost use Rattle.meaning.specs.Tables.{ty_at};
ghost use Rattle.meaning.specs.Checked.{Sound};
ghost use Rattle.nodes.specs.Reading.{Reads, side_of};

use std::marker::Model;
use tables::{Columns, Kind, Table};

// A table that is sound: who holds one has asked the first rung. A clause sees the table.
#[derive(Drop)]
pub struct Checked<'a> {
    pub kinds: &'a [u8],
    pub lefts: &'a [u16],
    pub rights: &'a [u16],
    pub groups: &'a [u8],
    pub count: usize,
}

impl<'a> Model for Checked<'a> {
    ghost use Rattle.meaning.specs.Tables.{Table, table};
    ghost use Rattle.meaning.specs.Checked.{Sound};

    ghost Value = { Table };

    ghost view = { λ t. table t.kinds.now t.lefts.now t.rights.now t.groups.now t.count };

    ghost invariant = { λ t. Sound (table t.kinds.now t.lefts.now t.rights.now t.groups.now t.count) };
}

// What a walker needs of a node. The sides of a unit are node 0.
#[derive(Clone, Copy)]
pub struct Node {
    pub kind: Kind,
    pub left: usize,
    pub right: usize,
    pub width: u64,
    pub left_width: u64,
    pub right_width: u64,
    pub padded: bool,
    pub class: usize,
}

impl<'a> Checked<'a> {
    // A table that the first rung has let pass.
    pub fn new(table: &Table<'a>) -> Checked<'a>
        requires { Sound table.now }
        ensures { result ≡ table.now }
    {
        let columns: &Columns<'a> = &table.columns;
        Checked {
            kinds: columns.kinds,
            lefts: columns.lefts,
            rights: columns.rights,
            groups: table.groups,
            count: table.count,
        }
    }

    // The width of a node.
    pub fn width(&self, n: usize) -> u64
        requires { n < self.now.count }
        ensures { result ≡ width (ty_at self.now.columns n) }
    {
        let groups = self.groups;
        groups::width_at(groups, n)
    }

    // Its size.
    pub fn size(&self, n: usize) -> u64
        requires { n < self.now.count }
        ensures { result ≡ size (ty_at self.now.columns n) }
    {
        let groups = self.groups;
        groups::size_at(groups, n)
    }

    // A node of the table. No sound table has a kind above 2: the last kind stands for it, so that no test of it is left at run time.
    pub fn node(&self, n: usize) -> Node
        requires { n < self.now.count }
        ensures { Reads self.now n result }
    {
        let kinds = self.kinds;
        let left = self.lefts[n] as usize;
        let right = self.rights[n] as usize;
        Node {
            kind: Kind::try_from(kinds[n]).unwrap_or(Kind::Product),
            left,
            right,
            width: groups::width_at(self.groups, n),
            left_width: groups::width_at(self.groups, left),
            right_width: groups::width_at(self.groups, right),
            padded: groups::padded_at(self.groups, n) == 1,
            class: groups::class_at(self.groups, n) as usize,
        }
    }
}

// A side of a node: its number and its width.
#[derive(Clone, Copy)]
pub struct Side {
    pub node: usize,
    pub width: u64,
}

impl Node {
    // The side that a tag takes: 0 the left one, 1 the right one.
    pub fn side(self, right: bool) -> Side
        ensures { result ≡ side_of right self }
    {
        if right {
            return Side {
                node: self.right,
                width: self.right_width,
            };
        }
        Side {
            node: self.left,
            width: self.left_width,
        }
    }
}
