// The facts of a lent table: the first node with anything wrong, and the groups of facts filled in.
// Each node is judged by the facts of earlier ones, so one pass does.
#![tactic(auto)]

ghost use Rattle.std.specs.Prelude.{◌≡◌, ◌+◌};
ghost use Rattle.meaning.specs.Tables.{first_bad};
ghost use Rattle.meaning.specs.TypeCalls.{groups_written};
ghost use Rattle.facts.specs.Known.{TableReach, Ready, Fillable, Derived};

use facts_classes::{Chains, Key};
use facts_entries::entry_right;
use facts_sides::{agrees, facts_by};
use groups::Facts;
use tables::{Columns, Kind, Table};

// What is found of a node: its facts, and the slot of its key.
#[derive(Clone, Copy)]
struct Found {
    facts: Facts,
    slot: usize,
}

// The facts of node n, by those of earlier nodes.
fn facts_at(columns: &Columns<'_>, groups: &[u8], chains: &Chains, n: usize) -> Found
    requires { Ready columns.now groups.now chains.now n }
    ensures { Derived columns.now n result }
{
    let Ok(kind) = Kind::try_from(columns.kinds[n]) else {
        unreachable!()
    };
    // The key of a unit is all zeros, and so is its slot.
    if kind == Kind::Unit {
        return Found {
            facts: Facts {
                width: 0,
                size: 1,
                padded: false,
                class: 0,
                least: 0,
            },
            slot: 0,
        };
    }
    let x = groups::facts_at(groups, columns.lefts[n] as usize);
    let y = groups::facts_at(groups, columns.rights[n] as usize);
    let key = Key {
        kind,
        left: x.class,
        right: y.class,
    };
    let class = chains.class_of(columns, groups, key, n) as u16;
    Found {
        facts: facts_by(kind, class, x, y),
        slot: key.slot(),
    }
}

// The first node whose entry or any of whose facts is wrong, or the count.
pub fn first_bad(table: &Table<'_>) -> usize
    requires { TableReach table.now }
    ensures { result ≡ first_bad table.now }
{
    let columns = &table.columns;
    let mut chains = Chains::new();
    for n in 0..table.count {
        if !entry_right(columns.kinds[n], n, columns.lefts[n], columns.rights[n]) {
            return n;
        }
        let found = facts_at(columns, table.groups, &chains, n);
        if !agrees(table.groups, n, found.facts) {
            return n;
        }
        chains.add(found.slot, found.facts.class as usize, n);
    }
    table.count
}

// Fills in the groups of a table whose entries are right.
pub fn fill(columns: &Columns<'_>, count: usize, groups: &mut [u8])
    requires { Fillable columns.now groups.old count }
    ensures { groups.new ≡ groups_written columns.now count groups.old }
{
    let mut chains = Chains::new();
    for n in 0..count {
        let found = facts_at(columns, groups, &chains, n);
        groups::put_group(groups, n, found.facts);
        chains.add(found.slot, found.facts.class as usize, n);
    }
}
