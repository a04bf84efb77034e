// The entries of a lent table: whether one is right, and the first wrong one.
#![tactic(auto)]

ghost use Rattle.std.specs.Prelude.{◌≡◌};
ghost use Rattle.meaning.specs.Tables.{sides_right, first_bad_entry};
ghost use Rattle.facts_entries.specs.Reach.{Reach};

use tables::{Columns, Kind};

// The sides that a kind allows at node n.
pub fn entry_right(kind: u8, n: usize, l: u16, r: u16) -> bool
    ensures { result ≡ sides_right kind n l r }
{
    match Kind::try_from(kind) {
        Ok(Kind::Unit) => l == 0 && r == 0,
        Ok(Kind::Sum | Kind::Product) => (l as usize) < n && (r as usize) < n,
        Err(_) => false,
    }
}

// The first node whose entry is wrong, or the count.
#[tactic(auto, using(crate::proofs::Entries::bad_entry_here, crate::proofs::Entries::no_bad_entry), unfolding(meaning::specs::Tables::entry_right))]
pub fn first_bad_entry(columns: &Columns<'_>, count: usize) -> usize
    requires { Reach columns.now count }
    ensures { result ≡ first_bad_entry columns.now count }
{
    for k in 0..count {
        if !entry_right(columns.kinds[k], k, columns.lefts[k], columns.rights[k]) {
            return k;
        }
    }
    count
}
