// The class of a node, found along chains: the nodes of their own class whose keys fall into one slot of a hash. Keys that all collide only make it
// slow.
#![tactic(auto)]

ghost use Rattle.std.specs.Prelude.{◌≡◌, ◌+◌, ◌*◌, ◌<◌};
ghost use Rattle.meaning.specs.Tables.{class_of};
ghost use Rattle.tables.specs.Kinds.{kind_no};
ghost use Rattle.facts_classes.specs.Chains.{slot, slot_at, Chained};
ghost use Rattle.facts_classes.specs.Seeking.{Classing};

use tables::{Columns, Kind};

// What tells a class: the kind of its nodes, and the classes of their two sides.
#[derive(Clone, Copy, PartialEq, Eq)]
pub struct Key {
    pub kind: Kind,
    pub left: u16,
    pub right: u16,
}

impl Key {
    // The slot of a key.
    #[tactic(auto, unfolding(crate::specs::Chains::slot))]
    pub fn slot(self) -> usize
        ensures { result ≡ slot (kind_no self.kind) self.left self.right }
    {
        (self.left as usize * 2048 + self.right as usize * 2 + self.kind as usize) * 2654435761
            / 4194304
            % 1024
    }
}

// The chains of the nodes so far: the last node of each slot, and the node before each. Node 0 is a unit and never looked for, so 0 ends a chain.
// An Option in place of it would double the memory that a call takes.
#[derive(Drop)]
pub struct Chains {
    heads: [u16; 1024],
    links: [u16; 1024],
}

impl Chains {
    // No node yet.
    pub fn new() -> Chains
        ensures { (c : _) → Chained c result 0 }
    {
        Chains {
            heads: [0; 1024],
            links: [0; 1024],
        }
    }

    // The class of a sum or a product n with a key: the first node with that key, or n itself.
    pub fn class_of(&self, columns: &Columns<'_>, groups: &[u8], key: Key, n: usize) -> usize
        requires { Classing columns.now groups.now self.now key n }
        ensures { result ≡ class_of columns.now n }
    {
        let mut m = self.heads[key.slot()] as usize;
        while m != 0 {
            if columns.kinds[m] == key.kind as u8
                && groups::class_at(groups, columns.lefts[m] as usize) == key.left
                && groups::class_at(groups, columns.rights[m] as usize) == key.right
            {
                return m;
            }
            m = self.links[m] as usize;
        }
        n
    }

    // Puts node n at the head of its slot's chain, if it is of its own class.
    pub fn add(&mut self, slot: usize, class: usize, n: usize)
        requires { (slot < 1024) × (n < 1024) }
        ensures { (c : _) → Chained c self.old n → class ≡ class_of c n → slot ≡ slot_at c n → Chained c self.new (n + 1) }
    {
        if class == n {
            self.links[n] = self.heads[slot];
            self.heads[slot] = n as u16;
        }
    }
}
