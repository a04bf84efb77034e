// The table that a call is handed, as C hands it over: columns and groups that are lent, and how many nodes they have.
#![tactic(auto)]

ghost use Rattle.std.specs.Prelude.{◌≡◌, ◌*◌, ◌≤◌, IsTrue, length, replicate};

// How many nodes there is room for.
pub const MOST_NODES: usize = 1024;

// How many bytes a node's group of facts has. Said here and not taken from the crate groups: a replay is to be independent of what it tries.
pub const GROUP_BYTES: usize = 27;

// How many bytes a case has for a node: its entry and its facts.
const NODE_BYTES: usize = 5 + GROUP_BYTES;

// The groups of all nodes before a call has written them.
pub const NO_FACTS: [u8; MOST_NODES * GROUP_BYTES] = [0xEE; MOST_NODES * GROUP_BYTES];

// The columns, the groups and the count. Only the nodes below the count are in use.
#[derive(Drop)]
pub struct Table {
    pub kinds: [u8; MOST_NODES],
    pub lefts: [u16; MOST_NODES],
    pub rights: [u16; MOST_NODES],
    pub groups: [u8; MOST_NODES * GROUP_BYTES],
    pub count: usize,
}

impl Table {
    // Before a call has written it: of no nodes, and with 0xEE in every byte.
    pub fn untouched() -> Self
        ensures kinds { result.kinds ≡ replicate MOST_NODES 238 }
        ensures lefts { result.lefts ≡ replicate MOST_NODES 61166 }
        ensures rights { result.rights ≡ replicate MOST_NODES 61166 }
        ensures groups { result.groups ≡ replicate (MOST_NODES * GROUP_BYTES) 238 }
        ensures count { result.count ≡ 0 }
    {
        Table {
            kinds: [0xEE; MOST_NODES],
            lefts: [0xEEEE; MOST_NODES],
            rights: [0xEEEE; MOST_NODES],
            groups: [0xEE; MOST_NODES * GROUP_BYTES],
            count: 0,
        }
    }

    // With the same entries, and with groups that no call has written.
    pub fn without_facts(&self) -> Self
        ensures { result ≡ record self.now { groups = replicate (MOST_NODES * GROUP_BYTES) 238 } }
    {
        Table {
            groups: [0xEE; MOST_NODES * GROUP_BYTES],
            ..*self
        }
    }

    // As a call takes it for reading: kinds, lefts, rights, groups and count.
    pub fn lent(&self) -> (&[u8], &[u16], &[u16], &[u8], usize)
        ensures kinds { result.0.now ≡ self.now.kinds }
        ensures lefts { result.1.now ≡ self.now.lefts }
        ensures rights { result.2.now ≡ self.now.rights }
        ensures groups { result.3.now ≡ self.now.groups }
        ensures count { result.4 ≡ self.now.count }
    {
        (
            &self.kinds,
            &self.lefts,
            &self.rights,
            &self.groups,
            self.count,
        )
    }

    // Whether these are its nodes, one after the other, so many and no more.
    pub fn has_nodes(&self, nodes: &[u8]) -> bool
        ensures few { IsTrue result → self.now.count ≤ MOST_NODES }
        ensures all { IsTrue result → length nodes.now ≡ NODE_BYTES * self.now.count }
    {
        self.has_nodes_with(&self.groups, self.count, nodes)
    }

    // Whether these are so many of its entries, each with the facts of groups that a call has written, one after the other, and no more.
    pub fn has_nodes_with(&self, groups: &[u8], count: usize, nodes: &[u8]) -> bool
        requires { length groups.now ≡ MOST_NODES * GROUP_BYTES }
        ensures few { IsTrue result → count ≤ MOST_NODES }
        ensures all { IsTrue result → length nodes.now ≡ NODE_BYTES * count }
    {
        if count > MOST_NODES || nodes.len() != NODE_BYTES * count {
            return false;
        }
        for i in 0..count {
            let (entry, facts) = nodes[NODE_BYTES * i..NODE_BYTES * (i + 1)].split_at(5);
            let group = &groups[GROUP_BYTES * i..GROUP_BYTES * (i + 1)];
            if !(same_entry(entry, self.kinds[i], self.lefts[i], self.rights[i])
                && same_facts(facts, group))
            {
                return false;
            }
        }
        true
    }
}

// Whether an entry is the one that a case expects: kind, left and right, each with its highest byte first.
fn same_entry(expected: &[u8], kind: u8, left: u16, right: u16) -> bool
    requires { length expected.now ≡ 5 }
{
    expected[0] == kind
        && u16::from_be_bytes([expected[1], expected[2]]) == left
        && u16::from_be_bytes([expected[3], expected[4]]) == right
}

// Whether the facts in a group are the ones that a case expects: width, size, padded, class and least length. A case has each number with its
// highest byte first, a group with its lowest byte first.
fn same_facts(expected: &[u8], group: &[u8]) -> bool
    requires expected_length { length expected.now ≡ GROUP_BYTES }
    requires group_length { length group.now ≡ GROUP_BYTES }
{
    turned(&expected[..8], &group[..8])
        && turned(&expected[8..16], &group[8..16])
        && expected[16] == group[16]
        && turned(&expected[17..19], &group[17..19])
        && turned(&expected[19..], &group[19..])
}

// Whether bytes are the same in the opposite order.
fn turned(a: &[u8], b: &[u8]) -> bool {
    a.iter().eq(b.iter().rev())
}
