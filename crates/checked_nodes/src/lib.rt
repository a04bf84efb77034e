// What the calls ask of nodes that were checked: how wide a node's records are, and whether two nodes have the same type.
#![tactic(auto)]

ghost use Rattle.std.specs.Prelude.{◌≡◌, ◌<◌};
ghost use Rattle.meaning.specs.Types.{same, bits};
ghost use Rattle.meaning.specs.Ladder.{type_at};
ghost use Rattle.checked.specs.Passed.{Named};

use nodes::Checked;

// How many bits the records of a node have.
pub fn width_of(table: &Checked<'_>, node: usize) -> usize
    requires { Named table.now node }
    ensures { result ≡ bits (type_at table.now node) }
{
    table.width(node) as usize
}

// Two nodes have the same type: their classes are equal.
pub fn same_type(table: &Checked<'_>, a: usize, b: usize) -> bool
    requires a_lt_count { a < table.now.count }
    requires b_lt_count { b < table.now.count }
    ensures { result ≡ same (type_at table.now a) (type_at table.now b) }
{
    table.node(a).class == table.node(b).class
}
