// Where a cut goes on below two sums: the tag of the record takes a side of its own type and that side of the target.
// What holds of one step of a cut is proved here, for the walk that judges and for the one that writes.
#![tactic(auto)]

ghost use Rattle.std.specs.Prelude.{◌≤◌};
ghost use Rattle.nodes.specs.Reading.{side_of};
ghost use Rattle.prune_sides.specs.Sides.{UnderTag, Sums, TakenSide};

use nodes::Node;

// The payload under a tag: its node, and how many bits of tag and padding stand before it.
#[derive(Clone, Copy)]
pub struct Payload {
    pub node: usize,
    pub before: usize,
}

fn under_tag(n: Node, tag: bool) -> Payload
    requires { (side_of tag n).width ≤ n.width }
    ensures { UnderTag n tag result }
{
    let side = n.side(tag);
    Payload {
        node: side.node,
        before: (n.width - side.width) as usize,
    }
}

// The tag of a record, and the payloads under it in the record and in the target.
#[derive(Clone, Copy)]
pub struct Taken {
    pub tag: bool,
    pub given: Payload,
    pub target: Payload,
}

pub fn taken_side(src: &[u8], at: usize, given: Node, target: Node) -> Taken
    requires { Sums src.now at given target }
    ensures { TakenSide src.now at given target result }
{
    let tag = bits::bit_at(src, at);
    Taken {
        tag,
        given: under_tag(given, tag),
        target: under_tag(target, tag),
    }
}
