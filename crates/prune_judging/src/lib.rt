// Whether a record can be cut to a target: a walk that only reads. Equal types means equal class, never equal nodes. The walk recurses on node
// numbers, which fall at every call.
#![tactic(auto)]

ghost use Rattle.std.specs.Prelude.{◌≡◌};
ghost use Rattle.meaning.specs.Types.{bits};
ghost use Rattle.meaning.specs.Ladder.{record_of, type_at};
ghost use Rattle.meaning.specs.CutCalls.{is_cut, cut_of};
ghost use Rattle.bits.specs.Runs.{Run};
ghost use Rattle.checked.specs.Passed.{Named};

use nodes::Checked;
use tables::Kind;

// The record of the node `given` at bit `at` can be cut to the node `target`.
pub fn fits(table: &Checked<'_>, src: &[u8], at: usize, given: usize, target: usize) -> bool
    requires named { Named table.now given }
    requires named_2 { Named table.now target }
    requires run { Run src.now at (bits (type_at table.now given)) }
    ensures { result ≡ is_cut (cut_of table.now (record_of src.now at given) target) }
{
    let given_node = table.node(given);
    let target_node = table.node(target);
    let target_class = target_node.class;
    let given_class = given_node.class;
    if target_class == given_class {
        return true;
    }
    // A test of its own, and no arm below: so the compiler makes one branch of it and of the classes, and which of the two holds, which hangs on the
    // tags, costs no wrong guess.
    if let Kind::Unit = target_node.kind {
        return true;
    }
    match (target_node.kind, given_node.kind) {
        (Kind::Sum, Kind::Sum) => {
            let side = prune_sides::taken_side(src, at, given_node, target_node);
            fits(
                table,
                src,
                at + side.given.before,
                side.given.node,
                side.target.node,
            )
        }
        (Kind::Product, Kind::Product) => {
            fits(table, src, at, given_node.left, target_node.left)
                && fits(
                    table,
                    src,
                    at + given_node.left_width as usize,
                    given_node.right,
                    target_node.right,
                )
        }
        _ => false,
    }
}
