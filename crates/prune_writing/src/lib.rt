// Writes the cut of a record, by the four rules of document 01 in their order. Equal types means equal class, never equal nodes. The walk
// recurses on node numbers, which fall at every call.
#![tactic(auto)]

ghost use Rattle.std.specs.Prelude.{◌≡◌, true};
ghost use Rattle.std.proofs.Math.Seq.{paste};
ghost use Rattle.meaning.specs.Types.{bits};
ghost use Rattle.meaning.specs.Bits.{bits_of};
ghost use Rattle.meaning.specs.Ladder.{record_of, type_at};
ghost use Rattle.meaning.specs.CutCalls.{is_cut, cut_bits, cut_of};
ghost use Rattle.bits.specs.Runs.{Run};
ghost use Rattle.checked.specs.Passed.{Named};

use nodes::Checked;
use tables::Kind;

// Writes the record of the node `given` at bit `at`, cut to the node `target`, from bit `to` of the output on.
pub fn write(
    table: &Checked<'_>,
    src: &[u8],
    at: usize,
    given: usize,
    target: usize,
    out: &mut [u8],
    to: usize,
)
    requires named { Named table.now given }
    requires named_2 { Named table.now target }
    requires run { Run src.now at (bits (type_at table.now given)) }
    requires target_value { is_cut (cut_of table.now (record_of src.now at given) target) ≡ true }
    requires run_2 { Run out.old to (bits (type_at table.now target)) }
    ensures { bits_of out.new ≡ paste (bits_of out.old) to (cut_bits (cut_of table.now (record_of src.now at given) target)) (bits (type_at table.now target)) }
{
    let given_node = table.node(given);
    let target_node = table.node(target);
    let target_class = target_node.class;
    let given_class = given_node.class;
    if target_class == given_class {
        bits_runs::copy_bits(src, at, out, to, target_node.width as usize);
        return;
    }
    match target_node.kind {
        Kind::Unit => {}
        Kind::Sum => {
            let side = prune_sides::taken_side(src, at, given_node, target_node);
            let before = side.target.before;
            bits::put_bit(out, to, side.tag);
            bits_runs::clear_bits(out, to + 1, before - 1);
            write(
                table,
                src,
                at + side.given.before,
                side.given.node,
                side.target.node,
                out,
                to + before,
            );
        }
        Kind::Product => {
            write(table, src, at, given_node.left, target_node.left, out, to);
            write(
                table,
                src,
                at + given_node.left_width as usize,
                given_node.right,
                target_node.right,
                out,
                to + target_node.left_width as usize,
            );
        }
    }
}
