// Compact reading: the walk that writes a record from its compact bits. It recurses on node numbers, which fall at every call: a node without
// padding is one run of bits; of the others a sum calls it for the side that the tag takes, a product for its left part and then for its right
// part. Inner: the table and the bounds are those that a public call has checked, and what is read is known to be there whole.
#![tactic(auto)]

ghost use Rattle.std.specs.Prelude.{◌≡◌, false, ◌+◌, drop};
ghost use Rattle.meaning.specs.Types.{bits};
ghost use Rattle.meaning.specs.Tables.{ty_at};
ghost use Rattle.meaning.specs.Bits.{bits_of, written};
ghost use Rattle.meaning.specs.Codecs.{decode_compact, is_early, decoded_record, consumed};
ghost use Rattle.bits.specs.Runs.{Run};
ghost use Rattle.checked.specs.Passed.{Named};
ghost use Rattle.codec_laws.specs.Walks.{ReadTo};

use bits::{bit_at, put_bit};
use bits_runs::{clear_bits, copy_bits, finish};
use checked_nodes::width_of;
use nodes::Checked;
use tables::Kind;

// Writes the record whose compact bits begin at a bit, with zero padding, and answers the bit after them.
fn read_compact(
    table: &Checked<'_>,
    src: &[u8],
    at: usize,
    node: usize,
    out: &mut [u8],
    to: usize,
) -> usize
    requires named { Named table.now node }
    requires src_value { is_early (decode_compact (ty_at table.now.columns node) (drop at (bits_of src.now))) ≡ false }
    requires run { Run src.now at (consumed (decode_compact (ty_at table.now.columns node) (drop at (bits_of src.now)))) }
    requires run_2 { Run out.old to (bits (ty_at table.now.columns node)) }
    ensures { ReadTo (decode_compact (ty_at table.now.columns node) (drop at (bits_of src.now))) at out.old to result out.new }
{
    let n = table.node(node);
    if !n.padded {
        let w = n.width as usize;
        copy_bits(src, at, out, to, w);
        return at + w;
    }
    match n.kind {
        Kind::Sum => {
            let right = bit_at(src, at);
            let side = n.side(right);
            let pad = (n.width - side.width - 1) as usize;
            put_bit(out, to, right);
            clear_bits(out, to + 1, pad);
            read_compact(table, src, at + 1, side.node, out, to + 1 + pad)
        }
        _ => {
            let second = to + n.left_width as usize;
            let next = read_compact(table, src, at, n.left, out, to);
            read_compact(table, src, next, n.right, out, second)
        }
    }
}

// Writes the record whose compact bits begin at a bit from bit 0 of the output on, and answers the bit after them.
pub fn read_record(table: &Checked<'_>, src: &[u8], at: usize, node: usize, out: &mut [u8]) -> usize
    requires named { Named table.now node }
    requires src_value { is_early (decode_compact (ty_at table.now.columns node) (drop at (bits_of src.now))) ≡ false }
    requires run { Run src.now at (consumed (decode_compact (ty_at table.now.columns node) (drop at (bits_of src.now)))) }
    requires run_2 { Run out.old 0 (bits (ty_at table.now.columns node)) }
    ensures value { result ≡ at + consumed (decode_compact (ty_at table.now.columns node) (drop at (bits_of src.now))) }
    ensures out_after { out.new ≡ written (decoded_record (decode_compact (ty_at table.now.columns node) (drop at (bits_of src.now)))) out.old }
{
    let next = read_compact(table, src, at, node, out, 0);
    finish(out, width_of(table, node));
    next
}
