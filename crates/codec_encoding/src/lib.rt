// Compact writing: the walk over a record that writes its compact bits. It recurses on node numbers, which fall at every call: a node without
// padding is one run of bits; of the others a sum calls it for the side that the tag takes, a product for its left part and then for its right
// part. Inner: the table and the bounds are those that a public call has checked.
#![tactic(auto)]

ghost use Rattle.std.specs.Prelude.{◌≡◌, length, drop};
ghost use Rattle.meaning.specs.Types.{bits};
ghost use Rattle.meaning.specs.Tables.{ty_at};
ghost use Rattle.meaning.specs.Bits.{bits_of, written};
ghost use Rattle.meaning.specs.Records.{compact};
ghost use Rattle.bits.specs.Runs.{Run};
ghost use Rattle.checked.specs.Passed.{Named};
ghost use Rattle.codec_laws.specs.Walks.{Wrote};

use bits::{bit_at, put_bit};
use bits_runs::{copy_bits, finish};
use nodes::Checked;
use tables::Kind;

// Writes the compact bits of the record at a bit, and answers the bit after them.
fn write_compact(
    table: &Checked<'_>,
    src: &[u8],
    at: usize,
    node: usize,
    out: &mut [u8],
    to: usize,
) -> usize
    requires named { Named table.now node }
    requires run { Run src.now at (bits (ty_at table.now.columns node)) }
    requires run_2 { Run out.old to (length (compact (ty_at table.now.columns node) (drop at (bits_of src.now)))) }
    ensures { Wrote (compact (ty_at table.now.columns node) (drop at (bits_of src.now))) out.old to result out.new }
{
    let n = table.node(node);
    if !n.padded {
        let w = n.width as usize;
        copy_bits(src, at, out, to, w);
        return to + w;
    }
    match n.kind {
        Kind::Sum => {
            let right = bit_at(src, at);
            let side = n.side(right);
            put_bit(out, to, right);
            let payload = at + (n.width - side.width) as usize;
            write_compact(table, src, payload, side.node, out, to + 1)
        }
        _ => {
            let second = at + n.left_width as usize;
            let next = write_compact(table, src, at, n.left, out, to);
            write_compact(table, src, second, n.right, out, next)
        }
    }
}

// Writes the compact bits of the record at a bit from bit 0 of the output on, and answers how many they are.
pub fn write_record(
    table: &Checked<'_>,
    src: &[u8],
    at: usize,
    node: usize,
    out: &mut [u8],
) -> usize
    requires named { Named table.now node }
    requires run { Run src.now at (bits (ty_at table.now.columns node)) }
    requires run_2 { Run out.old 0 (length (compact (ty_at table.now.columns node) (drop at (bits_of src.now)))) }
    ensures value { result ≡ length (compact (ty_at table.now.columns node) (drop at (bits_of src.now))) }
    ensures out_after { out.new ≡ written (compact (ty_at table.now.columns node) (drop at (bits_of src.now))) out.old }
{
    let end = write_compact(table, src, at, node, out, 0);
    finish(out, end);
    end
}
