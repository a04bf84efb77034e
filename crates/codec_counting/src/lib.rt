// How many compact bits a record has: the walk over it that counts them, and whether they fit. The walk recurses on node numbers, which fall
// at every call: a node without padding is one run of bits; of the others a sum calls it for the side that the tag takes, a product for its
// left part and then for its right part. Inner: the table and the bounds are those that a public call has checked.
#![tactic(auto)]

ghost use Rattle.std.specs.Prelude.{◌≡◌, leb, length, drop};
ghost use Rattle.meaning.specs.Types.{bits};
ghost use Rattle.meaning.specs.Tables.{ty_at};
ghost use Rattle.meaning.specs.Bits.{bits_of, room};
ghost use Rattle.meaning.specs.Records.{compact};
ghost use Rattle.bits.specs.Runs.{Run};
ghost use Rattle.checked.specs.Passed.{Named};

use bits::{bit_at, bytes_for};
use checked_nodes::width_of;
use nodes::Checked;
use tables::Kind;

// How many compact bits the record at a bit has.
pub fn count_compact(table: &Checked<'_>, src: &[u8], at: usize, node: usize) -> usize
    requires named { Named table.now node }
    requires run { Run src.now at (bits (ty_at table.now.columns node)) }
    ensures { result ≡ length (compact (ty_at table.now.columns node) (drop at (bits_of src.now))) }
{
    let n = table.node(node);
    if !n.padded {
        return n.width as usize;
    }
    match n.kind {
        Kind::Sum => {
            let side = n.side(bit_at(src, at));
            1 + count_compact(table, src, at + (n.width - side.width) as usize, side.node)
        }
        _ => {
            let first = count_compact(table, src, at, n.left);
            let second = count_compact(table, src, at + n.left_width as usize, n.right);
            first + second
        }
    }
}

// Whether the compact bits of the record at a bit fit into so many bytes. They are no more than the record has bits, so they are counted only
// where the whole record would not fit.
pub fn compact_fits(table: &Checked<'_>, src: &[u8], at: usize, node: usize, space: usize) -> bool
    requires named { Named table.now node }
    requires run { Run src.now at (bits (ty_at table.now.columns node)) }
    ensures { result ≡ leb (room (length (compact (ty_at table.now.columns node) (drop at (bits_of src.now))))) space }
{
    if bytes_for(width_of(table, node)) <= space {
        return true;
    }
    bytes_for(count_compact(table, src, at, node)) <= space
}
