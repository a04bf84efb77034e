// Where the compact bits of a record end: the judge, a walk that only reads, and whether a stream ends before they do. The walk recurses on
// node numbers, which fall at every call: a node without padding is one run of bits; of the others a sum calls it for the side that the tag takes,
// a product for its left part and then for its right part. Inner: the table and the bounds are those that a public call has checked.
#![tactic(auto)]

ghost use Rattle.std.specs.Prelude.{◌≡◌, ◌*◌, ◌≤◌, length, take, drop};
ghost use Rattle.meaning.specs.Tables.{ty_at};
ghost use Rattle.meaning.specs.Bits.{bits_of};
ghost use Rattle.meaning.specs.Codecs.{decode_compact, is_early};
ghost use Rattle.checked.specs.Passed.{Named};
ghost use Rattle.codec_judging.specs.Ends.{end_of};

use bits::bit_at;
use checked_nodes::width_of;
use nodes::Checked;
use tables::Kind;

// Where the compact bits of the record at a bit end, of a stream that ends at bit `until`. None: the stream ends before they do.
fn judge_compact(
    table: &Checked<'_>,
    src: &[u8],
    until: usize,
    at: usize,
    node: usize,
) -> Option<usize>
    requires named { Named table.now node }
    requires at_le_until { (at ≤ until) × (until ≤ 8 * length src.now) }
    ensures { result ≡ end_of at (decode_compact (ty_at table.now.columns node) (drop at (take until (bits_of src.now)))) }
{
    let n = table.node(node);
    if !n.padded {
        let w = n.width as usize;
        if until - at < w {
            return None;
        }
        return Some(at + w);
    }
    match n.kind {
        Kind::Sum => {
            if at == until {
                return None;
            }
            let side = n.side(bit_at(src, at));
            judge_compact(table, src, until, at + 1, side.node)
        }
        _ => {
            let next = judge_compact(table, src, until, at, n.left)?;
            judge_compact(table, src, until, next, n.right)
        }
    }
}

// Whether a stream that ends at bit `until` ends before the compact bits of the record at a bit do. They are no more than the record has bits,
// so a stream with as many left needs no judge.
pub fn ends_early(table: &Checked<'_>, src: &[u8], until: usize, at: usize, node: usize) -> bool
    requires named { Named table.now node }
    requires at_le_until { (at ≤ until) × (until ≤ 8 * length src.now) }
    ensures { result ≡ is_early (decode_compact (ty_at table.now.columns node) (drop at (take until (bits_of src.now)))) }
{
    if width_of(table, node) <= until - at {
        return false;
    }
    judge_compact(table, src, until, at, node).is_none()
}
