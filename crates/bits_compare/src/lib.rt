// Runs of bits compared. Inner: a public call has checked that the runs lie within their bytes.
#![tactic(auto)]

ghost use Rattle.std.specs.Prelude.{◌≡◌, ◌*◌, ◌<◌, IsTrue, take, drop};
ghost use Rattle.meaning.specs.Bits.{bits_of};
ghost use Rattle.meaning.specs.Records.{same_bits, order_bits};
ghost use Rattle.bits.specs.Runs.{Run};
ghost use Rattle.bits_compare.specs.Alike.{Alike};
ghost use Rattle.answers.specs.Verdicts.{order};

use bits::{bits_at, byte_at};
use std::cmp::Ordering;

// Two runs hold the same bits.
pub fn same_bits(a: &[u8], from: usize, b: &[u8], at: usize, n: usize) -> bool
    requires run { Run a.now from n }
    requires run_2 { Run b.now at n }
    ensures { result ≡ same_bits (take n (drop from (bits_of a.now))) (take n (drop at (bits_of b.now))) }
{
    order_bits(a, from, b, at, n).is_eq()
}

// The order of two runs, by the first bit that differs. What is alike is passed over by large blocks, and then by small ones; only what is left
// is looked at byte by byte.
pub fn order_bits(a: &[u8], from: usize, b: &[u8], at: usize, n: usize) -> Ordering
    requires run { Run a.now from n }
    requires run_2 { Run b.now at n }
    ensures { order result ≡ order_bits (take n (drop from (bits_of a.now))) (take n (drop at (bits_of b.now))) }
{
    let large = alike_blocks(a, from, b, at, n, 0, 64);
    let small = alike_blocks(a, from, b, at, n, large, 8);
    for same in (small..n).step_by(8) {
        let step = (n - same).min(8);
        let order = bits_at(a, from + same, step).cmp(&bits_at(b, at + same, step));
        if order.is_ne() {
            return order;
        }
    }
    Ordering::Equal
}

// So many bits at the start of two runs are alike, of which `start` are known: all before the first block that differs, and none after the last
// whole block. A block is so many bytes.
fn alike_blocks(
    a: &[u8],
    from: usize,
    b: &[u8],
    at: usize,
    n: usize,
    start: usize,
    block: usize,
) -> usize
    requires run { Run a.now from n }
    requires run_2 { Run b.now at n }
    requires alike { Alike (bits_of a.now) from (bits_of b.now) at n start }
    requires block_nonzero { (0 < block) × (block < 256) }
    ensures { Alike (bits_of a.now) from (bits_of b.now) at n result }
{
    for alike in (start..n).step_by(8 * block) {
        if n - alike < 8 * block || !alike_bytes(a, from + alike, b, at + alike, block) {
            return alike;
        }
    }
    n
}

// Two runs of n bytes are alike. It does not stop at a difference: so the compiler can compare many bytes at once.
fn alike_bytes(a: &[u8], from: usize, b: &[u8], at: usize, n: usize) -> bool
    requires run { Run a.now from (8 * n) }
    requires run_2 { Run b.now at (8 * n) }
    ensures { IsTrue result → Alike (bits_of a.now) from (bits_of b.now) at (8 * n) (8 * n) }
{
    let mut alike = true;
    for t in 0..n {
        alike &= byte_at(a, from, t) == byte_at(b, at, t);
    }
    alike
}
