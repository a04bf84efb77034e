// Runs of bits copied and cleared. Inner: a public call has checked that the runs lie within their bytes.
// What writes a run goes by the destination's bytes: the bits up to the next border of a byte, whole bytes, and what is left, which is less than
// a byte.
#![tactic(auto)]

ghost use Rattle.std.specs.Prelude.{◌≡◌, ℕ, List, Bool, ◌+◌, ◌-◌, ◌*◌, ◌<◌, ◌≤◌, length, drop};
ghost use Rattle.std.proofs.Math.Seq.{paste};
ghost use Rattle.meaning.specs.Bits.{bits_of, zeros, room};
ghost use Rattle.bits.specs.Runs.{Run};
ghost use Rattle.bits_runs.specs.Given.{GivesFew, FillsWhole};

use bits::{bits_at, put_some};
use bits_bytes::copy_whole;

// Writes n bits from bit `at` on: `few(i, k)` answers k of them, at most 8, as a number, and `whole(i, bytes)` fills bytes with them, from their
// bit i on.
pub fn write_bits<F: Fn(usize, usize) -> u8, W: Fn(usize, &mut [u8])>(
    dst: &mut [u8],
    at: usize,
    n: usize,
    few: F,
    whole: W,
)
    requires run { Run dst.old at n }
    requires few_given { (i k : ℕ) → 0 < k → k ≤ 8 → i + k ≤ n → F.pre few i k }
    requires whole_given { (i : ℕ) (bytes : _) → 0 < i → i + 8 * length bytes.now ≤ n → W.pre whole i bytes }
    ensures { (v : List Bool) → n ≤ length v → GivesFew (F.post few) v n → FillsWhole (W.post whole) v n → bits_of dst.new ≡ paste (bits_of dst.old) at v n }
{
    if n == 0 {
        return;
    }
    let head = 8 - at % 8;
    if n <= head {
        put_some(dst, at, few(0, n), n);
        return;
    }
    put_some(dst, at, few(0, head), head);
    let first = at / 8 + 1;
    let bytes = (n - head) / 8;
    whole(head, &mut dst[first..first + bytes]);
    let done = head + 8 * bytes;
    if done < n {
        put_some(dst, at + done, few(done, n - done), n - done);
    }
}

// Copies a run of bits.
pub fn copy_bits(src: &[u8], from: usize, dst: &mut [u8], at: usize, n: usize)
    requires run { Run src.now from n }
    requires run_2 { Run dst.old at n }
    ensures { bits_of dst.new ≡ paste (bits_of dst.old) at (drop from (bits_of src.now)) n }
{
    write_bits(
        dst,
        at,
        n,
        |i, k| bits_at(src, from + i, k),
        |i, bytes| copy_whole(src, from + i, bytes),
    );
}

// Writes zero bits.
pub fn clear_bits(dst: &mut [u8], at: usize, n: usize)
    requires { Run dst.old at n }
    ensures { bits_of dst.new ≡ paste (bits_of dst.old) at (zeros n) n }
{
    write_bits(dst, at, n, |_, _| 0, |_, bytes| bytes.fill(0));
}

// Clears what follows the first w bits in the last byte that they reach: nothing if w is a multiple of 8.
pub fn finish(out: &mut [u8], w: usize)
    requires { w ≤ 8 * length out.old }
    ensures { bits_of out.new ≡ paste (bits_of out.old) w (zeros (8 * room w - w)) (8 * room w - w) }
{
    let used = w % 8;
    if used != 0 {
        put_some(out, w, 0, 8 - used);
    }
}
