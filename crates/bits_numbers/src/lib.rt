// Numbers written as runs of bits. Inner: a public call has checked that the run lies within its bytes. It is written by the destination's bytes, as
// the runs of `bits_runs` are.
#![tactic(auto)]

ghost use Rattle.std.specs.Prelude.{◌≡◌, ◌≤◌};
ghost use Rattle.std.proofs.Math.Seq.{paste};
ghost use Rattle.meaning.specs.Bits.{bits_of, to_bits};
ghost use Rattle.bits.specs.Runs.{Run};

use bits_bytes::put_bytes;
use bits_runs::write_bits;

// Writes the n lowest bits of a number, the top one first.
pub fn put_number(dst: &mut [u8], at: usize, x: u64, n: usize)
    requires n_bound { n ≤ 64 }
    requires run { Run dst.old at n }
    ensures { bits_of dst.new ≡ paste (bits_of dst.old) at (to_bits n x) n }
{
    write_bits(
        dst,
        at,
        n,
        |i, k| ((x >> (n - i - k)) % 256) as u8,
        |i, bytes| put_bytes(bytes, x >> (n - i - 8 * bytes.len())),
    );
}
