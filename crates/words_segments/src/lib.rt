// A buffer's segments, from n down, each with its tag. Inner: n is at most 12 and the output has room.
#![tactic(auto)]

ghost use Rattle.std.specs.Prelude.{◌≡◌, ◌+◌, ◌*◌, ◌^◌, ◌<◌, ◌≤◌};
ghost use Rattle.std.proofs.Math.Seq.{paste};
ghost use Rattle.meaning.specs.Types.{bits};
ghost use Rattle.meaning.specs.Bits.{bits_of};
ghost use Rattle.meaning.specs.Words.{segment_bits, buffer, buffer_bits};
ghost use Rattle.bits.specs.Runs.{Run};
ghost use Rattle.words_laws.specs.Segments.{held_by};

// Segment k of data, from bit `at` on: present exactly if that bit of the length is set, and zero where it is absent. The answer is how many
// bytes of the data it holds.
fn write_segment(out: &mut [u8], at: usize, k: usize, held: &[u8]) -> usize
    requires k_bound { k < 13 }
    requires k_bound_2 { at + (1 + 8 * 2 ^ k) ≤ 524288 }
    requires run { Run out.old at (1 + 8 * 2 ^ k) }
    ensures value { result ≡ held_by k held.now }
    ensures out_after { bits_of out.new ≡ paste (bits_of out.old) at (segment_bits k held.now) (1 + 8 * 2 ^ k) }
{
    let size = shapes::word_width(k) as usize;
    let run = 8 * size;
    let whole = 1 + run;
    if (held.len() / size) % 2 == 1 {
        bits::put_bit(out, at, true);
        bits_runs::copy_bits(held, 0, out, at + 1, run);
        return size;
    }
    bits_runs::clear_bits(out, at, whole);
    0
}

// A buffer that holds data, from bit 0 on.
pub fn write_buffer(out: &mut [u8], n: usize, held: &[u8])
    requires n_bound { n < 13 }
    requires run { Run out.old 0 (bits (buffer n)) }
    ensures { bits_of out.new ≡ paste (bits_of out.old) 0 (buffer_bits n held.now) (bits (buffer n)) }
{
    let mut at = 0;
    let mut done = 0;
    for i in 0..n + 1 {
        let k = n - i;
        done += write_segment(out, at, k, &held[done..]);
        at += 1 + 8 * (shapes::word_width(k) as usize);
    }
}
