// Whole records, written at bit 0 of an output with zero bits after them in the last byte; later bytes are left alone.
// Inner: a public call has checked that what is written lies within its bytes and that the output has room.
#![tactic(auto)]

ghost use Rattle.std.specs.Prelude.{◌≡◌, ◌∷◌, ◌++◌, ◌-◌, ◌<◌, ◌≤◌, take, drop};
ghost use Rattle.meaning.specs.Bits.{bits_of, zeros, written};
ghost use Rattle.bits.specs.Runs.{Run};

// A record that is one run of n bits.
pub fn write_run(out: &mut [u8], src: &[u8], from: usize, n: usize)
    requires run { Run out.old 0 n }
    requires run_2 { Run src.now from n }
    ensures { out.new ≡ written (take n (drop from (bits_of src.now))) out.old }
{
    bits_runs::copy_bits(src, from, out, 0, n);
    bits_runs::finish(out, n);
}

// A record of n zero bits.
pub fn write_zeros(out: &mut [u8], n: usize)
    requires { Run out.old 0 n }
    ensures { out.new ≡ written (zeros n) out.old }
{
    bits_runs::clear_bits(out, 0, n);
    bits_runs::finish(out, n);
}

// A sum of w bits: the tag, zero padding, and the n bits of the payload at the end.
pub fn write_sum(out: &mut [u8], w: usize, tag: bool, src: &[u8], from: usize, n: usize)
    requires n_lt_w { n < w }
    requires run { Run out.old 0 w }
    requires run_2 { Run src.now from n }
    ensures { out.new ≡ written (tag ∷ (zeros (w - 1 - n) ++ take n (drop from (bits_of src.now)))) out.old }
{
    bits::put_bit(out, 0, tag);
    bits_runs::clear_bits(out, 1, w - 1 - n);
    bits_runs::copy_bits(src, from, out, w - n, n);
    bits_runs::finish(out, w);
}

// A product of `whole` bits: the m bits of the first part, then those of the second.
pub fn write_product(
    out: &mut [u8],
    whole: usize,
    a: &[u8],
    a_from: usize,
    m: usize,
    b: &[u8],
    b_from: usize,
)
    requires m_le_whole { m ≤ whole }
    requires run { Run out.old 0 whole }
    requires run_2 { Run a.now a_from m }
    requires run_3 { Run b.now b_from (whole - m) }
    ensures { out.new ≡ written (take m (drop a_from (bits_of a.now)) ++ take (whole - m) (drop b_from (bits_of b.now))) out.old }
{
    bits_runs::copy_bits(a, a_from, out, 0, m);
    bits_runs::copy_bits(b, b_from, out, m, whole - m);
    bits_runs::finish(out, whole);
}
