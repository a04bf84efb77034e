// Single bits in bytes, and runs of at most 8 of them: read and written. How many bytes bits take. Bits run from the top of each byte.
// What holds of bits and bytes is proved here, for this crate and for those above it: `bits_bytes` (whole bytes of a destination), `bits_runs` (runs
// copied and cleared), `bits_numbers` (numbers) and `bits_compare` (runs compared).
// The functions of these crates rely on what a public call has checked, so they are no part of the library's interface: what is `pub` is so
// only since a crate above calls it. Each contract speaks of the bits of the bytes alone; how many bytes there are does not change.
// A run comes as its bytes, its first bit and its length: one struct would not serve the runs that are read and those that are written, whose bytes
// are lent to be changed, and a copy would state its one length in both.
#![tactic(auto)]

ghost use Rattle.std.specs.Prelude.{◌≡◌, false, ◌+◌, ◌-◌, ◌*◌, ◌/◌, ◌%◌, ◌^◌, ◌<◌, ◌≤◌, ◌++◌, length, get_or, set, take, drop};
ghost use Rattle.std.proofs.Math.Seq.{paste};
ghost use Rattle.meaning.specs.Bits.{bits_of, to_bits, room};
ghost use Rattle.bits.specs.Runs.{Run};

// The bit with a number.
pub fn bit_at(s: &[u8], at: usize) -> bool
    requires { at < 8 * length s.now }
    ensures { result ≡ get_or (bits_of s.now) at false }
{
    (s[at / 8] >> (7 - at % 8)) % 2 == 1
}

// Sets the bit with a number.
pub fn put_bit(d: &mut [u8], at: usize, b: bool)
    requires { at < 8 * length d.old }
    ensures { bits_of d.new ≡ set (bits_of d.old) at b }
{
    let i = at / 8;
    d[i] = with_bit(d[i], 7 - at % 8, b);
}

// A byte with the bit of the value 2^k set to b.
fn with_bit(x: u8, k: usize, b: bool) -> u8
    requires { k < 8 }
    ensures { to_bits 8 result ≡ set (to_bits 8 x) (7 - k) b }
{
    let high = x >> k;
    let low = x - (high << k);
    ((high - high % 2 + (b as u8)) << k) + low
}

// The n bits from bit `at` on, at most 8, as a number.
#[tactic(auto, using(crate::proofs::Parts::byte_shifted, crate::proofs::Parts::top_below))]
pub fn bits_at(s: &[u8], at: usize, n: usize) -> u8
    requires n_bound { n ≤ 8 }
    requires run { Run s.now at n }
    ensures result_value { to_bits n result ≡ take n (drop at (bits_of s.now)) }
    ensures upper_bound { result < 2 ^ n }
{
    if n == 0 {
        return 0;
    }
    let i = at / 8;
    let skip = at % 8;
    if skip + n <= 8 {
        return (s[i] << skip) >> (8 - n);
    }
    straddling(s[i], s[i + 1], skip) >> (8 - n)
}

// The byte that starts t whole bytes after bit `from`. A loop over t stays one that the compiler can do many bytes at a time.
pub fn byte_at(s: &[u8], from: usize, t: usize) -> u8
    requires { Run s.now from (8 * (t + 1)) }
    ensures { to_bits 8 result ≡ take 8 (drop (8 * t) (drop from (bits_of s.now))) }
{
    let i = from / 8 + t;
    let skip = from % 8;
    if skip == 0 {
        return s[i];
    }
    straddling(s[i], s[i + 1], skip)
}

// The byte that starts at bit `skip` of a and ends in b.
fn straddling(a: u8, b: u8, skip: usize) -> u8
    requires { (1 ≤ skip) × (skip < 8) }
    ensures { to_bits 8 result ≡ to_bits (8 - skip) a ++ to_bits skip (b / 2 ^ (8 - skip)) }
{
    (a << skip) + (b >> (8 - skip))
}

// Writes the n lowest bits of x, which lie within one byte.
pub fn put_some(d: &mut [u8], at: usize, x: u8, n: usize)
    requires n_bound { at % 8 + n ≤ 8 }
    requires n_bound_2 { at + n ≤ 8 * length d.old }
    ensures { bits_of d.new ≡ paste (bits_of d.old) at (to_bits n x) n }
{
    if n == 0 {
        return;
    }
    let i = at / 8;
    d[i] = with_bits(d[i], x, n, 8 - at % 8 - n);
}

// A byte with the n bits that stand above its `below` lowest ones replaced by the n lowest bits of x.
fn with_bits(old: u8, x: u8, n: usize, below: usize) -> u8
    requires { n + below ≤ 8 }
    ensures { to_bits 8 result ≡ paste (to_bits 8 old) (8 - (n + below)) (to_bits n x) n }
{
    let upper = (old as usize) >> (n + below);
    let middle = (x as usize) % (1 << n);
    let lower = (old as usize) % (1 << below);
    ((((upper << n) + middle) << below) + lower) as u8
}

// The bytes that so many bits take.
pub fn bytes_for(width: usize) -> usize
    requires { width < 2 ^ 63 }
    ensures { result ≡ room width }
{
    width.div_ceil(8)
}
