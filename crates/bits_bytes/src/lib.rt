// Whole bytes of a destination, filled with the bits of other bytes or of a number. Inner: a public call has checked that the runs lie within
// their bytes; what is `pub` is so only since `bits_runs` and `bits_numbers` call it.
#![tactic(auto)]

ghost use Rattle.std.specs.Prelude.{◌≡◌, ◌*◌, ◌≤◌, length, take, drop};
ghost use Rattle.meaning.specs.Bits.{bits_of, to_bits};
ghost use Rattle.bits.specs.Runs.{Run};

use bits::byte_at;

// Fills bytes with the bits from bit `from` on. The loop does one thing to a byte and no more, so that the compiler can take many bytes at a time.
pub fn copy_whole(src: &[u8], from: usize, dst: &mut [u8])
    requires { Run src.now from (8 * length dst.old) }
    ensures { bits_of dst.new ≡ take (8 * length dst.old) (drop from (bits_of src.now)) }
{
    for (t, byte) in dst.iter_mut().enumerate() {
        *byte = byte_at(src, from, t);
    }
}

// Fills bytes with the lowest bits of a number, the top one first.
pub fn put_bytes(dst: &mut [u8], x: u64)
    requires { length dst.old ≤ 8 }
    ensures { bits_of dst.new ≡ to_bits (8 * length dst.old) x }
{
    dst.copy_from_slice(&x.to_be_bytes()[8 - dst.len()..]);
}
