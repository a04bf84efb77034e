// Words from numbers and from big-endian bytes, for C. Accepted: the width of the result, whose record stands at bit 0 of the output.
ghost use Rattle.std.specs.Prelude.{◌≡◌};
ghost use Rattle.meaning.specs.Tables.{table};
ghost use Rattle.meaning.specs.WordCalls.{number_call, number_out, bytes_call, bytes_out, array_call, array_out};
ghost use Rattle.exports_answers.specs.Codes.{code, stored};

use exports_answers::tell_number;
use tables::Table;

// A number as a word of 1 bit.
pub fn qv_u1(
    kinds: &[u8],
    lefts: &[u16],
    rights: &[u16],
    groups: &[u8],
    count: usize,
    number: u64,
    res: usize,
    width: &mut u64,
    out: &mut [u8],
) -> u64
    ensures value { result ≡ code (number_call (table kinds.now lefts.now rights.now groups.now count) 0 number res out.old) }
    ensures width_after { width.new ≡ stored (number_call (table kinds.now lefts.now rights.now groups.now count) 0 number res out.old) width.old }
    ensures out_after { out.new ≡ number_out (table kinds.now lefts.now rights.now groups.now count) 0 number res out.old }
{
    let table = Table::new(kinds, lefts, rights, groups, count);
    tell_number(words::u1(&table, number, res, out), width)
}

// A number as a word of 2 bits.
pub fn qv_u2(
    kinds: &[u8],
    lefts: &[u16],
    rights: &[u16],
    groups: &[u8],
    count: usize,
    number: u64,
    res: usize,
    width: &mut u64,
    out: &mut [u8],
) -> u64
    ensures value { result ≡ code (number_call (table kinds.now lefts.now rights.now groups.now count) 1 number res out.old) }
    ensures width_after { width.new ≡ stored (number_call (table kinds.now lefts.now rights.now groups.now count) 1 number res out.old) width.old }
    ensures out_after { out.new ≡ number_out (table kinds.now lefts.now rights.now groups.now count) 1 number res out.old }
{
    let table = Table::new(kinds, lefts, rights, groups, count);
    tell_number(words::u2(&table, number, res, out), width)
}

// A number as a word of 4 bits.
pub fn qv_u4(
    kinds: &[u8],
    lefts: &[u16],
    rights: &[u16],
    groups: &[u8],
    count: usize,
    number: u64,
    res: usize,
    width: &mut u64,
    out: &mut [u8],
) -> u64
    ensures value { result ≡ code (number_call (table kinds.now lefts.now rights.now groups.now count) 2 number res out.old) }
    ensures width_after { width.new ≡ stored (number_call (table kinds.now lefts.now rights.now groups.now count) 2 number res out.old) width.old }
    ensures out_after { out.new ≡ number_out (table kinds.now lefts.now rights.now groups.now count) 2 number res out.old }
{
    let table = Table::new(kinds, lefts, rights, groups, count);
    tell_number(words::u4(&table, number, res, out), width)
}

// 1 big-endian byte as a word of 8 bits.
pub fn qv_u8(
    kinds: &[u8],
    lefts: &[u16],
    rights: &[u16],
    groups: &[u8],
    count: usize,
    data: &[u8],
    res: usize,
    width: &mut u64,
    out: &mut [u8],
) -> u64
    ensures value { result ≡ code (bytes_call (table kinds.now lefts.now rights.now groups.now count) 3 «data».now res out.old) }
    ensures width_after { width.new ≡ stored (bytes_call (table kinds.now lefts.now rights.now groups.now count) 3 «data».now res out.old) width.old }
    ensures out_after { out.new ≡ bytes_out (table kinds.now lefts.now rights.now groups.now count) 3 «data».now res out.old }
{
    let table = Table::new(kinds, lefts, rights, groups, count);
    tell_number(words::u8(&table, data, res, out), width)
}

// 2 big-endian bytes as a word of 16 bits.
pub fn qv_u16(
    kinds: &[u8],
    lefts: &[u16],
    rights: &[u16],
    groups: &[u8],
    count: usize,
    data: &[u8],
    res: usize,
    width: &mut u64,
    out: &mut [u8],
) -> u64
    ensures value { result ≡ code (bytes_call (table kinds.now lefts.now rights.now groups.now count) 4 «data».now res out.old) }
    ensures width_after { width.new ≡ stored (bytes_call (table kinds.now lefts.now rights.now groups.now count) 4 «data».now res out.old) width.old }
    ensures out_after { out.new ≡ bytes_out (table kinds.now lefts.now rights.now groups.now count) 4 «data».now res out.old }
{
    let table = Table::new(kinds, lefts, rights, groups, count);
    tell_number(words::u16(&table, data, res, out), width)
}

// 4 big-endian bytes as a word of 32 bits.
pub fn qv_u32(
    kinds: &[u8],
    lefts: &[u16],
    rights: &[u16],
    groups: &[u8],
    count: usize,
    data: &[u8],
    res: usize,
    width: &mut u64,
    out: &mut [u8],
) -> u64
    ensures value { result ≡ code (bytes_call (table kinds.now lefts.now rights.now groups.now count) 5 «data».now res out.old) }
    ensures width_after { width.new ≡ stored (bytes_call (table kinds.now lefts.now rights.now groups.now count) 5 «data».now res out.old) width.old }
    ensures out_after { out.new ≡ bytes_out (table kinds.now lefts.now rights.now groups.now count) 5 «data».now res out.old }
{
    let table = Table::new(kinds, lefts, rights, groups, count);
    tell_number(words::u32(&table, data, res, out), width)
}

// 8 big-endian bytes as a word of 64 bits.
pub fn qv_u64(
    kinds: &[u8],
    lefts: &[u16],
    rights: &[u16],
    groups: &[u8],
    count: usize,
    data: &[u8],
    res: usize,
    width: &mut u64,
    out: &mut [u8],
) -> u64
    ensures value { result ≡ code (bytes_call (table kinds.now lefts.now rights.now groups.now count) 6 «data».now res out.old) }
    ensures width_after { width.new ≡ stored (bytes_call (table kinds.now lefts.now rights.now groups.now count) 6 «data».now res out.old) width.old }
    ensures out_after { out.new ≡ bytes_out (table kinds.now lefts.now rights.now groups.now count) 6 «data».now res out.old }
{
    let table = Table::new(kinds, lefts, rights, groups, count);
    tell_number(words::u64(&table, data, res, out), width)
}

// 16 big-endian bytes as a word of 128 bits.
pub fn qv_u128(
    kinds: &[u8],
    lefts: &[u16],
    rights: &[u16],
    groups: &[u8],
    count: usize,
    data: &[u8],
    res: usize,
    width: &mut u64,
    out: &mut [u8],
) -> u64
    ensures value { result ≡ code (bytes_call (table kinds.now lefts.now rights.now groups.now count) 7 «data».now res out.old) }
    ensures width_after { width.new ≡ stored (bytes_call (table kinds.now lefts.now rights.now groups.now count) 7 «data».now res out.old) width.old }
    ensures out_after { out.new ≡ bytes_out (table kinds.now lefts.now rights.now groups.now count) 7 «data».now res out.old }
{
    let table = Table::new(kinds, lefts, rights, groups, count);
    tell_number(words::u128(&table, data, res, out), width)
}

// 32 big-endian bytes as a word of 256 bits.
pub fn qv_u256(
    kinds: &[u8],
    lefts: &[u16],
    rights: &[u16],
    groups: &[u8],
    count: usize,
    data: &[u8],
    res: usize,
    width: &mut u64,
    out: &mut [u8],
) -> u64
    ensures value { result ≡ code (bytes_call (table kinds.now lefts.now rights.now groups.now count) 8 «data».now res out.old) }
    ensures width_after { width.new ≡ stored (bytes_call (table kinds.now lefts.now rights.now groups.now count) 8 «data».now res out.old) width.old }
    ensures out_after { out.new ≡ bytes_out (table kinds.now lefts.now rights.now groups.now count) 8 «data».now res out.old }
{
    let table = Table::new(kinds, lefts, rights, groups, count);
    tell_number(words::u256(&table, data, res, out), width)
}

// 64 big-endian bytes as a word of 512 bits.
pub fn qv_u512(
    kinds: &[u8],
    lefts: &[u16],
    rights: &[u16],
    groups: &[u8],
    count: usize,
    data: &[u8],
    res: usize,
    width: &mut u64,
    out: &mut [u8],
) -> u64
    ensures value { result ≡ code (bytes_call (table kinds.now lefts.now rights.now groups.now count) 9 «data».now res out.old) }
    ensures width_after { width.new ≡ stored (bytes_call (table kinds.now lefts.now rights.now groups.now count) 9 «data».now res out.old) width.old }
    ensures out_after { out.new ≡ bytes_out (table kinds.now lefts.now rights.now groups.now count) 9 «data».now res out.old }
{
    let table = Table::new(kinds, lefts, rights, groups, count);
    tell_number(words::u512(&table, data, res, out), width)
}

// A power of two of bytes as the word of so many bits.
pub fn qv_from_byte_array(
    kinds: &[u8],
    lefts: &[u16],
    rights: &[u16],
    groups: &[u8],
    count: usize,
    data: &[u8],
    res: usize,
    width: &mut u64,
    out: &mut [u8],
) -> u64
    ensures value { result ≡ code (array_call (table kinds.now lefts.now rights.now groups.now count) «data».now res out.old) }
    ensures width_after { width.new ≡ stored (array_call (table kinds.now lefts.now rights.now groups.now count) «data».now res out.old) width.old }
    ensures out_after { out.new ≡ array_out (table kinds.now lefts.now rights.now groups.now count) «data».now res out.old }
{
    let table = Table::new(kinds, lefts, rights, groups, count);
    tell_number(words::from_byte_array(&table, data, res, out), width)
}
