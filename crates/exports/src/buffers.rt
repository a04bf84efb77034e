// Buffers and the hash state, for C, which hands slices of any length in the place of the hash state's arrays: lengths that make no hash state
// answer 6. Accepted: the width of the result, whose record stands at bit 0 of the output.
ghost use Rattle.std.specs.Prelude.{◌≡◌, ◌++◌, ◌≤◌, length, drop};
ghost use Rattle.meaning.specs.Tables.{table};
ghost use Rattle.meaning.specs.WordCalls.{buffer_call, buffer_out};
ghost use Rattle.exports_answers.specs.Codes.{code, stored};
ghost use Rattle.exports.specs.Handed.{ctx8_handed, ctx8_handed_out, Stands};

use exports_answers::tell_number;
use tables::Table;
use words::HashState;

// Data as a record of buffer type n.
pub fn qv_buffer8_two_n_plus_one(
    kinds: &[u8],
    lefts: &[u16],
    rights: &[u16],
    groups: &[u8],
    count: usize,
    n: usize,
    data: &[u8],
    res: usize,
    width: &mut u64,
    out: &mut [u8],
) -> u64
    ensures value { result ≡ code (buffer_call (table kinds.now lefts.now rights.now groups.now count) n «data».now res out.old) }
    ensures width_after { width.new ≡ stored (buffer_call (table kinds.now lefts.now rights.now groups.now count) n «data».now res out.old) width.old }
    ensures out_after { out.new ≡ buffer_out (table kinds.now lefts.now rights.now groups.now count) n «data».now res out.old }
{
    let table = Table::new(kinds, lefts, rights, groups, count);
    tell_number(
        words::buffer8_two_n_plus_one(&table, n, data, res, out),
        width,
    )
}

// A struct that `ctx8` refuses with 6: it uses more bytes than it has. No `None` in its place, since 6 comes after the rungs 1 to 5, which `ctx8`
// asks.
fn no_state() -> HashState
    ensures { result.used ≡ 64 }
{
    HashState {
        midstate: [0u8; 32],
        count: 0,
        buffer: [0u8; 63],
        used: 64,
    }
}

// The hash state of the slices, or one that is out of range as they are.
fn hash_state(midstate: &[u8], bytes_hashed: u64, buffer: &[u8]) -> HashState
    ensures { Stands midstate.now bytes_hashed buffer.now result }
{
    if midstate.len() != 32 {
        return no_state();
    }
    if 63 < buffer.len() {
        return no_state();
    }
    let mut first = [0u8; 32];
    first.copy_from_slice(midstate);
    let mut held = [0u8; 63];
    held[..buffer.len()].copy_from_slice(buffer);
    HashState {
        midstate: first,
        count: bytes_hashed,
        buffer: held,
        used: buffer.len(),
    }
}

// A hash state: midstate, count of hashed bytes, and the buffered bytes alone.
pub fn qv_ctx8(
    kinds: &[u8],
    lefts: &[u16],
    rights: &[u16],
    groups: &[u8],
    count: usize,
    midstate: &[u8],
    bytes_hashed: u64,
    buffer: &[u8],
    res: usize,
    width: &mut u64,
    out: &mut [u8],
) -> u64
    ensures value { result ≡ code (ctx8_handed (table kinds.now lefts.now rights.now groups.now count) midstate.now bytes_hashed buffer.now res out.old) }
    ensures width_after { width.new ≡ stored (ctx8_handed (table kinds.now lefts.now rights.now groups.now count) midstate.now bytes_hashed buffer.now res out.old) width.old }
    ensures out_after { out.new ≡ ctx8_handed_out (table kinds.now lefts.now rights.now groups.now count) midstate.now bytes_hashed buffer.now res out.old }
{
    let table = Table::new(kinds, lefts, rights, groups, count);
    let state = hash_state(midstate, bytes_hashed, buffer);
    tell_number(words::ctx8(&table, state, res, out), width)
}
