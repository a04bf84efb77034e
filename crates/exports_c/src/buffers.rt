// Buffers and the hash state, for C, which hands slices of any length in the place of the hash state's arrays: lengths that make no hash state
// answer 6. Accepted: the width of the result, whose record stands at bit 0 of the output.
ghost use Rattle.std.specs.Prelude.{◌≡◌};
ghost use Rattle.meaning.specs.Tables.{table};
ghost use Rattle.meaning.specs.WordCalls.{buffer_call, buffer_out};
ghost use Rattle.exports_answers.specs.Codes.{code, stored};
ghost use Rattle.exports.specs.Handed.{ctx8_handed, ctx8_handed_out};

// Data as a record of buffer type n.
#[unsafe(no_mangle)]
pub extern "C" fn qv_buffer8_two_n_plus_one(
    kinds: &[u8],
    lefts: &[u16],
    rights: &[u16],
    groups: &[u8],
    count: usize,
    n: usize,
    data: &[u8],
    res: usize,
    width: &mut u64,
    out: &mut [u8],
) -> u64
    ensures value { result ≡ code (buffer_call (table kinds.now lefts.now rights.now groups.now count) n «data».now res out.old) }
    ensures width_after { width.new ≡ stored (buffer_call (table kinds.now lefts.now rights.now groups.now count) n «data».now res out.old) width.old }
    ensures out_after { out.new ≡ buffer_out (table kinds.now lefts.now rights.now groups.now count) n «data».now res out.old }
{
    exports::qv_buffer8_two_n_plus_one(
        kinds, lefts, rights, groups, count, n, data, res, width, out,
    )
}

// A hash state: midstate, count of hashed bytes, and the buffered bytes alone.
#[unsafe(no_mangle)]
pub extern "C" fn qv_ctx8(
    kinds: &[u8],
    lefts: &[u16],
    rights: &[u16],
    groups: &[u8],
    count: usize,
    midstate: &[u8],
    bytes_hashed: u64,
    buffer: &[u8],
    res: usize,
    width: &mut u64,
    out: &mut [u8],
) -> u64
    ensures value { result ≡ code (ctx8_handed (table kinds.now lefts.now rights.now groups.now count) midstate.now bytes_hashed buffer.now res out.old) }
    ensures width_after { width.new ≡ stored (ctx8_handed (table kinds.now lefts.now rights.now groups.now count) midstate.now bytes_hashed buffer.now res out.old) width.old }
    ensures out_after { out.new ≡ ctx8_handed_out (table kinds.now lefts.now rights.now groups.now count) midstate.now bytes_hashed buffer.now res out.old }
{
    exports::qv_ctx8(
        kinds,
        lefts,
        rights,
        groups,
        count,
        midstate,
        bytes_hashed,
        buffer,
        res,
        width,
        out,
    )
}
