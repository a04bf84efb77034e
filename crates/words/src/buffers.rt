// Buffers and the hash state.
ghost use Rattle.std.specs.Prelude.{◌≡◌};
ghost use Rattle.meaning.specs.WordCalls.{buffer_call, buffer_out, ctx8_call, ctx8_out};
ghost use Rattle.answers.specs.Verdicts.{count_of};
ghost use Rattle.words_states.specs.State.{state_of};

use answers::Refusal;
use tables::Table;
use words_states::HashState;

// Buffer type n that holds data: up to 2^(n + 1) − 1 bytes, for n of 0 to 12.
pub fn buffer8_two_n_plus_one(
    table: &Table<'_>,
    n: usize,
    data: &[u8],
    res: usize,
    out: &mut [u8],
) -> Result<usize, Refusal>
    ensures result_value { count_of result ≡ buffer_call table.now n «data».now res out.old }
    ensures out_after { out.new ≡ buffer_out table.now n «data».now res out.old }
{
    let checked = checked_rungs::named(table, res)?;
    words_buffers::make_buffer(&checked, n, data, res, out)
}

// A hash state, of which up to 63 bytes are buffered.
pub fn ctx8(
    table: &Table<'_>,
    state: HashState,
    res: usize,
    out: &mut [u8],
) -> Result<usize, Refusal>
    ensures result_value { count_of result ≡ ctx8_call table.now (state_of state) res out.old }
    ensures out_after { out.new ≡ ctx8_out table.now (state_of state) res out.old }
{
    let checked = checked_rungs::named(table, res)?;
    words_states::make_state(&checked, state, res, out)
}
