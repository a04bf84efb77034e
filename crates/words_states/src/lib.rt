// The hash state, and its record.
// Inner: a public call has checked the table and the result's node.
#![tactic(auto)]

ghost use Rattle.std.specs.Prelude.{◌≡◌, ◌≤◌, length};
ghost use Rattle.meaning.specs.Bits.{written};
ghost use Rattle.meaning.specs.Words.{ctx8_bits};
ghost use Rattle.meaning.specs.WordCalls.{ctx8_call, ctx8_out};
ghost use Rattle.answers.specs.Verdicts.{count_of};
ghost use Rattle.checked.specs.Passed.{Named};
ghost use Rattle.words_states.specs.State.{state_of};

use answers::Refusal;
use nodes::Checked;
use words_segments::write_buffer;

// A hash state: thirty-two midstate bytes, a count, and up to sixty-three buffered bytes, of which so many are used.
// The arrays and the used length stand beside each other by value: a rule of the project, and callers in C fill it in so.
#[derive(Clone, Copy)]
pub struct HashState {
    pub midstate: [u8; 32],
    pub count: u64,
    pub buffer: [u8; 63],
    pub used: usize,
}

// How many bits a hash state has: the buffer's 510, then the count's 64, then the midstate's 256.
const STATE_WIDTH: usize = 830;

// The bits of a hash state, buffer, count and midstate.
fn write_state(out: &mut [u8], state: HashState)
    requires used_bound { state.used ≤ 63 }
    requires in_bounds { 104 ≤ length out.old }
    ensures { out.new ≡ written (ctx8_bits (state_of state)) out.old }
{
    let buffer = state.buffer;
    let used = state.used;
    write_buffer(out, 5, &buffer[..used]);
    bits_numbers::put_number(out, 510, state.count, 64);
    let midstate = state.midstate;
    bits_runs::copy_bits(&midstate, 0, out, 574, 256);
    bits_runs::finish(out, STATE_WIDTH);
}

// A hash state: 6 where more than 63 bytes are buffered, 7 for a result that is another type, and 9.
pub fn make_state(
    table: &Checked<'_>,
    state: HashState,
    res: usize,
    out: &mut [u8],
) -> Result<usize, Refusal>
    requires { Named table.now res }
    ensures result_value { count_of result ≡ ctx8_call table.now (state_of state) res out.old }
    ensures out_after { out.new ≡ ctx8_out table.now (state_of state) res out.old }
{
    let used = state.used;
    if 63 < used {
        return Err(Refusal::OutOfRange);
    }
    if !shapes::is_ctx8(table, res) {
        return Err(Refusal::WrongShape);
    }
    if out.len() < bits::bytes_for(STATE_WIDTH) {
        return Err(Refusal::NoRoom);
    }
    write_state(out, state);
    Ok(STATE_WIDTH)
}
