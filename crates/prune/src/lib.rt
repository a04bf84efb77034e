// Pruning: a record cut to a target type, by the four rules of document 01 in their order. Target equal to the type: every bit, padding
// too. Else unit: nothing. Else a sum: the tag, zero padding, and the payload cut to that side. Else a product: both parts cut.
// Anything else is wrong shape. Equal types means equal class, never equal nodes.
// One walk judges and only reads, a second one writes: a refusal has changed nothing.
#![tactic(auto)]

ghost use Rattle.std.specs.Prelude.{◌≡◌};
ghost use Rattle.meaning.specs.Ladder.{record_of};
ghost use Rattle.meaning.specs.CutCalls.{prune_call, prune_out};
ghost use Rattle.answers.specs.Verdicts.{count_of};

use answers::Refusal;
use tables::Table;

// Cuts a record to a target: its bits stand at bit 0 of the output, zero bits follow them in their last byte, and later bytes stay. Answers
// how many bits they are. Refuses with 1 to 5, with 7 if the record has not the target's shape, and with 9 if the output is too short.
pub fn prune(
    table: &Table<'_>,
    bytes: &[u8],
    offset: usize,
    node: usize,
    target: usize,
    out: &mut [u8],
) -> Result<usize, Refusal>
    ensures result_value { count_of result ≡ prune_call table.now (record_of bytes.now offset node) target out.old }
    ensures out_after { out.new ≡ prune_out table.now (record_of bytes.now offset node) target out.old }
{
    let checked = checked_rungs::record_to(table, bytes, offset, node, target)?;
    let first = offset / 8;
    let src = &bytes[first..];
    let at = offset % 8;
    if !prune_judging::fits(&checked, src, at, node, target) {
        return Err(Refusal::WrongShape);
    }
    let width = checked_nodes::width_of(&checked, target);
    if out.len() < bits::bytes_for(width) {
        return Err(Refusal::NoRoom);
    }
    prune_writing::write(&checked, src, at, node, target, out, 0);
    bits_runs::finish(out, width);
    Ok(width)
}
