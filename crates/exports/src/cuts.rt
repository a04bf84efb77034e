// The cut, for C.
ghost use Rattle.std.specs.Prelude.{◌≡◌};
ghost use Rattle.meaning.specs.Tables.{table};
ghost use Rattle.meaning.specs.Ladder.{record_of};
ghost use Rattle.meaning.specs.CutCalls.{prune_call, prune_out};
ghost use Rattle.exports_answers.specs.Codes.{code, stored};

use exports_answers::tell_number;
use tables::Table;

// Cuts a record to a target type. Accepted: its width.
pub fn qv_prune(
    kinds: &[u8],
    lefts: &[u16],
    rights: &[u16],
    groups: &[u8],
    count: usize,
    bytes: &[u8],
    offset: usize,
    node: usize,
    target: usize,
    width: &mut u64,
    out: &mut [u8],
) -> u64
    ensures value { result ≡ code (prune_call (table kinds.now lefts.now rights.now groups.now count) (record_of bytes.now offset node) target out.old) }
    ensures width_after { width.new ≡ stored (prune_call (table kinds.now lefts.now rights.now groups.now count) (record_of bytes.now offset node) target out.old) width.old }
    ensures out_after { out.new ≡ prune_out (table kinds.now lefts.now rights.now groups.now count) (record_of bytes.now offset node) target out.old }
{
    let table = Table::new(kinds, lefts, rights, groups, count);
    tell_number(
        prune::prune(&table, bytes, offset, node, target, out),
        width,
    )
}
