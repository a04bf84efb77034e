// The same of a table that has been checked: its groups hold the widths and the sizes of its types.
ghost use Rattle.std.specs.Prelude.{◌≡◌};
ghost use Rattle.answers.specs.Verdicts.{done_of};
ghost use Rattle.checked_limits.specs.Limits as limits;
ghost use Rattle.checked_limits.specs.Limits.{limit_answer};

use answers::Refusal;
use nodes::Checked;

// 2, 3 or 4, of a node that is named as a record type.
pub fn node_limit(table: &Checked<'_>, n: usize) -> Result<(), Refusal>
    ensures { done_of result ≡ limit_answer (limits.node_limit table.now n) }
{
    crate::node_limit(table.groups, table.count, n)
}

// 2 to 5, of a record that begins at an offset of so many bytes.
pub fn record_limit(table: &Checked<'_>, len: usize, offset: usize, n: usize) -> Result<(), Refusal>
    ensures { done_of result ≡ limit_answer (limits.bounded_limit table.now len offset n) }
{
    crate::record_limit(table.groups, table.count, len, offset, n)
}
