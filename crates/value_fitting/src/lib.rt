// Whether a result is made of the types given: what refusal 7 of the constructors asks.
// Inner: the nodes are in the table and within the limits.
#![tactic(auto)]

ghost use Rattle.std.specs.Prelude.{◌≡◌};
ghost use Rattle.checked.specs.Passed.{Named};
ghost use Rattle.value_fitting.specs.Fits.{option_fits, wrap_fits, join_fits};

use checked_nodes::same_type;
use nodes::Checked;
use tables::Kind;

// A sum with a unit left side.
pub fn optional(table: &Checked<'_>, res: usize) -> bool
    requires { Named table.now res }
    ensures { result ≡ option_fits table.now res }
{
    let whole = table.node(res);
    whole.kind == Kind::Sum && table.node(whole.left).kind == Kind::Unit
}

// A sum whose side of this tag has the type of a node.
pub fn wraps(table: &Checked<'_>, node: usize, res: usize, right: bool) -> bool
    requires named { Named table.now node }
    requires named_2 { Named table.now res }
    ensures { result ≡ wrap_fits right table.now node res }
{
    let whole = table.node(res);
    whole.kind == Kind::Sum && same_type(table, whole.side(right).node, node)
}

// A product of the types of two nodes.
pub fn joins(table: &Checked<'_>, a: usize, b: usize, res: usize) -> bool
    requires named { Named table.now a }
    requires named_2 { Named table.now b }
    requires named_3 { Named table.now res }
    ensures { result ≡ join_fits table.now a b res }
{
    let whole = table.node(res);
    whole.kind == Kind::Product
        && same_type(table, whole.left, a)
        && same_type(table, whole.right, b)
}
