// Rungs 1 and 2 of the ladder: the table, and the nodes that a question about types names. A question about nodes begins with one of these
// calls. What is accepted is the table, checked.
#![tactic(auto)]

ghost use Rattle.std.specs.Prelude.{◌≡◌, [], ◌∷◌, IfOk};
ghost use Rattle.meaning.specs.TypeCalls.{asks};
ghost use Rattle.answers.specs.Verdicts.{done_of};

use answers::Refusal;
use nodes::Checked;
use tables::Table;

// 1 and 2, of one node.
pub fn one<'a>(table: &Table<'a>, node: usize) -> Result<Checked<'a>, Refusal>
    ensures answer { done_of result ≡ asks table.now (node ∷ []) [] (tt {0}) }
    ensures same { IfOk result (λ t. t ≡ table.now) }
{
    let checked = checked_table::sound(table)?;
    if table.count <= node {
        return Err(Refusal::NoSuchNode);
    }
    Ok(checked)
}

// 1 and 2, of two nodes.
pub fn two<'a>(table: &Table<'a>, a: usize, b: usize) -> Result<Checked<'a>, Refusal>
    ensures answer { done_of result ≡ asks table.now (a ∷ b ∷ []) [] (tt {0}) }
    ensures same { IfOk result (λ t. t ≡ table.now) }
{
    let checked = one(table, a)?;
    if table.count <= b {
        return Err(Refusal::NoSuchNode);
    }
    Ok(checked)
}
