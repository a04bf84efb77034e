// The questions about types. Each judges the table and the named nodes first, and then reads what a sound table has ready. Assumes nothing.
#![tactic(auto)]

ghost use Rattle.std.specs.Prelude.{◌≡◌};
ghost use Rattle.meaning.specs.TypeCalls as calls;
ghost use Rattle.answers.specs.Verdicts.{count_of, flag_of, sides_of, facts_of};

use answers::{Facts, Refusal, Sides};
use tables::{Kind, Table};

// Everything that the table says of a node.
pub fn facts_of(table: &Table<'_>, node: usize) -> Result<Facts, Refusal>
    ensures { facts_of result ≡ calls.facts_of_call table.now node }
{
    let checked = checked_present::one(table, node)?;
    Ok(types_reading::facts(&checked, node))
}

// Two nodes have the same type, which is the same class.
pub fn same_type(table: &Table<'_>, a: usize, b: usize) -> Result<bool, Refusal>
    ensures { flag_of result ≡ calls.same_type_call table.now a b }
{
    let both = checked_present::two(table, a, b)?;
    Ok(checked_nodes::same_type(&both, a, b))
}

// The type is unit.
pub fn is_unit(table: &Table<'_>, node: usize) -> Result<bool, Refusal>
    ensures { flag_of result ≡ calls.is_unit_call table.now node }
{
    let facts = facts_of(table, node)?;
    Ok(facts.kind == Kind::Unit)
}

// The type has no width.
pub fn is_empty(table: &Table<'_>, node: usize) -> Result<bool, Refusal>
    ensures { flag_of result ≡ calls.is_empty_call table.now node }
{
    let facts = facts_of(table, node)?;
    Ok(facts.width == 0)
}

// The sides of a sum.
pub fn as_sum(table: &Table<'_>, node: usize) -> Result<Sides, Refusal>
    ensures { sides_of result ≡ calls.type_as_sum_call table.now node }
{
    let facts = facts_of(table, node)?;
    types_reading::sides_if(facts, Kind::Sum)
}

// The sides of a product.
pub fn as_product(table: &Table<'_>, node: usize) -> Result<Sides, Refusal>
    ensures { sides_of result ≡ calls.type_as_product_call table.now node }
{
    let facts = facts_of(table, node)?;
    types_reading::sides_if(facts, Kind::Product)
}

// The padding of left records of the sum of two types.
pub fn pad_left(table: &Table<'_>, a: usize, b: usize) -> Result<usize, Refusal>
    ensures { count_of result ≡ calls.pad_left_call table.now a b }
{
    let checked = checked_present::two(table, a, b)?;
    Ok(types_reading::padding(checked.width(a), checked.width(b)))
}

// The padding of right records of the sum of two types: that of left records of the sum the other way round.
pub fn pad_right(table: &Table<'_>, a: usize, b: usize) -> Result<usize, Refusal>
    ensures { count_of result ≡ calls.pad_right_call table.now a b }
{
    pad_left(table, b, a)
}
