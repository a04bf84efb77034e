// The questions about word types, buffer types and the hash state's type. Each that names a node judges the table and the node first. Assumes
// nothing.
#![tactic(auto)]

ghost use Rattle.std.specs.Prelude.{◌≡◌};
ghost use Rattle.meaning.specs.TypeCalls as calls;
ghost use Rattle.answers.specs.Verdicts.{count_of, flag_of};

use answers::Refusal;
use tables::Table;

// The n of a word type; any other type has the wrong shape.
pub fn as_word(table: &Table<'_>, node: usize) -> Result<usize, Refusal>
    ensures { count_of result ≡ calls.as_word_call table.now node }
{
    let checked = checked_present::one(table, node)?;
    shapes::word_of(&checked, node).ok_or(Refusal::WrongShape)
}

// The width of word type n.
pub fn word_width(n: usize) -> Result<usize, Refusal>
    ensures { count_of result ≡ calls.word_width_call n }
{
    if shapes::WORDS <= n {
        return Err(Refusal::OutOfRange);
    }
    Ok(shapes::word_width(n) as usize)
}

// The width of buffer type n.
pub fn buffer_width(n: usize) -> Result<usize, Refusal>
    ensures { count_of result ≡ calls.buffer_width_call n }
{
    if shapes::BUFFERS <= n {
        return Err(Refusal::OutOfRange);
    }
    Ok(shapes::buffer_width(n) as usize)
}

// The type is buffer type n.
pub fn is_buffer8(table: &Table<'_>, node: usize, n: usize) -> Result<bool, Refusal>
    ensures { flag_of result ≡ calls.is_buffer8_call table.now node n }
{
    let checked = checked_present::one(table, node)?;
    if shapes::BUFFERS <= n {
        return Err(Refusal::OutOfRange);
    }
    Ok(shapes::is_buffer(&checked, node, n))
}

// The type is the hash state's.
pub fn is_ctx8(table: &Table<'_>, node: usize) -> Result<bool, Refusal>
    ensures { flag_of result ≡ calls.is_ctx8_call table.now node }
{
    let checked = checked_present::one(table, node)?;
    Ok(shapes::is_ctx8(&checked, node))
}
