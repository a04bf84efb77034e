// The first rungs of the ladder, 1 to 5, as one call each: the table, the named nodes, the bounds of records and streams. None of these
// functions expects a checked input, so a call on records begins with one of them and goes on with the table that it has checked. Each record and
// each node is asked once, and the least number refuses.
#![tactic(auto)]

ghost use Rattle.std.specs.Prelude.{◌≡◌, [], ◌∷◌, IfOk};
ghost use Rattle.meaning.specs.Ladder.{ladder, record_of, stream_of};
ghost use Rattle.meaning.specs.Ladder as rungs;
ghost use Rattle.meaning.specs.RecordCalls.{handed};
ghost use Rattle.meaning.specs.CodecCalls.{read_rungs};
ghost use Rattle.answers.specs.Verdicts.{done_of};

use answers::Refusal;
use checked_limits::sound::{node_limit, record_limit};
use checked_limits::{earlier, past};
use checked_table::sound;
use nodes::Checked;
use tables::Table;

// 1 to 4, of one named record type.
pub fn named<'a>(table: &Table<'a>, node: usize) -> Result<Checked<'a>, Refusal>
    ensures answer { done_of result ≡ ladder (rungs.named table.now (node ∷ [])) (tt {0}) }
    ensures same { IfOk result (λ t. t ≡ table.now) }
{
    let checked = sound(table)?;
    node_limit(&checked, node)?;
    Ok(checked)
}

// 1 to 5, of a call that names a result and is handed no record.
pub fn result<'a>(table: &Table<'a>, res: usize) -> Result<Checked<'a>, Refusal>
    ensures answer { done_of result ≡ ladder (handed table.now [] (res ∷ [])) (tt {0}) }
    ensures same { IfOk result (λ t. t ≡ table.now) }
{
    named(table, res)
}

// 1 to 5, of one record.
pub fn record<'a>(
    table: &Table<'a>,
    bytes: &[u8],
    offset: usize,
    node: usize,
) -> Result<Checked<'a>, Refusal>
    ensures answer { done_of result ≡ ladder (handed table.now (record_of bytes.now offset node ∷ []) []) (tt {0}) }
    ensures same { IfOk result (λ t. t ≡ table.now) }
{
    let checked = sound(table)?;
    record_limit(&checked, bytes.len(), offset, node)?;
    Ok(checked)
}

// 1 to 5, of one record and one more named record type.
pub fn record_to<'a>(
    table: &Table<'a>,
    bytes: &[u8],
    offset: usize,
    node: usize,
    res: usize,
) -> Result<Checked<'a>, Refusal>
    ensures answer { done_of result ≡ ladder (handed table.now (record_of bytes.now offset node ∷ []) (res ∷ [])) (tt {0}) }
    ensures same { IfOk result (λ t. t ≡ table.now) }
{
    let checked = sound(table)?;
    let given = record_limit(&checked, bytes.len(), offset, node);
    earlier(given, node_limit(&checked, res))?;
    Ok(checked)
}

// 1 to 5, of two records.
pub fn two<'a>(
    table: &Table<'a>,
    a_bytes: &[u8],
    a_offset: usize,
    a_node: usize,
    b_bytes: &[u8],
    b_offset: usize,
    b_node: usize,
) -> Result<Checked<'a>, Refusal>
    ensures answer { done_of result ≡ ladder (handed table.now (record_of a_bytes.now a_offset a_node ∷ record_of b_bytes.now b_offset b_node ∷ []) []) (tt {0}) }
    ensures same { IfOk result (λ t. t ≡ table.now) }
{
    let checked = sound(table)?;
    let a = record_limit(&checked, a_bytes.len(), a_offset, a_node);
    let b = record_limit(&checked, b_bytes.len(), b_offset, b_node);
    earlier(a, b)?;
    Ok(checked)
}

// 1 to 5, of two records and one more named record type.
pub fn two_to<'a>(
    table: &Table<'a>,
    a_bytes: &[u8],
    a_offset: usize,
    a_node: usize,
    b_bytes: &[u8],
    b_offset: usize,
    b_node: usize,
    res: usize,
) -> Result<Checked<'a>, Refusal>
    ensures answer { done_of result ≡ ladder (handed table.now (record_of a_bytes.now a_offset a_node ∷ record_of b_bytes.now b_offset b_node ∷ []) (res ∷ [])) (tt {0}) }
    ensures same { IfOk result (λ t. t ≡ table.now) }
{
    let checked = sound(table)?;
    let first = record_limit(&checked, a_bytes.len(), a_offset, a_node);
    let second = record_limit(&checked, b_bytes.len(), b_offset, b_node);
    earlier(first, earlier(second, node_limit(&checked, res)))?;
    Ok(checked)
}

// 1 to 5, of a stream and the type that is read from it.
pub fn stream<'a>(
    table: &Table<'a>,
    bytes: &[u8],
    until: usize,
    position: usize,
    node: usize,
) -> Result<Checked<'a>, Refusal>
    ensures answer { done_of result ≡ ladder (read_rungs table.now (stream_of bytes.now until position) node) (tt {0}) }
    ensures same { IfOk result (λ t. t ≡ table.now) }
{
    let checked = named(table, node)?;
    if past(bytes.len(), until, 0) {
        return Err(Refusal::OutOfBytes);
    }
    if until < position {
        return Err(Refusal::OutOfBytes);
    }
    Ok(checked)
}
