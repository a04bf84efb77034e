// Words from records and streams: two words of one type as the next word, and a word read from a stream.
ghost use Rattle.std.specs.Prelude.{◌≡◌};
ghost use Rattle.meaning.specs.Ladder.{record_of, stream_of};
ghost use Rattle.meaning.specs.WordCalls.{join_call, join_out, word_read_call, word_read_out};
ghost use Rattle.answers.specs.Verdicts.{count_of};

use answers::Refusal;
use tables::Table;

// Two records of one word type, as a record of the next.
pub fn word_product(
    table: &Table<'_>,
    a_bytes: &[u8],
    a_offset: usize,
    a_node: usize,
    b_bytes: &[u8],
    b_offset: usize,
    b_node: usize,
    res: usize,
    out: &mut [u8],
) -> Result<usize, Refusal>
    ensures result_value { count_of result ≡ join_call table.now (record_of a_bytes.now a_offset a_node) (record_of b_bytes.now b_offset b_node) res out.old }
    ensures out_after { out.new ≡ join_out table.now (record_of a_bytes.now a_offset a_node) (record_of b_bytes.now b_offset b_node) res out.old }
{
    let checked = checked_rungs::two_to(
        table, a_bytes, a_offset, a_node, b_bytes, b_offset, b_node, res,
    )?;
    words_joins::join_words(
        &checked, a_bytes, a_offset, a_node, b_bytes, b_offset, b_node, res, out,
    )
}

// Word type n, read from a stream: the answer is the next position.
pub fn word_from_bits(
    table: &Table<'_>,
    bytes: &[u8],
    until: usize,
    position: usize,
    n: usize,
    node: usize,
    out: &mut [u8],
) -> Result<usize, Refusal>
    ensures result_value { count_of result ≡ word_read_call table.now (stream_of bytes.now until position) n node out.old }
    ensures out_after { out.new ≡ word_read_out table.now (stream_of bytes.now until position) n node out.old }
{
    let checked = checked_rungs::stream(table, bytes, until, position, node)?;
    words_reading::read_word(&checked, bytes, until, position, n, node, out)
}
