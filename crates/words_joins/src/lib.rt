// Two words of one type, as the next word.
// Inner: a public call has checked the table, the records and the result's node.
#![tactic(auto)]

ghost use Rattle.std.specs.Prelude.{◌≡◌};
ghost use Rattle.std.specs.Bool.{then_some};
ghost use Rattle.meaning.specs.Types.{bits};
ghost use Rattle.meaning.specs.Words.{joins};
ghost use Rattle.meaning.specs.Ladder.{record_of, type_at};
ghost use Rattle.meaning.specs.WordCalls.{join_call, join_out};
ghost use Rattle.answers.specs.Verdicts.{count_of};
ghost use Rattle.checked.specs.Passed.{Named, Held};

use answers::Refusal;
use nodes::Checked;

// The width of two types that are one word, if the third is the next word.
fn half_of(table: &Checked<'_>, a: usize, b: usize, whole: usize) -> Option<usize>
    requires named { Named table.now a }
    requires named_2 { Named table.now b }
    requires named_3 { Named table.now whole }
    ensures { result ≡ then_some (joins (type_at table.now a) (type_at table.now b) (type_at table.now whole)) (bits (type_at table.now a)) }
{
    let n = shapes::word_of(table, a)?;
    let next = n + 1;
    if shapes::WORDS <= next {
        return None;
    }
    let alike = shapes::is_word(table, b, n) && shapes::is_word(table, whole, next);
    alike.then_some(shapes::word_width(n) as usize)
}

// Two records of one word type, as a record of the next: 7 where the types do not join, and 9.
pub fn join_words(
    table: &Checked<'_>,
    a_bytes: &[u8],
    a_offset: usize,
    a_node: usize,
    b_bytes: &[u8],
    b_offset: usize,
    b_node: usize,
    res: usize,
    out: &mut [u8],
) -> Result<usize, Refusal>
    requires held { Held table.now (record_of a_bytes.now a_offset a_node) }
    requires held_2 { Held table.now (record_of b_bytes.now b_offset b_node) }
    requires named { Named table.now res }
    ensures result_value { count_of result ≡ join_call table.now (record_of a_bytes.now a_offset a_node) (record_of b_bytes.now b_offset b_node) res out.old }
    ensures out_after { out.new ≡ join_out table.now (record_of a_bytes.now a_offset a_node) (record_of b_bytes.now b_offset b_node) res out.old }
{
    let half = half_of(table, a_node, b_node, res).ok_or(Refusal::WrongShape)?;
    let whole = half + half;
    if out.len() < bits::bytes_for(whole) {
        return Err(Refusal::NoRoom);
    }
    let a_first = a_offset / 8;
    let b_first = b_offset / 8;
    checked_writers::write_product(
        out,
        whole,
        &a_bytes[a_first..],
        a_offset % 8,
        half,
        &b_bytes[b_first..],
        b_offset % 8,
    );
    Ok(whole)
}
