// What the constructors do with a result and payloads that they have checked: 7 where the result is not made of the types given, 9 where the
// output is too short, and the record. Inner: the nodes are in the table, and the payloads lie within their bytes.
#![tactic(auto)]

ghost use Rattle.std.specs.Prelude.{◌≡◌, []};
ghost use Rattle.meaning.specs.Ladder.{record_of, shaped, makes, made};
ghost use Rattle.meaning.specs.RecordCalls.{zero_bits, product_bits};
ghost use Rattle.answers.specs.Verdicts.{count_of};
ghost use Rattle.checked.specs.Passed.{Named, Held};
ghost use Rattle.value_fitting.specs.Fits.{wrap_fits, join_fits};
ghost use Rattle.value_making.specs.Wraps.{wrap_bits};

use answers::Refusal;
use checked_nodes::width_of;
use nodes::Checked;

// All bits zero.
pub fn blank(table: &Checked<'_>, res: usize, out: &mut [u8]) -> Result<usize, Refusal>
    requires { Named table.now res }
    ensures result_value { count_of result ≡ makes [] (zero_bits table.now res) out.old }
    ensures out_after { out.new ≡ made [] (zero_bits table.now res) out.old }
{
    let width = width_of(table, res);
    if out.len() < bits::bytes_for(width) {
        return Err(Refusal::NoRoom);
    }
    checked_writers::write_zeros(out, width);
    Ok(width)
}

// A sum with this tag and payload.
pub fn wrap(
    table: &Checked<'_>,
    bytes: &[u8],
    offset: usize,
    node: usize,
    res: usize,
    right: bool,
    out: &mut [u8],
) -> Result<usize, Refusal>
    requires held { Held table.now (record_of bytes.now offset node) }
    requires named { Named table.now res }
    ensures result_value { count_of result ≡ makes (shaped (wrap_fits right table.now node res)) (wrap_bits right table.now (record_of bytes.now offset node) res) out.old }
    ensures out_after { out.new ≡ made (shaped (wrap_fits right table.now node res)) (wrap_bits right table.now (record_of bytes.now offset node) res) out.old }
{
    if !value_fitting::wraps(table, node, res, right) {
        return Err(Refusal::WrongShape);
    }
    let width = width_of(table, res);
    if out.len() < bits::bytes_for(width) {
        return Err(Refusal::NoRoom);
    }
    let given = width_of(table, node);
    checked_writers::write_sum(out, width, right, &bytes[offset / 8..], offset % 8, given);
    Ok(width)
}

// A product of two parts.
pub fn join(
    table: &Checked<'_>,
    a_bytes: &[u8],
    a_offset: usize,
    a_node: usize,
    b_bytes: &[u8],
    b_offset: usize,
    b_node: usize,
    res: usize,
    out: &mut [u8],
) -> Result<usize, Refusal>
    requires held { Held table.now (record_of a_bytes.now a_offset a_node) }
    requires held_2 { Held table.now (record_of b_bytes.now b_offset b_node) }
    requires named { Named table.now res }
    ensures result_value { count_of result ≡ makes (shaped (join_fits table.now a_node b_node res)) (product_bits table.now (record_of a_bytes.now a_offset a_node) (record_of b_bytes.now b_offset b_node)) out.old }
    ensures out_after { out.new ≡ made (shaped (join_fits table.now a_node b_node res)) (product_bits table.now (record_of a_bytes.now a_offset a_node) (record_of b_bytes.now b_offset b_node)) out.old }
{
    if !value_fitting::joins(table, a_node, b_node, res) {
        return Err(Refusal::WrongShape);
    }
    let width = width_of(table, res);
    if out.len() < bits::bytes_for(width) {
        return Err(Refusal::NoRoom);
    }
    let given = width_of(table, a_node);
    checked_writers::write_product(
        out,
        width,
        &a_bytes[a_offset / 8..],
        a_offset % 8,
        given,
        &b_bytes[b_offset / 8..],
        b_offset % 8,
    );
    Ok(width)
}
