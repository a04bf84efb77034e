// The two readers and the two writers.
ghost use Rattle.std.specs.Prelude.{◌≡◌};
ghost use Rattle.meaning.specs.Ladder.{record_of, stream_of};
ghost use Rattle.meaning.specs.CodecCalls.{from_compact_call, from_compact_out, from_padded_call, from_padded_out, to_compact_call, to_compact_out, to_padded_call, to_padded_out};
ghost use Rattle.answers.specs.Verdicts.{count_of};

use answers::Refusal;
use bits::bytes_for;
use checked_nodes::width_of;
use checked_writers::write_run;
use codec_counting::compact_fits;
use codec_decoding::read_record;
use codec_encoding::write_record;
use codec_judging::ends_early;
use tables::Table;

// Reads a record from its compact bits. Its padding is zero. 1 to 5, 8, 9.
pub fn from_compact_bits(
    table: &Table<'_>,
    bytes: &[u8],
    until: usize,
    position: usize,
    node: usize,
    out: &mut [u8],
) -> Result<usize, Refusal>
    ensures result_value { count_of result ≡ from_compact_call table.now (stream_of bytes.now until position) node out.old }
    ensures out_after { out.new ≡ from_compact_out table.now (stream_of bytes.now until position) node out.old }
{
    let checked = checked_rungs::stream(table, bytes, until, position, node)?;
    let src = &bytes[position / 8..];
    let at = position % 8;
    if ends_early(&checked, src, at + (until - position), at, node) {
        return Err(Refusal::EndsEarly);
    }
    if out.len() < bytes_for(width_of(&checked, node)) {
        return Err(Refusal::NoRoom);
    }
    let next = read_record(&checked, src, at, node, out);
    Ok(position + (next - at))
}

// Reads a record from its padded bits. Its padding is as it was read. 1 to 5, 8, 9.
pub fn from_padded_bits(
    table: &Table<'_>,
    bytes: &[u8],
    until: usize,
    position: usize,
    node: usize,
    out: &mut [u8],
) -> Result<usize, Refusal>
    ensures result_value { count_of result ≡ from_padded_call table.now (stream_of bytes.now until position) node out.old }
    ensures out_after { out.new ≡ from_padded_out table.now (stream_of bytes.now until position) node out.old }
{
    let checked = checked_rungs::stream(table, bytes, until, position, node)?;
    let width = width_of(&checked, node);
    if until - position < width {
        return Err(Refusal::EndsEarly);
    }
    if out.len() < bytes_for(width) {
        return Err(Refusal::NoRoom);
    }
    write_run(out, &bytes[position / 8..], position % 8, width);
    Ok(position + width)
}

// Writes the compact bits of a record. 1 to 5, 9.
pub fn to_compact_bits(
    table: &Table<'_>,
    bytes: &[u8],
    offset: usize,
    node: usize,
    out: &mut [u8],
) -> Result<usize, Refusal>
    ensures result_value { count_of result ≡ to_compact_call table.now (record_of bytes.now offset node) out.old }
    ensures out_after { out.new ≡ to_compact_out table.now (record_of bytes.now offset node) out.old }
{
    let checked = checked_rungs::record(table, bytes, offset, node)?;
    let src = &bytes[offset / 8..];
    let at = offset % 8;
    if !compact_fits(&checked, src, at, node, out.len()) {
        return Err(Refusal::NoRoom);
    }
    Ok(write_record(&checked, src, at, node, out))
}

// Writes the padded bits of a record, as they are. 1 to 5, 9.
pub fn to_padded_bits(
    table: &Table<'_>,
    bytes: &[u8],
    offset: usize,
    node: usize,
    out: &mut [u8],
) -> Result<usize, Refusal>
    ensures result_value { count_of result ≡ to_padded_call table.now (record_of bytes.now offset node) out.old }
    ensures out_after { out.new ≡ to_padded_out table.now (record_of bytes.now offset node) out.old }
{
    let checked = checked_rungs::record(table, bytes, offset, node)?;
    let width = width_of(&checked, node);
    if out.len() < bytes_for(width) {
        return Err(Refusal::NoRoom);
    }
    write_run(out, &bytes[offset / 8..], offset % 8, width);
    Ok(width)
}
