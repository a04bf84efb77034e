// The file form of a type table: whether a file is sound, where the first fault of another stands, and the nodes of a sound one.
// `judge_file` only reads; `write_columns` is for a file that was judged sound and columns that reach its count.
#![tactic(auto)]

ghost use Rattle.std.specs.Prelude.{◌≡◌, ◌≤◌};
ghost use Rattle.meaning.specs.Tables.{columns};
ghost use Rattle.meaning.specs.Files.{entry_from, table_in};
ghost use Rattle.meaning.specs.TypeCalls.{entries_in, entries_written};
ghost use Rattle.files_numbers.specs.Places.{behind};
ghost use Rattle.files_numbers.specs.Readings.{answer_of};
ghost use Rattle.files.specs.Readings.{node_of, judged_of, file_verdict, Readable};

use files_numbers::{Fault, Reader};
use tables::Kind;

// A node as the file has it. The sides of a unit are 0.
#[derive(Clone, Copy)]
struct Entry {
    kind: Kind,
    left: u16,
    right: u16,
}

// The next node, which is the one numbered n.
#[tactic(auto, unfolding(meaning::specs::Files::entry_from))]
fn next_node(reader: &mut Reader<'_>, n: usize) -> Result<Entry, Fault>
    requires { n ≤ 1024 }
    ensures answer { node_of result ≡ answer_of (entry_from reader.old.file n reader.old.at) }
    ensures after { reader.new ≡ behind reader.old (entry_from reader.old.file n reader.old.at) }
{
    let kind = Kind::try_from(reader.number_below(3)? as u8).unwrap();
    match kind {
        Kind::Unit => Ok(Entry {
            kind,
            left: 0,
            right: 0,
        }),
        Kind::Sum | Kind::Product => {
            let left = reader.number_below(n)? as u16;
            let right = reader.number_below(n)? as u16;
            Ok(Entry { kind, left, right })
        }
    }
}

// Reads the whole file once, and says how many nodes it has or where its first fault stands.
#[tactic(auto, unfolding(meaning::specs::Files::table_in))]
pub fn judge_file(file: &[u8]) -> Result<usize, Fault>
    ensures { judged_of result ≡ file_verdict (table_in file.now) }
{
    let mut reader = Reader::new(file);
    let count = reader.count()?;
    for n in 0..count {
        next_node(&mut reader, n)?;
    }
    reader.end()?;
    Ok(count)
}

// Writes the nodes of a sound file over the columns, from their front on; later entries stay.
pub fn write_columns(file: &[u8], kinds: &mut [u8], lefts: &mut [u16], rights: &mut [u16])
    requires { Readable file.now kinds.old lefts.old rights.old }
    ensures { columns kinds.new lefts.new rights.new
        ≡ entries_written (entries_in (table_in file.now)) (columns kinds.old lefts.old rights.old) }
{
    let mut reader = Reader::new(file);
    let count = reader.count().unwrap();
    for n in 0..count {
        let entry = next_node(&mut reader, n).unwrap();
        kinds[n] = entry.kind as u8;
        lefts[n] = entry.left;
        rights[n] = entry.right;
    }
}
