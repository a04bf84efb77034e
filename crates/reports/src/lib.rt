// The report of a table file as text: what the program `report` prints. The file is judged and its facts are found by `table::read_table`.
#![tactic(auto)]

ghost use Rattle.std.specs.Prelude.{◌≤◌, length};
ghost use Rattle.lines_digits.specs.Report.{file_text};
ghost use Rattle.lines_digits.specs.Buffer.{Printed};
ghost use Rattle.lines.specs.Room.{report_room};

// The bytes that hold any report, one of 1,024 nodes too: `report_room 1024`.
pub const REPORT_BYTES: usize = 1024 * lines::LINE_BYTES + lines::HEAD_BYTES;

// Writes the report of a file to the front of a buffer that holds any, and answers its length.
pub fn report_file(file: &[u8], out: &mut [u8]) -> usize
    requires { report_room 1024 ≤ length out.old }
    ensures { Printed out.old (file_text file.now) out.new result }
{
    let mut kinds = [0u8; 1024];
    let mut lefts = [0u16; 1024];
    let mut rights = [0u16; 1024];
    let mut groups = [0u8; 1024 * groups::GROUP_BYTES];
    match table::read_table(file, &mut kinds, &mut lefts, &mut rights, &mut groups) {
        Ok(count) => lines::report(out, &kinds, &groups, count),
        Err(refusal) => lines::refusal_line(out, refusal.number(), refusal.place()),
    }
}
