// The text of a report, written to a lent buffer: lines, and the whole report of a table or of a refusal. What a text does not take stays.
#![tactic(auto)]

ghost use Rattle.std.specs.Prelude.{◌≤◌, length};
ghost use Rattle.lines_digits.specs.Report.{head_line, node_line, refusal_line, groups_text};
ghost use Rattle.lines_digits.specs.Buffer.{HasRoom, Wrote, Printed};
ghost use Rattle.lines.specs.Room.{head_room, line_room, Reportable};

use lines_digits::Text;
use tables::Kind;

// The bytes that hold any first line: `head_room`.
pub const HEAD_BYTES: usize = 27;

// The bytes that hold any line of a node: `line_room`.
pub const LINE_BYTES: usize = 117;

// What a line says: the number of a node, its kind and its facts.
#[derive(Clone, Copy)]
pub struct Row {
    pub node: usize,
    pub kind: u8,
    pub width: u64,
    pub size: u64,
    pub padded: u8,
    pub class: usize,
    pub least: u64,
}

// The first line of a report.
pub fn head_line(text: &mut Text<'_>, count: usize)
    requires { HasRoom text.old head_room }
    ensures { Wrote text.old (head_line count) text.new }
{
    text.word(b"nodes ");
    text.number(count as u64, b'\n');
}

// The line of a node, of any kind and class: a kind above 2 is told as a product, as `kind_word` has it.
#[tactic(auto, using(lines_digits::proofs::Decimals::rooms))]
pub fn node_line(text: &mut Text<'_>, row: Row)
    requires { HasRoom text.old line_room }
    ensures { Wrote text.old
        (node_line row.node row.kind row.width row.size row.padded row.class row.least)
        text.new }
{
    text.number(row.node as u64, b' ');
    text.kind(Kind::try_from(row.kind).unwrap_or(Kind::Product));
    text.number(row.width, b' ');
    text.number(row.size, b' ');
    text.number(u64::from(row.padded), b' ');
    text.number(row.class as u64, b' ');
    text.number(row.least, b'\n');
}

// The line of a refusal, at the front of a lent buffer. Answers its length.
#[tactic(auto, using(lines_digits::proofs::Decimals::rooms))]
pub fn refusal_line(out: &mut [u8], number: u8, place: usize) -> usize
    requires { 64 ≤ length out.old }
    ensures { Printed out.old (refusal_line number place) out.new result }
{
    let mut text = Text::new(out);
    text.word(b"refused ");
    text.number(u64::from(number), b' ');
    text.word(b"at ");
    text.number(place as u64, b'\n');
    text.len
}

// The whole report of a table, at the front of a lent buffer. Answers its length. A kind above 2 is told as a product, as `kind_word` has it.
pub fn report(out: &mut [u8], kinds: &[u8], groups: &[u8], count: usize) -> usize
    requires { Reportable out.old kinds.now groups.now count }
    ensures { Printed out.old
        (groups_text kinds.now groups.now count)
        out.new result }
{
    let mut text = Text::new(out);
    head_line(&mut text, count);
    for node in 0..count {
        let row = Row {
            node,
            kind: kinds[node],
            width: groups::width_at(groups, node),
            size: groups::size_at(groups, node),
            padded: groups::padded_at(groups, node),
            class: usize::from(groups::class_at(groups, node)),
            least: groups::least_at(groups, node),
        };
        node_line(&mut text, row);
    }
    text.len
}
