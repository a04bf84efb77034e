// One case: its call is made, and all that it leaves is compared with what the case expects.
use lists::{Case, Numbers, same_bytes};
use replay_outputs::{buffers, codecs, constructors, cuts, joins, word_calls};
use replay_parts::Table;
use replay_values::{comparing, lengths, table_calls, type_calls, views, word_type_calls};
use samples_names::{Call, TablesCall};

// How many bytes a case may lend for an output.
const MOST_ROOM: usize = 512;

// Whether a call leaves what its case expects. Nothing where the case lends more room than there is, which no list does.
pub(crate) fn replay_case(call: Call, table: &Table, case: &Case) -> Option<bool> {
    let q = &case.request;
    let mut numbers = Numbers::lent(q.position);
    let mut buffer = [0xEE; MOST_ROOM];
    let out = buffer.get_mut(..q.room)?;
    let expected = &case.expected;
    let mut has_nodes = None;
    let code = match call {
        Call::Tables(call) => {
            table_calls::ask(call, table, q, &mut numbers, expected.out, &mut has_nodes)
        }
        Call::Types(call) => type_calls::ask(call, table, q, &mut numbers),
        Call::WordTypes(call) => word_type_calls::ask(call, table, q, &mut numbers),
        Call::Views(call) => views::ask(call, table, q, &mut numbers),
        Call::Comparing(call) => comparing::ask(call, table, q, &mut numbers),
        Call::Lengths(call) => lengths::ask(call, table, q, &mut numbers),
        Call::Constructors(call) => constructors::ask(call, table, q, &mut numbers, out),
        Call::Words(call) => word_calls::ask(call, table, q, &mut numbers, out),
        Call::Joins(call) => joins::ask(call, table, q, &mut numbers, out),
        Call::Buffers(call) => buffers::ask(call, table, q, &mut numbers, out),
        Call::Codecs(call) => codecs::ask(call, table, q, &mut numbers, out),
        Call::Cuts(call) => cuts::ask(call, table, q, &mut numbers, out),
    };
    let same_numbers = match call {
        // Facts are filled into groups alone: there is no place for a value.
        Call::Tables(TablesCall::FillFacts) if expected.accepted != 0 => false,
        _ => expected.has_numbers(&numbers),
    };
    let same_output = match has_nodes {
        Some(same) => same,
        None => same_bytes(out, expected.out),
    };
    Some(code == expected.code && same_numbers && same_output)
}
