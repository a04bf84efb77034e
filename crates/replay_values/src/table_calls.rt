// Tables: from a file, from entries, and the check.
use lists::{Numbers, Request};
use replay_parts::{NO_FACTS, Table};
use samples_names::TablesCall;

// Makes one of these calls, and answers its result. Of the calls that write a table it also leaves whether the table has the nodes that are
// expected, none if the call was refused. Each of the two has a function of its own, so that no other case pays for the room of a table.
pub fn ask(
    call: TablesCall,
    table: &Table,
    q: &Request,
    numbers: &mut Numbers,
    nodes: &[u8],
    has_nodes: &mut Option<bool>,
) -> u64 {
    match call {
        TablesCall::ReadTable => read_table(q, numbers, nodes, has_nodes),
        TablesCall::FillFacts => fill_facts(table, nodes, has_nodes),
        TablesCall::CheckTable => {
            let (kinds, lefts, rights, groups, count) = table.lent();
            exports::qv_check_table(kinds, lefts, rights, groups, count)
        }
    }
}

fn read_table(
    q: &Request,
    numbers: &mut Numbers,
    nodes: &[u8],
    has_nodes: &mut Option<bool>,
) -> u64 {
    let mut read = Table::untouched();
    let code = exports::qv_read_table(
        q.data,
        &mut read.kinds,
        &mut read.lefts,
        &mut read.rights,
        &mut read.groups,
        &mut numbers.value,
    );
    if code == 0 {
        read.count = numbers.value as usize;
    }
    *has_nodes = Some(read.has_nodes(nodes));
    code
}

fn fill_facts(table: &Table, nodes: &[u8], has_nodes: &mut Option<bool>) -> u64 {
    let mut groups = NO_FACTS;
    let code = exports::qv_fill_facts(
        &table.kinds,
        &table.lefts,
        &table.rights,
        table.count,
        &mut groups,
    );
    let written = if code == 0 { table.count } else { 0 };
    *has_nodes = Some(table.has_nodes_with(&groups, written, nodes));
    code
}
