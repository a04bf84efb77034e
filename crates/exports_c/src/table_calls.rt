// Tables for C: from a file, from entries, and the check.
ghost use Rattle.std.specs.Prelude.{◌≡◌};
ghost use Rattle.meaning.specs.Tables.{table, columns};
ghost use Rattle.meaning.specs.TypeCalls.{check_table_call, fill_facts_call, fill_facts_out, read_table_call, read_table_columns_out, read_table_groups_out};
ghost use Rattle.exports_answers.specs.Codes.{code, stored};

// Reads a table from its file into lent columns, with the groups of its facts. Accepted: its count.
#[unsafe(no_mangle)]
pub extern "C" fn qv_read_table(
    file: &[u8],
    kinds: &mut [u8],
    lefts: &mut [u16],
    rights: &mut [u16],
    groups: &mut [u8],
    count: &mut u64,
) -> u64
    ensures value { result ≡ code (read_table_call file.now (columns kinds.old lefts.old rights.old) groups.old) }
    ensures count_after { count.new ≡ stored (read_table_call file.now (columns kinds.old lefts.old rights.old) groups.old) count.old }
    ensures kinds_after { kinds.new ≡ (read_table_columns_out file.now (columns kinds.old lefts.old rights.old) groups.old).kinds }
    ensures lefts_after { lefts.new ≡ (read_table_columns_out file.now (columns kinds.old lefts.old rights.old) groups.old).lefts }
    ensures rights_after { rights.new ≡ (read_table_columns_out file.now (columns kinds.old lefts.old rights.old) groups.old).rights }
    ensures groups_after { groups.new ≡ read_table_groups_out file.now (columns kinds.old lefts.old rights.old) groups.old }
{
    exports::qv_read_table(file, kinds, lefts, rights, groups, count)
}

// Computes the facts of a table from its entries.
#[unsafe(no_mangle)]
pub extern "C" fn qv_fill_facts(
    kinds: &[u8],
    lefts: &[u16],
    rights: &[u16],
    count: usize,
    groups: &mut [u8],
) -> u64
    ensures value { result ≡ code (fill_facts_call (columns kinds.now lefts.now rights.now) count groups.old) }
    ensures groups_after { groups.new ≡ fill_facts_out (columns kinds.now lefts.now rights.now) count groups.old }
{
    exports::qv_fill_facts(kinds, lefts, rights, count, groups)
}

// Whether a table and its facts are sound.
#[unsafe(no_mangle)]
pub extern "C" fn qv_check_table(
    kinds: &[u8],
    lefts: &[u16],
    rights: &[u16],
    groups: &[u8],
    count: usize,
) -> u64
    ensures { result ≡ code (check_table_call (table kinds.now lefts.now rights.now groups.now count)) }
{
    exports::qv_check_table(kinds, lefts, rights, groups, count)
}
