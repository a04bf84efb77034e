// Questions about word types, buffer types and the hash state's type, for C.
ghost use Rattle.std.specs.Prelude.{◌≡◌};
ghost use Rattle.meaning.specs.Tables.{table};
ghost use Rattle.meaning.specs.TypeCalls.{as_word_call, word_width_call, buffer_width_call, is_buffer8_call, is_ctx8_call};
ghost use Rattle.exports_answers.specs.Codes.{code, stored, stored_flag};

use exports_answers::tell_number;
use tables::Table;

// Accepted: the n of a word type.
pub fn qv_as_word(
    kinds: &[u8],
    lefts: &[u16],
    rights: &[u16],
    groups: &[u8],
    count: usize,
    node: usize,
    n: &mut u64,
) -> u64
    ensures value { result ≡ code (as_word_call (table kinds.now lefts.now rights.now groups.now count) node) }
    ensures n_after { n.new ≡ stored (as_word_call (table kinds.now lefts.now rights.now groups.now count) node) n.old }
{
    let table = Table::new(kinds, lefts, rights, groups, count);
    tell_number(word_types::as_word(&table, node), n)
}

// Accepted: the width of word type n.
pub fn qv_word_width(n: usize, width: &mut u64) -> u64
    ensures value { result ≡ code (word_width_call n) }
    ensures width_after { width.new ≡ stored (word_width_call n) width.old }
{
    tell_number(word_types::word_width(n), width)
}

// Accepted: the width of buffer type n.
pub fn qv_buffer_width(n: usize, width: &mut u64) -> u64
    ensures value { result ≡ code (buffer_width_call n) }
    ensures width_after { width.new ≡ stored (buffer_width_call n) width.old }
{
    tell_number(word_types::buffer_width(n), width)
}

// Whether a type is buffer type n.
pub fn qv_is_buffer8(
    kinds: &[u8],
    lefts: &[u16],
    rights: &[u16],
    groups: &[u8],
    count: usize,
    node: usize,
    n: usize,
    answer: &mut u64,
) -> u64
    ensures value { result ≡ code (is_buffer8_call (table kinds.now lefts.now rights.now groups.now count) node n) }
    ensures answer_after { answer.new ≡ stored_flag (is_buffer8_call (table kinds.now lefts.now rights.now groups.now count) node n) answer.old }
{
    let table = Table::new(kinds, lefts, rights, groups, count);
    tell_number(word_types::is_buffer8(&table, node, n), answer)
}

// Whether a type is the hash state's.
pub fn qv_is_ctx8(
    kinds: &[u8],
    lefts: &[u16],
    rights: &[u16],
    groups: &[u8],
    count: usize,
    node: usize,
    answer: &mut u64,
) -> u64
    ensures value { result ≡ code (is_ctx8_call (table kinds.now lefts.now rights.now groups.now count) node) }
    ensures answer_after { answer.new ≡ stored_flag (is_ctx8_call (table kinds.now lefts.now rights.now groups.now count) node) answer.old }
{
    let table = Table::new(kinds, lefts, rights, groups, count);
    tell_number(word_types::is_ctx8(&table, node), answer)
}
