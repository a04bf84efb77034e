// Word, buffer and hash state types in a checked table, and their widths, for the crates above. Inner: the first rung of every public call checks
// the table.
#![tactic(auto)]

ghost use Rattle.std.specs.Prelude.{◌≡◌, ◌<◌, get_or, MatchOption};
ghost use Rattle.meaning.specs.Types.{bits, same};
ghost use Rattle.meaning.specs.Tables.{ty_at};
ghost use Rattle.meaning.specs.Words.{word_widths, is_word, as_word, two, segment, buffer, ctx8};

use nodes::Checked;
use tables::Kind;

// How many word types there are.
pub const WORDS: usize = 32;

// How many buffer types there are.
pub const BUFFERS: usize = 13;

// The thirty-two word widths, 2 to the n. Written out: a rule of the project is one fixed list that a reader can check.
pub const WORD_WIDTHS: [u64; WORDS] = [
    1, 2, 4, 8, 16, 32, 64, 128, 256, 512, 1024, 2048, 4096, 8192, 16384, 32768, 65536, 131072,
    262144, 524288, 1048576, 2097152, 4194304, 8388608, 16777216, 33554432, 67108864, 134217728,
    268435456, 536870912, 1073741824, 2147483648,
];

// The width of word type n.
pub fn word_width(n: usize) -> u64
    requires { n < 32 }
    ensures { result ≡ get_or word_widths n 0 }
{
    WORD_WIDTHS[n]
}

// The width of buffer type n: a bit for each of its n + 1 segments, and eight for each of 2^(n + 1) − 1 bytes.
pub fn buffer_width(n: usize) -> u64
    requires { n < 13 }
    ensures { result ≡ bits (buffer n) }
{
    16 * word_width(n) + (n as u64) - 7
}

// The node is 2, the sum of two units.
fn is_two(table: &Checked<'_>, node: usize) -> bool
    requires { node < table.now.count }
    ensures { result ≡ same (ty_at table.now.columns node) two }
{
    let sum = table.node(node);
    if sum.kind != Kind::Sum {
        return false;
    }
    let left = table.node(sum.left);
    let right = table.node(sum.right);
    left.kind == Kind::Unit && right.kind == Kind::Unit
}

// The node is word type n: down the left sides, each a product of equal sides, to 2.
pub fn is_word(table: &Checked<'_>, node: usize, n: usize) -> bool
    requires { node < table.now.count }
    ensures { result ≡ is_word n (ty_at table.now.columns node) }
{
    let mut at = node;
    for _ in 0..n {
        let square = table.node(at);
        if square.kind != Kind::Product {
            return false;
        }
        let left = table.node(square.left);
        let right = table.node(square.right);
        if left.class != right.class {
            return false;
        }
        at = square.left;
    }
    is_two(table, at)
}

// The n of a word type. A width with exactly one bit set, and the zeros below it, names the only candidate: a rule of the project.
pub fn word_of(table: &Checked<'_>, node: usize) -> Option<usize>
    requires { node < table.now.count }
    ensures { MatchOption result (as_word (ty_at table.now.columns node) ≡ 32) (λ n. (n < 32) × (as_word (ty_at table.now.columns node) ≡ n)) }
{
    let width = table.width(node);
    if width.count_ones() != 1 {
        return None;
    }
    let n = width.trailing_zeros() as usize;
    if WORDS <= n {
        return None;
    }
    is_word(table, node, n).then_some(n)
}

// The node is segment n of a buffer: unit or word type n + 3.
fn is_segment(table: &Checked<'_>, node: usize, n: usize) -> bool
    requires node_lt_count { node < table.now.count }
    requires n_bound { n < 13 }
    ensures { result ≡ same (ty_at table.now.columns node) (segment n) }
{
    let sum = table.node(node);
    if sum.kind != Kind::Sum {
        return false;
    }
    let left = table.node(sum.left);
    left.kind == Kind::Unit && is_word(table, sum.right, 3 + n)
}

// The node is buffer type n: down the right sides, a segment on the left of each product, to segment 0.
pub fn is_buffer(table: &Checked<'_>, node: usize, n: usize) -> bool
    requires node_lt_count { node < table.now.count }
    requires n_bound { n < 13 }
    ensures { result ≡ same (ty_at table.now.columns node) (buffer n) }
{
    let mut at = node;
    for passed in 0..n {
        let pair = table.node(at);
        if pair.kind != Kind::Product {
            return false;
        }
        if !is_segment(table, pair.left, n - passed) {
            return false;
        }
        at = pair.right;
    }
    is_segment(table, at, 0)
}

// The node is the hash state's type: a buffer of up to 63 bytes, a 64-bit count, 32 midstate bytes.
pub fn is_ctx8(table: &Checked<'_>, node: usize) -> bool
    requires { node < table.now.count }
    ensures { result ≡ same (ty_at table.now.columns node) ctx8 }
{
    let state = table.node(node);
    if state.kind != Kind::Product {
        return false;
    }
    let rest = table.node(state.right);
    if rest.kind != Kind::Product {
        return false;
    }
    is_word(table, rest.left, 6) && is_word(table, rest.right, 8) && is_buffer(table, state.left, 5)
}
