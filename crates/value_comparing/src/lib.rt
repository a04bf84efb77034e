// Equality and order of records that a public call has checked.
// Inner: the nodes are in the table, and the records lie within their bytes.
#![tactic(auto)]

ghost use Rattle.std.specs.Prelude.{◌≡◌};
ghost use Rattle.meaning.specs.Ladder.{record_of};
ghost use Rattle.answers.specs.Verdicts.{order};
ghost use Rattle.checked.specs.Passed.{Held};
ghost use Rattle.value_comparing.specs.Comparing.{alike_at, ordered_at};

use nodes::Checked;
use std::cmp::Ordering;

// Two records are equal: the same class, and the same bits.
pub fn alike(
    table: &Checked<'_>,
    a_bytes: &[u8],
    a_offset: usize,
    a_node: usize,
    b_bytes: &[u8],
    b_offset: usize,
    b_node: usize,
) -> bool
    requires held { Held table.now (record_of a_bytes.now a_offset a_node) }
    requires held_2 { Held table.now (record_of b_bytes.now b_offset b_node) }
    ensures { result ≡ alike_at table.now (record_of a_bytes.now a_offset a_node) (record_of b_bytes.now b_offset b_node) }
{
    let a = table.node(a_node);
    let b = table.node(b_node);
    if a.class != b.class {
        return false;
    }
    bits_compare::same_bits(
        &a_bytes[a_offset / 8..],
        a_offset % 8,
        &b_bytes[b_offset / 8..],
        b_offset % 8,
        a.width as usize,
    )
}

// The order of two records: the smaller class number first, then the first differing bit.
pub fn ordered(
    table: &Checked<'_>,
    a_bytes: &[u8],
    a_offset: usize,
    a_node: usize,
    b_bytes: &[u8],
    b_offset: usize,
    b_node: usize,
) -> Ordering
    requires held { Held table.now (record_of a_bytes.now a_offset a_node) }
    requires held_2 { Held table.now (record_of b_bytes.now b_offset b_node) }
    ensures { order result ≡ ordered_at table.now (record_of a_bytes.now a_offset a_node) (record_of b_bytes.now b_offset b_node) }
{
    let a = table.node(a_node);
    let b = table.node(b_node);
    match a.class.cmp(&b.class) {
        Ordering::Equal => bits_compare::order_bits(
            &a_bytes[a_offset / 8..],
            a_offset % 8,
            &b_bytes[b_offset / 8..],
            b_offset % 8,
            a.width as usize,
        ),
        by_class => by_class,
    }
}
