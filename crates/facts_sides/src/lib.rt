// The facts of a node by those of its two sides, and whether a node's facts are those found, by the groups.
#![tactic(auto)]

ghost use Rattle.std.specs.Prelude.{◌≡◌, ◌+◌, ◌*◌, ◌≤◌, length};
ghost use Rattle.meaning.specs.Groups.{group_size};
ghost use Rattle.meaning.specs.Tables.{facts_in, facts_right, digit};
ghost use Rattle.tables.specs.Kinds.{kind_no};
ghost use Rattle.facts_sides.specs.Sides.{width_by, size_by, padded_by, least_by};
ghost use Rattle.facts_sides.specs.FactsOf.{FactsOf};

use groups::Facts;
use tables::Kind;

// The width of a sum or a product, by the widths of its sides.
pub fn width_by(kind: u8, a: u64, b: u64) -> u64
    ensures { result ≡ width_by kind a b }
{
    if kind == 1 {
        return 1u64.saturating_add(a.max(b));
    }
    a.saturating_add(b) // both widths
}

// The size of a sum or a product, by the sizes of its sides.
pub fn size_by(a: u64, b: u64) -> u64
    ensures { result ≡ size_by a b }
{
    1u64.saturating_add(a.saturating_add(b))
}

// The padded byte of a sum or a product, by the padded bytes and the widths of its sides.
pub fn padded_by(kind: u8, p: u8, q: u8, a: u64, b: u64) -> u8
    ensures { result ≡ padded_by kind p q a b }
{
    u8::from(p != 0 || q != 0 || kind == 1 && a != b)
}

// The least compact length of a sum or a product, by those of its sides.
pub fn least_by(kind: u8, a: u64, b: u64) -> u64
    ensures { result ≡ least_by kind a b }
{
    if kind == 1 {
        return 1u64.saturating_add(a.min(b));
    }
    a.saturating_add(b) // both lengths
}

// The facts of a sum or a product with a class, by those of its sides.
pub fn facts_by(kind: Kind, class: u16, x: Facts, y: Facts) -> Facts
    ensures width { result.width ≡ width_by (kind_no kind) x.width y.width }
    ensures size { result.size ≡ size_by x.size y.size }
    ensures padded { digit result.padded ≡ padded_by (kind_no kind) (digit x.padded) (digit y.padded) x.width y.width }
    ensures class { result.class ≡ class }
    ensures least { result.least ≡ least_by (kind_no kind) x.least y.least }
{
    let (p, q) = (u8::from(x.padded), u8::from(y.padded));
    let size = size_by(x.size, y.size);
    match kind {
        Kind::Sum => Facts {
            width: width_by(1, x.width, y.width),
            size,
            padded: padded_by(1, p, q, x.width, y.width) != 0,
            class,
            least: least_by(1, x.least, y.least),
        },
        _ => Facts {
            width: width_by(2, x.width, y.width),
            size,
            padded: padded_by(2, p, q, x.width, y.width) != 0,
            class,
            least: least_by(2, x.least, y.least),
        },
    }
}

// The facts of node n, as its group has them, are those found. One by one: the padded byte of a lent group may be anything, and is compared as it is.
#[tactic(auto, unfolding(meaning::specs::Tables::facts_right))]
pub fn agrees(groups: &[u8], n: usize, facts: Facts) -> bool
    requires { group_size * (n + 1) ≤ length groups.now }
    ensures { (c : _) → FactsOf c n facts → result ≡ facts_right c (facts_in groups.now) n }
{
    groups::width_at(groups, n) == facts.width
        && groups::size_at(groups, n) == facts.size
        && groups::padded_at(groups, n) == u8::from(facts.padded)
        && groups::class_at(groups, n) == facts.class
        && groups::least_at(groups, n) == facts.least
}
