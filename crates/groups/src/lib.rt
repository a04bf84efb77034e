// The facts of a node in its group of bytes: width in 8 bytes, size in 8, padded in 1, class in 2, least length in 8, numbers low byte first.
// Inner: a group must be there, which every public call checks first.
#![tactic(auto)]

ghost use Rattle.std.specs.Prelude.{◌≡◌, ◌+◌, ◌*◌, ◌≤◌, length, take, drop, get_or};
ghost use Rattle.std.proofs.Math.Seq.{paste};
ghost use Rattle.meaning.specs.Groups.{group, group_size};
ghost use Rattle.meaning.specs.Tables.{facts_in, digit};
ghost use Rattle.groups.specs.Held.{Held};

// How many bytes a group has.
pub const GROUP_BYTES: usize = 27;

// The facts of a node.
#[derive(Clone, Copy, PartialEq, Eq)]
pub struct Facts {
    pub width: u64,
    pub size: u64,
    pub padded: bool,
    pub class: u16,
    pub least: u64,
}

// So many bytes, from one on.
fn bytes_at<const K: usize>(s: &[u8], at: usize) -> [u8; K]
    requires { at + K ≤ length s.now }
    ensures { result ≡ take K (drop at s.now) }
{
    let mut bytes = [0; K];
    bytes.copy_from_slice(&s[at..at + K]);
    bytes
}

// The width of a node.
pub fn width_at(groups: &[u8], n: usize) -> u64
    requires { group_size * (n + 1) ≤ length groups.now }
    ensures { result ≡ get_or (facts_in groups.now).widths n 0 }
{
    u64::from_le_bytes(bytes_at(groups, GROUP_BYTES * n))
}

// The size of a node.
pub fn size_at(groups: &[u8], n: usize) -> u64
    requires { group_size * (n + 1) ≤ length groups.now }
    ensures { result ≡ get_or (facts_in groups.now).sizes n 0 }
{
    u64::from_le_bytes(bytes_at(groups, GROUP_BYTES * n + 8))
}

// The padded byte of a node.
pub fn padded_at(groups: &[u8], n: usize) -> u8
    requires { group_size * (n + 1) ≤ length groups.now }
    ensures { result ≡ get_or (facts_in groups.now).paddeds n 0 }
{
    groups[GROUP_BYTES * n + 16]
}

// The class of a node.
pub fn class_at(groups: &[u8], n: usize) -> u16
    requires { group_size * (n + 1) ≤ length groups.now }
    ensures { result ≡ get_or (facts_in groups.now).classes n 0 }
{
    u16::from_le_bytes(bytes_at(groups, GROUP_BYTES * n + 17))
}

// The least compact length of a node.
pub fn least_at(groups: &[u8], n: usize) -> u64
    requires { group_size * (n + 1) ≤ length groups.now }
    ensures { result ≡ get_or (facts_in groups.now).leasts n 0 }
{
    u64::from_le_bytes(bytes_at(groups, GROUP_BYTES * n + 19))
}

// All facts of a node. The padded byte of a lent group may be anything: any but 0 is read as a yes.
pub fn facts_at(groups: &[u8], n: usize) -> Facts
    requires { group_size * (n + 1) ≤ length groups.now }
    ensures { Held (facts_in groups.now) n result }
{
    Facts {
        width: width_at(groups, n),
        size: size_at(groups, n),
        padded: padded_at(groups, n) != 0,
        class: class_at(groups, n),
        least: least_at(groups, n),
    }
}

// Lays the facts of a node into its group. The padded byte may be anything, and is laid as it is.
pub fn put_facts(
    groups: &mut [u8],
    n: usize,
    width: u64,
    size: u64,
    padded: u8,
    class: u16,
    least: u64,
)
    requires { group_size * (n + 1) ≤ length groups.old }
    ensures { groups.new ≡ paste groups.old (group_size * n)
        (group width size padded class least) group_size }
{
    let at = GROUP_BYTES * n;
    groups[at..at + 8].copy_from_slice(&width.to_le_bytes());
    groups[at + 8..at + 16].copy_from_slice(&size.to_le_bytes());
    groups[at + 16] = padded;
    groups[at + 17..at + 19].copy_from_slice(&class.to_le_bytes());
    groups[at + 19..at + 27].copy_from_slice(&least.to_le_bytes());
}

// The same of facts as one value: a yes or no is 1 or 0.
pub fn put_group(groups: &mut [u8], n: usize, facts: Facts)
    requires { group_size * (n + 1) ≤ length groups.old }
    ensures { groups.new ≡ paste groups.old (group_size * n)
        (group facts.width facts.size (digit facts.padded) facts.class facts.least) group_size }
{
    let padded = u8::from(facts.padded);
    put_facts(
        groups,
        n,
        facts.width,
        facts.size,
        padded,
        facts.class,
        facts.least,
    );
}
