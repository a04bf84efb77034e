// The rungs 2 to 5 of one record or one node, for `checked_rungs`: by what groups hold, whatever that is, and (`sound`) of a table that has been
// checked. Inner: the count is at most 1,024, and the groups reach it.
#![tactic(auto)]

pub mod sound;

ghost use Rattle.std.specs.Prelude.{◌≡◌, false, ◌+◌, ◌*◌, ◌≤◌, length, get_or, ltb, leb};
ghost use Rattle.meaning.specs.Groups.{group_size, fact_in};
ghost use Rattle.answers.specs.Verdicts.{done_of};
ghost use Rattle.checked_limits.specs.Limits as limits;
ghost use Rattle.checked_limits.specs.Limits.{first_rung, limit_answer};

use answers::Refusal;

// The widest record type, and the largest, that a call takes.
const WIDEST: u64 = 524288;

const LARGEST: u64 = 2097152;

// 2, 3 or 4, of a node that is named as a record type.
pub fn node_limit(groups: &[u8], count: usize, n: usize) -> Result<(), Refusal>
    requires count_bound { count ≤ 1024 }
    requires count_in_bounds { group_size * count ≤ length groups.now }
    ensures { done_of result ≡ limit_answer (first_rung (leb count n) (ltb 524288 (get_or (fact_in 0 8 groups.now) n 0)) (ltb 2097152 (get_or (fact_in 8 8 groups.now) n 0)) false) }
{
    if count <= n {
        return Err(Refusal::NoSuchNode);
    }
    if WIDEST < groups::width_at(groups, n) {
        return Err(Refusal::TooWide);
    }
    if LARGEST < groups::size_at(groups, n) {
        return Err(Refusal::TooLarge);
    }
    Ok(())
}

// 5: so many bits from an offset on run past so many bytes. Nothing wraps: whole bytes are skipped first.
pub fn past(len: usize, offset: usize, width: u64) -> bool
    requires { width ≤ 524288 }
    ensures { result ≡ ltb (8 * len) (offset + width) }
{
    let skipped = offset / 8;
    if len < skipped {
        return true;
    }
    let left = len - skipped;
    if 65537 <= left {
        return false;
    }
    8 * (left as u64) < ((offset % 8) as u64) + width
}

// 2 to 5, of a record that begins at an offset of so many bytes.
pub fn record_limit(
    groups: &[u8],
    count: usize,
    len: usize,
    offset: usize,
    n: usize,
) -> Result<(), Refusal>
    requires count_bound { count ≤ 1024 }
    requires count_in_bounds { group_size * count ≤ length groups.now }
    ensures { done_of result ≡ limit_answer (first_rung (leb count n) (ltb 524288 (get_or (fact_in 0 8 groups.now) n 0)) (ltb 2097152 (get_or (fact_in 8 8 groups.now) n 0)) (ltb (8 * len) (offset + get_or (fact_in 0 8 groups.now) n 0))) }
{
    node_limit(groups, count, n)?;
    if past(len, offset, groups::width_at(groups, n)) {
        return Err(Refusal::OutOfBytes);
    }
    Ok(())
}

// Of two refusals that of the smaller number: its rung comes first.
pub fn earlier(a: Result<(), Refusal>, b: Result<(), Refusal>) -> Result<(), Refusal>
    ensures { done_of result ≡ limits.earlier (done_of a) (done_of b) }
{
    let (Err(x), Err(y)) = (a, b) else {
        return a.and(b);
    };
    if y.number() < x.number() {
        return b;
    }
    a
}
