// Whether lent columns and a lent buffer of groups have room for so many nodes.
#![tactic(auto)]

ghost use Rattle.std.specs.Prelude.{◌≡◌, ◌≤◌};
ghost use Rattle.meaning.specs.Tables.{columns_reach, groups_reach};

use tables::Columns;

// Each column of entries has as many as the count.
pub fn columns_reach(columns: &Columns<'_>, count: usize) -> bool
    ensures { result ≡ columns_reach columns.now count }
{
    count <= columns.kinds.len() && count <= columns.lefts.len() && count <= columns.rights.len()
}

// There is a group for each of so many nodes.
pub fn groups_reach(groups: &[u8], count: usize) -> bool
    requires { count ≤ 1024 }
    ensures { result ≡ groups_reach groups.now count }
{
    groups::GROUP_BYTES * count <= groups.len()
}
