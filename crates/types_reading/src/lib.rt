// What the questions about types read once the table and the nodes have been judged.
#![tactic(auto)]

ghost use Rattle.std.specs.Prelude.{◌≡◌, ◌<◌, ◌-◌, max, eqb};
ghost use Rattle.meaning.specs.Tables.{facts_at};
ghost use Rattle.meaning.specs.Ladder.{ladder, shaped};
ghost use Rattle.tables.specs.Kinds.{kind_no};
ghost use Rattle.answers.specs.Verdicts.{sides_of, node_facts};

use answers::{Facts, Refusal, Sides};
use nodes::Checked;
use tables::Kind;

// Everything that a sound table says of a node of it.
pub fn facts(table: &Checked<'_>, node: usize) -> Facts
    requires { node < table.now.count }
    ensures { node_facts result ≡ facts_at table.now.columns node }
{
    let read = table.node(node);
    Facts {
        width: read.width,
        size: table.size(node),
        padded: read.padded,
        class: read.class,
        kind: read.kind,
        left: read.left,
        right: read.right,
        least: groups::least_at(table.groups, node),
    }
}

// The sides of a node of a kind; any other node has the wrong shape.
pub fn sides_if(facts: Facts, kind: Kind) -> Result<Sides, Refusal>
    ensures { sides_of result ≡ ladder (shaped (eqb (kind_no facts.kind) (kind_no kind))) (record { left_node = facts.left; right_node = facts.right }) }
{
    if facts.kind == kind {
        return Ok(Sides {
            left: facts.left,
            right: facts.right,
        });
    }
    Err(Refusal::WrongShape)
}

// The bits that a payload of one width leaves unused beside the other.
pub fn padding(own: u64, other: u64) -> usize
    ensures { result ≡ max own other - own }
{
    other.saturating_sub(own) as usize
}
