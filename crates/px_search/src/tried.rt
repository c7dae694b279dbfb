//! Trying the goal at a node.
ghost use Rattle.std.specs.Prelude.{IfOk};
ghost use Rattle.px_table.specs.declared.node.Node.{Node};
ghost use Rattle.px_numbers.specs.Numbers.{IsKeyOf};
ghost use Rattle.px_support.specs.Asking.{IsAskable, task_for};
ghost use Rattle.px_search.specs.Asking.{IsTriedAt};

use px_gaps::{Tried, try_formula};
use px_numbers::{NodeKey, Numbers};
use px_support::Asked;
use px_terms::NoMemory;

/// Returns whether the node is solved.
pub fn try_node(asked: &Asked, numbers: &Numbers, key: NodeKey) -> Result<Tried, NoMemory>
    requires asked { IsAskable asked.now }
    requires node { (node : Node) × IsKeyOf numbers.now key node }
    ensures { IfOk result (λ tried. (node : Node) → IsKeyOf numbers.now key node → IsTriedAt (task_for asked.now) node tried) }
{
    if key.stack != 0 {
        return Ok(Tried::Unanswered);
    }
    let model = numbers.model(asked.alloc, key.model)?;
    try_formula(
        asked.alloc,
        asked.problem,
        asked.goal,
        asked.variable_count,
        &model,
    )
}
