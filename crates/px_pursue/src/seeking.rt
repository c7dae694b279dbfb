//! Seeks a plan for a pursuit.
ghost use Rattle.std.specs.Prelude.{IfOk};
ghost use Rattle.px_pursue.specs.Seeking.{IsAim, IsSought, task_from};

use crate::aim::Aim;
use px_base::NoMemory;
use px_ops::Model;
use px_printer::PursueEnd;
use px_search::{Found, SearchErr, search};
use px_table::{Table, build};

/// What a search came to.
#[derive(Drop)]
pub(crate) enum Sought {
    /// The table of the plan that was found.
    Plan(Table),
    /// How it ended without a plan.
    WithoutPlan(PursueEnd),
}

/// Searches for a plan from these facts.
///
/// # Errors
/// `NoMemory` where there is no memory for the search or for the plan's table.
pub(crate) fn seek(aim: &Aim<'_>, facts: &Model) -> Result<Sought, NoMemory>
    requires aim { IsAim aim.now }
    ensures { IfOk result (IsSought (task_from aim.now facts.now.atoms)) }
{
    match search(
        aim.alloc,
        aim.problem,
        facts,
        aim.goal,
        aim.variable_count,
        aim.tables,
    ) {
        Ok(found) => {
            let Found {
                moves: _moves,
                steps,
                support,
            } = found;
            let table = build(
                aim.alloc,
                aim.problem,
                aim.goal,
                aim.variable_count,
                steps.as_slice(),
                support,
            )?;
            Ok(Sought::Plan(table))
        }
        Err(SearchErr::Exhausted) => Ok(Sought::WithoutPlan(PursueEnd::Exhausted)),
        Err(SearchErr::NodeLimit { nodes, moves }) => {
            Ok(Sought::WithoutPlan(PursueEnd::NodeLimit { nodes, moves }))
        }
        Err(SearchErr::ShapeLimit { node, limit }) => {
            Ok(Sought::WithoutPlan(PursueEnd::ShapeLimit { node, limit }))
        }
        Err(SearchErr::NoMemory) => Err(NoMemory),
    }
}
