//! Planning in a session.
ghost use Rattle.std.specs.Prelude.{◌≡◌, ◌<◌, ◌≤◌, All, IfOk, OnErr};
ghost use Rattle.px_terms.specs.Limits.{most_formula_variables};
ghost use Rattle.px_terms.specs.Validity.{IsAtomOf, IsValid};
ghost use Rattle.px_ends.specs.Tasks.{task_of};
ghost use Rattle.px_session.specs.Lawful.{TellsSearch};
ghost use Rattle.px_session.specs.Planning.{IsFoundPlan};
ghost use Rattle.px_session.specs.Sessions.{IsSession};

use crate::state::State;
use px_base::NoMemory;
use px_printer::Reply;
use px_search::{Found, SearchErr, search};
use px_table::build;
use px_terms::{Atom, Problem};
use std::alloc::Global;

impl State {
    // Alike: `store_plan` below and `search` of `px_search`, since each asks the same of the problem and its goal.
    /// Searches for a plan from the world's atoms to the goal. The table of a plan that is found is stored under the name.
    ///
    /// # Errors
    /// `NoMemory` where there is no memory for the search, for the table or for its place. No plan is stored then.
    pub(crate) fn plan(
        &mut self,
        alloc: Global,
        problem: &Problem,
        name: u32,
        goal: &[Atom],
        variable_count: u32,
    ) -> Result<Reply, NoMemory>
        requires problem { IsValid problem.now }
        requires goal { All (IsAtomOf problem.now variable_count) goal.now }
        requires few_variables { variable_count ≤ most_formula_variables }
        requires some_object { 0 < variable_count → 0 < problem.now.objects }
        requires session { IsSession problem.now self.old }
        ensures told { IfOk result (λ reply. TellsSearch
            (task_of problem.now self.old.learned.tables self.old.atoms goal.now variable_count) name self.old reply self.new) }
        ensures kept { OnErr result (self.new ≡ self.old) }
    {
        match search(
            alloc,
            problem,
            &self.facts,
            goal,
            variable_count,
            self.learned.tables(),
        ) {
            Ok(found) => self.store_plan(alloc, problem, name, goal, variable_count, found),
            Err(SearchErr::Exhausted) => Ok(Reply::Exhausted { name }),
            Err(SearchErr::NodeLimit { nodes, moves }) => {
                Ok(Reply::NodeLimit { name, nodes, moves })
            }
            Err(SearchErr::ShapeLimit { node, limit }) => {
                Ok(Reply::ShapeLimit { name, node, limit })
            }
            Err(SearchErr::NoMemory) => Err(NoMemory),
        }
    }

    /// Stores the table of a plan that was found, and returns the plan.
    fn store_plan(
        &mut self,
        alloc: Global,
        problem: &Problem,
        name: u32,
        goal: &[Atom],
        variable_count: u32,
        found: Found,
    ) -> Result<Reply, NoMemory>
        requires problem { IsValid problem.now }
        requires goal { All (IsAtomOf problem.now variable_count) goal.now }
        requires found { IsFoundPlan (task_of problem.now self.old.learned.tables self.old.atoms goal.now variable_count) found }
        ensures told { IfOk result (λ reply. TellsSearch
            (task_of problem.now self.old.learned.tables self.old.atoms goal.now variable_count) name self.old reply self.new) }
        ensures kept { OnErr result (self.new ≡ self.old) }
    {
        let Found {
            moves,
            steps,
            support,
        } = found;
        let table = build(
            alloc,
            problem,
            goal,
            variable_count,
            steps.as_slice(),
            support,
        )?;
        self.plans.store(name, table)?;
        Ok(Reply::Plan {
            name,
            moves: moves.len() as u32,
            steps,
        })
    }
}
