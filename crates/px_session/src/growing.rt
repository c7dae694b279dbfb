//! The tree of a search in a session.
ghost use Rattle.std.specs.Prelude.{◌<◌, ◌≤◌, All, IfOk};
ghost use Rattle.px_terms.specs.Limits.{most_formula_variables, most_nodes};
ghost use Rattle.px_terms.specs.Validity.{IsAtomOf, IsValid};
ghost use Rattle.px_ends.specs.Tasks.{task_with};
ghost use Rattle.px_session.specs.Lawful.{TellsTree};
ghost use Rattle.px_session.specs.Sessions.{IsSession};

use crate::state::State;
use px_base::{NoMemory, Sequence};
use px_printer::Reply;
use px_search::search_tree;
use px_terms::{Atom, Problem};
use std::alloc::Global;

impl State {
    // Alike: `search_tree` of `px_search`, which asks the same of the problem and its goal.
    /// Searches from the world's atoms to the goal, with room for so many nodes, and answers the tree of the search. Nothing is stored.
    ///
    /// # Errors
    /// `NoMemory` where there is no memory for the search, its tree or the names of the learned tables.
    pub(crate) fn tree(
        &self,
        alloc: Global,
        problem: &Problem,
        name: u32,
        nodes: u32,
        goal: &[Atom],
        variable_count: u32,
    ) -> Result<Reply, NoMemory>
        requires problem { IsValid problem.now }
        requires nodes { (1 ≤ nodes) × (nodes ≤ most_nodes) }
        requires goal { All (IsAtomOf problem.now variable_count) goal.now }
        requires few_variables { variable_count ≤ most_formula_variables }
        requires some_object { 0 < variable_count → 0 < problem.now.objects }
        requires session { IsSession problem.now self.now }
        ensures told { IfOk result (λ reply. TellsTree
            (task_with problem.now nodes self.now.learned.tables self.now.atoms goal.now variable_count) name self.now reply self.now) }
    {
        let tables = Sequence::from_slice(alloc, self.learned.names())?;
        let tree = search_tree(
            alloc,
            problem,
            nodes,
            &self.facts,
            goal,
            variable_count,
            self.learned.tables(),
        )?;
        Ok(Reply::Tree { name, tables, tree })
    }
}
