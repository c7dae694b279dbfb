//! Tables of the script whose blocks are open, and the tables that they make.
ghost use Rattle.std.specs.Prelude.{◌≡◌, true, false, length, map, IfOk, MatchOption, nat_lt};
ghost use Rattle.px_terms.specs.Validity.{IsValid};
ghost use Rattle.px_script.specs.Declarations.{table_made};
ghost use Rattle.px_script.specs.Faults.{is_bad_block};
ghost use Rattle.px_so_far.specs.SoFarViews.{open_table_view, step_view, table_view};
ghost use Rattle.std.specs.List.{list_any};
ghost use Rattle.px_terms.specs.Limits.{most_parameters};
ghost use Rattle.px_so_far.specs.Common.{kind_of_block};

use px_base::{NoMemory, Sequence, push};
use px_script::Block;
use px_table::{Row, Table, marks, rows_make_table, sorts_by_places};
use px_terms::{Atom, OpInst, Problem, Term};
use std::alloc::Global;

/// A step of a table: an operator, and as many terms as the line has, which may be more than an operator has parameters.
#[derive(Drop)]
pub struct WrittenStep {
    /// The number of the operator.
    pub op: u32,
    /// Its terms, in the order of the operator's parameters.
    pub terms: Vec<Term>,
}

/// A table as far as its lines stood.
#[derive(Drop)]
pub struct OpenTable {
    /// The number of its name.
    pub name: u32,
    /// How many parameters it has.
    pub parameters: u32,
    /// Its steps so far.
    pub steps: Vec<WrittenStep>,
    /// Whether the line of its goal stood, after which rows follow.
    pub has_goal: bool,
    /// The atoms of its goal, and none before its line stood.
    pub goal: Vec<Atom>,
    /// The greatest number of a variable of its goal.
    pub goal_variable_count: u32,
    /// Its rows so far, each with its proofs.
    pub rows: Vec<Row>,
}

impl OpenTable {
    /// Returns which lines may stand in the table's block: steps and the goal, or rows.
    pub fn block(&self) -> Block
        ensures { result ≡ kind_of_block (open_table_view self.now) }
    {
        if self.has_goal {
            Block::TableRows
        } else {
            Block::TableSteps
        }
    }

    /// Returns whether its block is bad: it has no goal, or its parts make no table of the problem.
    ///
    /// # Errors
    /// `NoMemory` where there is no memory to look.
    pub fn is_bad(&self, alloc: Global, problem: &Problem) -> Result<bool, NoMemory>
        requires valid { IsValid problem.now }
        ensures { IfOk result (λ bad. bad ≡ is_bad_block problem.now (open_table_view self.now)) }
    {
        if !self.has_goal {
            return Ok(true);
        }
        let Some(steps) = instances(alloc, &self.steps)? else {
            return Ok(true);
        };
        let sorts = sorts_by_places(alloc, problem, &steps, self.parameters)?;
        Ok(!rows_make_table(
            problem,
            self.parameters,
            sorts.as_slice(),
            &steps,
            &self.goal,
            self.goal_variable_count,
            &self.rows,
        ))
    }

    /// Returns the table that its parts make, with the sorts of its parameters and the marks of its rows.
    ///
    /// # Errors
    /// `NoMemory` where there is no memory for it.
    pub fn made(self, alloc: Global, problem: &Problem) -> Result<Table, NoMemory>
        requires valid { IsValid problem.now }
        requires good { is_bad_block problem.now (open_table_view self) ≡ false }
        ensures { IfOk result (λ table. table ≡ table_made problem.now (table_view self)) }
    {
        let Some(steps) = instances(alloc, &self.steps)? else {
            unreachable!()
        };
        let param_sorts = sorts_by_places(alloc, problem, &steps, self.parameters)?;
        let marks = marks(alloc, &self.rows)?;
        Ok(Table {
            params: self.parameters,
            steps: Sequence::from_vec(steps),
            goal: Sequence::from_vec(self.goal),
            goal_variable_count: self.goal_variable_count,
            marks,
            proofs: Sequence::from_vec(self.rows),
            param_sorts,
        })
    }
}

/// Returns the steps, unless one of them has more terms than an operator may have parameters.
fn instances(alloc: Global, steps: &[WrittenStep]) -> Result<Option<Vec<OpInst>>, NoMemory>
    ensures { IfOk result (λ found. MatchOption found (list_any (λ step. nat_lt most_parameters (length step.terms.items)) steps.now ≡ true)
        (λ made. made.items ≡ map step_view steps.now)) }
{
    let mut made = Vec::new(alloc);
    for step in steps {
        let Some(instance) = OpInst::new(step.op, &step.terms) else {
            return Ok(None);
        };
        made.push(instance)?;
    }
    Ok(Some(made))
}
