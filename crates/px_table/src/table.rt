//! Triangle tables and their rows.
ghost use Rattle.std.specs.Prelude.{◌≡◌, IfOk};
ghost use Rattle.px_table.specs.Tables.{table_without_sorts};

use crate::mark::Mark;
use px_base::{NoMemory, Sequence, push};
use px_proof::Proof;
use px_terms::{Atom, OpInst};
use std::alloc::Global;
use std::marker::Model;

/// A row of a triangle table: a proof for each atom of a step's precondition, or of the goal. Contracts see it as the
/// list of its proofs.
#[derive(Drop)]
pub struct Row {
    proofs: Sequence<Proof>,
}

impl Model for Row {
    ghost use Rattle.std.specs.Prelude.{List};
    ghost use Rattle.px_proof.specs.declared.proof.Proof.{Proof};
    ghost use Rattle.px_proof.specs.contracts.proof.Proof as term;
    ghost use Rattle.std.specs.Coded.{coded_list};

    ghost Value = { List Proof };

    ghost coded = { coded_list term.the_row.coded };

    ghost view = { λ r. r.proofs };
}

impl Row {
    /// Returns the row of these proofs. Does not allocate.
    pub fn from_proofs(proofs: Vec<Proof>) -> Row
        ensures { result ≡ proofs.items }
    {
        Row {
            proofs: Sequence::from_vec(proofs),
        }
    }

    /// Returns the proofs, in the order of the atoms that they prove.
    pub fn proofs(&self) -> &[Proof]
        ensures { result.now ≡ self.now }
    {
        self.proofs.as_slice()
    }

    /// Returns the proofs, for the caller to keep. Does not allocate.
    pub fn into_proofs(self) -> Vec<Proof>
        ensures { result.items ≡ self }
    {
        self.proofs.into_vec()
    }

    /// Returns an equal row.
    ///
    /// # Errors
    /// `NoMemory` where there is no memory for the copy.
    pub fn try_copy(&self) -> Result<Row, NoMemory>
        ensures { IfOk result (λ copy. copy ≡ self.now) }
    {
        let mut copies = Vec::new(*self.proofs.allocator());
        for proof in self.proofs() {
            let copy = proof.try_copy()?;
            push(&mut copies, copy)?;
        }
        Ok(Row::from_proofs(copies))
    }
}

/// A triangle table (Fikes, Hart and Nilsson 1972): a plan's steps and goal with the proofs that carry them, and the
/// facts that these rest on. In what `check_table` accepts, `Var(v)` with `v` below `params` is a
/// parameter, and only in the goal the goal's own variables follow.
#[derive(Drop)]
pub struct Table {
    /// How many parameters it has.
    pub params: u32,
    /// The steps in order.
    pub steps: Sequence<OpInst>,
    pub goal: Sequence<Atom>,
    /// How many variables of its own the goal has.
    pub goal_variable_count: u32,
    /// In what `check_table` accepts: the facts that the rows rest on, row by row, each once in its row.
    pub marks: Sequence<Mark>,
    /// In what `check_table` accepts: a row for each step, and one for the goal.
    pub proofs: Sequence<Row>,
    /// In what `check_table` accepts: the sort of each parameter; 0 is no sort.
    pub param_sorts: Sequence<u32>,
}

impl Table {
    /// Returns the table none of whose parameters has a sort.
    ///
    /// # Errors
    /// `NoMemory` where there is no memory for the list of sorts. The parts are then dropped.
    pub fn without_sorts(
        alloc: Global,
        params: u32,
        steps: Sequence<OpInst>,
        goal: Sequence<Atom>,
        goal_variable_count: u32,
        marks: Sequence<Mark>,
        proofs: Sequence<Row>,
    ) -> Result<Table, NoMemory>
        ensures { IfOk result (λ table. table ≡ table_without_sorts params steps goal goal_variable_count marks proofs) }
    {
        let param_sorts = Sequence::from_vec(vec![in alloc; 0; params as usize]?);
        Ok(Table {
            params,
            steps,
            goal,
            goal_variable_count,
            marks,
            proofs,
            param_sorts,
        })
    }

    /// Returns an equal table.
    ///
    /// # Errors
    /// `NoMemory` where there is no memory for the copy.
    pub fn try_copy(&self) -> Result<Table, NoMemory>
        ensures { IfOk result (λ copy. copy ≡ self.now) }
    {
        let steps = self.steps.try_copy()?;
        let goal = self.goal.try_copy()?;
        let marks = self.marks.try_copy()?;
        let proofs = copy_rows(&self.proofs)?;
        let param_sorts = self.param_sorts.try_copy()?;
        Ok(Table {
            params: self.params,
            steps,
            goal,
            goal_variable_count: self.goal_variable_count,
            marks,
            proofs,
            param_sorts,
        })
    }
}

/// Returns a copy of the rows, in the same order.
fn copy_rows(rows: &Sequence<Row>) -> Result<Sequence<Row>, NoMemory>
    ensures { IfOk result (λ copy. copy ≡ rows.now) }
{
    let mut copies = Vec::new(*rows.allocator());
    for row in rows.as_slice() {
        let copy = row.try_copy()?;
        push(&mut copies, copy)?;
    }
    Ok(Sequence::from_vec(copies))
}
