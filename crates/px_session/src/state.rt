//! What a session holds, and the commands that tell its facts or record something.
ghost use Rattle.std.specs.Prelude.{◌≡◌, ◌≢◌, ◌<◌, ◌≤◌, AllPairs, IfOk, OnErr, length, option_map};
ghost use Rattle.px_base.specs.Bounds.{u32_max};
ghost use Rattle.px_session.specs.Lawful.{Notes, TellsFacts, recorded_for};
ghost use Rattle.px_table.specs.Limits.{most_tables};
ghost use Rattle.px_session.specs.Sessions.{any_table, opening, tables_by_name};

use crate::edit::Edit;
use crate::plans::Plans;
use px_base::{NoMemory, Sequence, push};
use px_library::{LibErr, Library};
use px_ops::Model;
use px_printer::Reply;
use px_table::Table;
use px_turns::Recorded;
use std::alloc::Global;

/// The world's atoms, the tables of the stored plans, the learned tables, and the disturbances that are recorded for the next run.
#[derive(Drop)]
pub(crate) struct State {
    pub(crate) facts: Model,
    pub(crate) plans: Plans,
    pub(crate) learned: Library,
    pub(crate) recorded: Vec<Recorded<Edit>>,
}

impl std::marker::Model for State {
    ghost use Rattle.std.specs.Coded.{codes};
    ghost use Rattle.px_proof.specs.contracts.proof.Proof as term;
    ghost use Rattle.px_session.specs.Sessions.{SessionState};

    ghost Value = { SessionState };

    ghost coded = { Prim.hlevel (codes, term.the_row.coded) };

    ghost view = { λ s. record {
      atoms = s.facts.atoms;
      plans = s.plans;
      learned = s.learned;
      recorded = s.recorded.items;
    } };
}

impl State {
    /// Returns the state before the first command, where these are the facts, and the saved tables beside the numbers of their names.
    ///
    /// # Errors
    /// `NoMemory` where there is no memory for the tables.
    pub(crate) fn opening(
        alloc: Global,
        facts: Model,
        saved: Sequence<(u32, Table)>,
    ) -> Result<State, NoMemory>
        requires once { AllPairs (λ one other. one ≢ other) (tables_by_name saved).names }
        requires few { length saved ≤ most_tables }
        ensures { IfOk result (λ state. state ≡ opening facts.atoms saved) }
    {
        Ok(State {
            facts,
            plans: Plans::new(alloc),
            learned: library_of(alloc, saved)?,
            recorded: Vec::new(alloc),
        })
    }

    /// Returns the table of the stored plan of that name, or the learned table. Does not allocate.
    pub(crate) fn table(&self, name: u32) -> Option<&Table>
        ensures { option_map (λ table. table.now) result ≡ any_table self.now name }
    {
        match self.plans.find(name) {
            Some(table) => Some(table),
            None => self.learned.find(name),
        }
    }

    /// Returns the world's atoms as a reply.
    ///
    /// # Errors
    /// `NoMemory` where there is no memory for a copy of them.
    pub(crate) fn tell_facts(&self, alloc: Global) -> Result<Reply, NoMemory>
        ensures told { IfOk result (λ reply. TellsFacts self.now reply self.now) }
    {
        Ok(Reply::FactsAre {
            atoms: Sequence::from_slice(alloc, self.facts.atoms())?,
        })
    }

    /// Records edits for the next run.
    ///
    /// # Errors
    /// `NoMemory` where there is no memory for one disturbance more. Nothing is recorded then.
    pub(crate) fn note(
        &mut self,
        turn: u32,
        between: bool,
        edits: Sequence<Edit>,
    ) -> Result<Reply, NoMemory>
        requires few { length self.old.recorded < u32_max }
        ensures told { IfOk result (λ reply. Notes self.old (recorded_for turn between edits) reply self.new) }
        ensures kept { OnErr result (self.new ≡ self.old) }
    {
        let disturbance = Recorded {
            turn,
            between,
            edits,
        };
        push(&mut self.recorded, disturbance)?;
        Ok(Reply::Noted {
            count: self.recorded.len() as u32,
        })
    }
}

/// Returns the library of the saved tables, in their order.
fn library_of(alloc: Global, saved: Sequence<(u32, Table)>) -> Result<Library, NoMemory>
    requires once { AllPairs (λ one other. one ≢ other) (tables_by_name saved).names }
    requires few { length saved ≤ most_tables }
    ensures { IfOk result (λ library. library ≡ tables_by_name saved) }
{
    let mut library = Library::new(alloc);
    for (name, table) in saved.into_vec() {
        match library.learn(name, table) {
            Ok(()) => {}
            Err(LibErr::NoMemory) => return Err(NoMemory),
            Err(LibErr::Duplicate) => unreachable!(),
            Err(LibErr::Full) => unreachable!(),
        }
    }
    Ok(library)
}
