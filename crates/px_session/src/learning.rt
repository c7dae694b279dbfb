//! Learning and editing in a session.
ghost use Rattle.std.specs.Prelude.{◌≡◌, ◌<◌, ◌≤◌, Contains, IfOk, OnErr, length};
ghost use Rattle.px_base.specs.Bounds.{u32_max};
ghost use Rattle.px_terms.specs.Validity.{IsValid};
ghost use Rattle.px_table.specs.Limits.{most_steps, most_tables};
ghost use Rattle.px_session.specs.Learning.{IsPut, IsPutAsEdited, IsPutAsLearned};
ghost use Rattle.px_session.specs.Lawful.{TellsEditing, TellsLearning};
ghost use Rattle.px_session.specs.Sessions.{IsSession};

use crate::state::State;
use px_base::NoMemory;
use px_edit::{EditErr, edit};
use px_general::{GeneralErr, generalise};
use px_library::{LibErr, Library};
use px_printer::{EditWhy, Reply, Why};
use px_table::Table;
use px_terms::Problem;
use std::alloc::Global;

/// Puts a table into the library under a new name, and returns whether there was room for it.
///
/// # Errors
/// `NoMemory` where there is no memory for one table more. The library is then as it was.
fn put_into(library: &mut Library, name: u32, table: Table) -> Result<bool, NoMemory>
    requires new_name { ¬ Contains library.old.names name }
    requires few { length library.old.tables ≤ most_tables }
    ensures put { IfOk result (λ is_put. IsPut library.old name table is_put library.new) }
    ensures kept { OnErr result (library.new ≡ library.old) }
{
    match library.learn(name, table) {
        Ok(()) => Ok(true),
        Err(LibErr::Full) => Ok(false),
        Err(LibErr::Duplicate) => unreachable!(),
        Err(LibErr::NoMemory) => Err(NoMemory),
    }
}

/// Puts a plan's general table into the library under a new name, and returns the reply to learning.
///
/// # Errors
/// `NoMemory` where there is no memory for one table more. The library is then as it was.
fn put_learned(library: &mut Library, name: u32, general: Table) -> Result<Reply, NoMemory>
    requires new_name { ¬ Contains library.old.names name }
    requires few { length library.old.tables ≤ most_tables }
    requires short { length general.steps ≤ most_steps }
    ensures put { IfOk result (λ reply. IsPutAsLearned library.old name general reply library.new) }
    ensures kept { OnErr result (library.new ≡ library.old) }
{
    let params = general.params;
    let steps = general.steps.len() as u32;
    match put_into(library, name, general)? {
        true => Ok(Reply::Learned {
            name,
            params,
            steps,
        }),
        false => Ok(Reply::LearnRefused {
            name,
            why: Why::Full,
        }),
    }
}

/// Puts an edited table into the library under a new name, and returns the reply to editing.
///
/// # Errors
/// `NoMemory` where there is no memory for one table more. The library is then as it was.
fn put_edited(library: &mut Library, name: u32, edited: Table) -> Result<Reply, NoMemory>
    requires new_name { ¬ Contains library.old.names name }
    requires few { length library.old.tables ≤ most_tables }
    requires short { length edited.steps ≤ most_steps }
    ensures put { IfOk result (λ reply. IsPutAsEdited library.old name edited reply library.new) }
    ensures kept { OnErr result (library.new ≡ library.old) }
{
    let params = edited.params;
    let steps = edited.steps.len() as u32;
    match put_into(library, name, edited)? {
        true => Ok(Reply::Edited {
            name,
            params,
            steps,
        }),
        false => Ok(Reply::EditRefused {
            name,
            why: EditWhy::Full,
        }),
    }
}

impl State {
    /// Learns the general table of the plan of the second name, under the first name.
    ///
    /// # Errors
    /// `NoMemory` where there is no memory to generalise the plan or to store its table. Nothing is learned then.
    pub(crate) fn learn(
        &mut self,
        alloc: Global,
        problem: &Problem,
        name: u32,
        source: u32,
    ) -> Result<Reply, NoMemory>
        requires problem { IsValid problem.now }
        requires session { IsSession problem.now self.old }
        requires new_name { ¬ Contains self.old.learned.names name }
        ensures told { IfOk result (λ reply. TellsLearning problem.now self.old name source reply self.new) }
        ensures kept { OnErr result (self.new ≡ self.old) }
    {
        let Some(plan) = self.plans.find(source) else {
            return Ok(Reply::Unknown { name: source });
        };
        match generalise(alloc, problem, plan) {
            Ok(general) => {
                let reply = put_learned(&mut self.learned, name, general)?;
                Ok(reply)
            }
            Err(GeneralErr::TooLong) => Ok(Reply::LearnRefused {
                name,
                why: Why::TooLong,
            }),
            Err(GeneralErr::TooDeep) => Ok(Reply::LearnRefused {
                name,
                why: Why::TooDeep,
            }),
            Err(GeneralErr::TooWide) => Ok(Reply::LearnRefused {
                name,
                why: Why::TooWide,
            }),
            Err(GeneralErr::NoMemory) => Err(NoMemory),
        }
    }

    /// Edits the table of the second name, and puts the edited one among the learned tables under the first name.
    ///
    /// # Errors
    /// `NoMemory` where there is no memory to edit the table or to store the edited one. Nothing is stored then.
    pub(crate) fn edit(
        &mut self,
        alloc: Global,
        problem: &Problem,
        name: u32,
        source: u32,
        prefix: u32,
        wanted: &[(u32, u32)],
    ) -> Result<Reply, NoMemory>
        requires problem { IsValid problem.now }
        requires session { IsSession problem.now self.old }
        requires new_name { ¬ Contains self.old.learned.names name }
        requires some { 0 < length wanted.now }
        requires few { length wanted.now < u32_max }
        ensures told { IfOk result (λ reply. TellsEditing problem.now self.old name source prefix wanted.now reply self.new) }
        ensures kept { OnErr result (self.new ≡ self.old) }
    {
        let Some(table) = self.table(source) else {
            return Ok(Reply::Unknown { name: source });
        };
        match edit(alloc, problem, table, prefix, wanted) {
            Ok(edited) => {
                let reply = put_edited(&mut self.learned, name, edited)?;
                Ok(reply)
            }
            Err(EditErr::BadPrefix) => Ok(Reply::EditRefused {
                name,
                why: EditWhy::Prefix,
            }),
            Err(EditErr::BadWant(_)) => Ok(Reply::EditRefused {
                name,
                why: EditWhy::Want,
            }),
            Err(EditErr::TooLong) => Ok(Reply::EditRefused {
                name,
                why: EditWhy::TooLong,
            }),
            Err(EditErr::TooDeep) => Ok(Reply::EditRefused {
                name,
                why: EditWhy::TooDeep,
            }),
            Err(EditErr::NoMemory) => Err(NoMemory),
        }
    }
}
