//! A session: the commands of a script, and the state that those which are done have left.
ghost use Rattle.std.specs.Prelude.{◌≡◌, ◌+◌, ◌<◌, All, IfOk, IfSome, OnOk, OnErr, length, slice_index_or};
ghost use Rattle.std.specs.Option.{option_map};
ghost use Rattle.px_base.specs.Bounds.{u32_max};
ghost use Rattle.px_printer.specs.Replies.{IsReplyNamed};
ghost use Rattle.px_script.specs.ReadScripts.{content};
ghost use Rattle.px_script.specs.declared.command.Command.TheVariants.{Facts};
ghost use Rattle.px_rooms.specs.States.{IsBuilding, first_state};
ghost use Rattle.px_table.specs.Kernels.{KernelsCarry};
ghost use Rattle.px_names.specs.Lists.{AreNameLists};
ghost use Rattle.px_saved.specs.ReadBack.{ReplyIsReadBack};
ghost use Rattle.px_session.specs.CertifiedReplies.{ReplyIsAccepted};
ghost use Rattle.px_session.specs.Lawful.{Lawful};
ghost use Rattle.px_session.specs.Opened.{opened_session, tables_of};

use crate::commands::run_command;
use crate::state::State;
use px_base::{NoMemory, Sequence};
use px_names::{Kind, Names};
use px_ops::Model;
use px_printer::Reply;
use px_rooms::{Building, RoomErr, RoomWorld};
use px_script::{Command, Script};
use px_terms::Problem;
use std::alloc::Global;

/// What a script asks, and how much of it is answered.
#[derive(Drop)]
pub struct Session {
    alloc: Global,
    problem: Problem,
    names: Names,
    commands: Sequence<Command>,
    done: usize,
    state: State,
    building: Option<RoomWorld>,
}

impl std::marker::Model for Session {
    ghost use Rattle.std.specs.Coded.{codes};
    ghost use Rattle.px_proof.specs.contracts.proof.Proof as term;
    ghost use Rattle.px_session.specs.KeptSessions.{IsKeptSession};
    ghost use Rattle.px_session.specs.Opened.{SessionValue};

    ghost Value = { SessionValue };

    ghost coded = { Prim.hlevel (codes, term.the_row.coded) };

    ghost view = { λ s. record {
      problem = s.problem;
      names = s.names;
      commands = s.commands;
      done = s.done;
      state = s.state;
    } };

    ghost invariant = { λ s. IsKeptSession s.building (record {
      problem = s.problem;
      names = s.names;
      commands = s.commands;
      done = s.done;
      state = s.state;
    }) };
}

impl Session {
    /// Returns the session before the first command of the script.
    ///
    /// # Errors
    /// `NoMemory` where there is no memory for it.
    pub fn new(alloc: Global, script: Script) -> Result<Session, NoMemory>
        ensures opened { IfOk result (λ session. session ≡ opened_session (content script)) }
    {
        are_names(&script.names);
        let building = world_of(alloc, &script.building)?;
        let state = State::opening(alloc, script.facts, script.tables)?;
        Ok(Session {
            alloc,
            problem: script.problem,
            names: script.names,
            commands: script.commands,
            done: 0,
            state,
            building,
        })
    }

    /// Returns how many commands the script has. Does not allocate.
    pub fn count(&self) -> usize
        ensures { result ≡ length self.now.commands }
    {
        self.commands.as_slice().len()
    }

    /// Returns the script's names. Does not allocate.
    pub fn names(&self) -> &Names
        ensures { result.now ≡ self.now.names }
    {
        &self.names
    }

    /// Returns how many commands are done. Does not allocate.
    pub fn done(&self) -> usize
        ensures { result ≡ self.now.done }
    {
        self.done
    }

    /// Returns the world's atoms. Does not allocate.
    pub fn facts(&self) -> &Model
        ensures { result.now.atoms ≡ self.now.state.atoms }
    {
        &self.state.facts
    }

    /// Answers command `k`, the next one.
    ///
    /// # Errors
    /// `NoMemory` where there is no memory for the answer. The session is then as it was.
    pub fn execute(&mut self, k: usize) -> Result<Reply, NoMemory>
        requires below { k < length self.old.commands }
        requires next { k ≡ self.old.done }
        ensures lawful { IfOk result (λ reply. Lawful self.old.problem self.old.state
            (slice_index_or self.old.commands k Facts) reply self.new.state) }
        ensures frame { OnOk result (self.new ≡ record self.old { done = k + 1; state = self.new.state }) }
        ensures kept { OnErr result (self.new ≡ self.old) }
        ensures named { IfOk result (IsReplyNamed self.old.names) }
        ensures certified { IfOk result (ReplyIsAccepted self.old.problem self.old.state) }
        ensures read_back { IfOk result (ReplyIsReadBack self.old.problem self.old.names) }
        ensures kernels { OnOk result (All (KernelsCarry self.new.problem) (tables_of self.new.state)) }
    {
        let command = &self.commands.as_slice()[k];
        let reply = run_command(
            self.alloc,
            &self.problem,
            command,
            &mut self.state,
            &mut self.building,
        )?;
        self.done += 1;
        Ok(reply)
    }
}

/// Does nothing but what each call of `Names` tells: that the texts of each kind are distinct names in UTF-8.
fn are_names(names: &Names)
    ensures { AreNameLists names.now }
{
    names.count(Kind::Object);
    names.count(Kind::Predicate);
    names.count(Kind::Operator);
    names.count(Kind::Result);
}

/// Returns the world of a building as it stands at first, if there is a building.
fn world_of(alloc: Global, building: &Option<Building>) -> Result<Option<RoomWorld>, NoMemory>
    requires buildings { IfSome building.now (λ building. IsBuilding building.things) }
    requires short { IfSome building.now (λ building. length building.things < u32_max) }
    ensures { IfOk result (λ world. world ≡ option_map (λ building. first_state building.things) building.now) }
{
    let Some(building) = building else {
        return Ok(None);
    };
    match RoomWorld::new(alloc, building) {
        Ok(world) => Ok(Some(world)),
        Err(RoomErr::NoMemory) => Err(NoMemory),
        Err(RoomErr::NoSuchThing) => unreachable!(),
    }
}
