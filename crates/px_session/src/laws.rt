//! Laws about the definitions. The calls do nothing.
ghost use Rattle.px_session.specs.Causes.{CausesInOrder, RefusedReplies};
ghost use Rattle.px_session.specs.CertifiedReplies.{CertificatesAreAccepted, TablesStayWritable};
ghost use Rattle.px_session.specs.Determined.{AnswersAreOne, LawfulIsOne, SessionsAreKept, TranscriptsAreOne};
ghost use Rattle.px_session.specs.Existing.{RepliesExist, TranscriptsExist};
ghost use Rattle.px_session.specs.Named.{RepliesAreNamed};
ghost use Rattle.px_session.specs.RoomRuns.{RoomsAreKept};
ghost use Rattle.px_session.specs.Runs.{OneKindRuns};
ghost use Rattle.px_session.specs.ToldDuos.{ToldDuos};
ghost use Rattle.px_session.specs.ToldPursuits.{ToldPursuits};
ghost use Rattle.px_session.specs.ToldRuns.{ToldRuns};
ghost use Rattle.px_session.specs.ToldTrees.{ToldTrees};
ghost use Rattle.px_session.specs.Undisturbed.{UndisturbedRuns};
ghost use Rattle.px_session.specs.WorkedDemo.{WorkedDemoLine};
ghost use Rattle.px_session.specs.WorkedRooms.{WorkedRooms};
ghost use Rattle.px_session.specs.WorkedSession.{WorkedSession};

use crate::run_world::RunWorld;
use px_duo::{duo_traces_exist, duos_stay_ready};
use px_planex::traces_exist;

/// A session's state and a command have at most one lawful reply and leave one state. Where a search met the limit of shapes, one
/// of several questions may be reported, and the text is the same.
pub fn lawful_is_one()
    ensures { LawfulIsOne }
{}

/// The opening state of a script is one of a session, and each lawful reply leaves one, where a goal is one of the valid problem. Of the
/// tables of a session, each proper instance of each kernel carries the steps that are left to the goal; and the world's atoms carry the
/// steps of each plan that a reply prints.
pub fn sessions_are_kept()
    ensures { SessionsAreKept }
{}

/// The tables of a session can be written: those that a script begins with, and after each lawful reply those that its commands ask for.
pub fn tables_stay_writable()
    ensures { TablesStayWritable }
{}

/// The bytes of each certificate that a lawful reply prints are one, of a table for the problem.
pub fn certificates_are_accepted()
    ensures { CertificatesAreAccepted }
{}

/// In a session's state each command has a lawful reply: for a plan it can't be that there is none, nor for a pursuit, for a tree and for
/// editing.
pub fn replies_exist()
    ensures { RepliesExist }
{
    traces_exist::<RunWorld<'_>>();
    duo_traces_exist::<RunWorld<'_>>();
    duos_stay_ready::<RunWorld<'_>>();
}

/// It can't be that bytes which are a script have no transcript.
pub fn transcripts_exist()
    ensures { TranscriptsExist }
{
    traces_exist::<RunWorld<'_>>();
    duo_traces_exist::<RunWorld<'_>>();
    duos_stay_ready::<RunWorld<'_>>();
}

/// Each lawful reply to a command that is built has a name for each number that it prints; and learned tables stay named.
pub fn replies_are_named()
    ensures { RepliesAreNamed }
{}

/// A script with a valid problem, whose opening state is a session's and whose goals are of the problem, has at most one list of lawful
/// replies, apart from questions at limits of shapes, and one text.
pub fn answers_are_one()
    ensures { AnswersAreOne }
{}

/// The bytes of a script determine its transcript, and the two numbers of the demo its line.
pub fn transcripts_are_one()
    ensures { TranscriptsAreOne }
{}

/// Which of some causes of a refusal comes first, and that nothing has changed after a name or a parameter is reported as unknown.
pub fn causes_in_order()
    ensures { CausesInOrder }
{}

/// Small replies that aren't lawful.
pub fn refused_replies()
    ensures { RefusedReplies }
{}

/// A run in which all edits are of atoms, or all of rooms, is a session's run with the same disturbances.
pub fn one_kind_runs()
    ensures { OneKindRuns }
{}

/// A run that a reply prints of a table of `n` steps, with `D` recorded disturbances, has at most `(D + 1) * (n + 1)` turns, and is a
/// trace: its events have the outcomes that its turns say.
pub fn told_runs()
    ensures { ToldRuns }
{}

/// The lines that a reply prints of two executors are one for each number, and a trace: their events have the outcomes that they say.
pub fn told_duos()
    ensures { ToldDuos }
{}

/// A pursuit that a reply prints makes at most `D + 1` searches with `D` recorded disturbances. Each of its runs is a trace of the table of
/// the plan found last, and where it ends at the goal, the goal holds wherever the axioms and the world's atoms do. Where no plan that it
/// finds has more than `n` steps, it has at most `(2 * D + 1) * (n + 1)` turns. It stores and learns nothing.
pub fn told_pursuits()
    ensures { ToldPursuits }
{}

/// A tree that a reply prints has no more nodes than the command says, and each is found from one before it. Where the command says as many
/// nodes as the problem has, the tree ends as the search of a plan for the goal does: solved where that finds a plan, exhausted, with a
/// further node that as many moves lead to, or at the limit of as many shapes.
pub fn told_trees()
    ensures { ToldTrees }
{}

/// Where one of the turns that a reply prints has sensed kernel `i`, at least 1, of a table of `n` steps, and no edit comes after that
/// sensing, the last turn is at the goal, and at most `n + 1 - i` turns come after that one.
pub fn undisturbed_runs()
    ensures { UndisturbedRuns }
{}

/// A script with a building begins in the building's first state, and each lawful reply leaves a state of it, whose facts are the
/// world's atoms: a run and a pursuit what their turns leave, edit by edit and step by step, two executors what their steps leave, and any
/// other command the state as it was.
pub fn rooms_are_kept()
    ensures { RoomsAreKept }
{}

/// A small script with thirteen commands: its lawful replies, and their text.
pub fn worked_session()
    ensures { WorkedSession }
{}

/// The line of the demo for five replies.
pub fn worked_demo()
    ensures { WorkedDemoLine }
{}

/// The turns of a run in which someone closes the door that the robot has opened: the states of the building that they leave.
pub fn worked_rooms()
    ensures { WorkedRooms }
{}
