//! The demo: its script is made, answered and summed up.
ghost use Rattle.std.specs.Prelude.{◌≡◌, ◌≤◌, IfOk, ◌∷◌, [], codes};
ghost use Rattle.std.specs.Fmt.{decimal};
ghost use Rattle.px_demo.specs.Limits.{least_rooms, most_rooms, most_seed};
ghost use Rattle.px_printer.specs.Texts.{text_line};
ghost use Rattle.px_script.specs.ReadScripts.{content};
ghost use Rattle.px_script.specs.Ranges.{IsOfStage};
ghost use Rattle.px_script.specs.Stages.{stage_now};
ghost use Rattle.px_session.specs.Opened.{opened_session};
ghost use Rattle.px_run.specs.Outcomes.{sink_ends, DemoRight, SumRight};
ghost use Rattle.px_run.specs.Sums.{IsSumOf};

use crate::counts::{Counts, counted};
use crate::status::Status;
use px_demo::demo_script;
use px_io::{Sink, put};
use px_reader::{ScriptErr, read_script};
use px_script::Script;
use px_session::Session;
use px_terms::NoMemory;
use std::alloc::Global;
use std::fmt::Write;

/// Makes the demo's script, answers its commands and writes the line that sums up the replies.
pub(crate) fn demo<K: Sink>(alloc: Global, rooms: u32, seed: u32, sink: &mut K) -> Status
    requires rooms { (least_rooms ≤ rooms) × (rooms ≤ most_rooms) }
    requires seed { seed ≤ most_seed }
    ensures right { DemoRight rooms seed (sink_ends K.written K.faults K.sure sink.old sink.new) result }
    ensures nature { K.sure sink.new ≡ K.sure sink.old }
{
    let Ok(bytes) = demo_script(alloc, rooms, seed) else {
        return Status::NoMemory;
    };
    match read_script(alloc, &bytes) {
        Ok(script) => sum_up(alloc, script, rooms, seed, sink),
        // the bytes are a script: a law of px_demo_script
        Err(ScriptErr::Refused(_)) => unreachable!(),
        Err(ScriptErr::NoMemory) => Status::NoMemory,
    }
}

/// Answers the commands of the script, and writes the line that sums up the replies.
fn sum_up<K: Sink>(alloc: Global, script: Script, rooms: u32, seed: u32, sink: &mut K) -> Status
    requires stage { IsOfStage stage_now (content script) }
    ensures right { SumRight rooms seed (opened_session (content script)) (sink_ends K.written K.faults K.sure sink.old sink.new) result }
    ensures nature { K.sure sink.new ≡ K.sure sink.old }
{
    let Ok(text) = summary(alloc, script, rooms, seed) else {
        return Status::NoMemory;
    };
    match put(sink, &text) {
        Ok(()) => Status::Done,
        Err(_) => Status::WriteFault,
    }
}

/// Returns the line that sums up the replies to the commands of the script.
fn summary(alloc: Global, script: Script, rooms: u32, seed: u32) -> Result<Vec<u8>, NoMemory>
    requires stage { IsOfStage stage_now (content script) }
    ensures { IfOk result (λ text. IsSumOf rooms seed (opened_session (content script)) text.items) }
{
    match Session::new(alloc, script) {
        Ok(mut session) => {
            let text = session_summary(alloc, &mut session, rooms, seed);
            // by a call, which is proved once: where a scope ends, the proof takes each part by itself
            drop(session);
            text
        }
        Err(NoMemory) => Err(NoMemory),
    }
}

/// Returns the line that sums up the replies to the commands of a session of which none is done.
#[tactic(auto, using(crate::proofs::DemoLemmas::summed))]
fn session_summary(
    alloc: Global,
    session: &mut Session,
    rooms: u32,
    seed: u32,
) -> Result<Vec<u8>, NoMemory>
    requires start { session.old.done ≡ 0 }
    ensures { IfOk result (λ text. IsSumOf rooms seed session.old text.items) }
{
    let commands = session.count();
    let counts = counted(session)?;
    summary_line(alloc, rooms, seed, commands, &counts)
}

/// Returns the line of a demo with this number of commands and these counts.
fn summary_line(
    alloc: Global,
    rooms: u32,
    seed: u32,
    commands: usize,
    counts: &Counts,
) -> Result<Vec<u8>, NoMemory>
    ensures { IfOk result (λ text. text.items ≡ text_line (codes "demo" ∷ decimal rooms ∷ decimal seed ∷ decimal commands ∷ codes "commands"
        ∷ decimal counts.now.plans ∷ codes "plans" ∷ decimal counts.now.steps ∷ codes "steps" ∷ decimal counts.now.goals ∷ codes "goals"
        ∷ [])) }
{
    let Counts {
        plans,
        steps,
        goals,
    } = *counts;
    let mut text = String::new(alloc);
    write!(
        text,
        "demo {rooms} {seed} {commands} commands {plans} plans {steps} steps {goals} goals\n"
    )?;
    Ok(text.into_bytes())
}
