//! What is counted of replies.
ghost use Rattle.std.specs.Prelude.{◌≡◌, ◌+◌, ◌<◌, IfOk, cond, length};
ghost use Rattle.px_session.specs.Demo.{ends_in_goal, is_goal, is_plan, reaches_goal, step_count};
ghost use Rattle.px_run.specs.Answers.{IsAnswerCount};
ghost use Rattle.px_run.specs.Sums.{IsCounted};

use crate::running::lawful_reply;
use px_printer::{Reply, Turn, TurnEnd};
use px_session::Session;
use px_terms::NoMemory;

/// What is counted of the replies to a demo's commands.
#[derive(Clone, Copy, Debug, PartialEq, Eq)]
pub(crate) struct Counts {
    /// The plans that were found.
    pub plans: u64,
    /// Their steps.
    pub steps: u64,
    /// The runs that ended at their goal.
    pub goals: u64,
}

/// Returns the counts with those of one reply more. `NoMemory` where a count doesn't fit its type, which never happens: a demo has at most
/// 36 commands, and no reply in memory has that many steps.
fn with_reply(counts: Counts, reply: &Reply) -> Result<Counts, NoMemory>
    ensures plans { IfOk result (λ more. more.plans ≡ counts.plans + cond (is_plan reply.now) 1 0) }
    ensures steps { IfOk result (λ more. more.steps ≡ counts.steps + step_count reply.now) }
    ensures goals { IfOk result (λ more. more.goals ≡ counts.goals + cond (reaches_goal reply.now) 1 0) }
{
    match reply {
        Reply::Plan { steps, .. } => with_plan(counts, steps.as_slice().len()),
        Reply::Ran { turns, .. } if ends_in_goal(turns.as_slice()) => with_goal(counts),
        _ => Ok(counts),
    }
}

/// Returns the counts with those of a plan of `count` steps.
fn with_plan(counts: Counts, count: usize) -> Result<Counts, NoMemory>
    ensures plans { IfOk result (λ more. more.plans ≡ counts.plans + 1) }
    ensures steps { IfOk result (λ more. more.steps ≡ counts.steps + count) }
    ensures goals { IfOk result (λ more. more.goals ≡ counts.goals) }
{
    let plans = sum(counts.plans, 1)?;
    let steps = sum(counts.steps, count as u64)?;
    Ok(Counts {
        plans,
        steps,
        ..counts
    })
}

/// Returns the counts with one goal more.
fn with_goal(counts: Counts) -> Result<Counts, NoMemory>
    ensures plans { IfOk result (λ more. more.plans ≡ counts.plans) }
    ensures steps { IfOk result (λ more. more.steps ≡ counts.steps) }
    ensures goals { IfOk result (λ more. more.goals ≡ counts.goals + 1) }
{
    let goals = sum(counts.goals, 1)?;
    Ok(Counts { goals, ..counts })
}

/// Returns the sum, where it fits.
fn sum(one: u64, other: u64) -> Result<u64, NoMemory>
    ensures { IfOk result (λ sum. sum ≡ one + other) }
{
    match one.checked_add(other) {
        Some(sum) => Ok(sum),
        None => Err(NoMemory),
    }
}

/// Returns whether the last turn ends at the goal.
#[tactic(auto, using(crate::proofs::CountLemmas::ends_in_last, crate::proofs::CountLemmas::ends_in_none))]
fn ends_in_goal(turns: &[Turn]) -> bool
    ensures { result ≡ ends_in_goal turns.now }
{
    match turns.last() {
        Some(turn) => is_goal(turn.end),
        None => false,
    }
}

/// Returns whether the end is the goal.
fn is_goal(end: TurnEnd) -> bool
    ensures { result ≡ is_goal end }
{
    matches!(end, TurnEnd::Goal)
}

/// Answers the command at the place, the next one, and returns the counts with those of a lawful reply.
fn count_answer(session: &mut Session, place: usize, counts: Counts) -> Result<Counts, NoMemory>
    requires place { place < length session.old.commands }
    requires next { place ≡ session.old.done }
    ensures { IfOk result (IsAnswerCount session.old session.new counts) }
{
    let reply = lawful_reply(session, place)?;
    let more = with_reply(counts, &reply);
    // by a call, which is proved once: where a scope ends, the proof takes each part by itself
    drop(reply);
    more
}

/// Answers all commands of a session of which none is done, and counts the replies.
pub(crate) fn counted(session: &mut Session) -> Result<Counts, NoMemory>
    requires start { session.old.done ≡ 0 }
    ensures { IfOk result (IsCounted session.old) }
{
    let mut counts = Counts {
        plans: 0,
        steps: 0,
        goals: 0,
    };
    for place in 0..session.count() {
        counts = count_answer(session, place, counts)?;
    }
    Ok(counts)
}
