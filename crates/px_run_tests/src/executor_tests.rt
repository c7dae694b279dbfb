//! A plain executor of one table, beside the runs of a session under all pairs of disturbances.
ghost use Rattle.std.specs.Prelude.{◌<◌};

use crate::runs::ran;
use px_io::NoMemory;
use px_run::Status;
use std::alloc::Global;
use std::fmt::Write;
use std::rt::HostRuntime;

// From P by Q to R.
const PROBLEM: &str = "predicate P 0
predicate Q 0
predicate R 0
operator A
pre P
delete P
add Q
end
operator B
pre Q
delete Q
add R
end
fact P
plan N R
";

const STEPS: [&str; 2] = ["A", "B"];

const EDITS: [&str; 6] = ["+P", "+Q", "+R", "-P", "-Q", "-R"];

/// One of thirty-six disturbances by one edit: for one of three turns, before its sensing or between that and its action.
#[derive(Clone, Copy)]
struct Planned {
    turn: usize,
    between: bool,
    edit: usize,
}

/// Returns the disturbance of that number.
fn planned_by(number: usize) -> Planned {
    Planned {
        turn: number / 12 % 3 + 1,
        between: number / 6 % 2 == 1,
        edit: number % 6,
    }
}

/// Adds the line of the disturbance.
fn push_line(script: &mut String, one: Planned) -> Result<(), NoMemory> {
    let point = if one.between { "between" } else { "before" };
    write!(
        script,
        "disturb {} {point} {}\n",
        one.turn,
        EDITS[one.edit % 6]
    )?;
    Ok(())
}

/// Makes what the disturbance makes at this turn and point.
fn disturb(holds: &mut [bool; 3], one: Planned, turn: usize, between: bool) {
    if one.turn == turn && one.between == between {
        holds[one.edit % 3] = one.edit < 3;
    }
}

/// Returns the step of the highest kernel that is true, where one of the first two is: the first step or the second.
fn step_for(holds: &[bool; 3]) -> usize
    ensures { result < 2 }
{
    if holds[1] { 1 } else { 0 }
}

/// Takes the step where its fact is true, and returns whether it is taken.
fn takes(holds: &mut [bool; 3], step: usize) -> bool
    requires { step < 2 }
{
    let acts = holds[step];
    if acts {
        holds[step] = false;
        holds[step + 1] = true;
    }
    acts
}

/// Adds the lines of the turns that a plain executor takes.
fn push_turns(text: &mut String, first: Planned, second: Planned) -> Result<(), NoMemory> {
    let mut holds = [true, false, false];
    for turn in 1..10usize {
        disturb(&mut holds, first, turn, false);
        disturb(&mut holds, second, turn, false);
        if holds[2] {
            write!(text, "  turn {turn} kernel 3 goal\n")?;
            return Ok(());
        }
        if !holds[0] && !holds[1] {
            write!(text, "  turn {turn} nokernel\n")?;
            return Ok(());
        }
        let step = step_for(&holds);
        disturb(&mut holds, first, turn, true);
        disturb(&mut holds, second, turn, true);
        let end = if takes(&mut holds, step) {
            "acted"
        } else {
            "slipped"
        };
        write!(
            text,
            "  turn {turn} kernel {} {} {end}\n",
            step + 1,
            STEPS[step]
        )?;
    }
    Ok(())
}

/// Returns whether the session takes the turns that a plain executor takes.
fn agrees(alloc: Global, first: Planned, second: Planned) -> Result<bool, NoMemory> {
    let mut script = String::new(alloc);
    script.push_str(PROBLEM)?;
    push_line(&mut script, first)?;
    push_line(&mut script, second)?;
    script.push_str("run N\n")?;
    let mut text = String::new(alloc);
    text.push_str("plan N 2 steps 4 moves\n  1 A\n  2 B\nnoted 1\nnoted 2\nrun N\n")?;
    push_turns(&mut text, first, second)?;
    let (status, written) = ran(alloc, script.into_bytes())?;
    Ok(status == Status::Done && written.as_slice() == text.as_bytes())
}

#[test]
fn a_plain_executor_takes_the_same_turns(rt: HostRuntime) -> Result<(), NoMemory> {
    let alloc = rt.alloc();
    for number in 0..1296usize {
        assert!(&rt; agrees(alloc, planned_by(number / 36), planned_by(number % 36))?);
    }
    Ok(())
}
