//! The texts of runs and pursuits, turn by turn.
ghost use Rattle.std.specs.Prelude.{◌≡◌, ◌∷◌, [], ◌++◌, All, OnOk, codes, string_bytes};
ghost use Rattle.std.specs.Fmt.{decimal};
ghost use Rattle.px_printer.specs.PursuitEnds.{pursue_end_text};
ghost use Rattle.px_printer.specs.Texts.{indented_line, text_line};
ghost use Rattle.px_printer.specs.Turns.{IsNamedTurn, step_words, turn_line, turn_lines};

use crate::pursue_end::PursueEnd;
use crate::shown::ShownInstance;
use crate::spelling::Spelling;
use crate::turn::{Turn, TurnEnd};
use px_names::Names;
use std::alloc::AllocError;
use std::fmt::Write;

/// Appends the line of a pursuit, then a line for each turn, and where the goal isn't reached one on the last search.
pub(crate) fn push_pursuit(
    text: &mut String,
    name: &str,
    searches: u32,
    turns: &[Turn],
    end: &PursueEnd,
    names: &Names,
) -> Result<(), AllocError>
    requires { All (IsNamedTurn names.now) turns.now }
    ensures { OnOk result (string_bytes text.new ≡ string_bytes text.old
        ++ (text_line (codes "pursue" ∷ name.now ∷ decimal searches ∷ codes "searches" ∷ [])
        ++ (turn_lines names.now 1 turns.now ++ pursue_end_text end.now))) }
{
    write!(text, "pursue {name} {searches} searches\n")?;
    push_turns(text, turns, names)?;
    push_pursue_end(text, end)
}

/// Appends the line of how the last search of a pursuit ended, where it found no plan.
fn push_pursue_end(text: &mut String, end: &PursueEnd) -> Result<(), AllocError>
    ensures { OnOk result (string_bytes text.new ≡ string_bytes text.old ++ pursue_end_text end.now) }
{
    match end {
        PursueEnd::Goal => Ok(()),
        PursueEnd::Exhausted => write!(text, "  exhausted\n"),
        PursueEnd::NodeLimit { nodes, moves } => push_node_limit(text, nodes.count(), *moves),
        PursueEnd::ShapeLimit { limit, .. } => {
            let count = limit.shapes.len();
            write!(text, "  shapelimit {count} shapes\n")
        }
    }
}

/// Appends the line of a search that kept as many nodes as it may.
fn push_node_limit(text: &mut String, count: usize, moves: u32) -> Result<(), AllocError>
    ensures { OnOk result (string_bytes text.new ≡ string_bytes text.old
        ++ indented_line (codes "nodelimit" ∷ decimal count ∷ codes "nodes" ∷ decimal moves ∷ codes "moves" ∷ [])) }
{
    write!(text, "  nodelimit {count} nodes {moves} moves\n")
}

/// Appends a line for each turn, numbered from 1.
pub(crate) fn push_turns(text: &mut String, turns: &[Turn], names: &Names) -> Result<(), AllocError>
    requires { All (IsNamedTurn names.now) turns.now }
    ensures { OnOk result (string_bytes text.new ≡ string_bytes text.old ++ turn_lines names.now 1 turns.now) }
{
    for (index, turn) in turns.iter().enumerate() {
        push_turn(text, index + 1, turn, names)?;
    }
    Ok(())
}

/// Appends the line of a turn.
fn push_turn(text: &mut String, number: usize, turn: &Turn, names: &Names) -> Result<(), AllocError>
    requires { IsNamedTurn names.now turn.now }
    ensures { OnOk result (string_bytes text.new ≡ string_bytes text.old ++ turn_line names.now number turn.now) }
{
    let kernel = turn.kernel;
    match turn.end {
        TurnEnd::Acted => push_tried(text, number, turn, "acted", names),
        TurnEnd::Slipped => push_tried(text, number, turn, "slipped", names),
        TurnEnd::Goal => write!(text, "  turn {number} kernel {kernel} goal\n"),
        TurnEnd::NoKernel => write!(text, "  turn {number} nokernel\n"),
    }
}

/// Appends the line of a turn in which a step was tried.
fn push_tried(
    text: &mut String,
    number: usize,
    turn: &Turn,
    end: &str,
    names: &Names,
) -> Result<(), AllocError>
    requires { IsNamedTurn names.now turn.now }
    ensures { OnOk result (string_bytes text.new ≡ string_bytes text.old
        ++ indented_line (codes "turn" ∷ decimal number ∷ codes "kernel" ∷ decimal turn.now.kernel
        ∷ (step_words names.now turn.now.op ++ end.now ∷ []))) }
{
    let kernel = turn.kernel;
    match &turn.op {
        Some(step) => {
            let step = ShownInstance {
                inst: step,
                names,
                spelling: Spelling::InRows(0),
            };
            write!(text, "  turn {number} kernel {kernel} {step} {end}\n")
        }
        None => write!(text, "  turn {number} kernel {kernel} {end}\n"),
    }
}
