//! The texts of tables, row by row.
ghost use Rattle.std.specs.Prelude.{◌≡◌, ◌∷◌, [], ◌++◌, All, OnOk, codes, length, map, string_bytes};
ghost use Rattle.std.specs.Fmt.{decimal};
ghost use Rattle.px_table.specs.declared.mark.Mark.{Mark};
ghost use Rattle.px_printer.specs.Rows.{IsNamedTable, goal_line, goal_row, mark_line, mark_lines, row_lines};
ghost use Rattle.px_printer.specs.declared.spelling.Spelling.TheVariants.{InRows};
ghost use Rattle.px_printer.specs.Texts.{IsNamedAtom, IsNamedInstance, after_spaces, atom_text, instance_text, text_line};

use crate::shown::{ShownAtom, ShownInstance};
use crate::spelling::Spelling;
use px_names::Names;
use px_table::{Mark, Table};
use px_terms::{Atom, OpInst};
use std::alloc::AllocError;
use std::fmt::Write;

// Alike: `push_tried` of `turn_text`, since each text of several values is appended by a function of its own.
/// Appends the line of a table, then its rows.
pub(crate) fn push_table(
    text: &mut String,
    name: &str,
    table: &Table,
    names: &Names,
) -> Result<(), AllocError>
    requires { IsNamedTable names.now table.now }
    ensures { OnOk result (string_bytes text.new ≡ string_bytes text.old
        ++ (text_line (codes "table" ∷ name.now ∷ decimal table.now.params ∷ codes "parameters" ∷ decimal (length table.now.steps)
        ∷ codes "steps" ∷ []) ++ row_lines names.now table.now)) }
{
    push_table_line(text, "table", name, table.params, table.steps.len() as u64)?;
    push_rows(text, table, names)
}

/// Appends a word, the name of a table, and the numbers of its parameters and steps.
pub(crate) fn push_table_line(
    text: &mut String,
    word: &str,
    name: &str,
    params: u32,
    steps: u64,
) -> Result<(), AllocError>
    ensures { OnOk result (string_bytes text.new ≡ string_bytes text.old
        ++ text_line (word.now ∷ name.now ∷ decimal params ∷ codes "parameters" ∷ decimal steps ∷ codes "steps" ∷ [])) }
{
    write!(text, "{word} {name} {params} parameters {steps} steps\n")
}

/// Appends the rows of a table, the goal's last.
fn push_rows(text: &mut String, table: &Table, names: &Names) -> Result<(), AllocError>
    requires { IsNamedTable names.now table.now }
    ensures { OnOk result (string_bytes text.new ≡ string_bytes text.old ++ row_lines names.now table.now) }
{
    for (index, step) in table.steps.as_slice().iter().enumerate() {
        push_step_row(text, index + 1, step, table, names)?;
    }
    push_goal_row(text, table, names)
}

/// Appends the row of a step: the step, then its marks.
fn push_step_row(
    text: &mut String,
    row: usize,
    step: &OpInst,
    table: &Table,
    names: &Names,
) -> Result<(), AllocError>
    requires step { IsNamedInstance names.now step.now }
    requires marks { All (λ (mark : Mark). IsNamedAtom names.now mark.atom) table.now.marks }
    ensures { OnOk result (string_bytes text.new ≡ string_bytes text.old
        ++ (text_line (codes "row" ∷ decimal row ∷ instance_text names.now (InRows table.now.params) step.now ∷ [])
        ++ mark_lines names.now table.now.params table.now.marks row)) }
{
    let step = ShownInstance {
        inst: step,
        names,
        spelling: Spelling::InRows(table.params),
    };
    write!(text, "row {row} {step}\n")?;
    push_marks(text, row, table, names)
}

/// Appends the row of the goal: its atoms, then its marks.
fn push_goal_row(text: &mut String, table: &Table, names: &Names) -> Result<(), AllocError>
    requires { IsNamedTable names.now table.now }
    ensures { OnOk result (string_bytes text.new ≡ string_bytes text.old ++ goal_row names.now table.now) }
{
    let row = table.steps.as_slice().len() + 1;
    push_goal_line(text, row, table.goal.as_slice(), table.params, names)?;
    push_marks(text, row, table, names)
}

/// Appends the line of the goal's row: its atoms, each after a space.
fn push_goal_line(
    text: &mut String,
    row: usize,
    goal: &[Atom],
    params: u32,
    names: &Names,
) -> Result<(), AllocError>
    requires { All (IsNamedAtom names.now) goal.now }
    ensures { OnOk result (string_bytes text.new ≡ string_bytes text.old ++ goal_line names.now params row goal.now) }
{
    write!(text, "row {row} goal")?;
    push_after_spaces(text, goal, Spelling::InRows(params), names)?;
    write!(text, "\n")
}

/// Appends atoms, each after a space.
pub(crate) fn push_after_spaces(
    text: &mut String,
    atoms: &[Atom],
    spelling: Spelling,
    names: &Names,
) -> Result<(), AllocError>
    requires { All (IsNamedAtom names.now) atoms.now }
    ensures { OnOk result (string_bytes text.new ≡ string_bytes text.old ++ after_spaces (map (atom_text names.now spelling) atoms.now)) }
{
    for atom in atoms {
        let atom = ShownAtom {
            atom,
            names,
            spelling,
        };
        write!(text, " {atom}")?;
    }
    Ok(())
}

/// Appends a line for each mark of a row.
fn push_marks(text: &mut String, row: usize, table: &Table, names: &Names) -> Result<(), AllocError>
    requires { All (λ (mark : Mark). IsNamedAtom names.now mark.atom) table.now.marks }
    ensures { OnOk result (string_bytes text.new ≡ string_bytes text.old ++ mark_lines names.now table.now.params table.now.marks row) }
{
    for mark in table.marks.as_slice() {
        if mark.row as usize == row {
            push_mark(text, mark, table.params, names)?;
        }
    }
    Ok(())
}

/// Appends the line of a mark.
fn push_mark(text: &mut String, mark: &Mark, params: u32, names: &Names) -> Result<(), AllocError>
    requires { IsNamedAtom names.now mark.now.atom }
    ensures { OnOk result (string_bytes text.new ≡ string_bytes text.old ++ mark_line names.now params mark.now) }
{
    let column = mark.column;
    let atom = ShownAtom {
        atom: &mark.atom,
        names,
        spelling: Spelling::InRows(params),
    };
    write!(text, "  {column} {atom}\n")
}
