//! The texts of two executors, line by line.
ghost use Rattle.std.specs.Prelude.{◌≡◌, ◌∷◌, [], ◌++◌, All, OnOk, codes, string_bytes};
ghost use Rattle.std.specs.Fmt.{decimal};
ghost use Rattle.std.specs.List.{flat_map};
ghost use Rattle.px_names.specs.declared.kind.Kind.TheVariants as kind;
ghost use Rattle.px_printer.specs.DuoLines.{IsNamedDuoLine, duo_line};
ghost use Rattle.px_printer.specs.Texts.{HasName, indented_line, name_text, text_line};
ghost use Rattle.px_printer.specs.Turns.{IsNamedStep, step_words};

use crate::duo_line::{DuoEnd, DuoLine};
use crate::shown::ShownInstance;
use crate::spelling::Spelling;
use px_names::{Kind, Names};
use px_terms::OpInst;
use std::alloc::AllocError;
use std::fmt::Write;

/// Appends the line of two tables, then a line for each of these.
pub(crate) fn push_duo(
    text: &mut String,
    first: u32,
    second: u32,
    lines: &[DuoLine],
    names: &Names,
) -> Result<(), AllocError>
    requires first { HasName names.now kind.Result first }
    requires second { HasName names.now kind.Result second }
    requires lines { All (IsNamedDuoLine names.now) lines.now }
    ensures { OnOk result (string_bytes text.new ≡ string_bytes text.old
        ++ (text_line (codes "duo" ∷ name_text names.now kind.Result first ∷ name_text names.now kind.Result second ∷ [])
        ++ flat_map (duo_line names.now) lines.now)) }
{
    let (first, second) = (
        names.text(Kind::Result, first),
        names.text(Kind::Result, second),
    );
    write!(text, "duo {first} {second}\n")?;
    push_lines(text, lines, names)
}

/// Appends a line for each.
fn push_lines(text: &mut String, lines: &[DuoLine], names: &Names) -> Result<(), AllocError>
    requires { All (IsNamedDuoLine names.now) lines.now }
    ensures { OnOk result (string_bytes text.new ≡ string_bytes text.old ++ flat_map (duo_line names.now) lines.now) }
{
    for line in lines {
        push_line(text, line, names)?;
    }
    Ok(())
}

/// Appends the line of what one executor did.
fn push_line(text: &mut String, line: &DuoLine, names: &Names) -> Result<(), AllocError>
    requires { IsNamedDuoLine names.now line.now }
    ensures { OnOk result (string_bytes text.new ≡ string_bytes text.old ++ duo_line names.now line.now) }
{
    let who = line.who;
    match line.end {
        DuoEnd::Sensed(kernel) => push_sensed(text, who, kernel, &line.op, names),
        DuoEnd::Acted => write!(text, "  {who} acted\n"),
        DuoEnd::Slipped => write!(text, "  {who} slipped\n"),
        DuoEnd::Goal => write!(text, "  {who} goal\n"),
        DuoEnd::NoKernel => write!(text, "  {who} nokernel\n"),
    }
}

/// Appends the line of a kernel that was sensed.
fn push_sensed(
    text: &mut String,
    who: u32,
    kernel: u32,
    step: &Option<OpInst>,
    names: &Names,
) -> Result<(), AllocError>
    requires { IsNamedStep names.now step.now }
    ensures { OnOk result (string_bytes text.new ≡ string_bytes text.old
        ++ indented_line (decimal who ∷ codes "kernel" ∷ decimal kernel ∷ step_words names.now step.now)) }
{
    match step {
        Some(step) => {
            let step = ShownInstance {
                inst: step,
                names,
                spelling: Spelling::InRows(0),
            };
            write!(text, "  {who} kernel {kernel} {step}\n")
        }
        None => write!(text, "  {who} kernel {kernel}\n"),
    }
}
