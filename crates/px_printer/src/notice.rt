//! The texts of the program that answer no command.
ghost use Rattle.std.specs.Prelude.{◌≡◌, IfOk};
ghost use Rattle.px_printer.specs.Notices.{no_text, refused_text, usage_text, yes_text};

use px_base::NoMemory;
use std::alloc::Global;
use std::fmt::Write;

/// Returns how the program is called. Does not allocate.
pub fn usage_text() -> &'static str
    ensures { result.now ≡ usage_text }
{
    "usage: planex run | planex demo ROOMS SEED | planex check\n"
}

/// Returns the text that says where and why a script is refused: the line, the code of its fault, and the number of the limit that is
/// passed, or 0.
///
/// # Errors
/// `NoMemory` where there is no memory for the text.
pub fn refused_text(alloc: Global, line: u32, code: u8, limit: u8) -> Result<Vec<u8>, NoMemory>
    ensures text { IfOk result (λ text. text.items ≡ refused_text line code limit) }
{
    let mut text = String::new(alloc);
    write!(text, "refused line {line} code {code} limit {limit}\n")?;
    Ok(text.into_bytes())
}

/// Returns the text that says that a certificate's table, of these numbers of parameters and steps, is one.
///
/// # Errors
/// `NoMemory` where there is no memory for the text.
pub fn yes_text(alloc: Global, params: u32, steps: usize) -> Result<Vec<u8>, NoMemory>
    ensures text { IfOk result (λ text. text.items ≡ yes_text params steps) }
{
    let mut text = String::new(alloc);
    write!(text, "yes {params} parameters {steps} steps\n")?;
    Ok(text.into_bytes())
}

/// Returns the text that says that a certificate's table is none. Does not allocate.
pub fn no_text() -> &'static str
    ensures { result.now ≡ no_text }
{
    "no\n"
}
