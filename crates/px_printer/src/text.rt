//! The texts of replies. Each kind of line has one function that appends it, and each list of lines one loop.
ghost use Rattle.std.specs.Prelude.{◌≡◌, ◌∷◌, [], ◌++◌, All, IfOk, None, OnOk, codes, length, map, string_bytes, true};
ghost use Rattle.std.specs.Fmt.{decimal};
ghost use Rattle.px_printer.specs.Texts.{IsNamedAtom, IsNamedInstance, atom_text, instance_text, indented_line, text_line, numbered_lines, indented_lines};
ghost use Rattle.px_printer.specs.Replies.{IsReplyNamed, certificate_in, is_on_table, is_refusal, reply_text};
ghost use Rattle.px_printer.specs.declared.spelling.Spelling.TheVariants.{InRows};

use crate::block_text::push_block;
use crate::duo_text::push_duo;
use crate::reply::Reply;
use crate::shown::{ShownAtom, ShownInstance};
use crate::spelling::Spelling;
use crate::table_text::{push_table, push_table_line};
use crate::tree_text::push_tree;
use crate::turn_text::{push_pursuit, push_turns};
use px_base::NoMemory;
use px_names::{Kind, Names};
use px_terms::{Atom, OpInst};
use std::alloc::{AllocError, Global};
use std::fmt::Write;

/// Returns the text of a reply: its bytes.
///
/// # Errors
/// `NoMemory` where there is no memory for the text.
pub fn reply_text(alloc: Global, reply: &Reply, names: &Names) -> Result<Vec<u8>, NoMemory>
    requires named { IsReplyNamed names.now reply.now }
    ensures text { IfOk result (λ text. text.items ≡ reply_text names.now reply.now) }
{
    match reply {
        Reply::Certified { bytes, .. } => copied(alloc, bytes.as_slice()),
        _ => written(alloc, reply, names),
    }
}

/// Returns a copy of the bytes.
fn copied(alloc: Global, bytes: &[u8]) -> Result<Vec<u8>, NoMemory>
    ensures { IfOk result (λ copy. copy.items ≡ bytes.now) }
{
    let mut copy = Vec::new(alloc);
    copy.extend_from_slice(bytes)?;
    Ok(copy)
}

/// Returns the text of a reply that is no certificate.
fn written(alloc: Global, reply: &Reply, names: &Names) -> Result<Vec<u8>, NoMemory>
    requires named { IsReplyNamed names.now reply.now }
    requires lines { certificate_in reply.now ≡ None }
    ensures { IfOk result (λ text. text.items ≡ reply_text names.now reply.now) }
{
    let mut text = String::new(alloc);
    push_reply(&mut text, reply, names)?;
    Ok(text.into_bytes())
}

/// Appends the lines of a reply that is no certificate.
fn push_reply(text: &mut String, reply: &Reply, names: &Names) -> Result<(), AllocError>
    requires named { IsReplyNamed names.now reply.now }
    requires lines { certificate_in reply.now ≡ None }
    ensures { OnOk result (string_bytes text.new ≡ string_bytes text.old ++ reply_text names.now reply.now) }
{
    match reply {
        Reply::Plan { name, moves, steps } => {
            let (name, count) = (names.text(Kind::Result, *name), steps.len());
            write!(text, "plan {name} {count} steps {moves} moves\n")?;
            push_steps(text, steps.as_slice(), names)
        }
        Reply::Exhausted { name } => push_name(text, "exhausted", names.text(Kind::Result, *name)),
        Reply::NodeLimit { name, nodes, moves } => {
            let (name, count) = (names.text(Kind::Result, *name), nodes.count());
            write!(text, "nodelimit {name} {count} nodes {moves} moves\n")
        }
        Reply::ShapeLimit { name, limit, .. } => {
            let (name, count) = (names.text(Kind::Result, *name), limit.shapes.len());
            write!(text, "shapelimit {name} {count} shapes\n")
        }
        Reply::Noted { count } => write!(text, "noted {count}\n"),
        Reply::Ran { name, turns } => {
            push_name(text, "run", names.text(Kind::Result, *name))?;
            push_turns(text, turns.as_slice(), names)
        }
        Reply::FactsAre { atoms } => push_facts(text, atoms.as_slice(), names),
        Reply::Unknown { name } => push_name(text, "unknown", names.text(Kind::Result, *name)),
        Reply::UnknownParam { param } => write!(text, "unknown p{param}\n"),
        Reply::DuoRan {
            first,
            second,
            lines,
        } => { push_duo(text, *first, *second, lines.as_slice(), names) }
        Reply::Pursuit {
            name,
            searches,
            turns,
            end,
        } => {
            let name = names.text(Kind::Result, *name);
            push_pursuit(text, name, *searches, turns.as_slice(), end, names)
        }
        Reply::Tree { name, tables, tree } => push_tree(
            text,
            *name,
            tables.as_slice(),
            tree,
            names,
        ),
        _ => push_on_table(text, reply, names),
    }
}

/// Appends the lines of a reply that tells what became of a table.
fn push_on_table(text: &mut String, reply: &Reply, names: &Names) -> Result<(), AllocError>
    requires named { IsReplyNamed names.now reply.now }
    requires on_table { is_on_table reply.now ≡ true }
    ensures { OnOk result (string_bytes text.new ≡ string_bytes text.old ++ reply_text names.now reply.now) }
{
    match reply {
        Reply::Learned {
            name,
            params,
            steps,
        } => {
            let name = names.text(Kind::Result, *name);
            push_table_line(text, "learned", name, *params, u64::from(*steps))
        }
        Reply::Shown { name, table } => {
            push_table(text, names.text(Kind::Result, *name), table, names)
        }
        Reply::Saved { name, table } => {
            push_block(text, names.text(Kind::Result, *name), table, names)
        }
        Reply::Edited {
            name,
            params,
            steps,
        } => {
            let name = names.text(Kind::Result, *name);
            push_table_line(text, "edited", name, *params, u64::from(*steps))
        }
        _ => push_refused(text, reply, names),
    }
}

/// Appends the line of a reply that tells why there is no table, or nothing of it.
fn push_refused(text: &mut String, reply: &Reply, names: &Names) -> Result<(), AllocError>
    requires named { IsReplyNamed names.now reply.now }
    requires refused { is_refusal reply.now ≡ true }
    ensures { OnOk result (string_bytes text.new ≡ string_bytes text.old ++ reply_text names.now reply.now) }
{
    match reply {
        Reply::LearnRefused { name, why } => {
            push_refusal(
                text,
                "notlearned",
                names.text(Kind::Result, *name),
                why.text(),
            )
        }
        Reply::SaveRefused { name, why } => {
            push_refusal(
                text,
                "notsaved",
                names.text(Kind::Result, *name),
                why.text(),
            )
        }
        Reply::EditRefused { name, why } => {
            push_refusal(
                text,
                "notedited",
                names.text(Kind::Result, *name),
                why.text(),
            )
        }
        Reply::CertifyRefused { name, why } => {
            push_refusal(
                text,
                "notcertified",
                names.text(Kind::Result, *name),
                why.text(),
            )
        }
        _ => unreachable!(),
    }
}

/// Appends the line of a word and a name.
fn push_name(text: &mut String, word: &str, name: &str) -> Result<(), AllocError>
    ensures { OnOk result (string_bytes text.new ≡ string_bytes text.old ++ text_line (word.now ∷ name.now ∷ [])) }
{
    write!(text, "{word} {name}\n")
}

/// Appends the line of what was refused of a table: a word, its name, and why.
fn push_refusal(text: &mut String, word: &str, name: &str, why: &str) -> Result<(), AllocError>
    ensures { OnOk result (string_bytes text.new ≡ string_bytes text.old ++ text_line (word.now ∷ name.now ∷ why.now ∷ [])) }
{
    write!(text, "{word} {name} {why}\n")
}

/// Appends a line for each step, numbered from 1.
fn push_steps(text: &mut String, steps: &[OpInst], names: &Names) -> Result<(), AllocError>
    requires { All (IsNamedInstance names.now) steps.now }
    ensures { OnOk result (string_bytes text.new ≡ string_bytes text.old
        ++ numbered_lines 1 (map (instance_text names.now (InRows 0)) steps.now)) }
{
    for (index, step) in steps.iter().enumerate() {
        push_step(text, index + 1, step, names)?;
    }
    Ok(())
}

/// Appends the line of a step.
fn push_step(
    text: &mut String,
    number: usize,
    step: &OpInst,
    names: &Names,
) -> Result<(), AllocError>
    requires { IsNamedInstance names.now step.now }
    ensures { OnOk result (string_bytes text.new ≡ string_bytes text.old
        ++ indented_line (decimal number ∷ instance_text names.now (InRows 0) step.now ∷ [])) }
{
    let step = ShownInstance {
        inst: step,
        names,
        spelling: Spelling::InRows(0),
    };
    write!(text, "  {number} {step}\n")
}

/// Appends the number of the atoms, and a line for each.
fn push_facts(text: &mut String, atoms: &[Atom], names: &Names) -> Result<(), AllocError>
    requires { All (IsNamedAtom names.now) atoms.now }
    ensures { OnOk result (string_bytes text.new ≡ string_bytes text.old ++ (text_line (codes "facts" ∷ decimal (length atoms.now) ∷ [])
        ++ indented_lines (map (atom_text names.now (InRows 0)) atoms.now))) }
{
    let count = atoms.len();
    write!(text, "facts {count}\n")?;
    push_atoms(text, atoms, names)
}

/// Appends a line for each atom.
fn push_atoms(text: &mut String, atoms: &[Atom], names: &Names) -> Result<(), AllocError>
    requires { All (IsNamedAtom names.now) atoms.now }
    ensures { OnOk result (string_bytes text.new ≡ string_bytes text.old
        ++ indented_lines (map (atom_text names.now (InRows 0)) atoms.now)) }
{
    for atom in atoms {
        push_atom(text, atom, names)?;
    }
    Ok(())
}

/// Appends the line of an atom.
fn push_atom(text: &mut String, atom: &Atom, names: &Names) -> Result<(), AllocError>
    requires { IsNamedAtom names.now atom.now }
    ensures { OnOk result (string_bytes text.new ≡ string_bytes text.old ++ indented_line (atom_text names.now (InRows 0) atom.now ∷ [])) }
{
    let atom = ShownAtom {
        atom,
        names,
        spelling: Spelling::InRows(0),
    };
    write!(text, "  {atom}\n")
}
