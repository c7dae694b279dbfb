//! The lines of an operator.
ghost use Rattle.std.specs.Prelude.{◌≡◌, ◌++◌, ◌∷◌, [], IfErr, OnErr, OnOk, codes, false, length, true};
ghost use Rattle.px_terms.specs.Limits.{most_parameters};
ghost use Rattle.px_terms.specs.Operators.{no_schema};
ghost use Rattle.px_cert.specs.declared.draft.Due.TheVariants as due;
ghost use Rattle.px_cert.specs.Drafts.{after_line};
ghost use Rattle.px_cert.specs.Lines.{add, delete, operator, pre};
ghost use Rattle.px_cert.specs.Reading.{Leaves, Reads, atoms_at, line_of, operator_items, then_at};
ghost use Rattle.px_cert.specs.Sound.{IsSound};

use crate::draft::{Draft, Due, empty_schema};
use crate::limits::GREATEST_SORT;
use crate::numbers::numbers;
use crate::problem_lines::{has_object_for, operators_then};
use crate::refused::Refused;
use crate::terms::atoms;
use crate::words::expect;
use px_base::{NoMemory, Sequence, push};
use px_terms::{Atom, MOST_PARAMETERS, Schema};
use std::alloc::Global;

/// Reads the sorts of an operator's parameters.
#[tactic(auto, unfolding(crate::specs::Reading::operator_items))]
fn operator_items<'a>(
    alloc: Global,
    draft: &Draft,
    bytes: &'a [u8],
) -> Result<(Vec<u32>, &'a [u8]), Refused>
    ensures { Reads (λ x. (x.0.items, x.1.now)) result (operator_items draft.now bytes.now) }
{
    let (sorts, rest) = numbers(alloc, bytes, MOST_PARAMETERS as u32, GREATEST_SORT + 1)?;
    if !has_object_for(draft, sorts.len()) {
        return Err(Refused::Bad);
    }
    Ok((sorts, rest))
}

/// Reads a line of atoms.
#[tactic(auto, unfolding(crate::specs::Reading::line_of))]
fn atoms_line<'a>(
    alloc: Global,
    draft: &Draft,
    bytes: &'a [u8],
    word: &[u8],
    wild: bool,
) -> Result<(Vec<Atom>, &'a [u8]), Refused>
    requires { IsSound draft.now }
    ensures { Reads (λ x. (x.0.items, x.1.now)) result
        (line_of word.now (atoms_at draft.now draft.now.schema.params wild) bytes.now) }
{
    let rest = expect(bytes, word)?;
    let (read, rest) = match atoms(alloc, draft, rest, draft.schema.params, wild) {
        Ok(read) => read,
        Err(refused) => return Err(refused),
    };
    let rest = expect(rest, b"\n")?;
    Ok((read, rest))
}

/// Reads the line of an operator's parameters, after which so many operators come.
#[tactic(auto, unfolding(crate::specs::Reading::line_of))]
pub(crate) fn operator_line<'a>(
    alloc: Global,
    draft: &mut Draft,
    bytes: &'a [u8],
    more: u32,
) -> Result<&'a [u8], Refused>
    requires due { draft.old.due ≡ due.Operator more }
    requires sound { IsSound draft.old }
    ensures { Leaves draft.new result
        (then_at (line_of (codes "operator") (operator_items draft.old) bytes.now) (λ read. after_line draft.old (operator read))) }
{
    let rest = expect(bytes, b"operator")?;
    let (sorts, rest) = operator_items(alloc, draft, rest)?;
    let rest = expect(rest, b"\n")?;
    let mut schema = empty_schema(alloc);
    schema.op = draft.schemas.len() as u32;
    schema.params = sorts.len() as u32;
    schema.param_sorts = Sequence::from_vec(sorts);
    draft.schema = schema;
    draft.due = Due::Pre(more);
    Ok(rest)
}

/// Reads the line of an operator's precondition.
pub(crate) fn pre_line<'a>(
    alloc: Global,
    draft: &mut Draft,
    bytes: &'a [u8],
    more: u32,
) -> Result<&'a [u8], Refused>
    requires due { draft.old.due ≡ due.Pre more }
    requires sound { IsSound draft.old }
    ensures { Leaves draft.new result
        (then_at (line_of (codes "pre") (atoms_at draft.old draft.old.schema.params false) bytes.now)
        (λ read. after_line draft.old (pre read))) }
{
    let (read, rest) = match atoms_line(alloc, draft, bytes, b"pre", false) {
        Ok(read) => read,
        Err(refused) => return Err(refused),
    };
    draft.schema.pre = Sequence::from_vec(read);
    draft.due = Due::Delete(more);
    Ok(rest)
}

/// Reads the line of an operator's delete list.
pub(crate) fn delete_line<'a>(
    alloc: Global,
    draft: &mut Draft,
    bytes: &'a [u8],
    more: u32,
) -> Result<&'a [u8], Refused>
    requires due { draft.old.due ≡ due.Delete more }
    requires sound { IsSound draft.old }
    ensures { Leaves draft.new result
        (then_at (line_of (codes "delete") (atoms_at draft.old draft.old.schema.params true) bytes.now)
        (λ read. after_line draft.old (delete read))) }
{
    let (read, rest) = match atoms_line(alloc, draft, bytes, b"delete", true) {
        Ok(read) => read,
        Err(refused) => return Err(refused),
    };
    draft.schema.del = Sequence::from_vec(read);
    draft.due = Due::Add(more);
    Ok(rest)
}

/// Puts the operator, which is whole, at the end of the operators.
fn close_schema(alloc: Global, draft: &mut Draft) -> Result<(), NoMemory>
    ensures { OnOk result
        (draft.new ≡ record draft.old { schemas = draft.old.schemas ++ draft.old.schema ∷ []; schema = no_schema }) }
{
    let schema = std::mem::replace(&mut draft.schema, empty_schema(alloc));
    let mut schemas = std::mem::replace(
        &mut draft.schemas,
        Sequence::from_vec(Vec::new(alloc)),
    ).into_vec();
    push(&mut schemas, schema)?;
    draft.schemas = Sequence::from_vec(schemas);
    Ok(())
}

/// Reads the line of an operator's add list, after which so many operators come.
pub(crate) fn add_line<'a>(
    alloc: Global,
    draft: &mut Draft,
    bytes: &'a [u8],
    more: u32,
) -> Result<&'a [u8], Refused>
    requires due { draft.old.due ≡ due.Add more }
    requires sound { IsSound draft.old }
    ensures { Leaves draft.new result
        (then_at (line_of (codes "add") (atoms_at draft.old draft.old.schema.params false) bytes.now)
        (λ read. after_line draft.old (add read))) }
{
    let (read, rest) = match atoms_line(alloc, draft, bytes, b"add", false) {
        Ok(read) => read,
        Err(refused) => return Err(refused),
    };
    draft.schema.add = Sequence::from_vec(read);
    close_schema(alloc, draft)?;
    draft.due = operators_then(more);
    Ok(rest)
}
