//! Terms, atoms and operator instances as they are printed.
ghost use Rattle.std.specs.Prelude.{Some, All, map};
ghost use Rattle.std.specs.Fmt.{WritesOnOk};
ghost use Rattle.px_printer.specs.Blocks.{terms_text};
ghost use Rattle.px_printer.specs.Texts.{IsNamedTerm, IsNamedAtom, IsNamedInstance, numbered_variable, variable_text, term_text, after_commas, arguments_text, atom_text, instance_text};

use crate::spelling::Spelling;
use px_names::{Kind, Names};
use px_terms::{Atom, OpInst, Term};
use std::fmt;

/// A term that prints as its text: an object as its name, a variable as its kind is spelled, the wild card as `$`.
#[derive(Clone, Copy)]
pub struct ShownTerm<'a> {
    /// What is printed.
    pub term: Term,
    /// The names of the objects.
    pub names: &'a Names,
    /// How variables are spelled.
    pub spelling: Spelling,
    ghost named: { IsNamedTerm names.now term },
}

impl fmt::Display for ShownTerm<'_> {
    ghost output = { λ shown. Some (term_text shown.names.now shown.spelling shown.term) };

    fn fmt<W: fmt::Write>(&self, f: &mut fmt::Formatter<W>) -> fmt::Result {
        match self.term {
            Term::Obj(number) => f.write_str(self.names.text(Kind::Object, number)),
            Term::Var(number) => write_variable(f, self.spelling, number),
            Term::Any => f.write_str("$"),
        }
    }
}

/// Writes a variable.
fn write_variable<W: fmt::Write>(
    f: &mut fmt::Formatter<W>,
    spelling: Spelling,
    number: u32,
) -> fmt::Result
    ensures { WritesOnOk W.write_str_gives f.old result (variable_text spelling number) f.new }
{
    match spelling {
        Spelling::InRows(params) => write_numbered(f, params, "p", "?", number),
        Spelling::InBlock(params) => write_numbered(f, params, "?p", "?g", number),
    }
}

/// Writes a variable as a word and its number from 1: `parameter` for the first `params` variables, and `own` for those after them.
fn write_numbered<W: fmt::Write>(
    f: &mut fmt::Formatter<W>,
    params: u32,
    parameter: &str,
    own: &str,
    number: u32,
) -> fmt::Result
    ensures { WritesOnOk W.write_str_gives f.old result (numbered_variable params parameter.now own.now number) f.new }
{
    if number < params {
        let place = number + 1;
        write!(f, "{parameter}{place}")
    } else {
        let place = u64::from(number - params) + 1;
        write!(f, "{own}{place}")
    }
}

/// Writes arguments as in a script: in parentheses, with commas and without blanks. Where there are no arguments it writes nothing.
fn write_arguments<W: fmt::Write>(
    f: &mut fmt::Formatter<W>,
    terms: &[Term],
    names: &Names,
    spelling: Spelling,
) -> fmt::Result
    requires { All (IsNamedTerm names.now) terms.now }
    ensures { WritesOnOk W.write_str_gives f.old result (arguments_text names.now spelling terms.now) f.new }
{
    if let [first, rest @ ..] = terms {
        let first = ShownTerm {
            term: *first,
            names,
            spelling,
        };
        write!(f, "({first}")?;
        write_rest(f, rest, names, spelling)?;
        f.write_str(")")?;
    }
    Ok(())
}

/// Writes the arguments after the first, each after a comma.
fn write_rest<W: fmt::Write>(
    f: &mut fmt::Formatter<W>,
    terms: &[Term],
    names: &Names,
    spelling: Spelling,
) -> fmt::Result
    requires { All (IsNamedTerm names.now) terms.now }
    ensures { WritesOnOk W.write_str_gives f.old result (after_commas (map (term_text names.now spelling) terms.now)) f.new }
{
    for term in terms {
        let term = ShownTerm {
            term: *term,
            names,
            spelling,
        };
        write!(f, ",{term}")?;
    }
    Ok(())
}

// Alike: `ShownInstance` below, since each borrows a value of a type of its own, with another fact about its names.
/// An atom that prints as in a script. `spelling` is as in [`ShownTerm`].
#[derive(Clone, Copy)]
pub struct ShownAtom<'a> {
    /// What is printed.
    pub atom: &'a Atom,
    /// The names of the predicates and objects.
    pub names: &'a Names,
    /// How variables are spelled.
    pub spelling: Spelling,
    ghost named: { IsNamedAtom names.now atom.now },
}

impl fmt::Display for ShownAtom<'_> {
    ghost output = { λ shown. Some (atom_text shown.names.now shown.spelling shown.atom.now) };

    fn fmt<W: fmt::Write>(&self, f: &mut fmt::Formatter<W>) -> fmt::Result {
        f.write_str(self.names.text(Kind::Predicate, self.atom.pred()))?;
        write_arguments(f, self.atom.args(), self.names, self.spelling)
    }
}

/// An operator instance that prints as in a script. `spelling` is as in [`ShownTerm`].
#[derive(Clone, Copy)]
pub struct ShownInstance<'a> {
    /// What is printed.
    pub inst: &'a OpInst,
    /// The names of the operators and objects.
    pub names: &'a Names,
    /// How variables are spelled.
    pub spelling: Spelling,
    ghost named: { IsNamedInstance names.now inst.now },
}

impl fmt::Display for ShownInstance<'_> {
    ghost output = { λ shown. Some (instance_text shown.names.now shown.spelling shown.inst.now) };

    fn fmt<W: fmt::Write>(&self, f: &mut fmt::Formatter<W>) -> fmt::Result {
        f.write_str(self.names.text(Kind::Operator, self.inst.op()))?;
        write_arguments(f, self.inst.args(), self.names, self.spelling)
    }
}

/// The terms of an axiom's variables, in parentheses also where there are none.
#[derive(Clone, Copy)]
pub(crate) struct ShownTerms<'a> {
    /// What is printed.
    pub terms: &'a [Term],
    /// The names of the objects.
    pub names: &'a Names,
    /// How variables are spelled.
    pub spelling: Spelling,
    ghost named: { All (IsNamedTerm names.now) terms.now },
}

impl fmt::Display for ShownTerms<'_> {
    ghost output = { λ shown. Some (terms_text shown.names.now shown.spelling shown.terms.now) };

    fn fmt<W: fmt::Write>(&self, f: &mut fmt::Formatter<W>) -> fmt::Result {
        if self.terms.is_empty() {
            f.write_str("()")
        } else {
            write_arguments(f, self.terms, self.names, self.spelling)
        }
    }
}
