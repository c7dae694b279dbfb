//! Names that aren't declared, arguments that may not stand, and wrong numbers of arguments.
ghost use Rattle.std.specs.Prelude.{◌≡◌, ◌==◌, ◌||◌, length, not, slice_index, map};
ghost use Rattle.px_terms.specs.Limits.{most_formula_variables};
ghost use Rattle.px_script.specs.Causes.{is_numbered_by};
ghost use Rattle.px_script.specs.Declarations.{Declared, table_parameters_here};
ghost use Rattle.px_script.specs.Forms.{arguments_of, line_atoms};
ghost use Rattle.px_script.specs.Items.{open_variable, wanted_in};
ghost use Rattle.px_lines.specs.ItemViews.{rest_view, said_view};
ghost use Rattle.px_lines.specs.LineViews.{line_view};
ghost use Rattle.px_causes.specs.Common.{flat_map, list_any, string_bytes, has_name, has_unknown_name, has_wrong_arity, is_known_argument, is_unbound, takes, wanted_by, number_in, an_object, wanted_by_edit, is_undeclared, lacks_argument, part_atom_has, part_has, refuses, declared_of, argument_view, room_edit_view};

use px_lines::{Argument, Line, Part, Rest, Said, SignedAtom, WrittenBinding, WrittenRoomEdit};
use px_names::Kind;
use px_script::{Manner, Named};
use px_so_far::{SoFar, goal_place, parameter_place, place_of};

/// Returns whether the name is one of these.
#[tactic(auto, using(crate::proofs::AtomTests::positions))]
pub fn is_among(name: &str, names: &[String]) -> bool
    ensures { result ≡ has_name name.now (map string_bytes names.now) }
{
    place_of(name, names).is_some()
}

/// Returns whether a variable may stand in atoms of the manner, where the open block is of a table with so many parameters.
fn takes_variable(parameters: u32, manner: Manner, name: &str) -> bool
    ensures { (d : Declared) → table_parameters_here d.block ≡ parameters → result ≡ takes d manner (open_variable name.now) }
{
    match manner {
        Manner::Literals | Manner::Goals => true,
        Manner::TableTerms => is_parameter(parameters, name),
        Manner::TableGoals => is_parameter(parameters, name) || is_goal_variable(name),
        _ => false,
    }
}

fn is_parameter(parameters: u32, name: &str) -> bool
    ensures { result ≡ is_numbered_by 112 parameters name.now }
{
    parameter_place(parameters, name).is_some()
}

fn is_goal_variable(name: &str) -> bool
    ensures { result ≡ is_numbered_by 103 most_formula_variables name.now }
{
    goal_place(name).is_some()
}

/// Returns whether some name of the line isn't declared in the kind of its place.
pub fn has_unknown_name(so_far: &SoFar, line: &Line<'_>) -> bool
    ensures { result ≡ has_unknown_name (declared_of so_far.now) (line_view line.now) }
{
    lacks_predicate(so_far, line) || lacks_argument(so_far, line) || lacks_name(so_far, line)
}

fn lacks_predicate(so_far: &SoFar, line: &Line<'_>) -> bool
    ensures { result ≡ list_any (λ x. not (has_name x.atom.predicate so_far.now.names.predicates)) (line_atoms (line_view line.now)) }
{
    let (atoms, parts) = (line.atoms(), line.parts());
    lack_predicates(so_far, atoms) || parts_lack_predicates(so_far, parts)
}

fn lacks_argument(so_far: &SoFar, line: &Line<'_>) -> bool
    ensures { result ≡ list_any (λ a. not (is_known_argument (declared_of so_far.now) a)) (arguments_of (line_view line.now)) }
{
    let (atoms, others, parts) = (line.atoms(), line.arguments(), line.parts());
    lack_arguments(so_far, atoms) || others_lack(so_far, others, parts)
}

fn others_lack(so_far: &SoFar, others: &[Argument<'_>], parts: &[Part<'_>]) -> bool
    ensures { result ≡ (list_any (λ a. not (is_known_argument (declared_of so_far.now) (argument_view a))) others.now
        || list_any (part_has (λ a. not (is_known_argument (declared_of so_far.now) a))) parts.now) }
{
    are_unknown(so_far, others) || parts_lack_arguments(so_far, parts)
}

fn are_unknown(so_far: &SoFar, arguments: &[Argument<'_>]) -> bool
    ensures { result ≡ list_any (λ a. not (is_known_argument (declared_of so_far.now) (argument_view a))) arguments.now }
{
    arguments.iter().any(|x| !is_known(so_far, x))
}

fn parts_lack_predicates(so_far: &SoFar, parts: &[Part<'_>]) -> bool
    ensures { result ≡ list_any (part_atom_has (λ atom. not (has_name atom.predicate.now so_far.now.names.predicates))) parts.now }
{
    parts.iter().any(|part| part_lacks_predicate(so_far, part))
}

fn part_lacks_predicate(so_far: &SoFar, part: &Part<'_>) -> bool
    ensures { result ≡ part_atom_has (λ atom. not (has_name atom.predicate.now so_far.now.names.predicates)) part.now }
{
    match part {
        Part::Fact(_, _, atom) => !so_far.has(Kind::Predicate, atom.predicate),
        Part::Ancestor(_) | Part::Axiom(_, _, _, _) => false,
    }
}

fn parts_lack_arguments(so_far: &SoFar, parts: &[Part<'_>]) -> bool
    ensures { result ≡ list_any (part_has (λ a. not (is_known_argument (declared_of so_far.now) a))) parts.now }
{
    parts.iter().any(|part| part_lacks_argument(so_far, part))
}

fn part_lacks_argument(so_far: &SoFar, part: &Part<'_>) -> bool
    ensures { result ≡ part_has (λ a. not (is_known_argument (declared_of so_far.now) a)) part.now }
{
    match part {
        Part::Fact(_, _, atom) => are_unknown(so_far, &atom.arguments),
        Part::Ancestor(_) => false,
        Part::Axiom(_, _, _, terms) => are_unknown(so_far, terms),
    }
}

fn lack_predicates(so_far: &SoFar, atoms: &[SignedAtom<'_>]) -> bool
    ensures { result ≡ list_any (λ atom. not (has_name atom.predicate.now so_far.now.names.predicates)) atoms.now }
{
    atoms
        .iter()
        .any(|a| !so_far.has(Kind::Predicate, a.predicate))
}

fn lack_arguments(so_far: &SoFar, atoms: &[SignedAtom<'_>]) -> bool
    ensures { result ≡ list_any (lacks_argument (declared_of so_far.now)) atoms.now }
{
    atoms
        .iter()
        .any(|atom| are_unknown(so_far, &atom.arguments))
}

fn is_known(so_far: &SoFar, argument: &Argument<'_>) -> bool
    ensures { result ≡ is_known_argument (declared_of so_far.now) (argument_view argument.now) }
{
    match argument {
        Argument::Named(name) => {
            so_far.has(Kind::Object, name) || so_far.parameter(name).is_some()
        }
        Argument::Variable(_) | Argument::Anything => true,
    }
}

/// Returns whether some name outside atoms that the line wants isn't declared in its kind.
#[tactic(auto, using(crate::proofs::LineTests::wanted))]
fn lacks_name(so_far: &SoFar, line: &Line<'_>) -> bool
    ensures { result ≡ list_any (is_undeclared (declared_of so_far.now)) (wanted_by (line_view line.now)) }
{
    ones_lack(so_far, &line.ones) || rest_lacks(so_far, &line.last)
}

fn ones_lack(so_far: &SoFar, ones: &[Said<'_>]) -> bool
    ensures { result ≡ list_any (λ one. list_any (is_undeclared (declared_of so_far.now)) (wanted_in (said_view one))) ones.now }
{
    ones.iter().any(|one| one_lacks(so_far, one))
}

#[tactic(auto, using(crate::proofs::LineTests::single))]
fn one_lacks(so_far: &SoFar, one: &Said<'_>) -> bool
    ensures { result ≡ list_any (is_undeclared (declared_of so_far.now)) (wanted_in (said_view one.now)) }
{
    match one {
        Said::Known(kind, name) => is_undeclared(so_far, *kind, name),
        _ => false,
    }
}

#[tactic(auto, using(crate::proofs::AtomTests::names_lack))]
fn rest_lacks(so_far: &SoFar, last: &Rest<'_>) -> bool
    ensures { result ≡ list_any (is_undeclared (declared_of so_far.now)) (flat_map wanted_in (rest_view last.now)) }
{
    match last {
        Rest::Bindings(bindings) => lack_objects(so_far, bindings),
        Rest::RoomEdits(edits) => lack_places(so_far, edits),
        Rest::Wanted(kind, names) => lack_wanted(so_far, *kind, names),
        _ => false,
    }
}

/// Returns whether the name isn't declared in the kind.
fn is_undeclared(so_far: &SoFar, kind: Named, name: &str) -> bool
    ensures { result ≡ is_undeclared (declared_of so_far.now) (kind, name.now) }
{
    match kind {
        Named::Object => !so_far.has(Kind::Object, name),
        Named::Predicate => !so_far.has(Kind::Predicate, name),
        Named::Operator => !so_far.has(Kind::Operator, name),
        Named::Result => !so_far.has(Kind::Result, name),
        Named::Table => !is_among(name, &so_far.tables),
        Named::Parameter => so_far.parameter(name).is_none(),
        Named::Sort => !is_among(name, &so_far.sorts),
        Named::Room => !is_among(name, &so_far.rooms),
        Named::Door => !is_among(name, &so_far.doors),
        Named::Box => !is_among(name, &so_far.boxes),
        Named::Plan => !is_among(name, &so_far.plans),
    }
}

fn lack_wanted(so_far: &SoFar, kind: Named, names: &[&str]) -> bool
    ensures { result ≡ list_any (λ name. is_undeclared (declared_of so_far.now) (kind, name.now)) names.now }
{
    names.iter().any(|name| is_undeclared(so_far, kind, name))
}

fn lack_places(so_far: &SoFar, edits: &[WrittenRoomEdit<'_>]) -> bool
    ensures { result
        ≡ list_any (λ edit. list_any (is_undeclared (declared_of so_far.now)) (wanted_by_edit (room_edit_view edit))) edits.now }
{
    edits.iter().any(|edit| lacks_place(so_far, edit))
}

fn lacks_place(so_far: &SoFar, edit: &WrittenRoomEdit<'_>) -> bool
    ensures { result ≡ list_any (is_undeclared (declared_of so_far.now)) (wanted_by_edit (room_edit_view edit.now)) }
{
    match edit {
        WrittenRoomEdit::RobotTo(room) => is_undeclared(so_far, Named::Room, room),
        WrittenRoomEdit::BoxTo(name, room) => {
            is_undeclared(so_far, Named::Box, name) || is_undeclared(so_far, Named::Room, room)
        }
        WrittenRoomEdit::DoorTo(name, _) => is_undeclared(so_far, Named::Door, name),
    }
}

fn lack_objects(so_far: &SoFar, bindings: &[WrittenBinding<'_>]) -> bool
    ensures { result ≡ list_any (λ binding. is_undeclared (declared_of so_far.now) (an_object, binding.object.now)) bindings.now }
{
    bindings.iter().any(|binding| is_undeclared(so_far, Named::Object, binding.object))
}

/// Returns whether some atom has another number of arguments than its predicate.
pub fn has_wrong_arity(so_far: &SoFar, line: &Line<'_>) -> bool
    ensures { result ≡ has_wrong_arity (declared_of so_far.now) (line_view line.now) }
{
    let (atoms, parts) = (line.atoms(), line.parts());
    differ_in_arity(so_far, atoms) || parts_differ(so_far, parts)
}

fn parts_differ(so_far: &SoFar, parts: &[Part<'_>]) -> bool
    ensures { result ≡ list_any (part_atom_has (λ atom. not
        (length atom.arguments.items == slice_index so_far.now.arities.items
        (number_in atom.predicate.now so_far.now.names.predicates)))) parts.now }
{
    parts.iter().any(|part| part_differs(so_far, part))
}

fn part_differs(so_far: &SoFar, part: &Part<'_>) -> bool
    ensures { result ≡ part_atom_has (λ atom. not
        (length atom.arguments.items == slice_index so_far.now.arities.items
        (number_in atom.predicate.now so_far.now.names.predicates))) part.now }
{
    match part {
        Part::Fact(_, _, atom) => atom.arguments.len() != arity(so_far, atom.predicate),
        Part::Ancestor(_) | Part::Axiom(_, _, _, _) => false,
    }
}

fn differ_in_arity(so_far: &SoFar, atoms: &[SignedAtom<'_>]) -> bool
    ensures { result ≡ list_any (λ atom. not
        (length atom.arguments.items == slice_index so_far.now.arities.items
        (number_in atom.predicate.now so_far.now.names.predicates))) atoms.now }
{
    atoms.iter().any(|atom| atom.arguments.len() != arity(so_far, atom.predicate))
}

fn arity(so_far: &SoFar, predicate: &str) -> usize
    ensures { result ≡ slice_index so_far.now.arities.items (number_in predicate.now so_far.now.names.predicates) }
{
    let number = so_far.number(Kind::Predicate, predicate);
    match so_far.arities.get(number as usize) {
        Some(arity) => *arity as usize,
        None => 0,
    }
}

/// Returns whether some argument may not stand in the line.
pub fn is_unbound(so_far: &SoFar, line: &Line<'_>) -> bool
    ensures { result ≡ is_unbound (declared_of so_far.now) (line_view line.now) }
{
    let (atoms, others, parts) = (line.atoms(), line.arguments(), line.parts());
    have_unbound(so_far, line.row.manner, atoms)
        || others_unbound(so_far, line.row.manner, others, parts)
}

fn others_unbound(
    so_far: &SoFar,
    manner: Manner,
    others: &[Argument<'_>],
    parts: &[Part<'_>],
) -> bool
    ensures { result ≡ (list_any (λ a. not (takes (declared_of so_far.now) manner (argument_view a))) others.now
        || list_any (part_has (λ a. not (takes (declared_of so_far.now) manner a))) parts.now) }
{
    are_unbound(so_far, manner, others) || parts_unbound(so_far, manner, parts)
}

fn are_unbound(so_far: &SoFar, manner: Manner, arguments: &[Argument<'_>]) -> bool
    ensures { result ≡ list_any (λ a. not (takes (declared_of so_far.now) manner (argument_view a))) arguments.now }
{
    arguments.iter().any(|x| !takes(so_far, manner, x))
}

fn parts_unbound(so_far: &SoFar, manner: Manner, parts: &[Part<'_>]) -> bool
    ensures { result ≡ list_any (part_has (λ a. not (takes (declared_of so_far.now) manner a))) parts.now }
{
    parts
        .iter()
        .any(|part| part_is_unbound(so_far, manner, part))
}

fn part_is_unbound(so_far: &SoFar, manner: Manner, part: &Part<'_>) -> bool
    ensures { result ≡ part_has (λ a. not (takes (declared_of so_far.now) manner a)) part.now }
{
    match part {
        Part::Fact(_, _, atom) => has_unbound(so_far, manner, atom),
        Part::Ancestor(_) => false,
        Part::Axiom(_, _, _, terms) => are_unbound(so_far, manner, terms),
    }
}

fn have_unbound(so_far: &SoFar, manner: Manner, atoms: &[SignedAtom<'_>]) -> bool
    ensures { result ≡ list_any (refuses (declared_of so_far.now) manner) atoms.now }
{
    atoms.iter().any(|atom| has_unbound(so_far, manner, atom))
}

fn has_unbound(so_far: &SoFar, manner: Manner, atom: &SignedAtom<'_>) -> bool
    ensures { result ≡ refuses (declared_of so_far.now) manner atom.now }
{
    are_unbound(so_far, manner, &atom.arguments)
}

/// Returns whether the argument may stand in atoms of the manner.
fn takes(so_far: &SoFar, manner: Manner, argument: &Argument<'_>) -> bool
    ensures { result ≡ takes (declared_of so_far.now) manner (argument_view argument.now) }
{
    match argument {
        Argument::Named(_) => true,
        Argument::Variable(name) => takes_variable(so_far.table_parameters(), manner, name),
        Argument::Anything => matches!(manner, Manner::Patterns),
    }
}
