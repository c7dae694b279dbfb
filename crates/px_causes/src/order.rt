//! Lines that stand where they may not, or that aren't built.
ghost use Rattle.std.specs.Prelude.{◌≡◌, ◌||◌, not};
ghost use Rattle.px_script.specs.Stages.{is_built};
ghost use Rattle.px_lines.specs.ItemViews.{argument_view, atom_varies};
ghost use Rattle.px_script.specs.Forms.{arguments_of};
ghost use Rattle.px_script.specs.Items.{is_variable};
ghost use Rattle.px_lines.specs.LineViews.{line_view};
ghost use Rattle.px_causes.specs.Common.{list_any, part_has, is_out_of_order, may_stand, has_two_domains, varies, varies_too_early, is_robot, has_robot, lacks_robot, block_here, stage_view, declared_of};

use px_lines::{Argument, Line, Part, SignedAtom};
use px_names::Kind;
use px_script::{Block, Place};
use px_so_far::{SoFar, is_one_of};
use px_world::Thing;

fn any_varies(atoms: &[SignedAtom<'_>]) -> bool
    ensures { result ≡ list_any atom_varies atoms.now }
{
    atoms.iter().any(|atom| atom.has_variable())
}

fn any_variable(arguments: &[Argument<'_>]) -> bool
    ensures { result ≡ list_any (λ a. is_variable (argument_view a)) arguments.now }
{
    arguments.iter().any(|argument| argument.is_variable())
}

fn part_varies(part: &Part<'_>) -> bool
    ensures { result ≡ part_has is_variable part.now }
{
    match part {
        Part::Fact(_, _, atom) => atom.has_variable(),
        Part::Ancestor(_) => false,
        Part::Axiom(_, _, _, terms) => any_variable(terms),
    }
}

fn any_part_varies(parts: &[Part<'_>]) -> bool
    ensures { result ≡ list_any (part_has is_variable) parts.now }
{
    parts.iter().any(|part| part_varies(part))
}

fn any_robot(things: &[Thing]) -> bool
    ensures { result ≡ list_any is_robot things.now }
{
    things.iter().any(|t| matches!(t, Thing::Robot { .. }))
}

/// Returns whether a variable or a parameter stands in the line.
fn varies(line: &Line<'_>) -> bool
    ensures { result ≡ varies (line_view line.now) }
{
    has_variable(line) || line.has_parameter()
}

fn has_variable(line: &Line<'_>) -> bool
    ensures { result ≡ list_any is_variable (arguments_of (line_view line.now)) }
{
    let (atoms, others, parts) = (line.atoms(), line.arguments(), line.parts());
    any_varies(atoms) || others_vary(others, parts)
}

fn others_vary(others: &[Argument<'_>], parts: &[Part<'_>]) -> bool
    ensures { result ≡ (list_any (λ a. is_variable (argument_view a)) others.now || list_any (part_has is_variable) parts.now) }
{
    any_variable(others) || any_part_varies(parts)
}

/// Returns whether the line's word isn't built.
pub fn is_unbuilt(stage: &[&str], line: &Line<'_>) -> bool
    ensures { result ≡ not (is_built (stage_view stage.now) (line_view line.now).word) }
{
    !is_one_of(stage, line.row.word)
}

/// Returns whether the line stands where it may not.
pub fn is_out_of_order(so_far: &SoFar, line: &Line<'_>) -> bool
    ensures { result ≡ is_out_of_order (declared_of so_far.now) (line_view line.now) }
{
    let place = line.row.place;
    (!matches!(place, Place::Command) && !so_far.commands.is_empty())
        || !may_stand(so_far, place)
        || (matches!(place, Place::First) && so_far.begun)
        || has_two_domains(so_far, place)
        || varies_too_early(so_far, line)
        || lacks_robot(so_far, place)
}

fn block_here(so_far: &SoFar) -> Option<Block>
    ensures { result ≡ block_here (declared_of so_far.now) }
{
    Some(so_far.block.as_ref()?.kind.block())
}

/// Returns whether the line may stand where this block is open, or no block.
fn may_stand(so_far: &SoFar, place: Place) -> bool
    ensures { result ≡ may_stand (block_here (declared_of so_far.now)) place }
{
    match (block_here(so_far), place) {
        (None, _) => !matches!(place, Place::Inside(_) | Place::Closes),
        (Some(here), Place::Inside(block)) => here.is_same(block),
        (Some(_), _) => matches!(place, Place::Closes),
    }
}

/// Returns whether a building stands beside a line that it excludes.
fn has_two_domains(so_far: &SoFar, place: Place) -> bool
    ensures { result ≡ has_two_domains (declared_of so_far.now) place }
{
    match place {
        Place::Opens(Block::Building) => so_far.own_domain,
        _ => place.excludes_building() && so_far.has_building(),
    }
}

/// Returns whether a variable or a parameter stands before any object.
fn varies_too_early(so_far: &SoFar, line: &Line<'_>) -> bool
    ensures { result ≡ varies_too_early (declared_of so_far.now) (line_view line.now) }
{
    varies(line) && so_far.names.count(Kind::Object) == 0
}

/// Returns whether the robot's line stood.
pub fn has_robot(so_far: &SoFar) -> bool
    ensures { result ≡ has_robot (declared_of so_far.now) }
{
    matches!(&so_far.things, Some(things) if any_robot(things))
}

/// Returns whether the building ends without a robot.
fn lacks_robot(so_far: &SoFar, place: Place) -> bool
    ensures { result ≡ lacks_robot (declared_of so_far.now) (block_here (declared_of so_far.now)) place }
{
    matches!(
        (block_here(so_far), place),
        (Some(Block::Building), Place::Closes)
    ) && !has_robot(so_far)
}
