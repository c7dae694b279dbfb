//! The gaps of a formula without variables, atom by atom. Proofs of such atoms share nothing, so the gaps of the formula are those of its
//! atoms together, and nobody has to go through the lists that have a proof of each atom.
ghost use Rattle.std.specs.Prelude.{◌≡◌, ◌↔◌, ◌⊎◌, [], ◌∷◌, All, Contains, IfOk, IfSome, IsTrue, List, MatchBool, ℕ};
ghost use Rattle.px_question.specs.Answers.{IsAnswer};
ghost use Rattle.px_question.specs.Settings.{setting_of};
ghost use Rattle.px_terms.specs.Validity.{IsValid, IsAtomOf};
ghost use Rattle.px_terms.specs.declared.atom.Atom.{Atom as AtomValue};
ghost use Rattle.px_gaps.specs.ByAtoms.{AreGapsOf, AreGapsTogether, HasGapProof, IsBoundOfAtoms, IsGapFor, IsUnlimitedFor};
ghost use Rattle.px_gaps.specs.Closings.{IsChosenIn, IsMissingIn};
ghost use Rattle.px_gaps.specs.Described.{IsPlainPattern};
ghost use Rattle.px_prover.specs.PatternLists.{lists_of};
ghost use Rattle.px_terms.specs.Instances.{IsGround};

use crate::ask_err::AskErr;
use crate::asker::Asker;
use crate::bounds::{Bound, beside};
use crate::choices::choices_of;
use crate::facts::is_concluded;
use crate::gap_answer::ask_closings;
use crate::missing::insert_missing_by;
use crate::sorting::Sorting;
use px_ops::Model;
use px_prover::{GapPattern, count_shapes};
use px_terms::{Atom, NoMemory, Problem};
use std::alloc::Global;

/// Returns whether axioms conclude more than one of the atoms. Where they conclude one, asking apart gains little.
fn are_many_concluded(problem: &Problem, formula: &[Atom]) -> bool {
    let mut one = false;
    for atom in formula {
        if is_concluded(problem, atom.pred()) {
            if one {
                return true;
            }
            one = true;
        }
    }
    false
}

/// Returns whether the atoms of the formula are asked about one by one: those of a formula without variables that may have many lists of
/// proofs.
pub(crate) fn asks_apart(problem: &Problem, formula: &[Atom], variable_count: u32) -> bool
    ensures { IsTrue result → variable_count ≡ 0 }
{
    variable_count == 0 && are_many_concluded(problem, formula)
}

/// Returns the bound of the atom with the others after it, whose bound is given. `None` where none is known.
fn bound_with(
    alloc: Global,
    problem: &Problem,
    model: &Model,
    atom: &Atom,
    rest: Bound,
) -> Result<Option<Bound>, NoMemory>
    requires problem { IsValid problem.now }
    requires atom { IsAtomOf problem.now 0 atom.now }
    ensures { IfOk result (λ known. IfSome known (λ both. (others : List AtomValue) → All (IsAtomOf problem.now 0) others
        → IsBoundOfAtoms (setting_of problem.now model.now.atoms) others rest
        → IsBoundOfAtoms (setting_of problem.now model.now.atoms) (atom.now ∷ others) both)) }
{
    match count_shapes(alloc, problem, &[*atom], 0, model) {
        Ok(Some(count)) => Ok(beside(
            Bound {
                unfinished: count.unfinished,
                finished: count.finished,
            },
            rest,
        )),
        Ok(None) => Ok(None),
        Err(NoMemory) => Err(NoMemory),
    }
}

/// Returns how many shapes the loose gap proofs of the atoms have at most. `None` where no bound is known.
fn bound_of_atoms(
    alloc: Global,
    problem: &Problem,
    model: &Model,
    atoms: &[Atom],
) -> Result<Option<Bound>, NoMemory>
    requires problem { IsValid problem.now }
    requires atoms { All (IsAtomOf problem.now 0) atoms.now }
    ensures { IfOk result (λ known. IfSome known (IsBoundOfAtoms (setting_of problem.now model.now.atoms) atoms.now)) }
{
    let mut bound = Bound {
        unfinished: 0,
        finished: 1,
    };
    for passed in 0..atoms.len() {
        let atom = &atoms[atoms.len() - passed - 1];
        match bound_with(alloc, problem, model, atom, bound) {
            Ok(Some(both)) => bound = both,
            Ok(None) => return Ok(None),
            Err(NoMemory) => return Err(NoMemory),
        }
    }
    Ok(Some(bound))
}

/// Returns whether one of the patterns, which have no terms, closes no provable atom under some objects.
fn is_one_open(
    alloc: Global,
    limit: u32,
    patterns: &[GapPattern],
    provable: &Model,
) -> Result<bool, NoMemory>
    requires patterns { All (IsPlainPattern limit) patterns.now }
    requires provable { All IsGround provable.now.atoms }
    ensures { IfOk result (λ has. MatchBool has ((objects : List ℕ) × IsChosenIn (lists_of limit patterns.now) provable.now.atoms objects)
        (¬ ((objects : List ℕ) × IsChosenIn (lists_of limit patterns.now) provable.now.atoms objects))) }
{
    let no_sorts = Sorting {
        object_sorts: &[],
        wanted: &[],
    };
    let choices = choices_of(alloc, limit, &no_sorts, patterns, provable)?;
    Ok(!choices.as_slice().is_empty())
}

/// Puts the gaps of the atom into the set, and returns whether it has a gap proof.
fn insert_gaps(
    asker: &mut Asker,
    found: &mut Model,
    problem: &Problem,
    model: &Model,
    atom: &Atom,
) -> Result<bool, AskErr>
    requires problem { IsValid problem.now }
    requires atom { IsAtomOf problem.now 0 atom.now }
    ensures proved { IfOk result (λ has. MatchBool has (HasGapProof (setting_of problem.now model.now.atoms) atom.now)
        (¬ HasGapProof (setting_of problem.now model.now.atoms) atom.now)) }
    ensures found { IfOk result (λ has. (gap : AtomValue) → Contains found.new.atoms gap
        ↔ (Contains found.old.atoms gap ⊎ IsGapFor (setting_of problem.now model.now.atoms) atom.now gap)) }
    ensures unlimited { IfOk result (λ has. IsUnlimitedFor (setting_of problem.now model.now.atoms) atom.now) }
{
    let answer = ask_closings(asker, problem, &[*atom], 0, model)?;
    let limit = problem.objects;
    insert_missing_by(
        asker.alloc,
        found,
        limit,
        &answer.patterns,
        &answer.provable,
    )?;
    let has = is_one_open(asker.alloc, limit, &answer.patterns, &answer.provable)?;
    Ok(has)
}

/// Returns the gaps of the atoms together, or none where one of them has no gap proof. `None` where asking about one of them meets the
/// limit of shapes.
fn gaps_together(
    alloc: Global,
    problem: &Problem,
    model: &Model,
    atoms: &[Atom],
) -> Result<Option<Model>, NoMemory>
    requires problem { IsValid problem.now }
    requires atoms { All (IsAtomOf problem.now 0) atoms.now }
    ensures { IfOk result (λ known. IfSome known (λ gaps. AreGapsTogether (setting_of problem.now model.now.atoms) atoms.now gaps.atoms)) }
{
    let mut asker = Asker::new(alloc);
    let mut found = Model::new(alloc);
    let mut each_has = true;
    for atom in atoms {
        match insert_gaps(&mut asker, &mut found, problem, model, atom) {
            Ok(has) => each_has = each_has && has,
            Err(AskErr::ShapeLimit { .. }) => return Ok(None),
            Err(AskErr::NoMemory) => return Err(NoMemory),
        }
    }
    if !each_has {
        return Ok(Some(Model::new(alloc)));
    }
    Ok(Some(found))
}

/// Returns the gaps of a formula without variables that has no answer, where asking about its atoms one by one tells them. `None` says
/// nothing.
pub(crate) fn gaps_by_atoms(
    alloc: Global,
    problem: &Problem,
    formula: &[Atom],
    model: &Model,
) -> Result<Option<Model>, NoMemory>
    requires problem { IsValid problem.now }
    requires formula { All (IsAtomOf problem.now 0) formula.now }
    requires no_answer { ¬ IsAnswer (setting_of problem.now model.now.atoms) formula.now 0 }
    ensures { IfOk result (λ known. IfSome known (λ gaps. AreGapsOf (setting_of problem.now model.now.atoms) formula.now gaps.atoms)) }
{
    let bound = match bound_of_atoms(alloc, problem, model, formula) {
        Ok(Some(bound)) => bound,
        Ok(None) => return Ok(None),
        Err(NoMemory) => return Err(NoMemory),
    };
    if bound.unfinished >= problem.shapes {
        return Ok(None);
    }
    if bound.finished == 0 {
        return Ok(Some(Model::new(alloc)));
    }
    gaps_together(alloc, problem, model, formula)
}
