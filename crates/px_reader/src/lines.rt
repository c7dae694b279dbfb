//! The next line, and what all lines are once the last is read.
ghost use Rattle.std.specs.Prelude.{◌≡◌, ◌<◌, ◌&&◌, ◌∷◌, List, true, false, length, IfOk, IfSome, MatchOption};
ghost use Rattle.px_base.specs.Bounds.{u32_max};
ghost use Rattle.px_rooms.specs.States.{IsBuilding, first_state, rendering};
ghost use Rattle.px_script.specs.Faults.{over};
ghost use Rattle.px_script.specs.Ranges.{IsInRange};
ghost use Rattle.px_script.specs.declared.limits.Limit.TheVariants as limit;
ghost use Rattle.px_lines.specs.LineViews.{line_view};
ghost use Rattle.px_so_far.specs.Problems.{HasProblem};
ghost use Rattle.px_reader.specs.Common.{AllByRecursion, IsNameLexeme, spelling, after_line, option_map, chars, content_of, facts_of, begins_with_word, is_formed, line_of, AreInRange, HasFault, LineEnds, content, stage_view, declared_of, statement_view};
ghost use Rattle.px_script.specs.Lexemes.{Lexeme, name};
ghost use Rattle.px_script.specs.Limits.{is_word};
ghost use Rattle.px_lines.specs.Tokens.{lexeme_of};

use px_base::{NoMemory, Sequence};
use px_causes::{LineFault, PassedLimit, fault, has_too_many_facts};
use px_effects::declare;
use px_lines::{Line, Token, are_tokens, first_token, formed_line, is_word};
use px_names::Names;
use px_ops::Model;
use px_rooms::{Building, RoomErr, RoomWorld};
use px_script::{Limit, Script};
use px_so_far::SoFar;
use px_statements::{Statement, statement};
use px_world::Thing;
use std::alloc::Global;
use std::mem;

/// Returns the word that a first token is, where it may begin a line.
fn word_of<'a>(so_far: &SoFar, first: Token<'a>) -> Option<&'a str>
    ensures { MatchOption result
        ((others : List Lexeme) → begins_with_word (declared_of so_far.now) (lexeme_of first.entry ∷ others) ≡ false)
        (λ word. (lexeme_of first.entry ≡ name word.now) × (is_word (declared_of so_far.now).version word.now ≡ true)) }
{
    match first {
        Token::Name(word) if is_word(so_far.version, word) => Some(word),
        _ => None,
    }
}

/// Reads the next line, and returns its fault, if it has one. A line without a token has none, and leaves all as it is.
///
/// # Errors
/// `NoMemory` where there is no memory for the line.
pub fn read_line(
    so_far: &mut SoFar,
    stage: &[&str],
    number: u32,
    line: &str,
) -> Result<Option<LineFault>, NoMemory>
    requires { AreInRange (declared_of so_far.old) }
    ensures { IfOk result (LineEnds (stage_view stage.now) number (declared_of so_far.old) (chars line.now) (declared_of so_far.new)) }
{
    let Ok(found) = first_token(line) else {
        return Ok(Some(LineFault::BadToken));
    };
    let Some((first, rest)) = found else {
        return Ok(None);
    };
    let Some(word) = word_of(so_far, first) else {
        if are_tokens(rest) {
            return Ok(Some(LineFault::UnknownWord));
        }
        return Ok(Some(LineFault::BadToken));
    };
    let with_building = so_far.has_building();
    let Some(formed) = formed_line(so_far.alloc, with_building, word, rest)? else {
        return Ok(Some(LineFault::BadToken));
    };
    match statement(with_building, &formed) {
        Some(statement) => read_statement(so_far, stage, number, &formed, statement),
        None => Ok(Some(LineFault::BadToken)),
    }
}

fn read_statement(
    so_far: &mut SoFar,
    stage: &[&str],
    number: u32,
    line: &Line<'_>,
    statement: Statement<'_, '_>,
) -> Result<Option<LineFault>, NoMemory>
    requires range { AreInRange (declared_of so_far.old) }
    requires same { line_of (statement_view statement) ≡ line_view line.now }
    requires formed { is_formed (declared_of so_far.old) (line_of (statement_view statement)) ≡ true }
    requires named { AllByRecursion IsNameLexeme (spelling (statement_view statement)) }
    ensures fault { IfOk result (HasFault (stage_view stage.now) (declared_of so_far.old) (statement_view statement.entry)) }
    ensures declared { IfOk result (λ fault. MatchOption fault
        (declared_of so_far.new ≡ after_line number (declared_of so_far.old) (statement_view statement.entry)) (λ _. Unit {0})) }
{
    match fault(so_far, stage, line, statement)? {
        Some(fault) => Ok(Some(fault)),
        None => {
            let own_domain = so_far.own_domain || line.row.place.excludes_building();
            let is_fact = statement.is_fact();
            declare(so_far, number, statement)?;
            so_far.own_domain = own_domain;
            so_far.begun = true;
            if passes_facts(so_far, is_fact) {
                return Ok(Some(LineFault::Limit(PassedLimit::Most(Limit::Facts))));
            }
            Ok(None)
        }
    }
}

fn building(things: Option<Vec<Thing>>) -> Option<Building>
    ensures { option_map (λ building. building.things) result ≡ option_map (λ things. things.items) things }
{
    things.map(|things| Building {
        things: Sequence::from_vec(things),
    })
}

/// Returns the facts at first: those of the script's own lines, or those of its building's first state.
#[tactic(auto, using(crate::proofs::Finishing::facts_made))]
fn first_facts(alloc: Global, building: &Option<Building>, own: Model) -> Result<Model, NoMemory>
    requires building { IfSome building.now (λ building. IsBuilding building.things) }
    requires short { IfSome building.now (λ building. length building.things < u32_max) }
    ensures { IfOk result (λ facts. facts.atoms ≡ facts_of own.atoms (option_map (λ building. building.things) building.now)) }
{
    match building {
        None => Ok(own),
        Some(building) => facts_of_building(alloc, building),
    }
}

/// Returns the facts of a building's first state.
fn facts_of_building(alloc: Global, building: &Building) -> Result<Model, NoMemory>
    requires short { length building.now.things < u32_max }
    requires building { IsBuilding building.now.things }
    ensures { IfOk result (λ facts. facts.atoms ≡ rendering (first_state building.now.things)) }
{
    match RoomWorld::new(alloc, building) {
        Ok(world) => world.render(alloc),
        Err(RoomErr::NoMemory) => Err(NoMemory),
        Err(RoomErr::NoSuchThing) => unreachable!(),
    }
}

/// Returns whether the line that was added passes the limit of facts, which only one of facts can.
fn passes_facts(so_far: &SoFar, is_fact: bool) -> bool
    ensures { result ≡ (is_fact && (over (declared_of so_far.now) limit.Facts (length (declared_of so_far.now).facts)).0) }
{
    is_fact && has_too_many_facts(so_far)
}

/// Returns the script, where no block is open. What it has is taken from what the lines have declared.
///
/// # Errors
/// `NoMemory` where there is no memory for it.
#[tactic(auto, using(crate::proofs::Finishing::content_is, crate::proofs::Finishing::content_in_range))]
pub fn finish(so_far: &mut SoFar) -> Result<Script, NoMemory>
    requires range { IsInRange (content_of (declared_of so_far.old)) }
    requires problem { HasProblem (declared_of so_far.old) }
    ensures { IfOk result (λ script. content script ≡ content_of (declared_of so_far.old)) }
{
    let alloc = so_far.alloc;
    let names = Names::new(alloc)?;
    let problem = so_far.problem_here()?;
    let building = building(so_far.things.take());
    let own_facts = mem::replace(&mut so_far.facts, Model::new(alloc));
    let facts = first_facts(alloc, &building, own_facts)?;
    Ok(Script {
        version: so_far.version,
        names: mem::replace(&mut so_far.names, names),
        problem,
        facts,
        building,
        tables: Sequence::from_vec(mem::replace(&mut so_far.saved, Vec::new(alloc))),
        commands: Sequence::from_vec(mem::replace(&mut so_far.commands, Vec::new(alloc))),
    })
}
