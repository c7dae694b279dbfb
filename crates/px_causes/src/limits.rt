//! The limits of a script.
ghost use Rattle.std.specs.Prelude.{◌≡◌, ◌<◌, ◌+◌, ◌^◌, ◌||◌, [], ◌∷◌, length, map, nat_lt, IfOk, if◌then◌else◌, Some, None};
ghost use Rattle.px_script.specs.Causes.{is_long, is_numbered};
ghost use Rattle.px_script.specs.Items.{declared_in};
ghost use Rattle.px_script.specs.declared.limits.Limit.TheVariants as limit;
ghost use Rattle.px_script.specs.Faults.{any_outside, has_great_number, heights_of, highest, numbers_of_part, steps_here};
ghost use Rattle.px_script.specs.Limits.{greatest, of_executor, of_tree};
ghost use Rattle.px_script.specs.Statements as spec;
ghost use Rattle.px_lines.specs.ItemViews.{part_view, rest_view, said_view};
ghost use Rattle.px_lines.specs.LineViews.{line_view};
ghost use Rattle.px_causes.specs.Common.{IsFirstLimit, early_own, flat_map, group_is_long, list_any, has_long_name, Declared, operator_here, variable_names_of, own_limits, over, outside, disturbance_limits, line_of, AreInRange, early_limits, grown_by, declared_of, signed_view, statement_view, string_bytes, text_of};

use crate::line_fault::PassedLimit;
use px_base::NoMemory;
use px_lines::{Line, Part, Rest, Said, SignedAtom};
use px_names::Kind;
use px_script::{
    EXECUTORS, LAST_NUMBER, LAST_TURN, LAST_VERSION, Limit, MOST_TREE_NODES, NAME_BYTES, Named,
    greatest, most_script_nodes, most_script_weight,
};
use px_so_far::{SoFar, any_part_great, greatest_height, has_many_variables};
use px_statements::Statement;
use px_terms::{MOST_HEIGHT, MOST_SHAPES};

/// Returns whether names of the kind have numbers: all but those of parameters.
fn is_numbered(kind: Named) -> bool
    ensures { result ≡ is_numbered kind }
{
    !matches!(kind, Named::Parameter)
}

fn is_long(name: &str) -> bool
    ensures { result ≡ is_long 1 name.now }
{
    name.len() > NAME_BYTES as usize
}

#[tactic(auto, using(crate::proofs::LineTests::seen))]
fn any_long(names: &[&str]) -> bool
    ensures { result ≡ list_any (is_long 1) (map text_of names.now) }
{
    each_long(names)
}

fn each_long(names: &[&str]) -> bool
    ensures { result ≡ list_any (λ name. is_long 1 name.now) names.now }
{
    names.iter().any(|name| is_long(name))
}

#[tactic(auto, using(crate::proofs::LineTests::single))]
fn one_is_long(one: &Said<'_>) -> bool
    ensures { result ≡ list_any group_is_long (declared_in (said_view one.now)) }
{
    match one {
        Said::New(kind, name) => is_numbered(*kind) && is_long(name),
        _ => false,
    }
}

fn any_one_long(ones: &[Said<'_>]) -> bool
    ensures { result ≡ list_any (λ one. list_any group_is_long (declared_in (said_view one))) ones.now }
{
    ones.iter().any(|one| one_is_long(one))
}

#[tactic(auto, using(crate::proofs::LineTests::single))]
fn rest_is_long(last: &Rest<'_>) -> bool
    ensures { result ≡ list_any group_is_long (flat_map declared_in (rest_view last.now)) }
{
    match last {
        Rest::Declared(kind, names) => is_numbered(*kind) && any_long(names),
        Rest::Listed(kind, names) => is_numbered(*kind) && any_long(names),
        _ => false,
    }
}

/// Returns whether a name that the line declares, but for parameters, is too long.
#[tactic(auto, using(crate::proofs::LineTests::declared))]
fn has_long_name(line: &Line<'_>) -> bool
    ensures { (d : Declared) → result ≡ has_long_name d (line_view line.now) }
{
    any_one_long(&line.ones) || rest_is_long(&line.last)
}

/// Returns the limit, if it is passed.
fn passed(is_passed: bool, limit: PassedLimit) -> Option<PassedLimit>
    ensures { result ≡ (if is_passed then Some limit else None) }
{
    if is_passed { Some(limit) } else { None }
}

/// Returns the limit of numbers, if this one is outside its bounds.
fn outside(number: u32, least: u32, most: u32) -> Option<PassedLimit>
    ensures { IsFirstLimit result (outside (record { least = least; most = most }) number ∷ []) }
{
    passed(number < least || most < number, PassedLimit::Bounds)
}

/// Returns the limit of numbers, if one of these is the number of no executor.
fn any_outside(numbers: &[u32]) -> Option<PassedLimit>
    ensures { result ≡ (if (any_outside of_executor numbers.now).0 then Some PassedLimit.Bounds else None) }
{
    passed(names_no_executor(numbers), PassedLimit::Bounds)
}

fn names_no_executor(numbers: &[u32]) -> bool
    ensures { result ≡ (any_outside of_executor numbers.now).0 }
{
    numbers
        .iter()
        .any(|number| *number < 1 || EXECUTORS < *number)
}

/// Returns the limit of numbers, if one of an edit's is greater than it may be.
fn great_number(prefix: u32, pairs: &[(u32, u32)]) -> Option<PassedLimit>
    ensures { result ≡ (if (has_great_number (prefix ∷ flat_map (λ pair. pair.0 ∷ pair.1 ∷ []) pairs.now)).0
        then Some PassedLimit.Bounds else None) }
{
    passed(
        prefix > LAST_NUMBER || any_great(pairs),
        PassedLimit::Bounds,
    )
}

fn any_great(pairs: &[(u32, u32)]) -> bool
    ensures { result ≡ list_any (nat_lt LAST_NUMBER) (flat_map (λ pair. pair.0 ∷ pair.1 ∷ []) pairs.now) }
{
    each_great(pairs)
}

fn each_great(pairs: &[(u32, u32)]) -> bool
    ensures { result ≡ list_any (λ pair. nat_lt LAST_NUMBER pair.0 || nat_lt LAST_NUMBER pair.1) pairs.now }
{
    pairs
        .iter()
        .any(|pair| pair.0 > LAST_NUMBER || pair.1 > LAST_NUMBER)
}

/// Returns the least number of the limits that the line passes, but for that of facts.
pub fn passed_limit(
    so_far: &SoFar,
    line: &Line<'_>,
    statement: Statement<'_, '_>,
) -> Result<Option<PassedLimit>, NoMemory>
    requires range { AreInRange (declared_of so_far.now) }
    requires same { line_of (statement_view statement) ≡ line_view line.now }
    ensures { IfOk result (λ found. IsFirstLimit found (early_limits (declared_of so_far.now) (statement_view statement.entry))) }
{
    if has_long_name(line) {
        return Ok(Some(PassedLimit::Most(Limit::NameBytes)));
    }
    own_limit(so_far, statement)
}

/// Returns the least number of the limits that the line passes, but for those of long names and of facts.
fn own_limit(so_far: &SoFar, statement: Statement<'_, '_>) -> Result<Option<PassedLimit>, NoMemory>
    requires range { AreInRange (declared_of so_far.now) }
    ensures { IfOk result (λ found. IsFirstLimit found (early_own (declared_of so_far.now) (statement_view statement.entry))) }
{
    let limit = match statement {
        Statement::Script(version) => outside(version, 1, LAST_VERSION),
        Statement::Object(names) => objects_limit(so_far, names.len()),
        Statement::Room(_) | Statement::Door(_, _, _, _) | Statement::Box(_, _) => {
            objects_limit(so_far, 1)
        }
        Statement::Predicate(_, arity) => predicate_limit(so_far, arity),
        Statement::Axiom(literals) => axiom_limit(so_far, literals)?,
        Statement::Operator(_, parameters) => operator_limit(so_far, parameters.len()),
        Statement::Pre(_) | Statement::Delete(_) | Statement::Add(_) => {
            over(so_far, grown(so_far, statement), Limit::OperatorAtoms)
        }
        Statement::Height(height) => outside(height, 1, MOST_HEIGHT),
        Statement::Nodes(nodes) => outside(nodes, 1, most_script_nodes(so_far.version)),
        Statement::Shapes(shapes) => outside(shapes, 2, MOST_SHAPES),
        Statement::Weight(weight) => outside(weight, 0, most_script_weight(so_far.version)),
        Statement::Plan(_, goal) => plan_limit(so_far, goal)?,
        Statement::DisturbAtoms(turn, _, edits) => disturbance_limit(so_far, turn, edits.len()),
        Statement::DisturbRooms(turn, _, edits) => disturbance_limit(so_far, turn, edits.len()),
        Statement::Learn(_, _) | Statement::Ask(_, _) | Statement::Run(_, _) | Statement::Facts =>
            commands_limit(so_far),
        Statement::Table(_, parameters) => table_limit(so_far, parameters),
        Statement::Step(_, _) => step_limit(so_far),
        Statement::Goal(atoms) => over(so_far, atoms.len(), Limit::GoalAtoms),
        Statement::Proof(parts) => proof_limit(so_far, parts)?,
        Statement::Edit(_, _, prefix, pairs) => edit_limit(so_far, prefix, pairs),
        Statement::Duo(_, _, numbers) => duo_limit(so_far, numbers),
        Statement::Pursue(_, goal) => plan_limit(so_far, goal)?,
        Statement::Tree(_, nodes, goal) => tree_limit(so_far, nodes, goal)?,
        Statement::Sort(_, objects) => sort_limit(so_far, objects.len()),
        Statement::Building
        | Statement::Robot(_)
        | Statement::End
        | Statement::Fact(_)
        | Statement::Param(_, _) => None,
    };
    Ok(limit)
}

/// Returns the limit, if there are more in the script than it allows.
fn over(so_far: &SoFar, count: usize, limit: Limit) -> Option<PassedLimit>
    ensures { result ≡ (if nat_lt (greatest so_far.now.version limit) count then Some (PassedLimit.Most limit) else None) }
{
    let most = greatest(so_far.version, limit) as usize;
    passed(count > most, PassedLimit::Most(limit))
}

fn objects_limit(so_far: &SoFar, new: usize) -> Option<PassedLimit>
    requires { new < 2 ^ 63 }
    ensures { IsFirstLimit result (over (declared_of so_far.now) limit.Objects (length so_far.now.names.objects + new) ∷ []) }
{
    let count = so_far.names.count(Kind::Object) as usize;
    over(so_far, count + new, Limit::Objects)
}

#[tactic(auto, using(crate::proofs::LineTests::lengths))]
fn sort_limit(so_far: &SoFar, new: usize) -> Option<PassedLimit>
    requires { new < 2 ^ 63 }
    ensures { IsFirstLimit result (over (declared_of so_far.now) limit.Objects (length so_far.now.names.objects + new)
        ∷ over (declared_of so_far.now) limit.Sorts (length (map string_bytes so_far.now.sorts.items) + 1) ∷ []) }
{
    let count = so_far.names.count(Kind::Object) as usize;
    over(so_far, count + new, Limit::Objects).or(over(so_far, so_far.sorts.len() + 1, Limit::Sorts))
}

fn predicate_limit(so_far: &SoFar, arity: u32) -> Option<PassedLimit>
    ensures { IsFirstLimit result (over (declared_of so_far.now) limit.Predicates (length so_far.now.names.predicates + 1)
        ∷ over (declared_of so_far.now) limit.Arity arity ∷ []) }
{
    let count = so_far.names.count(Kind::Predicate) as usize;
    over(so_far, count + 1, Limit::Predicates).or(over(so_far, arity as usize, Limit::Arity))
}

fn axiom_limit(so_far: &SoFar, literals: &[SignedAtom<'_>]) -> Result<Option<PassedLimit>, NoMemory>
    ensures { IfOk result (λ found. IsFirstLimit found (own_limits (declared_of so_far.now)
        (spec.«axiom» (map signed_view literals.now)))) }
{
    let many = has_many_variables(so_far.alloc, literals)?;
    let count = so_far.axioms.count() as usize;
    Ok(
        over(so_far, count + 1, Limit::Axioms)
            .or(over(so_far, literals.len(), Limit::Literals))
            .or(passed(many, PassedLimit::Most(Limit::Variables))),
    )
}

fn operator_limit(so_far: &SoFar, parameters: usize) -> Option<PassedLimit>
    ensures { IsFirstLimit result (over (declared_of so_far.now) limit.Operators (length so_far.now.names.operators + 1)
        ∷ over (declared_of so_far.now) limit.Parameters parameters ∷ []) }
{
    let count = so_far.names.count(Kind::Operator) as usize;
    over(so_far, count + 1, Limit::Operators).or(over(so_far, parameters, Limit::Parameters))
}

fn plan_limit(so_far: &SoFar, goal: &[SignedAtom<'_>]) -> Result<Option<PassedLimit>, NoMemory>
    ensures { IfOk result (λ found. IsFirstLimit found (over (declared_of so_far.now) limit.Variables
        (length (variable_names_of (map signed_view goal.now))) ∷ over (declared_of so_far.now) limit.GoalAtoms (length goal.now)
        ∷ over (declared_of so_far.now) limit.Commands (length so_far.now.commands.items + 1) ∷ [])) }
{
    let many = has_many_variables(so_far.alloc, goal)?;
    Ok(
        passed(many, PassedLimit::Most(Limit::Variables))
            .or(over(so_far, goal.len(), Limit::GoalAtoms))
            .or(commands_over(so_far)),
    )
}

fn tree_limit(
    so_far: &SoFar,
    nodes: u32,
    goal: &[SignedAtom<'_>],
) -> Result<Option<PassedLimit>, NoMemory>
    ensures { IfOk result (λ found. IsFirstLimit found (over (declared_of so_far.now) limit.Variables
        (length (variable_names_of (map signed_view goal.now))) ∷ over (declared_of so_far.now) limit.GoalAtoms (length goal.now)
        ∷ over (declared_of so_far.now) limit.Commands (length so_far.now.commands.items + 1) ∷ outside of_tree nodes ∷ [])) }
{
    let limit = plan_limit(so_far, goal)?;
    Ok(limit.or(outside(nodes, 1, MOST_TREE_NODES)))
}

fn commands_over(so_far: &SoFar) -> Option<PassedLimit>
    ensures { result ≡ (if nat_lt (greatest so_far.now.version limit.Commands) (length so_far.now.commands.items + 1)
        then Some (PassedLimit.Most limit.Commands) else None) }
{
    over(so_far, so_far.commands.len() + 1, Limit::Commands)
}

fn commands_limit(so_far: &SoFar) -> Option<PassedLimit>
    ensures { IsFirstLimit result (over (declared_of so_far.now) limit.Commands (length so_far.now.commands.items + 1) ∷ []) }
{
    commands_over(so_far)
}

fn edit_limit(so_far: &SoFar, prefix: u32, pairs: &[(u32, u32)]) -> Option<PassedLimit>
    ensures { IsFirstLimit result (over (declared_of so_far.now) limit.Commands (length so_far.now.commands.items + 1)
        ∷ has_great_number (prefix ∷ flat_map (λ pair. pair.0 ∷ pair.1 ∷ []) pairs.now)
        ∷ over (declared_of so_far.now) limit.Pairs (length pairs.now) ∷ []) }
{
    commands_over(so_far)
        .or(great_number(prefix, pairs))
        .or(over(so_far, pairs.len(), Limit::Pairs))
}

fn table_limit(so_far: &SoFar, parameters: u32) -> Option<PassedLimit>
    ensures { IsFirstLimit result (has_great_number (parameters ∷ [])
        ∷ over (declared_of so_far.now) limit.Tables (length so_far.now.saved.items + 1) ∷ []) }
{
    great_number(parameters, &[]).or(over(so_far, so_far.saved.len() + 1, Limit::Tables))
}

fn step_limit(so_far: &SoFar) -> Option<PassedLimit>
    ensures { IsFirstLimit result (over (declared_of so_far.now) limit.TableSteps (steps_here (declared_of so_far.now).block + 1) ∷ []) }
{
    over(so_far, steps_here(so_far) + 1, Limit::TableSteps)
}

/// Returns how many steps the table has whose block is open.
fn steps_here(so_far: &SoFar) -> usize
    ensures count { result ≡ steps_here (declared_of so_far.now).block }
    ensures few { result < 2 ^ 63 }
{
    match so_far.open_table() {
        Some(table) => table.steps.len(),
        None => 0,
    }
}

fn proof_limit(so_far: &SoFar, parts: &[Part<'_>]) -> Result<Option<PassedLimit>, NoMemory>
    ensures { IfOk result (λ found. IsFirstLimit found (has_great_number (flat_map numbers_of_part (map part_view parts.now))
        ∷ over (declared_of so_far.now) limit.ProofHeight (highest (heights_of (map part_view parts.now))) ∷ [])) }
{
    let height = greatest_height(so_far.alloc, parts)?;
    let great = passed(any_part_great(parts), PassedLimit::Bounds);
    Ok(great.or(over(so_far, height, Limit::ProofHeight)))
}

fn disturbance_limit(so_far: &SoFar, turn: u32, edits: usize) -> Option<PassedLimit>
    ensures { IsFirstLimit result (disturbance_limits (declared_of so_far.now) turn edits) }
{
    commands_over(so_far)
        .or(over(so_far, so_far.disturbs as usize + 1, Limit::Disturbs))
        .or(over(so_far, edits, Limit::Edits))
        .or(outside(turn, 1, LAST_TURN))
}

fn duo_limit(so_far: &SoFar, numbers: &[u32]) -> Option<PassedLimit>
    ensures { IsFirstLimit result (over (declared_of so_far.now) limit.Commands (length so_far.now.commands.items + 1)
        ∷ any_outside of_executor numbers.now ∷ over (declared_of so_far.now) limit.Events (length numbers.now) ∷ []) }
{
    commands_over(so_far)
        .or(any_outside(numbers))
        .or(over(so_far, numbers.len(), Limit::Events))
}

/// Returns how many atoms a list of the open operator has with the line's.
fn grown(so_far: &SoFar, statement: Statement<'_, '_>) -> usize
    ensures { result ≡ grown_by (operator_here (declared_of so_far.now).block) (statement_view statement.entry) }
{
    let Some(operator) = so_far.open_operator() else {
        return 0;
    };
    match statement {
        Statement::Pre(atoms) => operator.pre.len() + atoms.len(),
        Statement::Delete(atoms) => operator.delete.len() + atoms.len(),
        Statement::Add(atoms) => operator.add.len() + atoms.len(),
        _ => 0,
    }
}

/// Returns whether there are more different facts than a script of the version may have.
pub fn has_too_many_facts(so_far: &SoFar) -> bool
    ensures { result ≡ (over (declared_of so_far.now) limit.Facts (length (declared_of so_far.now).facts)).0 }
{
    so_far.facts.atoms().len() > greatest(so_far.version, Limit::Facts) as usize
}
