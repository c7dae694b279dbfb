//! The statement that a line is.
ghost use Rattle.std.specs.Prelude.{◌≡◌, ◌++◌, ℕ, List, ◌∷◌, Some, None, codes, if◌then◌else◌, length, map, IfSome};
ghost use Rattle.px_script.specs.Items as items;
ghost use Rattle.px_script.specs.Statements as spec;
ghost use Rattle.px_script.specs.Statements.{time_word};
ghost use Rattle.px_script.specs.Rows.{entries_of_three, entries_of_two, entry_among, entry_of, make_ask, make_atoms, make_box, make_disturb, make_door, make_duo, make_edit, make_learn, make_nothing, make_number, make_object, make_operator, make_param, make_plan, make_predicate, make_proof, make_pursue, make_robot, make_room, make_run, make_sort, make_step, make_table, make_tree, row_among, row_of, statement_of};
ghost use Rattle.px_lines.specs.ItemViews.{rest_view, said_items};
ghost use Rattle.px_lines.specs.LineViews.{line_view, IsShaped};
ghost use Rattle.px_statements.specs.Common.{UndoesLineOf, bytes_eq, option_and_then, option_map, time_of, signed_view, statement_view};

use crate::statement_kinds::Statement;
use px_lines::{Line, Rest, Said, SignedAtom, open_of};
use px_script::{About, Named};

fn number(ones: &[Said<'_>], last: &Rest<'_>) -> Option<u32>
    requires { length ones.now ≡ 1 }
    ensures { (f : ℕ → spec.Statement) → option_map f result ≡ make_number f (said_items ones.now last.now) }
{
    match ones {
        [Said::Number(number)] => match last {
            Rest::Nothing => Some(*number),
            _ => None,
        },
        _ => None,
    }
}

fn atoms<'line, 'text>(
    ones: &[Said<'_>],
    last: &'line Rest<'text>,
) -> Option<&'line [SignedAtom<'text>]>
    requires { length ones.now ≡ 0 }
    ensures { (f : List items.SignedAtom → spec.Statement)
        → option_map (λ atoms. f (map signed_view atoms.now)) result ≡ make_atoms f (said_items ones.now last.now) }
{
    match ones {
        [] => match last {
            Rest::Atoms(atoms) => Some(atoms.as_slice()),
            _ => None,
        },
        _ => None,
    }
}

/// Returns whether a line has nothing after its word.
fn is_bare(ones: &[Said<'_>], last: &Rest<'_>) -> bool
    requires { length ones.now ≡ 0 }
    ensures { (s : spec.Statement) → (if result then Some s else None) ≡ make_nothing s (said_items ones.now last.now) }
{
    match ones {
        [] => matches!(last, Rest::Nothing),
        _ => false,
    }
}

fn script<'line, 'text>(
    ones: &[Said<'text>],
    last: &'line Rest<'text>,
) -> Option<Statement<'line, 'text>>
    requires { length ones.now ≡ 1 }
    ensures { option_map statement_view result ≡ make_number spec.script (said_items ones.now last.now) }
{
    Some(Statement::Script(number(ones, last)?))
}

fn object<'line, 'text>(
    ones: &[Said<'text>],
    last: &'line Rest<'text>,
) -> Option<Statement<'line, 'text>>
    requires { length ones.now ≡ 0 }
    ensures { option_map statement_view result ≡ make_object (said_items ones.now last.now) }
{
    match ones {
        [] => match last {
            Rest::Declared(Named::Object, names) => Some(Statement::Object(names.as_slice())),
            _ => None,
        },
        _ => None,
    }
}

fn predicate<'line, 'text>(
    ones: &[Said<'text>],
    last: &'line Rest<'text>,
) -> Option<Statement<'line, 'text>>
    requires { length ones.now ≡ 2 }
    ensures { option_map statement_view result ≡ make_predicate (said_items ones.now last.now) }
{
    match ones {
        [Said::New(Named::Predicate, name), Said::Number(arity)] => match last {
            Rest::Nothing => Some(Statement::Predicate(name, *arity)),
            _ => None,
        },
        _ => None,
    }
}

fn axiom<'line, 'text>(
    ones: &[Said<'text>],
    last: &'line Rest<'text>,
) -> Option<Statement<'line, 'text>>
    requires { length ones.now ≡ 0 }
    ensures { option_map statement_view result ≡ make_atoms spec.«axiom» (said_items ones.now last.now) }
{
    Some(Statement::Axiom(atoms(ones, last)?))
}

fn operator<'line, 'text>(
    ones: &[Said<'text>],
    last: &'line Rest<'text>,
) -> Option<Statement<'line, 'text>>
    requires { length ones.now ≡ 1 }
    ensures { option_map statement_view result ≡ make_operator (said_items ones.now last.now) }
{
    match ones {
        [Said::New(Named::Operator, name)] => match last {
            Rest::Listed(Named::Parameter, parameters) => {
                Some(Statement::Operator(name, parameters.as_slice()))
            }
            _ => None,
        },
        _ => None,
    }
}

fn pre<'line, 'text>(
    ones: &[Said<'text>],
    last: &'line Rest<'text>,
) -> Option<Statement<'line, 'text>>
    requires { length ones.now ≡ 0 }
    ensures { option_map statement_view result ≡ make_atoms spec.pre (said_items ones.now last.now) }
{
    Some(Statement::Pre(atoms(ones, last)?))
}

fn delete<'line, 'text>(
    ones: &[Said<'text>],
    last: &'line Rest<'text>,
) -> Option<Statement<'line, 'text>>
    requires { length ones.now ≡ 0 }
    ensures { option_map statement_view result ≡ make_atoms spec.delete (said_items ones.now last.now) }
{
    Some(Statement::Delete(atoms(ones, last)?))
}

fn add<'line, 'text>(
    ones: &[Said<'text>],
    last: &'line Rest<'text>,
) -> Option<Statement<'line, 'text>>
    requires { length ones.now ≡ 0 }
    ensures { option_map statement_view result ≡ make_atoms spec.add (said_items ones.now last.now) }
{
    Some(Statement::Add(atoms(ones, last)?))
}

fn building<'line, 'text>(
    ones: &[Said<'text>],
    last: &'line Rest<'text>,
) -> Option<Statement<'line, 'text>>
    requires { length ones.now ≡ 0 }
    ensures { option_map statement_view result ≡ make_nothing spec.building (said_items ones.now last.now) }
{
    if is_bare(ones, last) {
        Some(Statement::Building)
    } else {
        None
    }
}

fn room<'line, 'text>(
    ones: &[Said<'text>],
    last: &'line Rest<'text>,
) -> Option<Statement<'line, 'text>>
    requires { length ones.now ≡ 1 }
    ensures { option_map statement_view result ≡ make_room (said_items ones.now last.now) }
{
    match ones {
        [Said::New(Named::Room, name)] => match last {
            Rest::Nothing => Some(Statement::Room(name)),
            _ => None,
        },
        _ => None,
    }
}

fn door<'line, 'text>(
    ones: &[Said<'text>],
    last: &'line Rest<'text>,
) -> Option<Statement<'line, 'text>>
    requires { length ones.now ≡ 4 }
    ensures { option_map statement_view result ≡ make_door (said_items ones.now last.now) }
{
    match ones {
        [
            Said::New(Named::Door, name),
            Said::Known(Named::Room, one),
            Said::Known(Named::Room, other),
            Said::The(state),
        ] => match last {
            Rest::Nothing => Some(Statement::Door(name, one, other, open_of(state)?)),
            _ => None,
        },
        _ => None,
    }
}

fn box_in<'line, 'text>(
    ones: &[Said<'text>],
    last: &'line Rest<'text>,
) -> Option<Statement<'line, 'text>>
    requires { length ones.now ≡ 2 }
    ensures { option_map statement_view result ≡ make_box (said_items ones.now last.now) }
{
    match ones {
        [Said::New(Named::Box, name), Said::Known(Named::Room, room)] => match last {
            Rest::Nothing => Some(Statement::Box(name, room)),
            _ => None,
        },
        _ => None,
    }
}

fn robot<'line, 'text>(
    ones: &[Said<'text>],
    last: &'line Rest<'text>,
) -> Option<Statement<'line, 'text>>
    requires { length ones.now ≡ 1 }
    ensures { option_map statement_view result ≡ make_robot (said_items ones.now last.now) }
{
    match ones {
        [Said::Known(Named::Room, room)] => match last {
            Rest::Nothing => Some(Statement::Robot(room)),
            _ => None,
        },
        _ => None,
    }
}

fn end<'line, 'text>(
    ones: &[Said<'text>],
    last: &'line Rest<'text>,
) -> Option<Statement<'line, 'text>>
    requires { length ones.now ≡ 0 }
    ensures { option_map statement_view result ≡ make_nothing spec.end (said_items ones.now last.now) }
{
    if is_bare(ones, last) {
        Some(Statement::End)
    } else {
        None
    }
}

fn fact<'line, 'text>(
    ones: &[Said<'text>],
    last: &'line Rest<'text>,
) -> Option<Statement<'line, 'text>>
    requires { length ones.now ≡ 0 }
    ensures { option_map statement_view result ≡ make_atoms spec.fact (said_items ones.now last.now) }
{
    Some(Statement::Fact(atoms(ones, last)?))
}

fn height<'line, 'text>(
    ones: &[Said<'text>],
    last: &'line Rest<'text>,
) -> Option<Statement<'line, 'text>>
    requires { length ones.now ≡ 1 }
    ensures { option_map statement_view result ≡ make_number spec.height (said_items ones.now last.now) }
{
    Some(Statement::Height(number(ones, last)?))
}

fn nodes<'line, 'text>(
    ones: &[Said<'text>],
    last: &'line Rest<'text>,
) -> Option<Statement<'line, 'text>>
    requires { length ones.now ≡ 1 }
    ensures { option_map statement_view result ≡ make_number spec.nodes (said_items ones.now last.now) }
{
    Some(Statement::Nodes(number(ones, last)?))
}

fn shapes<'line, 'text>(
    ones: &[Said<'text>],
    last: &'line Rest<'text>,
) -> Option<Statement<'line, 'text>>
    requires { length ones.now ≡ 1 }
    ensures { option_map statement_view result ≡ make_number spec.shapes (said_items ones.now last.now) }
{
    Some(Statement::Shapes(number(ones, last)?))
}

fn weight<'line, 'text>(
    ones: &[Said<'text>],
    last: &'line Rest<'text>,
) -> Option<Statement<'line, 'text>>
    requires { length ones.now ≡ 1 }
    ensures { option_map statement_view result ≡ make_number spec.weight (said_items ones.now last.now) }
{
    Some(Statement::Weight(number(ones, last)?))
}

fn plan<'line, 'text>(
    ones: &[Said<'text>],
    last: &'line Rest<'text>,
) -> Option<Statement<'line, 'text>>
    requires { length ones.now ≡ 1 }
    ensures { option_map statement_view result ≡ make_plan (said_items ones.now last.now) }
{
    match ones {
        [Said::New(Named::Plan, name)] => match last {
            Rest::Atoms(goal) => Some(Statement::Plan(name, goal.as_slice())),
            _ => None,
        },
        _ => None,
    }
}

fn learn<'line, 'text>(
    ones: &[Said<'text>],
    last: &'line Rest<'text>,
) -> Option<Statement<'line, 'text>>
    requires { length ones.now ≡ 3 }
    ensures { option_map statement_view result ≡ make_learn (said_items ones.now last.now) }
{
    match ones {
        [
            Said::New(Named::Table, name),
            Said::The(word),
            Said::Known(Named::Plan, source),
        ] => match last {
            Rest::Nothing => learned(name, word, source),
            _ => None,
        },
        _ => None,
    }
}

fn learned<'line, 'text>(
    name: &'text str,
    word: &str,
    source: &'text str,
) -> Option<Statement<'line, 'text>>
    ensures { option_map statement_view result
        ≡ (if bytes_eq word.now (codes "from") then Some (spec.learn name.now source.now) else None) }
{
    if word == "from" {
        Some(Statement::Learn(name, source))
    } else {
        None
    }
}

/// Returns the command that asks about the table that a line names alone.
fn ask<'line, 'text>(
    about: About,
    ones: &[Said<'text>],
    last: &'line Rest<'text>,
) -> Option<Statement<'line, 'text>>
    requires { length ones.now ≡ 1 }
    ensures { option_map statement_view result ≡ make_ask about (said_items ones.now last.now) }
{
    match ones {
        [Said::Known(Named::Table, name)] => match last {
            Rest::Nothing => Some(Statement::Ask(about, name)),
            _ => None,
        },
        _ => None,
    }
}

/// Returns whether the word says that edits come between sensing and acting, or before both.
fn between_of(word: &str) -> Option<bool>
    ensures { result ≡ time_of word.now }
{
    match word {
        "between" => Some(true),
        "before" => Some(false),
        _ => None,
    }
}

/// Returns edits of the script's kind: of a building where it has one so far, and else of atoms.
fn edits<'line, 'text>(
    with_building: bool,
    turn: u32,
    between: bool,
    last: &'line Rest<'text>,
) -> Option<Statement<'line, 'text>>
    ensures { option_map statement_view result ≡ make_disturb with_building
        (items.amount turn ∷ items.the (time_word between) ∷ rest_view last.now) }
{
    if with_building {
        match last {
            Rest::RoomEdits(edits) => {
                Some(Statement::DisturbRooms(turn, between, edits.as_slice()))
            }
            _ => None,
        }
    } else {
        match last {
            Rest::Atoms(edits) => Some(Statement::DisturbAtoms(turn, between, edits.as_slice())),
            _ => None,
        }
    }
}

#[tactic(auto, using(crate::proofs::Times::untimed))]
fn timed<'line, 'text>(
    with_building: bool,
    turn: u32,
    time: &str,
    last: &'line Rest<'text>,
) -> Option<Statement<'line, 'text>>
    ensures { option_map statement_view result ≡ make_disturb with_building
        (items.amount turn ∷ items.the time.now ∷ rest_view last.now) }
{
    match between_of(time) {
        Some(between) => edits(with_building, turn, between, last),
        None => None,
    }
}

fn disturb<'line, 'text>(
    with_building: bool,
    ones: &[Said<'text>],
    last: &'line Rest<'text>,
) -> Option<Statement<'line, 'text>>
    requires { length ones.now ≡ 2 }
    ensures { option_map statement_view result ≡ make_disturb with_building (said_items ones.now last.now) }
{
    match ones {
        [Said::Number(turn), Said::The(time)] => timed(with_building, *turn, time, last),
        _ => None,
    }
}

fn run<'line, 'text>(
    ones: &[Said<'text>],
    last: &'line Rest<'text>,
) -> Option<Statement<'line, 'text>>
    requires { length ones.now ≡ 1 }
    ensures { option_map statement_view result ≡ make_run (said_items ones.now last.now) }
{
    match ones {
        [Said::Known(Named::Table, name)] => match last {
            Rest::Bindings(bindings) => Some(Statement::Run(name, bindings.as_slice())),
            _ => None,
        },
        _ => None,
    }
}

fn duo<'line, 'text>(
    ones: &[Said<'text>],
    last: &'line Rest<'text>,
) -> Option<Statement<'line, 'text>>
    requires { length ones.now ≡ 2 }
    ensures { option_map statement_view result ≡ make_duo (said_items ones.now last.now) }
{
    match ones {
        [
            Said::Known(Named::Table, one),
            Said::Known(Named::Table, other),
        ] => match last {
            Rest::Numbers(numbers) => Some(Statement::Duo(one, other, numbers.as_slice())),
            _ => None,
        },
        _ => None,
    }
}

fn facts<'line, 'text>(
    ones: &[Said<'text>],
    last: &'line Rest<'text>,
) -> Option<Statement<'line, 'text>>
    requires { length ones.now ≡ 0 }
    ensures { option_map statement_view result ≡ make_nothing spec.facts (said_items ones.now last.now) }
{
    if is_bare(ones, last) {
        Some(Statement::Facts)
    } else {
        None
    }
}

fn sort<'line, 'text>(
    ones: &[Said<'text>],
    last: &'line Rest<'text>,
) -> Option<Statement<'line, 'text>>
    requires { length ones.now ≡ 1 }
    ensures { option_map statement_view result ≡ make_sort (said_items ones.now last.now) }
{
    match ones {
        [Said::New(Named::Sort, name)] => match last {
            Rest::Declared(Named::Object, names) => Some(Statement::Sort(name, names.as_slice())),
            _ => None,
        },
        _ => None,
    }
}

fn param<'line, 'text>(
    ones: &[Said<'text>],
    last: &'line Rest<'text>,
) -> Option<Statement<'line, 'text>>
    requires { length ones.now ≡ 1 }
    ensures { option_map statement_view result ≡ make_param (said_items ones.now last.now) }
{
    match ones {
        [Said::Known(Named::Sort, name)] => match last {
            Rest::Wanted(Named::Parameter, names) => {
                Some(Statement::Param(name, names.as_slice()))
            }
            _ => None,
        },
        _ => None,
    }
}

fn table_begun<'line, 'text>(
    ones: &[Said<'text>],
    last: &Rest<'_>,
) -> Option<Statement<'line, 'text>>
    requires { length ones.now ≡ 2 }
    ensures { option_map statement_view result ≡ make_table (said_items ones.now last.now) }
{
    match ones {
        [Said::New(Named::Table, name), Said::Number(parameters)] => match last {
            Rest::Nothing => Some(Statement::Table(name, *parameters)),
            _ => None,
        },
        _ => None,
    }
}

fn step<'line, 'text>(
    ones: &[Said<'text>],
    last: &'line Rest<'text>,
) -> Option<Statement<'line, 'text>>
    requires { length ones.now ≡ 1 }
    ensures { option_map statement_view result ≡ make_step (said_items ones.now last.now) }
{
    match ones {
        [Said::Known(Named::Operator, operator)] => match last {
            Rest::Arguments(arguments) => Some(Statement::Step(operator, arguments.as_slice())),
            _ => None,
        },
        _ => None,
    }
}

fn goal<'line, 'text>(
    ones: &[Said<'text>],
    last: &'line Rest<'text>,
) -> Option<Statement<'line, 'text>>
    requires { length ones.now ≡ 0 }
    ensures { option_map statement_view result ≡ make_atoms spec.goal (said_items ones.now last.now) }
{
    Some(Statement::Goal(atoms(ones, last)?))
}

fn proof<'line, 'text>(
    ones: &[Said<'text>],
    last: &'line Rest<'text>,
) -> Option<Statement<'line, 'text>>
    requires { length ones.now ≡ 0 }
    ensures { option_map statement_view result ≡ make_proof (said_items ones.now last.now) }
{
    match ones {
        [] => match last {
            Rest::Proofs(parts) => Some(Statement::Proof(parts.as_slice())),
            _ => None,
        },
        _ => None,
    }
}

fn edited<'line, 'text>(
    name: &'text str,
    word: &str,
    source: &'text str,
    prefix: u32,
    pairs: &'line [(u32, u32)],
) -> Option<Statement<'line, 'text>>
    ensures { option_map statement_view result
        ≡ (if bytes_eq word.now (codes "from") then Some (spec.edit name.now source.now prefix pairs.now) else None) }
{
    if word == "from" {
        Some(Statement::Edit(name, source, prefix, pairs))
    } else {
        None
    }
}

fn edit<'line, 'text>(
    ones: &[Said<'text>],
    last: &'line Rest<'text>,
) -> Option<Statement<'line, 'text>>
    requires { length ones.now ≡ 4 }
    ensures { option_map statement_view result ≡ make_edit (said_items ones.now last.now) }
{
    match ones {
        [
            Said::New(Named::Table, name),
            Said::The(word),
            Said::Known(Named::Table, source),
            Said::Number(prefix),
        ] => match last {
            Rest::Pairs(pairs) => edited(name, word, source, *prefix, pairs.as_slice()),
            _ => None,
        },
        _ => None,
    }
}

fn pursue<'line, 'text>(
    ones: &[Said<'text>],
    last: &'line Rest<'text>,
) -> Option<Statement<'line, 'text>>
    requires { length ones.now ≡ 1 }
    ensures { option_map statement_view result ≡ make_pursue (said_items ones.now last.now) }
{
    match ones {
        [Said::New(Named::Result, name)] => match last {
            Rest::Atoms(goal) => Some(Statement::Pursue(name, goal.as_slice())),
            _ => None,
        },
        _ => None,
    }
}

fn tree<'line, 'text>(
    ones: &[Said<'text>],
    last: &'line Rest<'text>,
) -> Option<Statement<'line, 'text>>
    requires { length ones.now ≡ 2 }
    ensures { option_map statement_view result ≡ make_tree (said_items ones.now last.now) }
{
    match ones {
        [Said::New(Named::Result, name), Said::Number(nodes)] => match last {
            Rest::Atoms(goal) => Some(Statement::Tree(name, *nodes, goal.as_slice())),
            _ => None,
        },
        _ => None,
    }
}

/// Returns what the items of a word's line say, in a script with or without a building so far.
fn made<'line, 'text>(
    with_building: bool,
    word: &str,
    ones: &[Said<'text>],
    last: &'line Rest<'text>,
) -> Option<Statement<'line, 'text>>
    requires { IfSome (row_of with_building word.now) (λ row. length ones.now ≡ length row.ones) }
    ensures { option_map statement_view result
        ≡ option_and_then (λ entry. entry.make (said_items ones.now last.now)) (entry_of with_building word.now) }
{
    match word {
        // first, since most lines of a long script are facts
        "fact" => fact(ones, last),
        "script" => script(ones, last),
        "object" => object(ones, last),
        "predicate" => predicate(ones, last),
        "axiom" => axiom(ones, last),
        "operator" => operator(ones, last),
        "pre" => pre(ones, last),
        "delete" => delete(ones, last),
        "add" => add(ones, last),
        "building" => building(ones, last),
        "room" => room(ones, last),
        "door" => door(ones, last),
        "box" => box_in(ones, last),
        "robot" => robot(ones, last),
        "end" => end(ones, last),
        "height" => height(ones, last),
        "nodes" => nodes(ones, last),
        "shapes" => shapes(ones, last),
        "plan" => plan(ones, last),
        "learn" => learn(ones, last),
        "show" => ask(About::Show, ones, last),
        "disturb" => disturb(with_building, ones, last),
        "run" => run(ones, last),
        "facts" => facts(ones, last),
        _ => made_of_two(word, ones, last),
    }
}

/// Returns what the items of a line say whose word version 2 or a later one is the first to have.
fn made_of_two<'line, 'text>(
    word: &str,
    ones: &[Said<'text>],
    last: &'line Rest<'text>,
) -> Option<Statement<'line, 'text>>
    requires { IfSome (row_among word.now (entries_of_two ++ entries_of_three)) (λ row. length ones.now ≡ length row.ones) }
    ensures { option_map statement_view result
        ≡ option_and_then (λ entry. entry.make (said_items ones.now last.now))
        (entry_among word.now (entries_of_two ++ entries_of_three)) }
{
    match word {
        "duo" => duo(ones, last),
        "sort" => sort(ones, last),
        "param" => param(ones, last),
        "table" => table_begun(ones, last),
        "step" => step(ones, last),
        "goal" => goal(ones, last),
        "proof" => proof(ones, last),
        "save" => ask(About::Save, ones, last),
        "certify" => ask(About::Certify, ones, last),
        "edit" => edit(ones, last),
        "pursue" => pursue(ones, last),
        _ => made_of_three(word, ones, last),
    }
}

/// Returns what the items of a line say whose word version 3 is the first to have.
fn made_of_three<'line, 'text>(
    word: &str,
    ones: &[Said<'text>],
    last: &'line Rest<'text>,
) -> Option<Statement<'line, 'text>>
    requires { IfSome (row_among word.now entries_of_three) (λ row. length ones.now ≡ length row.ones) }
    ensures { option_map statement_view result
        ≡ option_and_then (λ entry. entry.make (said_items ones.now last.now)) (entry_among word.now entries_of_three) }
{
    match word {
        "weight" => weight(ones, last),
        "tree" => tree(ones, last),
        _ => None,
    }
}

/// Returns the statement that the table of the words makes of a line's items, in a script with or without a building so far.
fn made_by_rows<'line, 'text>(
    with_building: bool,
    line: &'line Line<'text>,
) -> Option<Statement<'line, 'text>>
    requires shaped { IsShaped with_building line.now }
    ensures { option_map statement_view result ≡ statement_of with_building (line_view line.now) }
{
    made(with_building, line.row.word, &line.ones, &line.last)
}

/// Returns the statement that a line in its form is, in a script with or without a building so far, or `None` where it is none: a word of
/// few, such as `open`, is another one.
pub fn statement<'line, 'text>(
    with_building: bool,
    line: &'line Line<'text>,
) -> Option<Statement<'line, 'text>>
    requires shaped { IsShaped with_building line.now }
    ensures by_rows { option_map statement_view result ≡ statement_of with_building (line_view line.now) }
    ensures undoes_line_of { UndoesLineOf with_building (line_view line.now) (option_map statement_view result) }
{
    made_by_rows(with_building, line)
}
