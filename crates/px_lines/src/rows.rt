//! The table of the words.
ghost use Rattle.std.specs.Prelude.{◌≡◌, Bool, codes, false, map};
ghost use Rattle.std.specs.Option.{option_map};
ghost use Rattle.std.specs.Str.{bytes_eq};
ghost use Rattle.px_script.specs.Rows.{disturb_row, is_of, row_of};
ghost use Rattle.px_script.specs.Limits.{is_word};
ghost use Rattle.px_lines.specs.LineViews.{other_rows, row_view};

use px_script::{Block, Choice, Last, Manner, Named, One, Place};

/// What a word's line has, in its order: its word, things of one token each, and what stands to its end.
#[derive(Clone, Copy)]
pub struct Row {
    /// The word that begins the line.
    pub word: &'static str,
    /// The first version that has it.
    pub since: u32,
    /// Where the line may stand.
    pub place: Place,
    /// What its atoms may be.
    pub manner: Manner,
    /// What the first tokens after the word are there for.
    pub ones: &'static [One],
    /// What the others are there for.
    pub last: Last,
}

const NONE: [One; 0] = [];

const NUMBER: [One; 1] = [One::Number];

const PREDICATE: [One; 2] = [One::New(Named::Predicate), One::Number];

const OPERATOR: [One; 1] = [One::New(Named::Operator)];

const ROOM: [One; 1] = [One::New(Named::Room)];

const DOOR: [One; 4] = [
    One::New(Named::Door),
    One::Known(Named::Room),
    One::Known(Named::Room),
    One::Word(Choice::State),
];

const BOX: [One; 2] = [One::New(Named::Box), One::Known(Named::Room)];

const ROBOT: [One; 1] = [One::Known(Named::Room)];

const PLAN: [One; 1] = [One::New(Named::Plan)];

const LEARN: [One; 3] = [
    One::New(Named::Table),
    One::Word(Choice::Source),
    One::Known(Named::Plan),
];

const TABLE: [One; 1] = [One::Known(Named::Table)];

const SORT: [One; 1] = [One::New(Named::Sort)];

const DUO: [One; 2] = [One::Known(Named::Table), One::Known(Named::Table)];

const PARAM: [One; 1] = [One::Known(Named::Sort)];

const EDIT: [One; 4] = [
    One::New(Named::Table),
    One::Word(Choice::Source),
    One::Known(Named::Table),
    One::Number,
];

const NEW_TABLE: [One; 2] = [One::New(Named::Table), One::Number];

const STEP: [One; 1] = [One::Known(Named::Operator)];

const RESULT: [One; 1] = [One::New(Named::Result)];

const TREE: [One; 2] = [One::New(Named::Result), One::Number];

const DISTURB: [One; 2] = [One::Number, One::Word(Choice::Time)];

/// Writes a row: its word, the first version that has it, where its line may stand, what its atoms may be, what its first tokens after the
/// word are there for, and what the others are.
macro_rules! row {
    ($word:expr => $since:expr, $place:expr, $manner:expr, $ones:expr, $last:expr) => {
        Row {
            word: $word,
            since: $since,
            place: $place,
            manner: $manner,
            ones: $ones,
            last: $last,
        }
    };
}

/// The rows of all words but `disturb`, whose row isn't the same in all scripts, in the order of the table of `px_script`.
static ROWS: [Row; 36] = [
    row!("script" => 1, Place::First, Manner::Plain, &NUMBER, Last::Nothing),
    row!("object" => 1, Place::Domain, Manner::Plain, &NONE, Last::New(Named::Object)),
    row!("predicate" => 1, Place::Domain, Manner::Plain, &PREDICATE, Last::Nothing),
    row!("axiom" => 1, Place::Domain, Manner::Literals, &NONE, Last::Atoms),
    row!("operator" => 1, Place::Opens(Block::Operator), Manner::Plain, &OPERATOR, Last::Listed(Named::Parameter)),
    row!("pre" => 1, Place::Inside(Block::Operator), Manner::Plain, &NONE, Last::Atoms),
    row!("delete" => 1, Place::Inside(Block::Operator), Manner::Patterns, &NONE, Last::Atoms),
    row!("add" => 1, Place::Inside(Block::Operator), Manner::Plain, &NONE, Last::Atoms),
    row!("building" => 1, Place::Opens(Block::Building), Manner::Plain, &NONE, Last::Nothing),
    row!("room" => 1, Place::Inside(Block::Building), Manner::Plain, &ROOM, Last::Nothing),
    row!("door" => 1, Place::Inside(Block::Building), Manner::Plain, &DOOR, Last::Nothing),
    row!("box" => 1, Place::Inside(Block::Building), Manner::Plain, &BOX, Last::Nothing),
    row!("robot" => 1, Place::Inside(Block::Building), Manner::Plain, &ROBOT, Last::Nothing),
    row!("end" => 1, Place::Closes, Manner::Plain, &NONE, Last::Nothing),
    row!("fact" => 1, Place::Domain, Manner::Plain, &NONE, Last::Atoms),
    row!("height" => 1, Place::Setting, Manner::Plain, &NUMBER, Last::Nothing),
    row!("nodes" => 1, Place::Setting, Manner::Plain, &NUMBER, Last::Nothing),
    row!("shapes" => 1, Place::Setting, Manner::Plain, &NUMBER, Last::Nothing),
    row!("plan" => 1, Place::Command, Manner::Goals, &PLAN, Last::Atoms),
    row!("learn" => 1, Place::Command, Manner::Plain, &LEARN, Last::Nothing),
    row!("show" => 1, Place::Command, Manner::Plain, &TABLE, Last::Nothing),
    row!("run" => 1, Place::Command, Manner::Plain, &TABLE, Last::Bindings),
    row!("facts" => 1, Place::Command, Manner::Plain, &NONE, Last::Nothing),
    row!("sort" => 2, Place::Domain, Manner::Plain, &SORT, Last::New(Named::Object)),
    row!("param" => 2, Place::Inside(Block::Operator), Manner::Plain, &PARAM, Last::Known(Named::Parameter)),
    row!("table" => 2, Place::Opens(Block::TableSteps), Manner::Plain, &NEW_TABLE, Last::Nothing),
    row!("step" => 2, Place::Inside(Block::TableSteps), Manner::TableTerms, &STEP, Last::Arguments),
    row!("goal" => 2, Place::Inside(Block::TableSteps), Manner::TableGoals, &NONE, Last::Atoms),
    row!("proof" => 2, Place::Inside(Block::TableRows), Manner::TableTerms, &NONE, Last::Proofs),
    row!("save" => 2, Place::Command, Manner::Plain, &TABLE, Last::Nothing),
    row!("certify" => 2, Place::Command, Manner::Plain, &TABLE, Last::Nothing),
    row!("edit" => 2, Place::Command, Manner::Plain, &EDIT, Last::Pairs),
    row!("duo" => 2, Place::Command, Manner::Plain, &DUO, Last::Numbers),
    row!("pursue" => 2, Place::Command, Manner::Goals, &RESULT, Last::Atoms),
    row!("weight" => 3, Place::Setting, Manner::Plain, &NUMBER, Last::Nothing),
    row!("tree" => 3, Place::Command, Manner::Goals, &TREE, Last::Atoms),
];

/// Returns the row of `disturb`.
fn disturbance(with_building: bool) -> Row
    ensures { row_view result ≡ disturb_row with_building }
{
    if with_building {
        row!("disturb" => 1, Place::Command, Manner::RoomChanges, &DISTURB, Last::RoomEdits)
    } else {
        row!("disturb" => 1, Place::Command, Manner::AtomChanges, &DISTURB, Last::Atoms)
    }
}

/// Returns the row of a word that isn't `disturb`.
fn row_among(rows: &[Row], word: &str) -> Option<Row>
    requires { (with_building : Bool) → map row_view rows.now ≡ other_rows with_building }
    ensures { (with_building : Bool) → bytes_eq word.now (codes "disturb") ≡ false
        → option_map row_view result ≡ row_of with_building word.now }
{
    rows.iter().find(|row| word == row.word).copied()
}

/// Returns the row of a word, in a script with or without a building so far. Does not allocate.
pub fn row_for(with_building: bool, word: &str) -> Option<Row>
    ensures { option_map row_view result ≡ row_of with_building word.now }
{
    if word == "disturb" {
        Some(disturbance(with_building))
    } else {
        row_among(&ROWS, word)
    }
}

/// Returns whether the name is a word that may begin a line of the version. Does not allocate.
#[tactic(auto, using(crate::proofs::Views::words))]
pub fn is_word(version: u32, name: &str) -> bool
    ensures { result ≡ is_word version name.now }
{
    match row_for(false, name) {
        Some(row) => row.is_of(version),
        None => false,
    }
}

impl Row {
    /// Returns whether the version has the word.
    fn is_of(&self, version: u32) -> bool
        ensures { result ≡ is_of version (row_view self.now) }
    {
        self.since == 1 || self.since <= version
    }
}
