//! The commands of a script.
ghost use Rattle.std.specs.Prelude.{◌≡◌};
ghost use Rattle.px_script.specs.Statements.{command_about};

use px_base::Sequence;
use px_terms::Atom;
use px_world::{AtomEdit, RoomEdit};
use std::marker::Model;

/// An object in the place of a parameter of a learned table, which has its number from 1. Contracts see it as the pair of both.
#[derive(Clone, Copy)]
pub struct Binding {
    parameter: u32,
    object: u32,
}

impl Model for Binding {
    ghost use Rattle.std.specs.Prelude.{ℕ};

    ghost Value = { ℕ × ℕ };

    ghost view = { λ b. (b.parameter, b.object) };

    ghost inverse = { λ v. record { parameter = v.0; object = v.1 } };
}

impl Binding {
    /// Returns the binding of a parameter to an object. Does not allocate.
    pub fn new(parameter: u32, object: u32) -> Binding
        ensures { result ≡ (parameter, object) }
    {
        Binding { parameter, object }
    }

    /// Returns the parameter and the object. Does not allocate.
    pub fn pair(self) -> (u32, u32)
        ensures { result ≡ self }
    {
        (self.parameter, self.object)
    }
}

/// What a line that only names a table asks for.
#[derive(Clone, Copy)]
pub enum About {
    /// The table.
    Show,
    /// The table as a block that a script can have.
    Save,
    /// The table with its whole problem, as a certificate.
    Certify,
}

/// A command, with its names by their numbers.
#[derive(Drop)]
pub enum Command {
    /// Plan for a goal with `variable_count` variables.
    Plan {
        name: u32,
        goal: Sequence<Atom>,
        variable_count: u32,
    },
    /// Learn a table from a plan.
    Learn {
        name: u32,
        source: u32,
    },
    /// Answer a table.
    Show {
        name: u32,
    },
    /// Answer a table as a block that a script can have.
    Save {
        name: u32,
    },
    /// Answer a table with its whole problem, as a certificate.
    Certify {
        name: u32,
    },
    /// Change facts from outside at a turn of the next run, between sensing and acting, or before both.
    DisturbAtoms {
        turn: u32,
        between: bool,
        edits: Sequence<AtomEdit>,
    },
    /// Change the places of a building's things from outside, at such a point.
    DisturbRooms {
        turn: u32,
        between: bool,
        edits: Sequence<RoomEdit>,
    },
    /// Execute a table with objects for its parameters.
    Run {
        name: u32,
        bindings: Sequence<Binding>,
    },
    /// Execute two tables in one world. Each number says which of the two executors is next, 1 or 2.
    Duo {
        first: u32,
        second: u32,
        events: Sequence<u32>,
    },
    /// Make a table of the first steps of another that some of their adds rest on. A pair is a step from 1, and one of its adds from 0.
    Edit {
        name: u32,
        from: u32,
        prefix: u32,
        wanted: Sequence<(u32, u32)>,
    },
    /// Plan for a goal, execute the plan, and plan again from what is sensed where no kernel is true. It gives no table.
    Pursue {
        name: u32,
        goal: Sequence<Atom>,
        variable_count: u32,
    },
    /// Search for a goal with room for so many nodes, and answer the tree of the search. It gives no table.
    Tree {
        name: u32,
        nodes: u32,
        goal: Sequence<Atom>,
        variable_count: u32,
    },
    /// Answer the facts.
    Facts,
}

impl Command {
    /// Returns the command of a line that asks this of the table with that name. Does not allocate.
    pub fn asking(about: About, name: u32) -> Command
        ensures { result ≡ command_about about name }
    {
        match about {
            About::Show => Command::Show { name },
            About::Save => Command::Save { name },
            About::Certify => Command::Certify { name },
        }
    }
}
