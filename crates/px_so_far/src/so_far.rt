//! What the lines so far have declared, and what stands in it under a name.
ghost use Rattle.std.specs.Prelude.{◌≡◌, ◌<◌, length, None, Some, position, is_some, IfSome, MatchOption, ◌≤◌, IfOk};
ghost use Rattle.px_names.specs.Lists.{names_of};
ghost use Rattle.px_script.specs.Declarations.{table_here, table_parameters_here};
ghost use Rattle.px_script.specs.declared.limits.TheConstants.{SORTS as most_sorts};
ghost use Rattle.px_so_far.specs.Problems.{HasFewSorts};
ghost use Rattle.px_so_far.specs.SoFarViews.{kind_here, open_table_view};
ghost use Rattle.px_so_far.specs.Common.{bytes_eq, string_bytes, has_name, operator_here, parameters_here, number_in, declared_of, operator_view, has_building, nothing_declared};

use crate::blocks::{BlockKind, OpenBlock, OpenOperator};
use crate::open_tables::OpenTable;
use px_base::NoMemory;
use px_names::{Kind, Names};
use px_ops::Model;
use px_script::Command;
use px_table::Table;
use px_terms::{ClauseArena, Schema};
use px_world::Thing;
use std::alloc::Global;

/// Returns the place of the name in a list, counted from 0, or `None` where it isn't in it.
pub fn place_of(name: &str, names: &[String]) -> Option<usize>
    ensures number { result ≡ position (λ other. bytes_eq name.now (string_bytes other)) names.now }
    ensures within { IfSome result (λ number. number < length names.now) }
{
    names.iter().position(|other| name == other.as_str())
}

/// What the lines so far have declared.
#[derive(Drop)]
pub struct SoFar {
    /// The allocator of all that it has.
    pub alloc: Global,
    /// The version of the language.
    pub version: u32,
    /// The names of objects, predicates, operators and results.
    pub names: Names,
    /// The objects that are rooms of a building.
    pub rooms: Vec<String>,
    /// The objects that are doors of a building.
    pub doors: Vec<String>,
    /// The objects that are boxes of a building.
    pub boxes: Vec<String>,
    /// The results that are plans, each of which is a table, too.
    pub plans: Vec<String>,
    /// The results that are tables.
    pub tables: Vec<String>,
    /// The names of the sorts.
    pub sorts: Vec<String>,
    /// The sort of each object up to the last that has one; 0 is no sort.
    pub object_sorts: Vec<u32>,
    /// How many arguments each predicate has.
    pub arities: Vec<u8>,
    /// The axioms.
    pub axioms: ClauseArena,
    /// The operators whose blocks are closed.
    pub schemas: Vec<Schema>,
    /// The facts of the script's own lines.
    pub facts: Model,
    /// The things of the building, if there is one.
    pub things: Option<Vec<Thing>>,
    /// The greatest height of a proof, where a line gave it.
    pub height: Option<u32>,
    /// How many nodes a search may have, where a line gave it.
    pub nodes: Option<u32>,
    /// How many shapes of questions a proof may have, where a line gave it.
    pub shapes: Option<u32>,
    /// The weight of the search, where a line gave it.
    pub weight: Option<u32>,
    /// The tables whose blocks are closed, each with the number of its name.
    pub saved: Vec<(u32, Table)>,
    /// The commands, in their order.
    pub commands: Vec<Command>,
    /// How many lines `disturb` stood since the last `run`.
    pub disturbs: u32,
    /// The block that is open, if one is.
    pub block: Option<OpenBlock>,
    /// Whether a line stood that a building excludes.
    pub own_domain: bool,
    /// Whether a line with tokens stood.
    pub begun: bool,
}

impl SoFar {
    /// Returns what is declared before the first line: nothing, in version 1.
    ///
    /// # Errors
    /// `NoMemory` where there is no memory for it.
    pub fn new(alloc: Global) -> Result<SoFar, NoMemory>
        ensures { IfOk result (λ so_far. declared_of so_far ≡ nothing_declared) }
    {
        Ok(SoFar {
            alloc,
            version: 1,
            names: Names::new(alloc)?,
            rooms: Vec::new(alloc),
            doors: Vec::new(alloc),
            boxes: Vec::new(alloc),
            plans: Vec::new(alloc),
            tables: Vec::new(alloc),
            sorts: Vec::new(alloc),
            object_sorts: Vec::new(alloc),
            arities: Vec::new(alloc),
            axioms: ClauseArena::new(alloc),
            schemas: Vec::new(alloc),
            facts: Model::new(alloc),
            things: None,
            height: None,
            nodes: None,
            shapes: None,
            weight: None,
            saved: Vec::new(alloc),
            commands: Vec::new(alloc),
            disturbs: 0,
            block: None,
            own_domain: false,
            begun: false,
        })
    }

    /// Returns whether the name is declared in the kind.
    pub fn has(&self, kind: Kind, name: &str) -> bool
        ensures { result ≡ has_name name.now (names_of kind self.now.names) }
    {
        self.names.find(kind, name).is_some()
    }

    /// Returns the number of a name in its kind, or 0 where it isn't declared.
    pub fn number(&self, kind: Kind, name: &str) -> u32
        ensures { result ≡ number_in name.now (names_of kind self.now.names) }
    {
        self.names.find(kind, name).unwrap_or(0)
    }

    /// Returns the number of an object, or 0 where it isn't declared.
    pub fn object(&self, name: &str) -> u32
        ensures { result ≡ number_in name.now self.now.names.objects }
    {
        self.number(Kind::Object, name)
    }

    /// Returns the operator whose block is open, if one is.
    pub fn open_operator(&self) -> Option<&OpenOperator>
        ensures { MatchOption result (operator_here (declared_of self.now).block ≡ None)
            (λ o. operator_here (declared_of self.now).block ≡ Some (operator_view (length (declared_of self.now).schemas) o.now)) }
    {
        match &self.block.as_ref()?.kind {
            BlockKind::Operator(operator) => Some(operator),
            BlockKind::Building | BlockKind::Table(_) => None,
        }
    }

    /// Returns the table whose block is open, if one is.
    pub fn open_table(&self) -> Option<&OpenTable>
        ensures { MatchOption result (table_here (declared_of self.now).block ≡ None)
            (λ t. kind_here (declared_of self.now) ≡ Some (open_table_view t.now)) }
    {
        match &self.block.as_ref()?.kind {
            BlockKind::Table(table) => Some(table),
            BlockKind::Operator(_) | BlockKind::Building => None,
        }
    }

    /// Returns which parameter of the open operator the name is, counted from 0, or `None` where it is none or no operator is open.
    #[tactic(auto, using(crate::proofs::AtomTests::positions))]
    pub fn parameter(&self, name: &str) -> Option<usize>
        ensures number { result ≡ position (bytes_eq name.now) (parameters_here (declared_of self.now)) }
        ensures found { is_some result ≡ has_name name.now (parameters_here (declared_of self.now)) }
        ensures within { IfSome result (λ number. number < length (parameters_here (declared_of self.now))) }
    {
        let operator = self.open_operator()?;
        place_of(name, &operator.parameters)
    }

    /// Returns how many parameters the table has whose block is open, and 0 where none is.
    pub fn table_parameters(&self) -> u32
        ensures { result ≡ table_parameters_here (declared_of self.now).block }
    {
        match self.open_table() {
            Some(table) => table.parameters,
            None => 0,
        }
    }

    /// Returns how many sorts there are.
    #[tactic(auto, using(crate::proofs::AtomTests::lengths))]
    pub fn sort_count(&self) -> u32
        requires few_sorts { HasFewSorts (declared_of self.now) }
        ensures number { result ≡ length (declared_of self.now).sorts }
        ensures few { result ≤ most_sorts }
    {
        self.sorts.len() as u32
    }

    /// Returns whether a line `building` stood.
    pub fn has_building(&self) -> bool
        ensures { result ≡ has_building (declared_of self.now) }
    {
        self.things.is_some()
    }
}
