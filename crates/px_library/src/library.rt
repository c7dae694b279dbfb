//! Learned tables by name.
ghost use Rattle.std.specs.Prelude.{◌≡◌, ◌↔◌, Contains, length, OnOk, OnErr, option_map};
ghost use Rattle.px_table.specs.Limits.{most_tables};
ghost use Rattle.px_library.specs.Libraries.{no_tables, table_named, with_table};

use px_base::push_within;
use px_table::{MOST_TABLES, Table};
use std::alloc::Global;
use thiserror::Error;

/// Why a table isn't learned.
#[derive(Clone, Copy, PartialEq, Eq, Debug, Error)]
pub enum LibErr {
    /// The name has a table.
    #[error("the name has a table")]
    Duplicate,
    /// There are 32 tables.
    #[error("there are 32 tables")]
    Full,
    /// Out of memory.
    #[error("out of memory")]
    NoMemory,
}

/// Learned tables by the numbers of their names, in the order of learning (Fikes, Hart and Nilsson 1972).
#[derive(Drop)]
pub struct Library {
    names: Vec<u32>,
    tables: Vec<Table>,
}

impl std::marker::Model for Library {
    ghost use Rattle.std.specs.Coded.{codes};
    ghost use Rattle.px_proof.specs.contracts.proof.Proof as term;
    ghost use Rattle.px_library.specs.Libraries.{LibraryValue, IsLibrary};

    ghost Value = { LibraryValue };

    ghost coded = { Prim.hlevel (codes, term.the_row.coded) };

    ghost view = { λ l. record { names = l.names.items; tables = l.tables.items } };

    ghost invariant = { λ l. IsLibrary (record { names = l.names.items; tables = l.tables.items }) };
}

impl Library {
    /// Returns the library without a table. Does not allocate.
    pub fn new(alloc: Global) -> Library
        ensures { result ≡ no_tables }
    {
        Library {
            names: Vec::new(alloc),
            tables: Vec::new(alloc),
        }
    }

    /// Appends a table, under a new name.
    ///
    /// # Errors
    /// `Duplicate` exactly where the name has a table; `Full` exactly where there are 32 tables and the name has none;
    /// `NoMemory` where there is no memory for one table more. The table is then dropped, and the library is as it was.
    pub fn learn(&mut self, name: u32, table: Table) -> Result<(), LibErr>
        ensures duplicate { (result ≡ Err LibErr.Duplicate) ↔ Contains self.old.names name }
        ensures full { (result ≡ Err LibErr.Full) ↔ ((¬ Contains self.old.names name) × (length self.old.tables ≡ most_tables)) }
        ensures learned { OnOk result (self.new ≡ with_table self.old name table) }
        ensures kept { OnErr result (self.new ≡ self.old) }
    {
        if self.names.contains(&name) {
            return Err(LibErr::Duplicate);
        }
        if self.tables.len() == MOST_TABLES {
            return Err(LibErr::Full);
        }
        if self.names.reserve(1).is_err() || self.tables.reserve(1).is_err() {
            return Err(LibErr::NoMemory);
        }
        push_within(&mut self.names, name);
        push_within(&mut self.tables, table);
        Ok(())
    }

    /// Returns the table of that name, or `None` where the name has none. Does not allocate.
    pub fn find(&self, name: u32) -> Option<&Table>
        ensures { option_map (λ table. table.now) result ≡ table_named self.now name }
    {
        for (place, one) in self.names.iter().enumerate() {
            if *one == name {
                return Some(&self.tables[place]);
            }
        }
        None
    }

    /// Returns the numbers of the names, in the order of learning. Does not allocate.
    pub fn names(&self) -> &[u32]
        ensures { result.now ≡ self.now.names }
    {
        &self.names
    }

    /// Returns the tables, in the order of learning. Does not allocate.
    pub fn tables(&self) -> &[Table]
        ensures { result.now ≡ self.now.tables }
    {
        &self.tables
    }
}
