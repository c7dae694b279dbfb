//! The tables of the stored plans, by name.
ghost use Rattle.std.specs.Prelude.{◌≡◌, OnOk, OnErr, option_map};
ghost use Rattle.px_library.specs.Libraries.{no_tables, table_named, with_table};

use px_base::{NoMemory, push_within};
use px_table::Table;
use std::alloc::Global;

/// Tables by the numbers of their names, in the order in which they were stored.
#[derive(Drop)]
pub(crate) struct Plans {
    names: Vec<u32>,
    tables: Vec<Table>,
}

impl std::marker::Model for Plans {
    ghost use Rattle.std.specs.Prelude.{◌≡◌, length};
    ghost use Rattle.std.specs.Coded.{codes};
    ghost use Rattle.px_proof.specs.contracts.proof.Proof as term;
    ghost use Rattle.px_library.specs.Libraries.{LibraryValue};

    ghost Value = { LibraryValue };

    ghost coded = { Prim.hlevel (codes, term.the_row.coded) };

    ghost view = { λ p. record { names = p.names.items; tables = p.tables.items } };

    ghost invariant = { λ p. length p.tables.items ≡ length p.names.items };
}

impl Plans {
    /// Returns a store of no plans. Does not allocate.
    pub(crate) fn new(alloc: Global) -> Plans
        ensures { result ≡ no_tables }
    {
        Plans {
            names: Vec::new(alloc),
            tables: Vec::new(alloc),
        }
    }

    /// Appends a table, under its name.
    ///
    /// # Errors
    /// `NoMemory` where there is no memory for one table more. The table is then dropped, and the plans are as they were.
    pub(crate) fn store(&mut self, name: u32, table: Table) -> Result<(), NoMemory>
        ensures stored { OnOk result (self.new ≡ with_table self.old name table) }
        ensures kept { OnErr result (self.new ≡ self.old) }
    {
        if self.names.reserve(1).is_err() || self.tables.reserve(1).is_err() {
            return Err(NoMemory);
        }
        push_within(&mut self.names, name);
        push_within(&mut self.tables, table);
        Ok(())
    }

    // Alike: `find` of `px_library`, a list that is bounded and refuses a second table of a name.
    /// Returns the table of that name, or `None` where the name has none. Does not allocate.
    pub(crate) fn find(&self, name: u32) -> Option<&Table>
        ensures { option_map (λ table. table.now) result ≡ table_named self.now name }
    {
        for (place, one) in self.names.iter().enumerate() {
            if *one == name {
                return Some(&self.tables[place]);
            }
        }
        None
    }
}
