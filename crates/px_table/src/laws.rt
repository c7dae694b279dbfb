//! Laws about the definitions. The calls do nothing.
ghost use Rattle.px_table.specs.Deciding.{TablesAreDecided};
ghost use Rattle.px_table.specs.EntryOrder.{EntriesAreOrdered, MovesAreCompared};
ghost use Rattle.px_table.specs.Kernels.{KernelsAreMarks, RowsMeetPreconditions};
ghost use Rattle.px_table.specs.Marks.{MarksAreCompared};
ghost use Rattle.px_table.specs.Nodes.{NodesAreCompared};
ghost use Rattle.px_table.specs.SupportClaims.{SupportsCarry, SupportsRefuse};

/// Entries are ordered as a search tries them: operators before learned tables, and then by `order_of_entries`. `==` of
/// entries is equality.
pub fn entries_are_ordered()
    ensures { EntriesAreOrdered }
{}

/// Moves are equal exactly where both apply the top entry, or both push equal entries.
pub fn moves_are_compared()
    ensures { MovesAreCompared }
{}

/// Nodes are equal exactly where they are the same: the same atoms, and the same stack.
pub fn nodes_are_compared()
    ensures { NodesAreCompared }
{}

/// Marks are equal exactly where their atoms, rows, columns and indices are.
pub fn marks_are_compared()
    ensures { MarksAreCompared }
{}

/// An atom is in a kernel exactly where a mark has it whose row is at least the kernel's number and whose column is below.
pub fn kernels_are_marks()
    ensures { KernelsAreMarks }
{}

/// Where the marks of a step's row hold with objects for the parameters, in a state in which the axioms hold, the step's
/// precondition holds with these objects (Fikes, Hart and Nilsson 1972).
pub fn rows_meet_preconditions()
    ensures { RowsMeetPreconditions }
{}

/// A support carries its steps to its goal whatever objects it is over, also over ones that the problem does not have: of the
/// problem with that many objects, and some number is enough (Lifschitz 1987).
pub fn supports_carry()
    ensures { SupportsCarry }
{}

/// No support has a leaf that names its own row or a later one, that names the initial model and isn't given or has an index
/// other than 0, that names a step which doesn't add its atom at the index, or whose atom a step deletes after the one that
/// it names and before its row.
pub fn supports_refuse()
    ensures { SupportsRefuse }
{}

/// The test `is_table` of `specs/Deciding.antt` is true exactly of tables, so computing it also shows that something isn't a table.
pub fn tables_are_decided()
    ensures { TablesAreDecided }
{}
