//! Room for variables and for their bindings.
ghost use Rattle.std.specs.Prelude.{◌≡◌, ◌+◌, ◌*◌, ◌≤◌, ◌++◌, OnOk, OnErr, None, replicate, vec_len, vec_capacity};
ghost use Rattle.px_unify.specs.declared.change.Change.TheVariants.{Fresh};

use crate::change::{Change, MOST_VARIABLES};
use px_terms::{NoMemory, Term};

/// Adds `count` variables that are not bound, with room to bind every variable.
pub(crate) fn add_variables(
    changes: &mut Vec<Change>,
    slots: &mut Vec<Option<Term>>,
    count: usize,
) -> Result<(), NoMemory>
    requires two_each { vec_len changes.old ≤ 2 * vec_len slots.old }
    requires few { vec_len slots.old + count ≤ MOST_VARIABLES }
    ensures changes { OnOk result (changes.new.items ≡ changes.old.items ++ replicate count Fresh) }
    ensures slots { OnOk result (slots.new.items ≡ slots.old.items ++ replicate count None) }
    ensures room { OnOk result (2 * (vec_len slots.old + count) ≤ vec_capacity changes.new) }
    ensures changes_stay { OnErr result (changes.new.items ≡ changes.old.items) }
    ensures slots_stay { OnErr result (slots.new.items ≡ slots.old.items) }
    ensures grown { vec_capacity changes.old ≤ vec_capacity changes.new }
{
    let variables = slots.len() + count;
    changes.reserve(2 * variables - changes.len())?;
    slots.resize(variables, None)?;
    match changes.resize(changes.len() + count, Change::Fresh) {
        Ok(()) => Ok(()),
        Err(_) => unreachable!(),
    }
}
