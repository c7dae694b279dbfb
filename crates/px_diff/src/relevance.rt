//! Which entries may be pushed for wanted atoms: one operator after the other, each by its instances.
ghost use Rattle.std.specs.Prelude.{◌↔◌, Contains, IsTrue};
ghost use Rattle.px_terms.specs.Validity.{IsValid, IsInstanceOf};
ghost use Rattle.px_diff.specs.Requests.{IsRelevantFor};

use crate::request::Request;
use px_entries::add_wanted;
use px_table::Entry;
use px_terms::{OpInst, fits};

/// Returns whether the entry is on the stack.
pub fn is_stacked(stack: &[Entry], entry: &Entry) -> bool
    ensures { IsTrue result ↔ Contains stack.now entry.now }
{
    stack.contains(entry)
}

/// Returns whether the instance is relevant: it fits, isn't on the stack, and adds one of the wanted atoms.
pub fn is_relevant(request: &Request, inst: &OpInst) -> bool
    requires problem { IsValid request.now.problem.now }
    requires inst { IsInstanceOf request.now.problem.now inst.now }
    ensures { IsTrue result ↔ IsRelevantFor request.now inst.now }
{
    let does_fit = fits(request.problem, inst);
    if !does_fit {
        return false;
    }
    if is_stacked(request.stack, &Entry::Op(*inst)) {
        return false;
    }
    add_wanted(request.problem, &[*inst], request.wanted)
}
