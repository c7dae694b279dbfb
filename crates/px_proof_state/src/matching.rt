//! Two literals are made equal, or the bindings stay.
ghost use Rattle.std.specs.Prelude.{All};
ghost use Rattle.px_terms.specs.Language.{IsPlainBelow};
ghost use Rattle.px_unify.specs.Changes.{variables_of};
ghost use Rattle.px_proof_state.specs.Matches.{IsMatch};

use px_terms::Lit;
use px_unify::{Bind, Clash, unify};

/// Makes the two literals equal, or leaves the bindings as they are. Returns whether they are equal.
pub(crate) fn matches(bind: &mut Bind, a: &Lit, b: &Lit) -> bool
    requires a_below { All (IsPlainBelow (variables_of bind.old)) a.now.atom.args }
    requires b_below { All (IsPlainBelow (variables_of bind.old)) b.now.atom.args }
    ensures { IsMatch bind.old bind.new a.now b.now result }
{
    let differ = a.positive != b.positive;
    if differ {
        return false;
    }
    match unify(bind, &a.atom, &b.atom) {
        Ok(()) => true,
        Err(Clash) => false,
    }
}
