//! Literals: their complements, their variables replaced, and whether two are the same.
ghost use Rattle.std.specs.Prelude.{◌≡◌, ◌↔◌, IsTrue, All, length};
ghost use Rattle.px_terms.specs.Language.{IsVariableBelow};
ghost use Rattle.px_proof.specs.Literals.{substitute_literal, complement_of};

use px_terms::{Lit, Term, apply, equal};

/// Returns the literal with the other sign.
pub fn complement(lit: &Lit) -> Lit
    ensures { result ≡ complement_of lit.now }
{
    Lit {
        positive: !lit.positive,
        atom: lit.atom,
    }
}

/// Returns the literal with each variable replaced by the map's term of its number.
pub fn apply_literal(map: &[Term], lit: &Lit) -> Lit
    requires { All (IsVariableBelow (length map.now)) lit.now.atom.args }
    ensures { result ≡ substitute_literal map.now lit.now }
{
    Lit {
        positive: lit.positive,
        atom: apply(map, &lit.atom),
    }
}

/// Returns whether the two literals are the same.
pub fn same_literal(a: &Lit, b: &Lit) -> bool
    ensures { IsTrue result ↔ (a.now ≡ b.now) }
{
    a.positive == b.positive && equal(&a.atom, &b.atom)
}
