//! The literals above a place of a proof.
ghost use Rattle.std.specs.Prelude.{◌≡◌, option_map, slice_get};
ghost use Rattle.px_proof.specs.Path.{path_literals};

use px_terms::Lit;

/// The literals above a place, the nearest first.
#[derive(Clone, Copy)]
pub enum Path<'a> {
    /// No literal.
    Root,
    /// This one, and those above it.
    Under(&'a Lit, &'a Path<'a>),
}

/// Returns the literal of the path at that place, counted from the nearest.
pub fn literal_at(path: &Path, place: u32) -> Option<Lit>
    ensures { result ≡ slice_get (path_literals path.now) place }
{
    lent_literal_at(path, place).copied()
}

/// `literal_at`, lent: nothing is copied from level to level, so that it is compiled as a loop.
fn lent_literal_at<'a>(path: &Path<'a>, place: u32) -> Option<&'a Lit>
    ensures { option_map (λ lit. lit.now) result ≡ slice_get (path_literals path.now) place }
{
    match path {
        Path::Root => None,
        Path::Under(lit, above) => {
            if place == 0 {
                Some(*lit)
            } else {
                lent_literal_at(above, place - 1)
            }
        }
    }
}
