//! Walks: what a state must do to be walked over.
ghost use Rattle.std.specs.Prelude.{◌≡◌, ◌++◌, ◌∷◌, [], ◌<◌, ◌≤◌, ◌+◌, ◌↔◌, true, false, length, IfOk, OnOk, IfSome, IfNone, IsTrue};
ghost use Rattle.px_proof_walk.specs.Order.{TriesAfter};
ghost use Rattle.px_proof_walk.specs.Trail.{IsVisit};

use crate::visit::Visit;
use px_base::NoMemory;
use px_proof::Tick;

/// A walk over unfinished proofs, by the ticks that close their places in order.
///
/// What the walk stands at is a list of ticks. The lists are visited in the order of [`Tick`]s, a list before those that it grows into.
/// What they are lists of is decided by the question, which no call changes.
pub trait Walk<Q> {
    ghost use Rattle.std.specs.Prelude.{ℕ, List, Option};
    ghost use Rattle.px_proof.specs.declared.shape.Tick.{Tick};
    ghost use Rattle.px_proof_walk.specs.Order.{IsPrefixClosed};

    // the list of ticks that the walk stands at
    ghost ticks: { Self → List Tick };

    // the walk is one of this question
    ghost stands: { Q → Self → Type 0 };

    // which lists of ticks are visited
    ghost possible: { Q → List Tick → Type 0 };

    // each list comes after the shorter ones that it grows from
    ghost shorter: { (q : Q) → IsPrefixClosed (possible q) };

    // no place of the list is open
    ghost finished: { Q → List Tick → Type 0 };

    // how many places are open
    ghost places: { Q → List Tick → ℕ };

    // how many ticks there may be
    ghost most: { Q → ℕ };

    /// Closes the first open place by the least tick after `last` that is possible; without `last`, by the least one.
    ///
    /// # Errors
    /// `NoMemory` if memory runs out.
    fn try_after(&mut self, question: &Q, last: Option<Tick>) -> Result<bool, NoMemory>
        requires stands { stands question.now self.old }
        requires room { length (ticks self.old) < most question.now }
        ensures tried { IfOk result (λ found. TriesAfter (possible question.now) (ticks self.old) (ticks self.new) last found) }
        ensures still { OnOk result (stands question.now self.new) };

    /// Opens again the place that was closed last, and returns its tick.
    fn retract(&mut self, question: &Q) -> Option<Tick>
        requires stands { stands question.now self.old }
        ensures last { IfSome result (λ tick. ticks self.old ≡ ticks self.new ++ tick ∷ []) }
        ensures none { IfNone result (ticks self.old ≡ []) }
        ensures same { IfNone result (ticks self.new ≡ ticks self.old) }
        ensures still { stands question.now self.new };

    /// Returns whether no place is open.
    fn is_finished(&self, question: &Q) -> bool
        requires stands { stands question.now self.now }
        ensures { IsTrue result ↔ finished question.now (ticks self.now) };

    /// Returns what is kept of the list at which the walk stands.
    fn visit(&self, question: &Q) -> Visit
        requires stands { stands question.now self.now }
        ensures { IsVisit (ticks self.now) (places question.now (ticks self.now)) result };
}
