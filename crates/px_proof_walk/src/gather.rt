//! Walking to the last list, and gathering at each.
ghost use Rattle.std.specs.Prelude.{◌≡◌, ◌<◌, ◌≤◌, ◌+◌, ◌++◌, ◌∷◌, [], length, map, List, IfOk, IfSome, IfNone, OnOk};
ghost use Rattle.px_proof.specs.declared.shape.Tick.{Tick};
ghost use Rattle.px_proof_walk.specs.Search.{AreAll, LimitComes};
ghost use Rattle.px_proof_walk.specs.Possible.{shape_with};

use crate::steps::advance;
use crate::visit::shapes_of;
use crate::walk::Walk;
use px_base::{NoMemory, push};
use px_proof::Shape;
use std::alloc::Global;

/// Something that gathers at each list of a walk.
pub trait Gather<Q, W: Walk<Q>> {
    ghost use Rattle.std.specs.Prelude.{List};
    ghost use Rattle.px_proof.specs.declared.shape.Tick.{Tick};

    // what is gathered comes from these lists alone
    ghost gathered: { Q → Self → List (List Tick) → Type 0 };

    /// Gathers what comes from the list at which the walk stands, and leaves the walk there.
    ///
    /// # Errors
    /// `NoMemory` if memory runs out.
    fn gather(&mut self, question: &Q, walk: &mut W) -> Result<(), NoMemory>
        requires stands { W.stands question.now walk.old }
        requires possible { W.possible question.now (W.ticks walk.old) }
        requires room { length (W.ticks walk.old) < W.most question.now }
        ensures more { OnOk result ((seen : List (List Tick)) → gathered question.now self.old seen
            → gathered question.now self.new (seen ++ W.ticks walk.old ∷ [])) }
        ensures there { OnOk result (W.ticks walk.new ≡ W.ticks walk.old) }
        ensures still { OnOk result (W.stands question.now walk.new) };
}

/// Walks from the start to the last list and gathers at each. If there are `limit` lists or more, returns the shapes of the
/// first `limit` instead.
///
/// # Errors
/// `NoMemory` if memory runs out.
pub fn walk_to_end<Q, W: Walk<Q>, G: Gather<Q, W>>(
    alloc: Global,
    question: &Q,
    walk: &mut W,
    gather: &mut G,
    limit: u32,
) -> Result<Option<Vec<Shape>>, NoMemory>
    requires stands { W.stands question.now walk.old }
    requires start { W.ticks walk.old ≡ [] }
    requires possible { W.possible question.now [] }
    requires nothing { G.gathered question.now gather.old [] }
    requires limit { 0 < limit }
    requires room { limit ≤ W.most question.now }
    ensures all { IfOk result (λ met. IfNone met ((seen : List (List Tick)) × AreAll (W.possible question.now) limit seen
        × G.gathered question.now gather.new seen)) }
    ensures limited { IfOk result (λ met. IfSome met (λ shapes. (seen : List (List Tick))
        × (shapes.items ≡ map (λ ticks. shape_with ticks (W.places question.now ticks)) seen)
        × LimitComes (W.possible question.now) (λ ticks. ⊥) limit seen)) }
    ensures still { OnOk result (W.stands question.now walk.new) }
{
    let mut trail = Vec::new(alloc);
    for count in 0..limit {
        let visit = walk.visit(question);
        push(&mut trail, visit)?;
        if count + 1 == limit {
            let shapes = shapes_of(alloc, &trail)?;
            return Ok(Some(shapes));
        }
        gather.gather(question, walk)?;
        if !advance(question, walk)? {
            return Ok(None);
        }
    }
    unreachable!()
}
