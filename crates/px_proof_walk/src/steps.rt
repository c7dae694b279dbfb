//! Going on to the next list, and walking to the first finished proof.
ghost use Rattle.std.specs.Prelude.{◌≡◌, ◌<◌, ◌≤◌, ◌+◌, ◌++◌, ◌∷◌, [], true, false, length, map, List, IfOk, OnOk};
ghost use Rattle.px_proof.specs.declared.shape.Tick.{Tick};
ghost use Rattle.px_proof_walk.specs.Ends.{MatchEnd};
ghost use Rattle.px_proof_walk.specs.Order.{IsNext, NoneAfter};
ghost use Rattle.px_proof_walk.specs.Search.{ComesFirst, NoneComes, LimitComes};
ghost use Rattle.px_proof_walk.specs.Possible.{shape_with};
ghost use Rattle.px_proof_walk.specs.Trail.{BranchesOff};

use crate::end::End;
use crate::visit::shapes_of;
use crate::walk::Walk;
use px_base::{NoMemory, push};
use px_proof::Tick;
use std::alloc::Global;

/// Goes on to the next list of the walk, and returns whether there is one.
///
/// # Errors
/// `NoMemory` if memory runs out.
pub fn advance<Q, W: Walk<Q>>(question: &Q, walk: &mut W) -> Result<bool, NoMemory>
    requires stands { W.stands question.now walk.old }
    requires room { length (W.ticks walk.old) < W.most question.now }
    ensures next { IfOk result (λ found. found ≡ true → IsNext (W.possible question.now) (W.ticks walk.old) (W.ticks walk.new)) }
    ensures branches { IfOk result (λ found. found ≡ true → BranchesOff (W.ticks walk.old) (W.ticks walk.new)) }
    ensures none { IfOk result (λ found. found ≡ false → NoneAfter (W.possible question.now) (W.ticks walk.old)) }
    ensures longer { OnOk result (length (W.ticks walk.new) ≤ length (W.ticks walk.old) + 1) }
    ensures still { OnOk result (W.stands question.now walk.new) }
{
    let mut last: Option<Tick> = None;
    while !walk.try_after(question, last)? {
        match walk.retract(question) {
            None => return Ok(false),
            Some(tick) => last = Some(tick),
        }
    }
    Ok(true)
}

/// Walks from the start to the first finished proof, unless `limit` unfinished ones come first.
///
/// # Errors
/// `NoMemory` if memory runs out.
pub fn walk_to_finished<Q, W: Walk<Q>>(
    alloc: Global,
    question: &Q,
    walk: &mut W,
    limit: u32,
) -> Result<End, NoMemory>
    requires stands { W.stands question.now walk.old }
    requires start { W.ticks walk.old ≡ [] }
    requires possible { W.possible question.now [] }
    requires limit { 0 < limit }
    requires room { limit ≤ W.most question.now }
    ensures end { IfOk result (λ end. MatchEnd end
        (ComesFirst (W.possible question.now) (W.finished question.now) limit (W.ticks walk.new))
        (NoneComes (W.possible question.now) (W.finished question.now) limit)
        (λ shapes. (seen : List (List Tick)) × (shapes ≡ map (λ ticks. shape_with ticks (W.places question.now ticks)) seen)
        × LimitComes (W.possible question.now) (W.finished question.now) limit seen)) }
    ensures still { OnOk result (W.stands question.now walk.new) }
{
    let mut trail = Vec::new(alloc);
    for count in 0..limit {
        if walk.is_finished(question) {
            return Ok(End::Found);
        }
        let visit = walk.visit(question);
        push(&mut trail, visit)?;
        if count + 1 == limit {
            let shapes = shapes_of(alloc, &trail)?;
            return Ok(End::Limit(shapes));
        }
        if !advance(question, walk)? {
            return Ok(End::NoMore);
        }
    }
    unreachable!()
}
