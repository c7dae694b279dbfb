//! The places that weren't picked yet, by what they are picked.
ghost use Rattle.std.specs.Prelude.{◌≡◌, ◌≤◌, ◌∷◌, [], All, IfSome, IfNone, OnOk, OnErr, IsPermutation};
ghost use Rattle.px_order.specs.Agendas.{rank_of, rank_value, rank_place};

use px_base::NoMemory;
use std::alloc::Global;
use std::cmp::Reverse;
use std::collections::BinaryHeap;
use std::marker::Model;

/// The places that weren't picked yet, each with its value: the open nodes of best-first search.
///
/// Contracts see it as the list of its ranks, in some order.
#[derive(Drop)]
pub struct Agenda {
    ranks: BinaryHeap<Reverse<(u64, u32)>>,
}

impl Model for Agenda {
    ghost use Rattle.std.specs.Prelude.{List};
    ghost use Rattle.std.specs.Ordering.{nat_cmp, ordering_then};
    ghost use Rattle.std.specs.BinaryHeap.{heap_items, IsHeap};
    ghost use Rattle.px_order.specs.Agendas.{Rank};

    ghost Value = { List Rank };

    ghost view = { λ agenda. heap_items agenda.ranks };

    ghost invariant = { λ agenda. IsHeap (λ x y. ordering_then (nat_cmp y.0.0 x.0.0) (nat_cmp y.0.1 x.0.1)) (heap_items agenda.ranks) };
}

impl Agenda {
    /// Returns an agenda without places. Does not allocate.
    pub fn new(alloc: Global) -> Agenda
        ensures { result ≡ [] }
    {
        Agenda {
            ranks: BinaryHeap::new(alloc),
        }
    }

    /// Adds the place with its value.
    ///
    /// # Errors
    /// `NoMemory` where there is no memory for it. The agenda is then as it was.
    pub fn add(&mut self, value: u64, place: u32) -> Result<(), NoMemory>
        ensures put { OnOk result (IsPermutation (rank_of value place ∷ self.old) self.new) }
        ensures err { OnErr result (self.new ≡ self.old) }
    {
        match self.ranks.push(Reverse((value, place))) {
            Ok(()) => Ok(()),
            Err(_) => Err(NoMemory),
        }
    }

    /// Takes a place of the least value, among these the least place, and returns its value and the place. `None` where the agenda is
    /// empty. Does not allocate.
    pub fn pick(&mut self) -> Option<(u64, u32)>
        ensures taken { IfSome result (λ rank. IsPermutation self.old (rank_of rank.0 rank.1 ∷ self.new)) }
        ensures least { IfSome result (λ rank. All (λ other. rank.0 ≤ rank_value other) self.new) }
        ensures tie { IfSome result (λ rank. All (λ other. rank.0 ≡ rank_value other → rank.1 ≤ rank_place other) self.new) }
        ensures none { IfNone result (self.old ≡ []) }
        ensures kept { IfNone result (self.new ≡ []) }
    {
        match self.ranks.pop() {
            Some(Reverse(rank)) => Some(rank),
            None => None,
        }
    }
}
