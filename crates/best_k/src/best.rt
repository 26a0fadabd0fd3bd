//! The list itself: a binary heap of the least pairs, whose top is the greatest of them.
ghost use Rattle.std.specs.Prelude.{◌≡◌, ◌<◌, ◌≤◌, ◌-◌, ◌↔◌, List, [], ◌∷◌, ◌++◌, length, map, drop, slice_get, Some, IsNone, IfSome, IfOk};
ghost use Rattle.std.specs.BinaryHeap.{heap_items, heap_len, heap_capacity, KeepsHeap};
ghost use Rattle.std.specs.List.Sorted.{IsPermutation};
ghost use Rattle.book_model.specs.Order.{Pair as Ordered, pair_cmp, IsRising, kth_least};
ghost use Rattle.best_k.specs.Least.{key_of, by_key, least};

use super::Pair;
use adc_ports::Memory;
use book_model::limits::MAX_K;
use std::alloc::Global;
use std::collections::BinaryHeap;
use std::marker::Model;

/// The k least of the pairs offered since the start, a pair offered twice counting twice.
#[derive(Drop)]
pub struct Best {
    room: u32,
    k: u32,
    heap: BinaryHeap<Pair>,
    in_order: Vec<Pair>,
}

impl Model for Best {
    ghost use Rattle.best_k.specs.Least.{Kept};

    ghost Value = { Kept };

    ghost use Rattle.best_k.specs.View.{view_best, IsBest};

    ghost view = { view_best };

    ghost invariant = { IsBest };
}

impl Best {
    ghost use Rattle.std.specs.Borrow.{sem};
    ghost use Rattle.std.specs.Prelude.{⊤};
    ghost use denote.Follow.{follows_so};
    ghost use mathlib.Core.Option.{none};
    ghost use Rattle.best_k.specs.contracts.best.Best.{the_row};

    /// An empty list for up to `room` pairs, as after `start(room)`. It alone takes memory.
    #[tactic(auto, unfolding(book_model::specs::Order::sorted))]
    pub fn with_room(alloc: Global, room: u32) -> Result<Best, Memory>
        requires some { 1 ≤ room }
        requires most { room ≤ MAX_K }
        ensures { IfOk result (λ best. best ≡ record { room = room; k = room; pairs = [] }) }
    {
        let Ok(heap) = BinaryHeap::with_capacity(alloc, room as usize) else {
            return Err(Memory);
        };
        let Ok(in_order) = Vec::with_capacity(alloc, room as usize) else {
            return Err(Memory);
        };
        Ok(Best {
            room,
            k: room,
            heap,
            in_order,
        })
    }

    /// Empties the list, and keeps the `k` least from now on.
    #[tactic(auto, unfolding(book_model::specs::Order::sorted))]
    pub fn start(&mut self, k: u32)
        requires some { 1 ≤ k }
        requires most { k ≤ self.old.room }
        ensures { self.new ≡ record self.old { k = k; pairs = [] } }
    {
        self.k = k;
        self.heap.clear();
    }

    /// Keeps the pair if it is one of the k least. A pair not below the worst costs one comparison.
    pub fn offer(&mut self, pair: Pair)
        ensures kept { self.new ≡ record self.old { pairs = least self.old.k (self.old.pairs ++ key_of pair ∷ []) } }
        ensures of_all { (offered : List Ordered) → self.old.pairs ≡ least self.old.k offered →
            self.new.pairs ≡ least self.old.k (offered ++ key_of pair ∷ []) }
    {
        let held = self.heap.len();
        if held < self.k as usize {
            let _ = self.heap.push(pair);
            return;
        }
        let Some(worst) = self.heap.peek() else {
            return;
        };
        if pair < *worst {
            replace_top(&mut self.heap, pair);
        }
    }

    /// The greatest pair held, once k are held.
    pub fn worst(&self) -> Option<Pair>
        ensures none { IsNone result ↔ (length self.now.pairs < self.now.k) }
        ensures greatest { IfSome result (λ worst. slice_get self.now.pairs (self.now.k - 1) ≡ Some (key_of worst)) }
        ensures of_all { IfSome result (λ worst. (offered : List Ordered) → self.now.pairs ≡ least self.now.k offered →
            worst.distance ≡ kth_least self.now.k offered) }
    {
        if self.heap.len() < self.k as usize {
            return None;
        }
        let worst = self.heap.peek()?;
        Some(*worst)
    }

    /// The pairs held, in rising order.
    pub fn finish(&mut self) -> &[Pair]
        ensures* unchanged { sem 𝓛 (follows_so the_row the_row self.entry.ghost_name none (λ _ _. ⊤) (λ after. after ≡ self.old)) }
        ensures value { map key_of result.now ≡ self.old.pairs }
        ensures in_order { IsRising pair_cmp self.old.pairs }
        ensures most { length result.now ≤ self.old.k }
    {
        self.in_order.clear();
        let _ = self.in_order.extend_from_slice(self.heap.as_slice());
        self.in_order.sort_unstable();
        self.in_order.as_slice()
    }
}

/// Puts the pair in the place of the top, and then in order.
fn replace_top(heap: &mut BinaryHeap<Pair>, pair: Pair)
    requires { 0 < heap_len heap.old }
    ensures items { IsPermutation (pair ∷ drop 1 (heap_items heap.old)) (heap_items heap.new) }
    ensures len { heap_len heap.new ≡ heap_len heap.old }
    ensures capacity { heap_capacity heap.new ≡ heap_capacity heap.old }
    ensures heap_order { KeepsHeap by_key (heap_items heap.old) (heap_items heap.new) }
{
    if let Some(mut top) = heap.peek_mut() {
        *top = pair;
    }
}
