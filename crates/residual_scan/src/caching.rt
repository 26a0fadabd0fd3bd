//! Which slot of a cache has the table of which key, over the kit's `lru`.
ghost use Rattle.std.specs.Prelude.{◌≡◌, ◌≢◌, ℕ, ◌<◌, ◌≤◌, List, length, nat_eq, slice_get, Some, true, false};
ghost use Rattle.std.specs.List.{AllByRecursion, IsDistinct};
ghost use Rattle.std.specs.Map.{lookup, keys_of};
ghost use Rattle.lru.specs.LruCache.{lru_cache, put_entries, last_entry};
ghost use Rattle.residual_scan.specs.Caching.{HasKept, Takes};

use lru::LruCache;

/// A slot, and whether its table has to be filled.
#[derive(Debug, Clone, Copy, PartialEq, Eq)]
pub(crate) struct Taken {
    pub slot: u32,
    pub fresh: bool,
}

/// The slot of a key: the one that has its table, or else the one that was used longest ago. It is the last used afterwards.
/// Each slot is an entry from the start, so no memory is taken.
pub(crate) fn take_slot(slots: &mut LruCache<u32, u32>, places: &mut [u32], key: u32) -> Taken
    requires key { key < length places.old }
    requires some { 1 ≤ length slots.old.entries }
    requires whole { length slots.old.entries ≡ slots.old.cap }
    ensures takes { (kept : List ℕ) (was : HasKept kept slots.old.entries places.old) → Takes slots.old.cap kept slots.old.entries places.old slots.new.entries places.new key result.slot result.fresh was }
    ensures first { slice_get slots.new.entries 0 ≡ Some (result.slot, key) }
    ensures apart { (slot other : ℕ) → slice_get slots.old.entries 0 ≡ Some (slot, other) → other ≢ key → 2 ≤ length slots.old.entries → result.slot ≢ slot }
    ensures within { (n : ℕ) → AllByRecursion (λ e. e.0 < n) slots.old.entries → AllByRecursion (λ e. e.0 < n) slots.new.entries }
    ensures length { length slots.new.entries ≡ length slots.old.entries }
    ensures cap { slots.new.cap ≡ slots.old.cap }
    ensures places { length places.new ≡ length places.old }
{
    let _count = slots.len();
    let slot = places[key as usize];
    if has_key(slots, slot, key) {
        slots.promote(&slot);
        return Taken { slot, fresh: false };
    }
    let slot = give(slots, key);
    places[key as usize] = slot;
    Taken { slot, fresh: true }
}

/// Whether a slot has the table of a key.
fn has_key(slots: &LruCache<u32, u32>, slot: u32, key: u32) -> bool
    ensures held { result ≡ true → lookup (nat_eq slot) slots.now.entries ≡ Some key }
    ensures other { result ≡ false → lookup (nat_eq slot) slots.now.entries ≢ Some key }
{
    match slots.peek(&slot) {
        Some(held) => *held == key,
        None => false,
    }
}

/// Gives the slot that was used longest ago to a key.
fn give(slots: &mut LruCache<u32, u32>, key: u32) -> u32
    requires some { 1 ≤ length slots.old.entries }
    requires distinct { IsDistinct nat_eq (keys_of slots.old.entries) }
    ensures gives { slots.new ≡ lru_cache (put_entries nat_eq slots.old result key) slots.old.cap }
    ensures last { (old : ℕ) × (last_entry slots.old.entries ≡ Some (result, old)) }
{
    let slot = match slots.peek_lru() {
        Some((slot, _)) => *slot,
        None => unreachable!(),
    };
    match slots.put(slot, key) {
        Ok(_) => slot,
        Err(_) => unreachable!(),
    }
}
