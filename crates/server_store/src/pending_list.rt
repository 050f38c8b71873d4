//! What is pending in a group, in memory.
ghost use Rattle.std.specs.Prelude.{◌≡◌, ◌≤◌, ◌<◌, ◌+◌, ◌==◌, ◌&&◌, ◌⊎◌, ◌∷◌, ◌++◌, ℕ, List, [], true, false, length, not, IfNone, IfOk, IfSome, IfErr, OnErr, OnOk};
ghost use Rattle.std.specs.VecDeque.{deque_capacity};
ghost use Rattle.std.specs.List.{Contains, HoldsAt};
ghost use Rattle.std.specs.List.Sorted.{IsSearchInRange};
ghost use Rattle.server_store.specs.Consumers.{pending_for_others};
ghost use Rattle.server_store.specs.Order.{IsAscending, IsGapFor, IsNowhere};
ghost use Rattle.server_store.specs.Pending.{pending_without};
ghost use Rattle.server_store.specs.PendingList.{BeginsAt, IsInserted, IsPut, IsTaken, live, live_from, pending_behind, slot_of};
ghost use Rattle.server_store.specs.declared.group.Pending.{Pending};
ghost use Rattle.server_store.specs.declared.pending_list.Slot.{Slot};

use crate::entry_id::EntryId;
use crate::group::{Held, Pending};
use std::alloc::{AllocError, Global};
use std::collections::VecDeque;
use std::marker::Model;

/// The place of a pending entry. It stays for a while after the entry is removed.
#[derive(Debug, Drop)]
pub struct Slot {
    pub held: Held,
    /// Whether the entry is pending.
    pub is_live: bool,
}

/// What is pending in a group, in the order of its ids.
///
/// To remove an entry marks its slot. Once more than an eighth of the slots are marked, all of these are
/// dropped. So a removal moves eight slots on average, however many are pending. Marked slots at both ends
/// are dropped at once.
///
/// A contract sees the pending entries as `items`, and the slots, by whose indices the list is read.
#[derive(Debug, Drop)]
pub struct PendingList {
    slots: VecDeque<Slot>,
    /// How many of them are live.
    len: usize,
}

impl Model for PendingList {
    ghost use Rattle.std.specs.VecDeque.{deque_capacity};
    ghost use Rattle.server_store.specs.PendingList.{IsSound, PendingSlots, live};

    ghost Value = { PendingSlots };

    ghost view = { λ list. record {
      items = live list.slots.items;
      slots = list.slots.items;
      capacity = deque_capacity list.slots;
    } };

    ghost invariant = { λ list. IsSound list.slots.items list.len };
}

impl PendingList {
    /// Nothing is pending.
    pub fn new(alloc: Global) -> PendingList
        ensures items { result.items ≡ [] }
        ensures slots { result.slots ≡ [] }
    {
        PendingList {
            slots: VecDeque::new(alloc),
            len: 0,
        }
    }

    /// The number of pending entries.
    pub fn len(&self) -> usize
        ensures { result ≡ length self.now.items }
    {
        self.len
    }

    /// The pending entry with this id.
    pub fn get(&self, id: EntryId) -> Option<Pending>
        ensures some { IfSome result (λ pending. pending.id ≡ id) }
        ensures there { IfSome result (λ pending. Contains self.now.items pending) }
        ensures none { IfNone result (IsNowhere (λ pending. pending.id) id self.now.items) }
    {
        match find_place(&self.slots, id) {
            Ok(index) => find_pending(&self.slots[index]),
            Err(_) => None,
        }
    }

    /// The first pending entry.
    pub fn first(&self) -> Option<Pending>
        ensures some { IfSome result (λ first. (rest : List Pending) × (self.now.items ≡ first ∷ rest)) }
        ensures none { IfNone result (self.now.items ≡ []) }
    {
        match find_next(&self.slots, 0) {
            Some((_, pending)) => Some(pending),
            None => None,
        }
    }

    /// The last pending entry.
    pub fn last(&self) -> Option<Pending>
        ensures some { IfSome result (λ last. (front : List Pending) × (self.now.items ≡ front ++ last ∷ [])) }
        ensures none { IfNone result (self.now.items ≡ []) }
    {
        find_last(&self.slots)
    }

    /// The index of the first slot with at least this id.
    pub fn start(&self, id: EntryId) -> usize
        ensures { BeginsAt id self.now result }
    {
        match find_place(&self.slots, id) {
            Ok(index) => index,
            Err(index) => index,
        }
    }

    /// The index of the first slot after this id.
    pub fn start_behind(&self, id: EntryId) -> usize
        ensures { live_from self.now.slots result ≡ pending_behind id self.now.items }
    {
        match find_place(&self.slots, id) {
            Ok(index) => index + 1,
            Err(index) => index,
        }
    }

    /// The first entry that is pending from this slot on, with the index of the slot after it.
    pub fn next_at(&self, at: usize) -> Option<(usize, Pending)>
        ensures some { IfSome result (λ next. live_from self.now.slots at
            ≡ next.1 ∷ live_from self.now.slots next.0) }
        ensures further { IfSome result (λ next. (at < next.0) × (next.0 ≤ length self.now.slots)) }
        ensures none { IfNone result (live_from self.now.slots at ≡ []) }
    {
        find_next(&self.slots, at)
    }

    /// Inserts the pending entry, or replaces and returns the one with its id. It allocates memory only if there
    /// was no slot for the id.
    pub fn give(&mut self, pending: Pending) -> Result<Option<Pending>, AllocError>
        ensures ok { IfOk result (IsPut pending self.old.items self.new.items) }
        ensures err { OnErr result (self.new.items ≡ self.old.items) }
        ensures err_new { OnErr result (IsNowhere (λ pending. pending.id) pending.id self.old.items) }
    {
        match find_place(&self.slots, pending.id) {
            Ok(index) => Ok(self.put_at(index, pending)),
            Err(index) => {
                let held = Held::new(*self.slots.allocator(), pending)?;
                self.insert(index, held)?;
                Ok(None)
            }
        }
    }

    /// The same of a held pending entry. If there is memory for one more slot, it allocates nothing.
    pub fn put(&mut self, held: Held) -> Result<Option<Pending>, AllocError>
        ensures ok { IfOk result (IsPut held self.old.items self.new.items) }
        ensures err { OnErr result (self.new.items ≡ self.old.items) }
        ensures err_new { OnErr result (IsNowhere (λ pending. pending.id) held.id self.old.items) }
        ensures full { OnErr result (length self.old.slots + 1 ≤ self.old.capacity → ⊥) }
        ensures places { (more : ℕ) → length self.old.slots + (more + 1) ≤ self.old.capacity
            → length self.new.slots + more ≤ self.new.capacity }
    {
        let pending = held.get();
        match find_place(&self.slots, pending.id) {
            Ok(index) => Ok(self.put_at(index, pending)),
            Err(index) => {
                self.insert(index, held)?;
                Ok(None)
            }
        }
    }

    /// Puts the pending entry into the slot with its id, which is at this index, and returns the one that was
    /// pending there.
    fn put_at(&mut self, index: usize, pending: Pending) -> Option<Pending>
        requires within { index < length self.old.slots }
        requires named { HoldsAt (λ slot. slot.held.id ≡ pending.id) self.old.slots index }
        ensures is { IsPut pending self.old.items self.new.items result }
        ensures len { length self.new.slots ≡ length self.old.slots }
        ensures capacity { self.new.capacity ≡ self.old.capacity }
    {
        match find_pending(&self.slots[index]) {
            Some(was) => {
                fill(&mut self.slots[index], pending);
                Some(was)
            }
            None => {
                fill(&mut self.slots[index], pending);
                self.len += 1;
                None
            }
        }
    }

    /// Inserts the pending entry in the gap for its id, which is at this index.
    fn insert(&mut self, index: usize, held: Held) -> Result<(), AllocError>
        requires within { index ≤ length self.old.slots }
        requires gap { IsGapFor (λ slot. slot.held.id) held.id self.old.slots index }
        ensures ok { OnOk result (IsInserted held self.old.items self.new.items) }
        ensures err { OnErr result (self.new.items ≡ self.old.items) }
        ensures full { OnErr result (length self.old.slots + 1 ≤ self.old.capacity → ⊥) }
        ensures places { (more : ℕ) → length self.old.slots + (more + 1) ≤ self.old.capacity
            → length self.new.slots + more ≤ self.new.capacity }
    {
        let slot = Slot {
            held,
            is_live: true,
        };
        self.slots.insert(index, slot)?;
        self.len += 1;
        Ok(())
    }

    /// Removes the pending entry with this id, and returns it.
    pub fn remove(&mut self, id: EntryId) -> Option<Pending>
        ensures gone { IfSome result (λ was. IsTaken was self.old.items self.new.items) }
        ensures named { IfSome result (λ was. was.id ≡ id) }
        ensures without { self.new.items ≡ pending_without id self.old.items }
        ensures same { IfNone result (self.new ≡ self.old) }
        ensures none { IfNone result (IsNowhere (λ pending. pending.id) id self.old.items) }
    {
        let Ok(index) = find_place(&self.slots, id) else {
            return None;
        };
        let Some(was) = find_pending(&self.slots[index]) else {
            return None;
        };
        let slot = &mut self.slots[index];
        slot.is_live = false;
        self.len -= 1;
        drop_marked(&mut self.slots, self.len);
        Some(was)
    }

    /// Removes the first pending entry, and returns it.
    pub fn pop_first(&mut self) -> Option<Held>
        ensures some { IfSome result (λ held. self.old.items ≡ held ∷ self.new.items) }
        ensures none { IfNone result (self.old.items ≡ []) }
    {
        drop_front(&mut self.slots);
        let slot = self.slots.pop_front()?;
        self.len -= 1;
        Some(slot.held)
    }

    /// Removes what is pending for the consumer of this number.
    pub fn remove_for(&mut self, consumer: u64)
        ensures { self.new.items ≡ pending_for_others consumer self.old.items }
    {
        self.slots.retain(|slot| is_for_other(slot, consumer));
        self.len = self.slots.len();
    }

    /// An empty list with memory for the slots of this one and for `more`, unless this one has memory for them.
    pub fn room_for(&self, alloc: Global, more: usize) -> Result<PendingList, AllocError>
        ensures { IfOk result (λ room. (length self.now.slots + more ≤ self.now.capacity)
            ⊎ (length self.now.slots + more ≤ room.capacity)) }
    {
        let mut slots = VecDeque::new(alloc);
        if self.slots.capacity().saturating_sub(self.slots.len()) < more {
            slots.reserve(self.slots.len().max(more).saturating_mul(2))?;
        }
        Ok(PendingList { slots, len: 0 })
    }

    /// Moves the slots into the memory of the room, if that is larger.
    pub fn move_into(&mut self, room: PendingList)
        ensures items { self.new.items ≡ self.old.items }
        ensures slots { self.new.slots ≡ self.old.slots }
        ensures capacity { self.old.capacity ≤ self.new.capacity }
        ensures room { room.capacity ≤ self.new.capacity }
    {
        move_slots(&mut self.slots, room.slots);
    }
}

/// The index of the slot with this id, or as an `Err` of the first after it.
fn find_place(slots: &VecDeque<Slot>, id: EntryId) -> Result<usize, usize>
    ensures bound { IsSearchInRange result (length slots.now.items) }
    ensures found { IfOk result (HoldsAt (λ slot. slot.held.id ≡ id) slots.now.items) }
    ensures missing { IfErr result (λ index. IsAscending (λ slot. slot.held.id) slots.now.items
        → IsGapFor (λ slot. slot.held.id) id slots.now.items index) }
{
    slots.binary_search_by_key(&id, |slot| slot.held.get().id)
}

/// What is pending in the slot.
fn find_pending(slot: &Slot) -> Option<Pending>
    ensures some { IfSome result (λ pending. (slot.now.is_live ≡ true) × (slot.now.held ≡ pending)) }
    ensures none { IfNone result (slot.now.is_live ≡ false) }
{
    if slot.is_live {
        Some(slot.held.get())
    } else {
        None
    }
}

/// Puts a pending entry into the slot.
fn fill(slot: &mut Slot, pending: Pending)
    ensures { slot.new ≡ slot_of pending }
{
    slot.held.set(pending);
    slot.is_live = true;
}

/// Whether an entry is pending in the slot, for another consumer than the one of this number.
fn is_for_other(slot: &Slot, consumer: u64) -> bool
    ensures { result ≡ (slot.now.is_live && not (slot.now.held.consumer == consumer)) }
{
    slot.is_live && slot.held.get().consumer != consumer
}

/// The first entry that is pending from this slot on, with the index of the slot after it.
fn find_next(slots: &VecDeque<Slot>, at: usize) -> Option<(usize, Pending)>
    ensures some { IfSome result (λ next. live_from slots.now.items at
        ≡ next.1 ∷ live_from slots.now.items next.0) }
    ensures further { IfSome result (λ next. (at < next.0) × (next.0 ≤ length slots.now.items)) }
    ensures none { IfNone result (live_from slots.now.items at ≡ []) }
{
    for index in at..slots.len() {
        if let Some(pending) = find_pending(&slots[index]) {
            return Some((index + 1, pending));
        }
    }
    None
}

/// The last pending entry.
fn find_last(slots: &VecDeque<Slot>) -> Option<Pending>
    ensures some { IfSome result (λ last. (front : List Pending) × (live slots.now.items ≡ front ++ last ∷ [])) }
    ensures none { IfNone result (live slots.now.items ≡ []) }
{
    for index in (0..slots.len()).rev() {
        if let Some(pending) = find_pending(&slots[index]) {
            return Some(pending);
        }
    }
    None
}

/// Drops the marked slots at both ends, and all of them if they are more than an eighth; `count` are live.
fn drop_marked(slots: &mut VecDeque<Slot>, count: usize)
    ensures items { live slots.new.items ≡ live slots.old.items }
    ensures ascend { IsAscending (λ slot. slot.held.id) slots.old.items
        → IsAscending (λ slot. slot.held.id) slots.new.items }
{
    drop_front(slots);
    drop_back(slots);
    if slots.len().saturating_sub(count) > slots.len() / 8 {
        slots.retain(|slot| slot.is_live);
    }
}

/// Drops the marked slots before the first live one.
fn drop_front(slots: &mut VecDeque<Slot>)
    ensures items { live slots.new.items ≡ live slots.old.items }
    ensures ascend { IsAscending (λ slot. slot.held.id) slots.old.items
        → IsAscending (λ slot. slot.held.id) slots.new.items }
    ensures first { 0 < length slots.new.items → HoldsAt (λ slot. slot.is_live ≡ true) slots.new.items 0 }
{
    while let Some(slot) = slots.front() {
        if slot.is_live {
            break;
        }
        let _marked = slots.pop_front();
    }
}

/// Drops the marked slots after the last live one.
fn drop_back(slots: &mut VecDeque<Slot>)
    ensures items { live slots.new.items ≡ live slots.old.items }
    ensures ascend { IsAscending (λ slot. slot.held.id) slots.old.items
        → IsAscending (λ slot. slot.held.id) slots.new.items }
{
    while let Some(slot) = slots.back() {
        if slot.is_live {
            break;
        }
        let _marked = slots.pop_back();
    }
}

/// Moves the slots into the room, if that is larger.
fn move_slots(slots: &mut VecDeque<Slot>, mut room: VecDeque<Slot>)
    ensures items { slots.new.items ≡ slots.old.items }
    ensures capacity { deque_capacity slots.old ≤ deque_capacity slots.new }
    ensures room { deque_capacity room ≤ deque_capacity slots.new }
{
    if room.capacity() > slots.capacity() {
        room.clear();
        if room.append(slots).is_ok() {
            *slots = room;
        }
    }
}
