//! A group of consumers.
ghost use Rattle.std.specs.Prelude.{◌≡◌, ◌≤◌, ◌<◌, ◌+◌, ℕ, [], length, map, vec_capacity, vec_len, IfNone, IfOk, IfSome, OnOk, OnErr};
ghost use Rattle.std.specs.Bool.{OnTrue, OnFalse};
ghost use Rattle.std.specs.List.{Contains, HoldsAt};
ghost use Rattle.std.specs.List.Sorted.{IsSearchInRange};
ghost use Rattle.server_store.specs.Order.{IsAscending, IsNowhere};
ghost use Rattle.server_store.specs.Consumers.{HasRoom, IsNewcomer, IsRemoved, IsSeen};
ghost use Rattle.server_store.specs.Room.{HasPlaces, IsOpenFor};
ghost use Rattle.server_store.specs.Pending.{IsAcknowledged, IsGiven, pending_without, recounted, with_less, with_more};

use crate::entry_id::EntryId;
use crate::pending_list::PendingList;
use crate::room::Room;
use std::alloc::{AllocError, Global};
use std::marker::Model;

/// An entry that was delivered to a consumer and is not acknowledged.
#[derive(Clone, Copy, Debug, PartialEq, Eq)]
pub struct Pending {
    pub id: EntryId,
    /// The number of the consumer.
    pub consumer: u64,
    /// When it was delivered last, in milliseconds.
    pub given_at: u64,
    /// How often it was delivered.
    pub deliveries: u64,
}

/// A pending entry in memory of its own, so that a list of many moves two words for each.
///
/// A contract sees the pending entry.
#[derive(Debug, Drop)]
pub struct Held {
    pending: Box<Pending>,
}

impl Model for Held {
    ghost use Rattle.server_store.specs.declared.group.Pending.{Pending};

    ghost Value = { Pending };

    ghost view = { λ held. held.pending.value };
}

impl Held {
    /// Allocates memory for it.
    pub fn new(alloc: Global, pending: Pending) -> Result<Held, AllocError>
        ensures { IfOk result (λ held. held ≡ pending) }
    {
        let pending = Box::new(alloc, pending)?;
        Ok(Held { pending })
    }

    /// The pending entry.
    pub fn get(&self) -> Pending
        ensures { result ≡ self.now }
    {
        *self.pending
    }

    /// Returns it as pending for the consumer of this number.
    pub fn for_consumer(mut self, number: u64) -> Held
        ensures { result ≡ record self { consumer = number } }
    {
        self.pending.consumer = number;
        self
    }

    /// Replaces the pending entry.
    pub fn set(&mut self, pending: Pending)
        ensures { self.new ≡ pending }
    {
        *self.pending = pending;
    }
}

/// A consumer of a group.
#[derive(Clone, Debug, Drop)]
pub struct Consumer {
    pub name: Vec<u8>,
    /// The number that its pending entries have; no other consumer of the group ever has it.
    pub number: u64,
    /// When it was seen last, in milliseconds.
    pub seen_at: u64,
    /// How many entries are pending for it.
    pub pending: u64,
}

/// A group: its last delivered id, and what is pending for its consumers.
#[derive(Debug, Drop)]
pub struct Group {
    pub name: Vec<u8>,
    /// The last id that was delivered.
    pub last_id: EntryId,
    /// How many entries were read, if that is known.
    pub entries_read: Option<i64>,
    /// What is pending, in the order of its ids.
    pub pending: PendingList,
    /// The consumers, in the order of their names.
    pub consumers: Vec<Consumer>,
    /// The number of the next consumer.
    pub next_number: u64,
}

impl Group {
    /// A group without consumers.
    pub fn new(alloc: Global, name: Vec<u8>, last_id: EntryId, entries_read: Option<i64>) -> Group
        ensures name { result.name ≡ name }
        ensures last_id { result.last_id ≡ last_id }
        ensures entries_read { result.entries_read ≡ entries_read }
        ensures pending { result.pending.items ≡ [] }
        ensures consumers { result.consumers.items ≡ [] }
    {
        Group {
            name,
            last_id,
            entries_read,
            pending: PendingList::new(alloc),
            consumers: Vec::new(alloc),
            next_number: 0,
        }
    }

    /// The pending entry with this id.
    pub fn get(&self, id: EntryId) -> Option<Pending>
        ensures some { IfSome result (λ pending. pending.id ≡ id) }
        ensures there { IfSome result (λ pending. Contains self.now.pending.items pending) }
        ensures none { IfNone result (IsAscending (λ pending. pending.id) self.now.pending.items
            → IsNowhere (λ pending. pending.id) id self.now.pending.items) }
    {
        self.pending.get(id)
    }

    /// The consumer of this name.
    pub fn consumer(&self, name: &[u8]) -> Option<&Consumer>
        ensures named { IfSome result (λ consumer. consumer.now.name.items ≡ name.now) }
        ensures there { IfSome result (λ consumer. Contains self.now.consumers.items consumer.now) }
    {
        match self.find_place(name) {
            Ok(index) => self.consumers.get(index),
            Err(_) => None,
        }
    }

    /// A group with the same last delivered id, with this consumer alone, if it exists, and with nothing
    /// pending.
    pub fn part(&self, alloc: Global, name: &[u8]) -> Result<Group, AllocError>
        ensures last_id { IfOk result (λ part. part.last_id ≡ self.now.last_id) }
        ensures entries_read { IfOk result (λ part. part.entries_read ≡ self.now.entries_read) }
        ensures next_number { IfOk result (λ part. part.next_number ≡ self.now.next_number) }
        ensures pending { IfOk result (λ part. part.pending.items ≡ []) }
    {
        let mut consumers = Vec::new(alloc);
        if let Some(consumer) = self.consumer(name) {
            consumers.push(consumer.clone()?)?;
        }
        Ok(Group {
            name: Vec::new(alloc),
            last_id: self.last_id,
            entries_read: self.entries_read,
            pending: PendingList::new(alloc),
            consumers,
            next_number: self.next_number,
        })
    }

    /// Reserves memory for this consumer and for `more` pending entries.
    pub fn room_for(&self, alloc: Global, name: &[u8], more: usize) -> Result<Room, AllocError>
        ensures named { IfOk result (λ room. room.name.items ≡ name.now) }
        ensures enough { IfOk result (λ room. HasRoom room self.now) }
        ensures places { IfOk result (λ room. HasPlaces more room self.now) }
    {
        let name = Vec::from_slice(alloc, name)?;
        let pending = self.pending.room_for(alloc, more)?;
        let mut consumers = Vec::new(alloc);
        if self.consumers.capacity() == self.consumers.len() {
            consumers.reserve(self.consumers.len().max(2).saturating_mul(2))?;
        }
        Ok(Room {
            name,
            pending,
            consumers,
        })
    }

    /// Marks the consumer as seen now, creates it if it is new, and returns its number. What is pending stays.
    pub fn see(&mut self, alloc: Global, name: &[u8], now: u64) -> Result<u64, AllocError>
        ensures ok { IfOk result (λ number. IsSeen name.now now number self.old self.new) }
        ensures err { OnErr result (self.new ≡ record self.old { consumers = self.new.consumers }) }
        ensures err_consumers { OnErr result (self.new.consumers.items ≡ self.old.consumers.items) }
        ensures others { self.new ≡ record self.old {
          consumers = self.new.consumers;
          next_number = self.new.next_number;
        } }
    {
        match self.find_place(name) {
            Ok(index) => {
                let consumer = &mut self.consumers[index];
                consumer.seen_at = now;
                Ok(consumer.number)
            }
            Err(index) => self.make(index, Vec::from_slice(alloc, name)?, now),
        }
    }

    /// Marks the consumer of the room as seen now, and gives the room to the group. If `room_for` of this group
    /// made the room, it allocates nothing.
    pub fn see_in(&mut self, room: Room, now: u64) -> Result<u64, AllocError>
        ensures ok { IfOk result (λ number. IsSeen room.name.items now number self.old self.new) }
        ensures err_consumers { OnErr result (self.new.consumers.items ≡ self.old.consumers.items) }
        ensures err_number { OnErr result (self.new.next_number ≡ self.old.next_number) }
        ensures full { OnErr result (HasRoom room self.old → ⊥) }
        ensures places { (more : ℕ) → HasPlaces more room self.old → IsOpenFor more self.new }
        ensures pending { self.new.pending.items ≡ self.old.pending.items }
        ensures others { self.new ≡ record self.old {
          pending = self.new.pending;
          consumers = self.new.consumers;
          next_number = self.new.next_number;
        } }
    {
        self.pending.move_into(room.pending);
        match self.find_place(&room.name) {
            Ok(index) => {
                let consumer = &mut self.consumers[index];
                consumer.seen_at = now;
                Ok(consumer.number)
            }
            Err(index) => {
                move_consumers(&mut self.consumers, room.consumers);
                self.make(index, room.name, now)
            }
        }
    }

    /// Inserts a new consumer at this index, and returns its number.
    fn make(&mut self, index: usize, name: Vec<u8>, now: u64) -> Result<u64, AllocError>
        requires { index ≤ length self.old.consumers.items }
        ensures ok { IfOk result (λ number. IsNewcomer name.items now number self.old self.new) }
        ensures err { OnErr result (self.new ≡ record self.old { consumers = self.new.consumers }) }
        ensures err_consumers { OnErr result (self.new.consumers.items ≡ self.old.consumers.items) }
        ensures full { OnErr result (vec_capacity self.old.consumers ≤ vec_len self.old.consumers) }
        ensures others { self.new ≡ record self.old {
          consumers = self.new.consumers;
          next_number = self.new.next_number;
        } }
    {
        let number = self.next_number;
        self.consumers.insert(
            index,
            Consumer {
                name,
                number,
                seen_at: now,
                pending: 0,
            },
        )?;
        self.next_number = number.saturating_add(1);
        Ok(number)
    }

    /// Inserts or replaces the pending entry with this id. It allocates memory only if there was none.
    pub fn give(&mut self, pending: Pending) -> Result<(), AllocError>
        ensures ok { OnOk result (IsGiven pending self.old self.new) }
        ensures err { OnErr result (self.new.pending.items ≡ self.old.pending.items) }
        ensures err_consumers { OnErr result (self.new.consumers ≡ self.old.consumers) }
        ensures err_new { OnErr result (IsAscending (λ pending. pending.id) self.old.pending.items
            → IsNowhere (λ pending. pending.id) pending.id self.old.pending.items) }
        ensures others { self.new ≡ record self.old { pending = self.new.pending; consumers = self.new.consumers } }
    {
        let replaced = self.pending.give(pending)?;
        recount(&mut self.consumers, replaced, pending.consumer);
        Ok(())
    }

    /// The same of a held pending entry. If the group has memory for one more, it allocates nothing.
    pub fn put(&mut self, held: Held) -> Result<(), AllocError>
        ensures ok { OnOk result (IsGiven held self.old self.new) }
        ensures err { OnErr result (self.new.pending.items ≡ self.old.pending.items) }
        ensures err_consumers { OnErr result (self.new.consumers ≡ self.old.consumers) }
        ensures err_new { OnErr result (IsAscending (λ pending. pending.id) self.old.pending.items
            → IsNowhere (λ pending. pending.id) held.id self.old.pending.items) }
        ensures others { self.new ≡ record self.old { pending = self.new.pending; consumers = self.new.consumers } }
        ensures full { OnErr result (IsOpenFor 1 self.old → ⊥) }
        ensures places { (more : ℕ) → IsOpenFor (more + 1) self.old → IsOpenFor more self.new }
    {
        let consumer = held.get().consumer;
        let replaced = self.pending.put(held)?;
        recount(&mut self.consumers, replaced, consumer);
        Ok(())
    }

    /// Removes the entry from the pending ones, and returns whether it was there.
    pub fn acknowledge(&mut self, id: EntryId) -> bool
        ensures without { IsAscending (λ pending. pending.id) self.old.pending.items
            → self.new.pending.items ≡ pending_without id self.old.pending.items }
        ensures order { IsAscending (λ pending. pending.id) self.old.pending.items
            → IsAscending (λ pending. pending.id) self.new.pending.items }
        ensures gone { OnTrue result (IsAcknowledged id self.old self.new) }
        ensures same { OnFalse result (self.new ≡ self.old) }
        ensures none { OnFalse result (IsAscending (λ pending. pending.id) self.old.pending.items
            → IsNowhere (λ pending. pending.id) id self.old.pending.items) }
        ensures others { self.new ≡ record self.old { pending = self.new.pending; consumers = self.new.consumers } }
    {
        let Some(was) = self.pending.remove(id) else {
            return false;
        };
        count_one_less(&mut self.consumers, was.consumer);
        true
    }

    /// Removes the consumer with its pending entries, and returns the number of these.
    pub fn remove_consumer(&mut self, name: &[u8]) -> u64
        ensures removed { IsRemoved name.now result self.old self.new }
        ensures others { self.new ≡ record self.old { pending = self.new.pending; consumers = self.new.consumers } }
    {
        let Ok(index) = self.find_place(name) else {
            return 0;
        };
        let consumer = self.consumers.remove(index);
        self.pending.remove_for(consumer.number);
        consumer.pending
    }

    /// The index of the consumer of this name, or of the first after it.
    fn find_place(&self, name: &[u8]) -> Result<usize, usize>
        ensures bound { IsSearchInRange result (length self.now.consumers.items) }
        ensures found { IfOk result (HoldsAt (λ consumer. consumer.name.items ≡ name.now)
            self.now.consumers.items) }
    {
        let index = self
            .consumers
            .binary_search_by(|consumer| consumer.name.as_slice().cmp(&name))?;
        match self.consumers.get(index) {
            Some(consumer) if consumer.name.as_slice() == name => Ok(index),
            _ => Err(index),
        }
    }
}

/// Moves the consumers into the room, if that is larger.
fn move_consumers(consumers: &mut Vec<Consumer>, mut room: Vec<Consumer>)
    ensures items { consumers.new.items ≡ consumers.old.items }
    ensures capacity { vec_capacity consumers.old ≤ vec_capacity consumers.new }
    ensures room { vec_capacity room ≤ vec_capacity consumers.new }
{
    if room.capacity() > consumers.capacity() {
        room.clear();
        if room.append(consumers).is_ok() {
            *consumers = room;
        }
    }
}

/// Counts one more pending entry for the consumer of this number, and one less for the one that had what was
/// replaced.
fn recount(consumers: &mut [Consumer], replaced: Option<Pending>, number: u64)
    ensures { consumers.new ≡ map (with_more number) (recounted replaced consumers.old) }
{
    if let Some(was) = replaced {
        count_one_less(consumers, was.consumer);
    }
    count_one_more(consumers, number);
}

/// Counts one more pending entry for the consumer of this number.
fn count_one_more(consumers: &mut [Consumer], number: u64)
    ensures { consumers.new ≡ map (with_more number) consumers.old }
{
    for consumer in consumers.iter_mut() {
        count_more(consumer, number);
    }
}

/// Counts one pending entry less for the consumer of this number.
fn count_one_less(consumers: &mut [Consumer], number: u64)
    ensures { consumers.new ≡ map (with_less number) consumers.old }
{
    for consumer in consumers.iter_mut() {
        count_less(consumer, number);
    }
}

/// Counts one more pending entry for the consumer, if it has this number.
fn count_more(consumer: &mut Consumer, number: u64)
    ensures { consumer.new ≡ with_more number consumer.old }
{
    if consumer.number == number {
        consumer.pending = consumer.pending.saturating_add(1);
    }
}

/// Counts one pending entry less for the consumer, if it has this number.
fn count_less(consumer: &mut Consumer, number: u64)
    ensures { consumer.new ≡ with_less number consumer.old }
{
    if consumer.number == number {
        consumer.pending = consumer.pending.saturating_sub(1);
    }
}
