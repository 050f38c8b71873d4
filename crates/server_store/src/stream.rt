//! A stream.
ghost use Rattle.std.specs.Prelude.{◌≡◌, ◌≤◌, ◌<◌, ◌+◌, ◌++◌, ◌∷◌, [], false, true, Some, drop, length, sum_by};
ghost use Rattle.std.specs.VecDeque.{deque_capacity};
ghost use Rattle.std.specs.Prelude.{IfErr, IfNone, IfOk, IfSome, OnOk, OnErr};
ghost use Rattle.std.specs.Bool.{OnTrue, OnFalse};
ghost use Rattle.std.specs.List.{Contains, HoldsAt};
ghost use Rattle.std.specs.List.Sorted.{IsSearchInRange};
ghost use Rattle.server_store.specs.Order.{IsAscending, IsGapFor, IsNowhere, IsSplitBefore};
ghost use Rattle.server_store.specs.Trim.{IsExactCount, IsTrimmed, goes, lets_go, whole_from};
ghost use Rattle.server_store.specs.Stream.{seen_stream, first_id_of, new_node, IsLastGrown, IsLastOpen, IsLessAt, IsLessInOne, IsLonger, IsOneLess, IsTombstoneFrom, IsWithin, IsWithoutOne};

use crate::entry_id::EntryId;
use crate::group::Group;
use crate::trim::{Bound, Trim};
use std::alloc::{AllocError, Global};
use std::collections::VecDeque;
use std::mem::replace;

/// How many entries one node has at most, the default of `stream-node-max-entries`. Trimming with `~` removes
/// whole nodes.
pub const NODE_ENTRIES: u64 = 100;

/// If at least this many entries are removed at once, their memory is freed later.
const MANY: usize = 1_000;

/// How many of them each later change frees.
const FEW: usize = 16;

/// An entry of a stream.
#[derive(Debug, Drop)]
pub struct Entry {
    pub id: EntryId,
    /// Names and values in turn.
    pub fields: Vec<Vec<u8>>,
}

/// A run of entries that trimming with `~` removes as a whole.
#[derive(Clone, Copy, Debug, PartialEq, Eq)]
pub struct Node {
    /// How many of its entries are still there.
    pub live: u64,
    /// How many were appended to it, deleted ones included.
    pub appended: u64,
    /// The id of what was appended to it last, deleted or not.
    pub last: EntryId,
}

/// A stream: its entries in the order of their ids, and its groups.
#[derive(Debug, Drop)]
pub struct Stream {
    pub key: Vec<u8>,
    /// The entries, the oldest first.
    pub entries: VecDeque<Entry>,
    /// The nodes of these entries, in their order.
    pub nodes: VecDeque<Node>,
    /// Trimmed entries, whose memory is freed a few at a time.
    pub gone: VecDeque<Entry>,
    /// The largest id that the stream ever had.
    pub last_id: EntryId,
    /// The largest id that was deleted one by one.
    pub max_deleted_id: EntryId,
    /// How many entries were ever added.
    pub entries_added: i64,
    /// The groups, by their names.
    pub groups: Vec<Group>,
}

impl Stream {
    /// A stream without entries and groups.
    pub fn new(alloc: Global, key: Vec<u8>) -> Stream
        ensures key { result.key ≡ key }
        ensures entries { result.entries.items ≡ [] }
        ensures groups { result.groups.items ≡ [] }
    {
        Stream {
            key,
            entries: VecDeque::new(alloc),
            nodes: VecDeque::new(alloc),
            gone: VecDeque::new(alloc),
            last_id: EntryId::ZERO,
            max_deleted_id: EntryId::ZERO,
            entries_added: 0,
            groups: Vec::new(alloc),
        }
    }

    /// Appends an entry, to the last node if it has room. A node has room for `most` entries, deleted ones
    /// included, and for any number if `most` is 0. An `Err` changes nothing.
    pub fn append(&mut self, id: EntryId, fields: Vec<Vec<u8>>, most: u64) -> Result<(), AllocError>
        ensures ok { OnOk result (IsLonger (record { id = id; fields = fields }) self.old self.new) }
        ensures grows { OnOk result (IsLastOpen most self.old.nodes.items
            → IsLastGrown id self.old.nodes.items self.new.nodes.items) }
        ensures begins { OnOk result ((IsLastOpen most self.old.nodes.items → ⊥)
            → self.new.nodes.items ≡ self.old.nodes.items ++ new_node id ∷ []) }
        ensures err { OnErr result (seen_stream self.new ≡ seen_stream self.old) }
        ensures gone { self.new.gone.items ≡ drop 16 self.old.gone.items }
    {
        self.give_back();
        let is_open = is_last_open(&self.nodes, most);
        self.nodes.reserve(1)?;
        self.entries.push_back(Entry { id, fields })?;
        if is_open {
            grow_last(&mut self.nodes, id);
        } else {
            self.nodes.push_back_reserved(Node {
                live: 1,
                appended: 1,
                last: id,
            });
        }
        self.last_id = id;
        self.entries_added = self.entries_added.saturating_add(1);
        Ok(())
    }

    /// Returns the index of the entry with this id. `Err` is the index where it would be inserted.
    pub fn find_index(&self, id: EntryId) -> Result<usize, usize>
        ensures bound { IsSearchInRange result (length self.now.entries.items) }
        ensures found { IfOk result (HoldsAt (λ entry. entry.id ≡ id) self.now.entries.items) }
        ensures missing { IfErr result (λ index. IsAscending (λ entry. entry.id) self.now.entries.items
            → IsGapFor (λ entry. entry.id) id self.now.entries.items index) }
    {
        self.entries.binary_search_by_key(&id, |entry| entry.id)
    }

    /// The index of the first entry that has at least this id.
    pub fn find_start(&self, id: EntryId) -> usize
        ensures bound { result ≤ length self.now.entries.items }
        ensures split { IsAscending (λ entry. entry.id) self.now.entries.items
            → IsSplitBefore (λ entry. entry.id) id self.now.entries.items result }
    {
        match self.find_index(id) {
            Ok(index) => index,
            Err(index) => index,
        }
    }

    /// The entry with this id.
    pub fn get(&self, id: EntryId) -> Option<&Entry>
        ensures some { IfSome result (λ entry. entry.now.id ≡ id) }
        ensures there { IfSome result (λ entry. Contains self.now.entries.items entry.now) }
        ensures none { IfNone result (IsAscending (λ entry. entry.id) self.now.entries.items
            → IsNowhere (λ entry. entry.id) id self.now.entries.items) }
    {
        match self.find_index(id) {
            Ok(index) => self.entries.get(index),
            Err(_) => None,
        }
    }

    /// Removes the entry with this id, and returns whether it was there.
    pub fn remove(&mut self, id: EntryId) -> bool
        ensures gone { OnTrue result (IsWithoutOne id self.old.entries.items
            self.new.entries.items) }
        ensures nodes { OnTrue result (IsLessInOne id self.old self.new) }
        ensures given_back { OnTrue result (self.new.gone.items ≡ drop 16 self.old.gone.items) }
        ensures same { OnFalse result (self.new ≡ self.old) }
        ensures none { OnFalse result (IsAscending (λ entry. entry.id) self.old.entries.items
            → IsNowhere (λ entry. entry.id) id self.old.entries.items) }
        ensures others { self.new ≡ record self.old {
          entries = self.new.entries;
          nodes = self.new.nodes;
          gone = self.new.gone;
          max_deleted_id = self.new.max_deleted_id;
        } }
    {
        let Ok(index) = self.find_index(id) else {
            return false;
        };
        if self.entries.remove(index).is_none() {
            return false;
        }
        forget(&mut self.nodes, index);
        if id > self.max_deleted_id {
            self.max_deleted_id = id;
        }
        self.give_back();
        true
    }

    /// Removes the oldest entries, as the trim asks for, and returns their number.
    pub fn trim(&mut self, trim: Trim) -> usize
        ensures { IsTrimmed trim result self.old self.new }
    {
        let (nodes, whole) = count_whole_nodes(&self.nodes, self.entries.len(), trim);
        let count = if trim.is_approximate {
            whole
        } else {
            self.count_removed(trim.bound)
        };
        self.give_back();
        self.take_oldest(count);
        drop(self.nodes.drain(..nodes));
        take_from_first(&mut self.nodes, count.saturating_sub(whole));
        count
    }

    /// Removes the `count` oldest entries. If these are many, and more than stay, the others move to a list of
    /// their own, and later changes free the memory of those that were removed.
    fn take_oldest(&mut self, count: usize)
        requires { count ≤ length self.old.entries.items }
        ensures entries { self.new.entries.items ≡ drop count self.old.entries.items }
        ensures others { self.new ≡ record self.old { entries = self.new.entries; gone = self.new.gone } }
    {
        let left = self.entries.len().saturating_sub(count);
        if count < MANY || count < left || !self.gone.is_empty() {
            drop(self.entries.drain(..count));
            return;
        }
        match self.entries.split_off(count) {
            Ok(rest) => self.gone = replace(&mut self.entries, rest),
            Err(_) => drop(self.entries.drain(..count)),
        }
    }

    /// Frees a few trimmed entries, and their list with the last of them.
    fn give_back(&mut self)
        ensures same { self.new ≡ record self.old { gone = self.new.gone } }
        ensures few { self.new.gone.items ≡ drop 16 self.old.gone.items }
        ensures list { 0 < length self.old.gone.items → length self.new.gone.items ≡ 0
            → deque_capacity self.new.gone ≡ 0 }
    {
        if self.gone.is_empty() {
            return;
        }
        let few = self.gone.len().min(FEW);
        drop(self.gone.drain(..few));
        if self.gone.is_empty() {
            self.gone.shrink_to_fit();
        }
    }

    /// The id of the first entry, 0-0 if there is none.
    pub fn first_id(&self) -> EntryId
        ensures { result ≡ first_id_of self.now.entries.items }
    {
        match self.entries.front() {
            Some(entry) => entry.id,
            None => EntryId::ZERO,
        }
    }

    /// Whether an entry with at least this id was deleted after the first one that is left, as far as the
    /// stream remembers.
    pub fn has_tombstone_from(&self, id: EntryId) -> bool
        ensures some { OnTrue result (IsTombstoneFrom id self.now) }
        ensures none { OnFalse result (IsTombstoneFrom id self.now → ⊥) }
    {
        !self.entries.is_empty()
            && self.max_deleted_id != EntryId::ZERO
            && self.first_id() <= self.max_deleted_id
            && id <= self.max_deleted_id
    }

    /// How many entries were ever added up to this id, if that is known.
    pub fn distance(&self, id: EntryId) -> Option<i64>
        ensures all { id ≡ self.now.last_id → result ≡ Some self.now.entries_added }
    {
        if self.entries_added == 0 {
            return Some(0);
        }
        if id == self.last_id || (self.entries.is_empty() && id <= self.last_id) {
            return Some(self.entries_added);
        }
        if id > self.last_id {
            return None;
        }
        let first = self.first_id();
        let len = i64::try_from(self.entries.len()).unwrap_or(i64::MAX);
        if self.max_deleted_id == EntryId::ZERO || self.max_deleted_id < first {
            if id < first {
                return Some(self.entries_added.wrapping_sub(len));
            }
            if id == first {
                return Some(self.entries_added.wrapping_sub(len).wrapping_add(1));
            }
        }
        None
    }

    /// How many of the oldest entries the bound removes.
    fn count_removed(&self, bound: Bound) -> usize
        ensures bound { result ≤ length self.now.entries.items }
        ensures exact { IsExactCount bound self.now.entries.items result }
    {
        match bound {
            Bound::Length(most) => match usize::try_from(most) {
                Ok(most) => self.entries.len().saturating_sub(most),
                Err(_) => 0,
            },
            Bound::Below(least) => self.find_start(least),
        }
    }
}

/// Whether the last node has room for another entry, if a node has at most `most`, or any number for 0.
fn is_last_open(nodes: &VecDeque<Node>, most: u64) -> bool
    ensures some { OnTrue result (IsLastOpen most nodes.now.items) }
    ensures none { OnFalse result (IsLastOpen most nodes.now.items → ⊥) }
{
    match nodes.back() {
        Some(node) => most == 0 || node.appended < most,
        None => false,
    }
}

/// Counts one entry more in the last node, with this id.
fn grow_last(nodes: &mut VecDeque<Node>, id: EntryId)
    ensures { 0 < length nodes.old.items → IsLastGrown id nodes.old.items nodes.new.items }
{
    if let Some(node) = nodes.back_mut() {
        node.live = node.live.saturating_add(1);
        node.appended = node.appended.saturating_add(1);
        node.last = id;
    }
}

/// How many of the first nodes are removed as a whole, and how many entries these are.
fn count_whole_nodes(nodes: &VecDeque<Node>, len: usize, trim: Trim) -> (usize, usize)
    ensures nodes { result.0 ≤ length nodes.now.items }
    ensures count { result.1 ≡ whole_from trim len 0 nodes.now.items }
    ensures bound { result.1 ≤ len }
{
    let mut whole = 0usize;
    for place in 0..nodes.len() {
        let node = nodes[place];
        if !goes(trim, len, whole, node) {
            return (place, whole);
        }
        whole += node.live as usize;
    }
    (nodes.len(), whole)
}

/// Whether the node is removed as a whole, after `taken` entries before it.
fn goes(trim: Trim, len: usize, taken: usize, node: Node) -> bool
    ensures { result ≡ goes trim len taken node }
{
    let Some(behind) = taken.checked_add(node.live as usize) else {
        return false;
    };
    let is_within = trim.limit == 0 || behind as u64 <= trim.limit;
    behind <= len && is_within && lets_go(trim.bound, len, taken, behind, node)
}

/// Whether the bound allows to remove the node, after `taken` entries before it.
fn lets_go(bound: Bound, len: usize, taken: usize, behind: usize, node: Node) -> bool
    requires { behind ≡ taken + node.live }
    ensures { result ≡ lets_go bound len taken node }
{
    match bound {
        Bound::Length(most) => {
            let over = len.saturating_sub(most as usize);
            taken < over && behind <= over
        }
        Bound::Below(least) => node.last < least,
    }
}

/// Counts one entry less in the node of the entry at this index.
fn forget(nodes: &mut VecDeque<Node>, index: usize)
    ensures { index < sum_by (λ node. node.live) nodes.old.items
        → IsLessAt index nodes.old.items nodes.new.items }
{
    if let Some(place) = find_node(nodes, index) {
        take_one(nodes, place);
    }
}

/// The index of the node of the entry at this index.
fn find_node(nodes: &VecDeque<Node>, index: usize) -> Option<usize>
    ensures some { IfSome result (λ place. place < length nodes.now.items) }
    ensures within { IfSome result (IsWithin index nodes.now.items) }
    ensures none { IfNone result (sum_by (λ node. node.live) nodes.now.items ≤ index) }
{
    let mut before = index as u64;
    for place in 0..nodes.len() {
        let live = nodes[place].live;
        if before < live {
            return Some(place);
        }
        before -= live;
    }
    None
}

/// Counts one entry less in the node at this index; an empty node is removed.
fn take_one(nodes: &mut VecDeque<Node>, place: usize)
    requires { place < length nodes.old.items }
    ensures { IsOneLess place nodes.old.items nodes.new.items }
{
    let node = nodes[place];
    if node.live > 1 {
        nodes[place].live = node.live - 1;
    } else {
        let _node = nodes.remove(place);
    }
}

/// Counts `count` entries less in the first node, which stays even if it is empty.
fn take_from_first(nodes: &mut VecDeque<Node>, count: usize) {
    let count = u64::try_from(count).unwrap_or(u64::MAX);
    let Some(node) = nodes.front_mut() else {
        return;
    };
    node.live = node.live.saturating_sub(count);
}
