//! The entries of a list, in each form of a read reply that the list has.
ghost use Rattle.std.specs.Prelude.{◌≡◌, ◌≢◌, ◌++◌, List, Some, None, IfOk, IfErr, OnOk, option_map};
ghost use Rattle.std.specs.Option.{is_some};
ghost use Rattle.stream_entries.specs.Entry.{Entry};
ghost use Rattle.stream_entries.specs.EntryMeaning.{entries_of};
ghost use Rattle.stream_entries.specs.InForms.{InForms, behind_in_forms, entries_in_forms, item_in_forms};
ghost use Rattle.stream_entries.specs.InForms.{items_in_forms, some_form};
ghost use Rattle.stream_entries.specs.InFormsMeaning.{entries_held, held_in, list_or_none};
ghost use Rattle.stream_entries.specs.ItemsLeft.{item_tree, trees_left};
ghost use Rattle.stream_entries.specs.Read.{claim_entries};
ghost use Rattle.stream_entries.specs.Rows.{standard_entries};
ghost use Rattle.stream_entries.specs.declared.entries.Entries.TheVariants.{Both};

use crate::item_form::{ItemForm, Rows};
use crate::items::{Delivery, ListItem};
use crate::items_left::{Item, ItemsLeft, count_items, into_items, next_item};
use crate::overlap::{Form, Overlap, find_numbers, read_overlap, settle};
use crate::stream_id::StreamId;
use redis_resp::{FromRedisValue, ParsingError, Source, Value};
use std::alloc::{AllocError, Global};

/// The entries of a list, in each form of a read reply that the list has.
#[derive(Drop)]
pub(crate) enum Entries {
    /// In the standard form only.
    Standard(Vec<StreamId>),
    /// In the claim form only.
    Claim(Vec<StreamId>),
    /// In both forms: no item has ruled one out.
    Both(Vec<Overlap>),
}

impl Entries {
    /// Whether the list has the form.
    #[tactic(auto, using(crate::proofs::InFormsLemmas::both_have))]
    pub(crate) fn has(&self, form: Form) -> bool
        ensures { result ≡ is_some (held_in form (entries_held self.now)) }
    {
        match self {
            Entries::Standard(_) => match form {
                Form::Standard => true,
                Form::Claim => false,
            },
            Entries::Claim(_) => match form {
                Form::Standard => false,
                Form::Claim => true,
            },
            Entries::Both(_) => true,
        }
    }

    /// Returns the entries in the form. There are none if the list does not have it.
    #[tactic(auto, using(crate::proofs::InFormsLemmas::settled_listed))]
    pub(crate) fn into_form(self, alloc: Global, form: Form) -> Result<Vec<StreamId>, AllocError>
        ensures { IfOk result (λ ids. entries_of ids
            ≡ list_or_none (held_in form (entries_held self))) }
    {
        match self {
            Entries::Standard(ids) => match form {
                Form::Standard => Ok(ids),
                Form::Claim => Ok(Vec::new(alloc)),
            },
            Entries::Claim(ids) => match form {
                Form::Standard => Ok(Vec::new(alloc)),
                Form::Claim => Ok(ids),
            },
            Entries::Both(overlaps) => {
                let room = overlaps.len();
                settle(alloc, overlaps, form, room)
            }
        }
    }

    /// Appends the entries of one more item, of a list with `count` items. An item that rules out
    /// a form closes it.
    fn with<S: Source>(
        self,
        alloc: Global,
        item: Item<S>,
        count: usize,
    ) -> Result<Entries, ParsingError>
        ensures ok { IfOk result (λ r. entries_held r
            ≡ behind_in_forms (entries_held self) (item_in_forms (item_tree S.seen item))) }
        ensures err { IfErr result (λ e. e ≢ ParsingError.Memory
            → behind_in_forms (entries_held self) (item_in_forms (item_tree S.seen item))
            ≡ (None, None)) }
    {
        match self {
            Entries::Standard(ids) => with_row(alloc, ids, item),
            Entries::Claim(ids) => with_delivery(alloc, ids, item),
            Entries::Both(overlaps) => match item {
                Item::Whole(v) => with_either(alloc, overlaps, v, count),
                Item::Pair(key, value) => {
                    rule_out_claim(alloc, overlaps, Item::Pair(key, value), count)
                }
            },
        }
    }
}

/// Appends a row to entries of the standard form.
fn with_row<S: Source>(
    alloc: Global,
    mut ids: Vec<StreamId>,
    row: Item<S>,
) -> Result<Entries, ParsingError>
    ensures ok { IfOk result (λ r. entries_held r ≡ (
      option_map (λ es. entries_of ids ++ es)
          (standard_entries (item_tree S.seen row)),
      None,
    )) }
    ensures err { IfErr result (λ e. e ≢ ParsingError.Memory
        → standard_entries (item_tree S.seen row) ≡ None) }
{
    match row {
        Item::Whole(v) => Rows::push(alloc, v, &mut ids)?,
        Item::Pair(key, value) => Rows::push_single(alloc, key, value, &mut ids)?,
    }
    Ok(Entries::Standard(ids))
}

/// Appends a delivery to entries of the claim form.
#[tactic(auto, using(crate::proofs::NumbersLemmas::delivery_told))]
fn with_delivery<S: Source>(
    alloc: Global,
    mut ids: Vec<StreamId>,
    item: Item<S>,
) -> Result<Entries, ParsingError>
    ensures ok { IfOk result (λ r. entries_held r ≡ (
      None,
      option_map (λ es. entries_of ids ++ es)
          (claim_entries (item_tree S.seen item)),
    )) }
    ensures err { IfErr result (λ e. e ≢ ParsingError.Memory
        → claim_entries (item_tree S.seen item) ≡ None) }
{
    let Item::Whole(v) = item else {
        return Err(ParsingError::NotTuple(4));
    };
    let delivery: Delivery = v.read(alloc)?;
    delivery.push_to(&mut ids)?;
    Ok(Entries::Claim(ids))
}

/// Appends an item to entries of both forms. It may rule out a form.
#[tactic(auto, using(crate::proofs::NumbersLemmas::numbers_told))]
fn with_either<S: Source>(
    alloc: Global,
    mut overlaps: Vec<Overlap>,
    v: S,
    count: usize,
) -> Result<Entries, ParsingError>
    ensures ok { IfOk result (λ r. entries_held r
        ≡ behind_in_forms (entries_held (Both overlaps)) (item_in_forms (S.seen v))) }
    ensures err { IfErr result (λ e. e ≢ ParsingError.Memory
        → behind_in_forms (entries_held (Both overlaps)) (item_in_forms (S.seen v))
        ≡ (None, None)) }
{
    match find_numbers(v.as_value()) {
        None => rule_out_claim(alloc, overlaps, Item::Whole(v), count),
        Some((None, _)) => rule_out_standard(alloc, overlaps, v, count),
        Some((_, Some(_))) => rule_out_standard(alloc, overlaps, v, count),
        Some((Some(number), None)) => {
            let overlap = read_overlap(alloc, v, number)?;
            overlaps.push(overlap)?;
            Ok(Entries::Both(overlaps))
        }
    }
}

/// Appends an item that is not a delivery to entries of both forms.
fn rule_out_claim<S: Source>(
    alloc: Global,
    overlaps: Vec<Overlap>,
    item: Item<S>,
    count: usize,
) -> Result<Entries, ParsingError>
    requires { claim_entries (item_tree S.seen item) ≡ None }
    ensures ok { IfOk result (λ r. entries_held r ≡ behind_in_forms
        (entries_held (Both overlaps)) (item_in_forms (item_tree S.seen item))) }
    ensures err { IfErr result (λ e. e ≢ ParsingError.Memory → behind_in_forms
        (entries_held (Both overlaps)) (item_in_forms (item_tree S.seen item))
        ≡ (None, None)) }
{
    let ids = settle(alloc, overlaps, Form::Standard, count)?;
    with_row(alloc, ids, item)
}

/// Appends an item that is not a row to entries of both forms.
fn rule_out_standard<S: Source>(
    alloc: Global,
    overlaps: Vec<Overlap>,
    v: S,
    count: usize,
) -> Result<Entries, ParsingError>
    requires { standard_entries (S.seen v) ≡ None }
    ensures ok { IfOk result (λ r. entries_held r
        ≡ behind_in_forms (entries_held (Both overlaps)) (item_in_forms (S.seen v))) }
    ensures err { IfErr result (λ e. e ≢ ParsingError.Memory
        → behind_in_forms (entries_held (Both overlaps)) (item_in_forms (S.seen v))
        ≡ (None, None)) }
{
    let ids = settle(alloc, overlaps, Form::Claim, count)?;
    with_delivery(alloc, ids, Item::Whole(v))
}

/// Reads the entries of a list in both forms, each until an item has ruled it out.
#[tactic(auto, using(crate::proofs::InFormsLemmas::list_forms))]
pub(crate) fn read_in_forms<S: Source>(alloc: Global, v: S) -> Result<Entries, ParsingError>
    ensures ok { IfOk result (λ r. entries_in_forms (S.seen v) ≡ entries_held r) }
    ensures err { IfErr result (λ e. e ≢ ParsingError.Memory
        → entries_in_forms (S.seen v) ≡ (None, None)) }
{
    match into_items(v) {
        Some(left) => read_items::<S>(alloc, left),
        None => Err(ParsingError::NotList),
    }
}

/// Reads each item, in order.
fn read_items<S: Source>(
    alloc: Global,
    mut left: ItemsLeft<S::Values, S::Pairs>,
) -> Result<Entries, ParsingError>
    ensures ok { IfOk result (λ r. items_in_forms (trees_left S.values_left S.pairs_left left)
        ≡ entries_held r) }
    ensures err { IfErr result (λ e. e ≢ ParsingError.Memory
        → items_in_forms (trees_left S.values_left S.pairs_left left) ≡ (None, None)) }
{
    let count = count_items::<S>(&left);
    let none = Vec::new(alloc);
    let mut entries = Entries::Both(none);
    while let Some(item) = next_item::<S>(&mut left) {
        let longer = entries.with(alloc, item, count)?;
        entries = longer;
    }
    Ok(entries)
}

impl FromRedisValue for Entries {
    ghost Meaning = { InForms (List Entry) };

    ghost meaning = { entries_held };

    ghost reading = { λ t. some_form (entries_in_forms t) };

    fn from_redis_value(alloc: Global, v: Value) -> Result<Entries, ParsingError> {
        read_in_forms(alloc, v)
    }

    fn from_redis_value_ref(alloc: Global, v: &Value) -> Result<Entries, ParsingError> {
        read_in_forms(alloc, v)
    }
}
