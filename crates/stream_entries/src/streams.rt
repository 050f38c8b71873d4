//! The streams of a read reply, in each form that all their lists have.
ghost use Rattle.std.specs.Prelude.{◌≡◌, ◌≢◌, ◌++◌, None, IfOk, IfErr, OnOk};
ghost use Rattle.std.specs.List.{list_all};
ghost use Rattle.std.specs.Option.{is_some};
ghost use Rattle.stream_entries.specs.InForms.{behind_in_forms, pair_in_forms, row_in_forms, rows_in_forms};
ghost use Rattle.stream_entries.specs.InFormsMeaning.{entries_held, held_in, keys_in, streams_held};
ghost use Rattle.stream_entries.specs.ItemsLeft.{item_tree, trees_left};
ghost use Rattle.stream_entries.specs.ReadMeaning.{streams_of};

use crate::entries::{Entries, read_in_forms};
use crate::items_left::{Item, ItemsLeft, count_items, next_item};
use crate::one_pair::into_one_pair;
use crate::overlap::Form;
use crate::read_forms::ReadForms;
use crate::stream_key::StreamKey;
use indexmap::IndexMap;
use redis_resp::{PairList, ParsingError, Source, index_map_of};
use std::alloc::{AllocError, Global};

/// The streams that were read so far.
#[derive(Drop)]
pub(crate) struct OpenStreams {
    /// The forms that all lists have, also those of a name that is repeated.
    pub(crate) forms: ReadForms,
    /// The streams, in order.
    pub(crate) keys: Vec<(String, Entries)>,
}

impl OpenStreams {
    /// Returns the streams in the form, in order.
    pub(crate) fn into_form(self, alloc: Global, form: Form) -> Result<Vec<StreamKey>, AllocError>
        ensures { IfOk result (λ keys. streams_of keys ≡ keys_in form self.keys) }
    {
        let mut keys = Vec::with_capacity(alloc, self.keys.len())?;
        for (key, entries) in self.keys {
            let ids = entries.into_form(alloc, form)?;
            keys.push(StreamKey { key, ids })?;
        }
        Ok(keys)
    }

    /// Appends the streams of one more row.
    #[tactic(auto, using(crate::proofs::StreamsLemmas::one_of_row))]
    fn with<S: Source>(self, alloc: Global, row: Item<S>) -> Result<OpenStreams, ParsingError>
        ensures ok { IfOk result (λ r. streams_held r
            ≡ behind_in_forms (streams_held self) (row_in_forms (item_tree S.seen row))) }
        ensures err { IfErr result (λ e. e ≢ ParsingError.Memory
            → row_in_forms (item_tree S.seen row) ≡ (None, None)) }
    {
        match row {
            Item::Pair(key, list) => self.with_one(alloc, key, list),
            Item::Whole(v) => match into_one_pair(v) {
                Ok((key, list)) => self.with_one(alloc, key, list),
                Err(v) => self.with_many(alloc, v),
            },
        }
    }

    /// Appends one stream.
    #[tactic(auto, using(crate::proofs::StreamsLemmas::one_stream))]
    fn with_one<S: Source>(
        self,
        alloc: Global,
        key: S,
        list: S,
    ) -> Result<OpenStreams, ParsingError>
        ensures ok { IfOk result (λ r. streams_held r
            ≡ behind_in_forms (streams_held self) (pair_in_forms (S.seen key, S.seen list))) }
        ensures err { IfErr result (λ e. e ≢ ParsingError.Memory
            → pair_in_forms (S.seen key, S.seen list) ≡ (None, None)) }
    {
        let OpenStreams { forms, mut keys } = self;
        let key: String = key.read(alloc)?;
        let entries = read_in_forms(alloc, list)?;
        let one = ReadForms {
            standard: entries.has(Form::Standard),
            claim: entries.has(Form::Claim),
        };
        let forms = forms.and(one);
        keys.push((key, entries))?;
        Ok(OpenStreams { forms, keys })
    }

    /// Appends the streams of a row with any number of pairs.
    #[tactic(auto, using(crate::proofs::StreamsLemmas::several_streams))]
    fn with_many<S: Source>(self, alloc: Global, row: S) -> Result<OpenStreams, ParsingError>
        ensures ok { IfOk result (λ r. streams_held r
            ≡ behind_in_forms (streams_held self) (row_in_forms (S.seen row))) }
        ensures err { IfErr result (λ e. e ≢ ParsingError.Memory
            → row_in_forms (S.seen row) ≡ (None, None)) }
    {
        let OpenStreams { forms, mut keys } = self;
        let list: PairList<Entries> = row.read(alloc)?;
        let pairs = list.0;
        let all = ReadForms {
            standard: have_form(&pairs, Form::Standard),
            claim: have_form(&pairs, Form::Claim),
        };
        let forms = forms.and(all);
        push_table(&mut keys, index_map_of(alloc, pairs)?)?;
        Ok(OpenStreams { forms, keys })
    }
}

/// Appends the streams of a table, in order.
fn push_table(
    keys: &mut Vec<(String, Entries)>,
    table: IndexMap<String, Entries>,
) -> Result<(), AllocError>
    ensures { OnOk result (keys.new.items ≡ keys.old.items ++ table.entries) }
{
    for (key, entries) in table {
        keys.push((key, entries))?;
    }
    Ok(())
}

/// Whether each list has the form.
fn have_form(pairs: &[(String, Entries)], form: Form) -> bool
    ensures { result ≡ list_all (λ p. is_some (held_in form (entries_held p.1))) pairs.now }
{
    pairs.iter().all(|pair| pair.1.has(form))
}

/// Reads each row, in order.
pub(crate) fn read_streams<S: Source>(
    alloc: Global,
    mut left: ItemsLeft<S::Values, S::Pairs>,
) -> Result<OpenStreams, ParsingError>
    ensures ok { IfOk result (λ r. rows_in_forms (trees_left S.values_left S.pairs_left left)
        ≡ streams_held r) }
    ensures err { IfErr result (λ e. e ≢ ParsingError.Memory
        → rows_in_forms (trees_left S.values_left S.pairs_left left) ≡ (None, None)) }
{
    let keys = Vec::with_capacity(alloc, count_items::<S>(&left))?;
    let forms = ReadForms {
        standard: true,
        claim: true,
    };
    let mut streams = OpenStreams { forms, keys };
    while let Some(row) = next_item::<S>(&mut left) {
        let longer = streams.with(alloc, row)?;
        streams = longer;
    }
    Ok(streams)
}
