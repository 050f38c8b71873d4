//! The search for entries that were delivered too often.
ghost use Rattle.std.specs.Prelude.{◌≡◌, ◌≢◌, ◌<◌, ◌≤◌, ◌%◌, ◌+◌, ◌∷◌, ◌⊎◌, [], IfErr, IfOk, IfSome, IsTrue, MatchOption, Ok, OnErr, OnOk, Some, false, true};
ghost use Rattle.std.specs.Prelude.{ℕ, List, filter, length, map, max, nat_le, option_map, string_bytes};
ghost use Rattle.std.specs.List.{flat_map};
ghost use Rattle.worker.specs.Letters.{Entry};
ghost use Rattle.redis_connection.specs.Ask.{Asks};
ghost use Rattle.worker.specs.DeadLetters.Besides.{Besides, BreaksBesides, BreaksLooking, GivesUpNow, Looks, OnlyLooks};
ghost use Rattle.worker.specs.DeadLetters.Dead.{AreJust, BreaksOff, Delivers, DeliversSome, GivesUp, GivesUpPage, GivesUpSome};
ghost use Rattle.worker.specs.DeadLetters.Dead.{Posted, PostedFields, PostsAll, PostsSome, ReadsPage, claim_words, claimer_of, own_words, page_words};
ghost use Rattle.worker.specs.DeadLetters.Dead.{IsAllowed, IsCounted, IsNext, IsRefused, IsSearched, Searches, SearchesBoth, letter_names};
ghost use Rattle.worker.specs.DeadLetters.Dead.{CountsOn, OnlyCounts, counted_after};
ghost use Rattle.worker.specs.DeadLetters.Dead.{none_waits, row_of, rows_of, rows_reading, searcher_of, waiting_of};
ghost use Rattle.worker.specs.Letters.{desk_of, names_of};

use crate::dead_letters::error::{SearchError, SearchSettingsError};
use crate::{Asked, DeadLetters, LetterAsked, Settings};
use redis_connection::{AskError, Connection, ConnectionError};
use redis_resp::{RawBytes, ToRedisArgs, Value, WriteError};
use std::alloc::{AllocError, Global};
use std::io::{Read, Write};
use std::mem;
use stream_commands::{AtLeastOne, xclaim, xpending_consumer_count, xpending_idle_count};

/// The `COUNT` of XPENDING.
const PAGE: usize = 100;

/// The most pages of pending entries that one search reads.
const PAGES: usize = 1000;

/// The reply to XCLAIM: each entry's id with its fields in order, or nil for a deleted entry.
type Claimed = Vec<Option<(String, Vec<RawBytes>)>>;

/// A row of the reply to XPENDING: the id, the consumer, the idle time, and the delivery count. A consumer's name may
/// be any bytes, so it is not decoded.
type Row = (String, Value, Value, usize);

/// A pending entry.
#[derive(Drop)]
pub struct Waiting {
    /// The id of the entry.
    id: String,
    /// The delivery count of the entry.
    deliveries: usize,
    /// Why the entry is given up. Empty if its delivery count is the reason.
    reason: Vec<u8>,
}

/// Which entries are given up, and the stream for their letters.
#[derive(Drop)]
pub struct GiveUp {
    /// Entries with this delivery count or more are given up.
    pub deliveries: usize,
    /// The name of the dead-letter stream.
    pub stream: String,
}

/// Finds pending entries that were delivered too often, and gives them up.
#[derive(Drop)]
pub struct DeadLetterSearch {
    key: String,
    group: String,
    consumer: String,
    min_idle: usize,
    deliveries: usize,
    stream: String,
    /// How many reads of new entries are made between searches, as between the worker's claims.
    every: usize,
    /// How many reads were made since the last search.
    reads: usize,
    /// Whether the worker must first acknowledge the entries in its file.
    waits: bool,
    /// Whether the search before the worker's first command was made.
    begun: bool,
    /// How many entries have a letter and were acknowledged.
    letters: u64,
}

impl DeadLetterSearch {
    /// Returns a search for a worker, which is then made from these settings. Sets `one_at_a_time` in them, so
    /// an entry that ends the process raises no other entry's delivery count.
    pub fn new(
        alloc: Global,
        settings: &mut Settings,
        to: GiveUp,
    ) -> Result<DeadLetterSearch, SearchSettingsError>
        ensures names { IfOk result (λ d. (string_bytes d.key ≡ string_bytes settings.old.key)
            × (string_bytes d.group ≡ string_bytes settings.old.group)
            × (string_bytes d.consumer ≡ string_bytes settings.old.consumer)) }
        ensures given_up { IfOk result (λ d. (d.deliveries ≡ to.deliveries) × (d.stream ≡ to.stream)
            × (d.min_idle ≡ settings.old.min_idle)) }
        ensures every { IfOk result (λ d. d.every ≡ max settings.old.every 1) }
        ensures begins { IfOk result (λ d. (d.waits ≡ false) × (d.begun ≡ false) × (d.reads ≡ 0) × (d.letters ≡ 0)) }
        ensures one_at_a_time { OnOk result (settings.new ≡ record settings.old { one_at_a_time = true }) }
        ensures same_settings { OnErr result (settings.new ≡ settings.old) }
        ensures allowed { OnOk result (IsAllowed (string_bytes settings.old.key) to) }
        ensures refused { IfErr result (IsRefused (string_bytes settings.old.key) to) }
    {
        check_settings(settings.key(), &to)?;
        let search = DeadLetterSearch::from_settings(alloc, settings, to)?;
        settings.set_one_at_a_time(true);
        Ok(search)
    }

    /// Returns the search with the names in these settings.
    fn from_settings(
        alloc: Global,
        settings: &Settings,
        to: GiveUp,
    ) -> Result<DeadLetterSearch, AllocError>
        ensures names { IfOk result (λ d. (string_bytes d.key ≡ string_bytes settings.now.key)
            × (string_bytes d.group ≡ string_bytes settings.now.group)
            × (string_bytes d.consumer ≡ string_bytes settings.now.consumer)) }
        ensures given_up { IfOk result (λ d. (d.deliveries ≡ to.deliveries) × (d.stream ≡ to.stream)
            × (d.min_idle ≡ settings.now.min_idle)) }
        ensures every { IfOk result (λ d. d.every ≡ max settings.now.every 1) }
        ensures begins { IfOk result (λ d. (d.waits ≡ false) × (d.begun ≡ false) × (d.reads ≡ 0) × (d.letters ≡ 0)) }
    {
        Ok(DeadLetterSearch {
            key: String::from_str(alloc, settings.key())?,
            group: String::from_str(alloc, settings.group())?,
            consumer: String::from_str(alloc, settings.consumer())?,
            min_idle: settings.min_idle(),
            deliveries: to.deliveries,
            stream: to.stream,
            every: settings.every().max(1),
            reads: 0,
            waits: false,
            begun: false,
            letters: 0,
        })
    }

    /// Skips the search of the next turn, since the worker must first acknowledge the entries in its file.
    pub fn wait_once(&mut self)
        ensures { self.new ≡ record self.old { waits = true } }
    {
        self.waits = true;
    }

    /// How many entries have a letter and were acknowledged.
    pub fn letters(&self) -> u64
        ensures { result ≡ self.now.letters }
    {
        self.letters
    }

    /// Gives up an entry of this consumer at once, whatever its delivery count. Its letter begins with the reason, if
    /// that is not empty. Does nothing if the entry is not pending for this consumer.
    pub fn give_up_now<R: Read + Drop, W: Write + Drop>(
        &mut self,
        alloc: Global,
        connection: &mut Connection<R, W>,
        id: &str,
        reason: &[u8],
    ) -> Result<(), SearchError>
        ensures ok { OnOk result (GivesUpNow (claimer_of self.old 0) (letter_names self.old)
            id.now reason.now connection.old connection.new) }
        ensures err { OnErr result (BreaksBesides connection.old connection.new) }
        ensures same { self.new ≡ record self.old { letters = self.new.letters } }
    {
        let found = self.find_own(alloc, connection, id, reason)?;
        match found {
            Some(entry) => self.give_up(alloc, connection, &[entry], 0),
            None => Ok(()),
        }
    }

    /// Returns the entry with this id, with the reason why it is given up. Returns `None` if the entry is not
    /// pending for this consumer.
    fn find_own<R: Read + Drop, W: Write + Drop>(
        &self,
        alloc: Global,
        connection: &mut Connection<R, W>,
        id: &str,
        reason: &[u8],
    ) -> Result<Option<Waiting>, SearchError>
        ensures looks { OnOk result (Looks connection.old connection.new) }
        ensures reads { OnOk result ((page : List Waiting) × ReadsPage connection.old connection.new
            (own_words self.now id.now) (map waiting_of page)) }
        ensures found { IfOk result (λ found. IfSome found (λ w. (string_bytes w.id ≡ id.now)
            × (w.reason.items ≡ reason.now))) }
        ensures err { OnErr result (BreaksLooking connection.old connection.new) }
    {
        let command = xpending_consumer_count(&self.key, &self.group, id, id, 1, &self.consumer);
        let page = ask_page(alloc, connection, &command)?;
        Ok(pick_own(alloc, &page, id, reason)?)
    }

    /// Call this before each command of a worker, with the worker's last command. It searches before the first
    /// command and before each claim. It does not search while the worker has entries to acknowledge, in memory
    /// or in its file, since these entries are pending too.
    pub fn turn<R: Read + Drop, W: Write + Drop>(
        &mut self,
        alloc: Global,
        connection: &mut Connection<R, W>,
        asked: Asked,
        in_hand: bool,
    ) -> Result<(), SearchError>
        ensures waits { IsTrue in_hand → (result ≡ Ok tt) × (connection.new ≡ connection.old) }
        ensures waits_once { IsTrue self.old.waits → (result ≡ Ok tt) × (connection.new ≡ connection.old)
            × (self.new.waits ≡ false) }
        ensures searches { in_hand ≡ false → self.old.waits ≡ false → OnOk result ((reads : ℕ)
            × IsCounted self.old.reads asked reads
            × IsSearched (searcher_of self.old) self.old.begun reads connection.old connection.new) }
        ensures ok { OnOk result (Besides connection.old connection.new) }
        ensures err { OnErr result (BreaksBesides connection.old connection.new) }
        ensures same { searcher_of self.new ≡ searcher_of self.old }
        ensures counts { IsTrue in_hand ⊎ IsTrue self.old.waits → OnlyCounts asked self.old self.new }
        ensures state { in_hand ≡ false → self.old.waits ≡ false → CountsOn asked self.old self.new }
    {
        self.reads = count_reads(self.reads, asked);
        let waits = mem::replace(&mut self.waits, false);
        if in_hand || waits {
            return Ok(());
        }
        self.search_if_due(alloc, connection)
    }

    /// Searches before the first command, and before each claim.
    fn search_if_due<R: Read + Drop, W: Write + Drop>(
        &mut self,
        alloc: Global,
        connection: &mut Connection<R, W>,
    ) -> Result<(), SearchError>
        ensures searches { OnOk result (IsSearched (searcher_of self.old) self.old.begun self.old.reads
            connection.old connection.new) }
        ensures same { self.new ≡ record self.old {
          reads = counted_after self.old.begun self.old.every self.old.reads;
          begun = true;
          letters = self.new.letters;
        } }
        ensures ok { OnOk result (Besides connection.old connection.new) }
        ensures err { OnErr result (BreaksBesides connection.old connection.new) }
    {
        if !self.begun {
            self.begun = true;
            return self.search_own_and_idle(alloc, connection);
        }
        if self.reads < self.every {
            return Ok(());
        }
        self.reads = 0;
        self.look(alloc, connection, false)
    }

    /// Searches the consumer's own pending entries, and then idle ones of all consumers.
    fn search_own_and_idle<R: Read + Drop, W: Write + Drop>(
        &mut self,
        alloc: Global,
        connection: &mut Connection<R, W>,
    ) -> Result<(), SearchError>
        ensures searches { OnOk result (SearchesBoth (searcher_of self.old) connection.old connection.new) }
        ensures same { self.new ≡ record self.old { letters = self.new.letters } }
        ensures ok { OnOk result (Besides connection.old connection.new) }
        ensures err { OnErr result (BreaksBesides connection.old connection.new) }
    {
        self.look(alloc, connection, true)?;
        self.look(alloc, connection, false)
    }

    /// Searches the consumer's own pending entries, or those of all consumers that are idle long enough, page by page.
    fn look<R: Read + Drop, W: Write + Drop>(
        &mut self,
        alloc: Global,
        connection: &mut Connection<R, W>,
        own: bool,
    ) -> Result<(), SearchError>
        ensures searches { OnOk result (Searches (searcher_of self.old) own connection.old connection.new) }
        ensures same { self.new ≡ record self.old { letters = self.new.letters } }
        ensures ok { OnOk result (Besides connection.old connection.new) }
        ensures err { OnErr result (BreaksBesides connection.old connection.new) }
    {
        let mut start = String::from_str(alloc, "-")?;
        for _page in 0..PAGES {
            match self.search_page(alloc, connection, &start, own)? {
                Some(next) => start = next,
                None => return Ok(()),
            }
        }
        Ok(())
    }

    /// Gives up the entries of one page that were delivered too often. Returns the start of the next page.
    fn search_page<R: Read + Drop, W: Write + Drop>(
        &mut self,
        alloc: Global,
        connection: &mut Connection<R, W>,
        start: &str,
        own: bool,
    ) -> Result<Option<String>, SearchError>
        ensures ok { OnOk result (Besides connection.old connection.new) }
        ensures given_up { IfOk result (λ next. GivesUpPage (searcher_of self.old) own start.now
            (option_map string_bytes next) connection.old connection.new) }
        ensures same { self.new ≡ record self.old { letters = self.new.letters } }
        ensures err { OnErr result (BreaksBesides connection.old connection.new) }
    {
        let page = self.list_pending(alloc, connection, start, own)?;
        let next = find_next_start(alloc, &page)?;
        let entries = keep_too_often(page, self.deliveries);
        let min_idle = if own { 0 } else { self.min_idle };
        self.give_up(alloc, connection, &entries, min_idle)?;
        Ok(next)
    }

    /// Returns the pending entries from this id on, or an empty list if there is no group.
    fn list_pending<R: Read + Drop, W: Write + Drop>(
        &self,
        alloc: Global,
        connection: &mut Connection<R, W>,
        start: &str,
        own: bool,
    ) -> Result<Vec<Waiting>, SearchError>
        ensures ok { OnOk result (Looks connection.old connection.new) }
        ensures reads { IfOk result (λ page. ReadsPage connection.old connection.new
            (page_words (searcher_of self.now).claimer own start.now) (map waiting_of page.items)) }
        ensures err { OnErr result (BreaksLooking connection.old connection.new) }
    {
        let key = &self.key;
        let group = &self.group;
        if own {
            let command = xpending_consumer_count(key, group, start, "+", PAGE, &self.consumer);
            ask_page(alloc, connection, &command)
        } else {
            let command = xpending_idle_count(key, group, self.min_idle, start, "+", PAGE);
            ask_page(alloc, connection, &command)
        }
    }

    /// Claims these entries, gives them up, and sends their letters.
    fn give_up<R: Read + Drop, W: Write + Drop>(
        &mut self,
        alloc: Global,
        connection: &mut Connection<R, W>,
        entries: &[Waiting],
        min_idle: usize,
    ) -> Result<(), SearchError>
        ensures ok { OnOk result (GivesUp (claimer_of self.old min_idle) (letter_names self.old)
            entries.now connection.old connection.new) }
        ensures err { OnErr result (GivesUpSome (claimer_of self.old min_idle) (letter_names self.old)
            entries.now connection.old connection.new) }
        ensures same { self.new ≡ record self.old { letters = self.new.letters } }
    {
        let mut desk = self.make_queue(alloc)?;
        self.claim_and_queue_letters(alloc, connection, &mut desk, entries, min_idle)?;
        deliver(alloc, connection, &mut desk, &mut self.letters)
    }

    /// Returns an empty queue of letters.
    fn make_queue(&self, alloc: Global) -> Result<DeadLetters, AllocError>
        ensures names { IfOk result (λ d. names_of d ≡ letter_names self.now) }
        ensures waits { IfOk result (λ d. desk_of d ≡ none_waits) }
    {
        let key = self.key.clone()?;
        let group = self.group.clone()?;
        Ok(DeadLetters::new(alloc, key, group, self.stream.clone()?))
    }

    /// Claims these entries, and gives them up.
    fn claim_and_queue_letters<R: Read + Drop, W: Write + Drop>(
        &self,
        alloc: Global,
        connection: &mut Connection<R, W>,
        desk: &mut DeadLetters,
        entries: &[Waiting],
        min_idle: usize,
    ) -> Result<(), SearchError>
        ensures ok { OnOk result ((es : List Entry) × PostsAll (claimer_of self.now min_idle)
            (names_of desk.old).2 entries.now es connection.old (desk_of desk.old)
            connection.new (desk_of desk.new)) }
        ensures err { OnErr result (PostsSome (claimer_of self.now min_idle)
            (names_of desk.old).2 entries.now connection.old (desk_of desk.old)
            connection.new (desk_of desk.new)) }
        ensures names { names_of desk.new ≡ names_of desk.old }
    {
        for entry in entries {
            let rows = self.claim(alloc, connection, entry.id.as_str(), min_idle)?;
            queue_letter(alloc, desk, entry, &rows)?;
        }
        Ok(())
    }

    /// Claims an entry.
    fn claim<R: Read + Drop, W: Write + Drop>(
        &self,
        alloc: Global,
        connection: &mut Connection<R, W>,
        id: &str,
        min_idle: usize,
    ) -> Result<Claimed, SearchError>
        ensures ok { IfOk result (λ rows. Asks connection.old connection.new
            (claim_words (claimer_of self.now min_idle) id.now) rows_reading (rows_of rows.items)) }
        ensures err { OnErr result (BreaksOff
            (claim_words (claimer_of self.now min_idle) id.now) connection.old connection.new) }
    {
        let command = xclaim(
            self.key.as_str(),
            self.group.as_str(),
            self.consumer.as_str(),
            min_idle,
            AtLeastOne::one(&id),
        );
        match connection.ask_as(alloc, &command) {
            Ok(rows) => Ok(rows),
            Err(error) => Err(error.into()),
        }
    }
}

/// Returns the entry of the page, with the reason why it is given up. Returns `None` unless the page is exactly
/// the entry with this id.
fn pick_own(
    alloc: Global,
    page: &[Waiting],
    id: &str,
    reason: &[u8],
) -> Result<Option<Waiting>, AllocError>
    ensures { IfOk result (λ found. IfSome found (λ w. (string_bytes w.id ≡ id.now)
        × (w.reason.items ≡ reason.now))) }
{
    match page {
        [found] if found.id.as_str() == id => Ok(Some(Waiting {
            id: String::from_str(alloc, id)?,
            deliveries: found.deliveries,
            reason: Vec::from_slice(alloc, reason)?,
        })),
        _ => Ok(None),
    }
}

/// Checks the settings of a search.
fn check_settings(key: &str, to: &GiveUp) -> Result<(), SearchSettingsError>
    ensures ok { OnOk result (IsAllowed key.now to.now) }
    ensures err { IfErr result (IsRefused key.now to.now) }
{
    if to.deliveries == 0 {
        return Err(SearchSettingsError::NoDeliveries);
    }
    if to.stream.is_empty() {
        return Err(SearchSettingsError::NoStream);
    }
    if to.stream.as_str() == key {
        return Err(SearchSettingsError::SameStream);
    }
    Ok(())
}

/// Returns the number of reads since the last search, after this command.
fn count_reads(reads: usize, asked: Asked) -> usize
    ensures { IsCounted reads asked result }
{
    if asked == Asked::New {
        reads.saturating_add(1)
    } else {
        reads
    }
}

/// Sends XPENDING and returns the pending entries. The list is empty if there is no group.
fn ask_page<T: ToRedisArgs, R: Read + Drop, W: Write + Drop>(
    alloc: Global,
    connection: &mut Connection<R, W>,
    command: &T,
) -> Result<Vec<Waiting>, SearchError>
    ensures ok { OnlyLooks (T.args command.now) → OnOk result (Looks connection.old connection.new) }
    ensures reads { IfOk result (λ page. ReadsPage connection.old connection.new (T.args command.now)
        (map waiting_of page.items)) }
    ensures err { OnlyLooks (T.args command.now) → OnErr result (BreaksLooking connection.old connection.new) }
{
    match connection.ask_as(alloc, command) {
        Ok(rows) => Ok(collect_waiting(alloc, rows)?),
        Err(AskError::Server(error)) if error.code() == b"NOGROUP".as_slice() => {
            Ok(Vec::new(alloc))
        }
        Err(error) => Err(error.into()),
    }
}

/// Returns the pending entries of these rows, in order.
fn collect_waiting(alloc: Global, rows: Vec<Row>) -> Result<Vec<Waiting>, AllocError>
    ensures { IfOk result (λ all. map waiting_of all.items ≡ map row_of rows.items) }
{
    let mut all = Vec::with_capacity(alloc, rows.len())?;
    for (id, _consumer, _idle, deliveries) in rows {
        let reason = Vec::new(alloc);
        all.push(Waiting {
            id,
            deliveries,
            reason,
        })?;
    }
    Ok(all)
}

/// Queues the letter of a claimed entry. Queues nothing if another consumer has the entry, or if it was
/// deleted.
fn queue_letter(
    alloc: Global,
    desk: &mut DeadLetters,
    entry: &Waiting,
    rows: &[Option<(String, Vec<RawBytes>)>],
) -> Result<(), SearchError>
    ensures ok { OnOk result (Posted (names_of desk.old).2 entry.now (rows_of rows.now)
        (desk_of desk.old) (desk_of desk.new)) }
    ensures err { OnErr result (desk_of desk.new ≡ desk_of desk.old) }
    ensures names { names_of desk.new ≡ names_of desk.old }
    ensures added { (desk_of desk.new).added ≡ (desk_of desk.old).added }
{
    let Some((claimed, texts)) = take_only_row(rows) else {
        return Ok(());
    };
    if claimed.as_str() != entry.id.as_str() {
        return Err(SearchError::OtherEntry);
    }
    queue_letter_with_fields(alloc, desk, entry, texts)
}

/// Returns the only row, or `None` if there is not exactly one.
fn take_only_row(rows: &[Option<(String, Vec<RawBytes>)>]) -> Option<&(String, Vec<RawBytes>)>
    ensures { MatchOption result ((e : Entry) → AreJust (rows_of rows.now) e → e.1 ≡ [])
        (λ row. rows.now ≡ Some row.now ∷ []) }
{
    match rows {
        [row] => row.as_ref(),
        _ => None,
    }
}

/// Queues the letter of an entry with these names and values. Queues nothing if there are none, as for a
/// deleted entry.
fn queue_letter_with_fields(
    alloc: Global,
    desk: &mut DeadLetters,
    entry: &Waiting,
    texts: &[RawBytes],
) -> Result<(), SearchError>
    ensures ok { OnOk result (PostedFields (names_of desk.old).2 entry.now
        (map (λ text. text.0.items) texts.now) (desk_of desk.old) (desk_of desk.new)) }
    ensures err { OnErr result (desk_of desk.new ≡ desk_of desk.old) }
    ensures names { names_of desk.new ≡ names_of desk.old }
    ensures added { (desk_of desk.new).added ≡ (desk_of desk.old).added }
{
    let Some(fields) = collect_pairs(alloc, texts)? else {
        return Err(SearchError::NoValue);
    };
    let Some(fields) = AtLeastOne::new(&fields) else {
        return Ok(());
    };
    let id = entry.id.as_str();
    match desk.give_up_for(alloc, &entry.reason, id, entry.deliveries, &fields) {
        Ok(()) => Ok(()),
        Err(error) => Err(convert_write_error(error)),
    }
}

/// Keeps the pending entries with this delivery count or more, in order.
fn keep_too_often(mut page: Vec<Waiting>, deliveries: usize) -> Vec<Waiting>
    ensures { result.items ≡ filter (λ w. nat_le deliveries w.deliveries) page.items }
{
    page.retain(|entry| entry.deliveries >= deliveries);
    page
}

/// Returns the start of the next page, which is just after the last id. Returns `None` if this page is not
/// full.
fn find_next_start(alloc: Global, page: &[Waiting]) -> Result<Option<String>, AllocError>
    ensures { IfOk result (λ next. IsNext page.now (option_map string_bytes next)) }
{
    if page.len() < PAGE {
        return Ok(None);
    }
    match page {
        [] => Ok(None),
        [.., last] => {
            let mut start = String::from_str(alloc, "(")?;
            start.push_str(&last.id)?;
            Ok(Some(start))
        }
    }
}

/// Pairs up names and values that follow each other by turns. Returns `None` if the last name has no value.
fn collect_pairs<'a>(
    alloc: Global,
    texts: &'a [RawBytes],
) -> Result<Option<Vec<(&'a [u8], &'a [u8])>>, AllocError>
    ensures { IfOk result (λ pairs. MatchOption pairs (length texts.now % 2 ≡ 1)
        (λ pairs. flat_map (λ pair. pair.0.now ∷ pair.1.now ∷ []) pairs.items
        ≡ map (λ text. text.0.items) texts.now)) }
{
    let mut pairs = Vec::with_capacity(alloc, texts.len() / 2)?;
    let mut rest = texts;
    while let [name, value, more @ ..] = rest {
        pairs.push((name.0.as_slice(), value.0.as_slice()))?;
        rest = more;
    }
    Ok(if rest.is_empty() { Some(pairs) } else { None })
}

/// Sends the queued commands and takes their replies, until the queue is empty. Counts the entries that were
/// acknowledged.
fn deliver<R: Read + Drop, W: Write + Drop>(
    alloc: Global,
    connection: &mut Connection<R, W>,
    desk: &mut DeadLetters,
    letters: &mut u64,
) -> Result<(), SearchError>
    ensures ok { OnOk result (Delivers (names_of desk.old) connection.old (desk_of desk.old)
        connection.new (desk_of desk.new)) }
    ensures err { OnErr result (DeliversSome (names_of desk.old) connection.old (desk_of desk.old)
        connection.new (desk_of desk.new)) }
{
    for _ in 0..u64::MAX {
        let mut question = Vec::new(alloc);
        let asked = match desk.request(alloc, &mut question) {
            Ok(LetterAsked::Nothing) => return Ok(()),
            Ok(asked) => asked,
            Err(error) => return Err(convert_write_error(error)),
        };
        connection.send_bytes(&question)?;
        let reply = connection.receive(alloc)?;
        if let Err(error) = desk.answered(reply) {
            return Err(error.into());
        }
        if asked == LetterAsked::Acknowledge {
            *letters = letters.saturating_add(1);
        }
    }
    Err(SearchError::LastLetter)
}

/// Returns the error for a command that was not written.
fn convert_write_error(error: WriteError) -> SearchError {
    ConnectionError::from(error).into()
}
