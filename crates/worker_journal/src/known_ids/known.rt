//! A sorted list of ids, each with the offset of its line.
ghost use Rattle.std.specs.Prelude.{◌≡◌, ◌∷◌, ◌≤◌, OnErr, OnOk, IfOk, IfErr, IfSome, ℕ, is_some, length, true};
ghost use Rattle.std.proofs.Props.{props};
ghost use Rattle.std.specs.List.Sorted.{IsNonDecreasingBy};
ghost use Rattle.worker_journal.specs.KnownIds.Known.{HasOneMore, HasPlaceToo, HasRoom, IsFound, IsGap, has, has_at, number_in, places_in};

use std::alloc::AllocError;

/// The number of an id, and the offset of its line.
#[derive(Clone, Copy, Debug)]
pub struct KnownId {
    ms: u64,
    seq: u64,
    place: usize,
}

impl KnownId {
    /// Returns the id with this number. Its line begins at this offset.
    pub fn new(number: u128, place: usize) -> KnownId
        ensures number { number_in result ≡ number }
        ensures place { result.place ≡ place }
    {
        KnownId {
            ms: (number / 18_446_744_073_709_551_616) as u64,
            seq: (number % 18_446_744_073_709_551_616) as u64,
            place,
        }
    }

    /// Returns the number of the id.
    pub fn number(&self) -> u128
        ensures { result ≡ number_in self.now }
    {
        self.ms as u128 * 18_446_744_073_709_551_616 + self.seq as u128
    }

    /// Returns the offset of the line of the id.
    pub fn place(&self) -> usize
        ensures { result ≡ self.now.place }
    {
        self.place
    }
}

/// Ids in the order of their numbers, each with the offset of its line.
#[derive(Debug, Drop)]
pub struct KnownIds {
    ids: Vec<KnownId>,
    ghost rises: { IsNonDecreasingBy number_in ids.items } by { Prim.hlevel props },
}

impl KnownIds {
    /// Sorts ids that are in any order.
    pub fn of(ids: Vec<KnownId>) -> KnownIds
        ensures numbers { (n : ℕ) → has (places_in result.ids.items) n ≡ has (places_in ids.items) n }
        ensures places { (n at : ℕ) → has_at (places_in result.ids.items) n at ≡ has_at (places_in ids.items) n at }
    {
        let mut ids = ids;
        ids.sort_unstable_by_key(|id| id.number());
        KnownIds { ids }
    }

    /// Returns the number of ids.
    pub fn len(&self) -> usize
        ensures { result ≡ length self.now.ids.items }
    {
        self.ids.len()
    }

    /// Whether an id has this number.
    pub fn has(&self, number: u128) -> bool
        ensures { result ≡ has (places_in self.now.ids.items) number }
    {
        self.search(number).is_ok()
    }

    /// Returns the offset of the line with this number, or of one of its lines if there are several. Returns
    /// `None` if the number is not known.
    pub fn place_of(&self, number: u128) -> Option<usize>
        ensures some { is_some result ≡ has (places_in self.now.ids.items) number }
        ensures place { IfSome result (λ at. has_at (places_in self.now.ids.items) number at ≡ true) }
    {
        match self.search(number) {
            Ok(at) => Some(self.ids[at].place),
            Err(_) => None,
        }
    }

    /// Reserves memory for one more id. It cannot fail if there is room for one more. An `Err` changes nothing.
    pub fn make_room(&mut self) -> Result<(), AllocError>
        ensures room { OnOk result (HasRoom self.new.ids) }
        ensures full { OnErr result (HasRoom self.old.ids → ⊥) }
        ensures same { self.new.ids.items ≡ self.old.ids.items }
    {
        self.ids.reserve(1)
    }

    /// Adds a number, whose line begins at this offset. It cannot fail if there is room for one more. An `Err`
    /// changes nothing.
    pub fn add(&mut self, number: u128, place: usize) -> Result<(), AllocError>
        ensures more { OnOk result (HasOneMore (places_in self.old.ids.items) (places_in self.new.ids.items) number) }
        ensures place { OnOk result (HasPlaceToo (places_in self.old.ids.items) (places_in self.new.ids.items)
            number place) }
        ensures same { OnErr result (self.new.ids.items ≡ self.old.ids.items) }
        ensures room { OnErr result (HasRoom self.old.ids → ⊥) }
    {
        let at = self.find_gap(number);
        self.ids.insert(at, KnownId::new(number, place))?;
        Ok(())
    }

    /// Returns an index at which this number can be inserted.
    fn find_gap(&self, number: u128) -> usize
        ensures { IsGap self.now.ids.items number result }
    {
        match self.search(number) {
            Ok(at) => at,
            Err(at) => at,
        }
    }

    /// Returns the index of this number, or as an `Err` the index at which it would be inserted.
    fn search(&self, number: u128) -> Result<usize, usize>
        ensures { IsFound self.now.ids.items number result }
    {
        match self.ids.last() {
            Some(last) if number <= last.number() => {
                self.ids.binary_search_by_key(&number, |id| id.number())
            }
            _ => Err(self.ids.len()),
        }
    }
}
