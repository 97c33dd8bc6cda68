//! A bounded list: entries of one kind in places that the caller lends.
//! Promise: entries join after the last and are read by place; a full list takes no more and says so.
//! Rests on nothing.
#![tactic(auto)]

ghost use Rattle.std.specs.Prelude.{◌≤◌, length};

/// The list has no place left, and took nothing.
#[derive(Clone, Copy, PartialEq, Eq, Debug)]
pub struct Full;

/// A list in places lent by its owner: the first `used` of them hold its entries, in order. It takes no memory of its own.
#[derive(Drop)]
pub struct Bounded<'a, E> {
    places: &'a mut [E],
    used: usize,
    ghost within: { used ≤ length places.now },
}

impl<'a, E: Copy> Bounded<'a, E> {
    ghost use Rattle.std.specs.Prelude.{◌≡◌, ◌<◌, [], MatchOption, MatchResult, slice_index_or};
    ghost use Rattle.bounded.specs.Entries.{entries, spare, Joins, Stays};

    // Each call says by `lender` that the places stay the owner's: that ties two states, so no ghost field can say it.

    /// An empty list in the places lent. The places stay as they are.
    pub fn new(places: &'a mut [E]) -> Bounded<'a, E>
        ensures empty { entries result ≡ [] }
        ensures untouched { result.places.now ≡ places.old }
        ensures lender { result.places.ghost_name ≡ places.entry.ghost_name }
    {
        Bounded { places, used: 0 }
    }

    /// The entries, in order.
    pub fn as_slice(&self) -> &[E]
        ensures { result.now ≡ entries self.now }
    {
        &self.places[..self.used]
    }

    /// How many entries the list has.
    pub fn len(&self) -> usize
        ensures { result ≡ length (entries self.now) }
    {
        self.as_slice().len()
    }

    /// How many entries the list has places for.
    pub fn capacity(&self) -> usize
        ensures { result ≡ length self.now.places.now }
    {
        self.places.len()
    }

    /// The entry at a place, counted from 0; past the last entry there is none.
    pub fn get(&self, i: usize) -> Option<E>
        ensures { MatchOption result (length (entries self.now) ≤ i) (λ x. (i < length (entries self.now)) × (x ≡ slice_index_or (entries self.now) i x)) }
    {
        self.as_slice().get(i).copied()
    }

    /// Lets all entries go. What stands in the places stays there.
    pub fn clear(&mut self)
        ensures empty { entries self.new ≡ [] }
        ensures untouched { self.new.places.now ≡ self.old.places.now }
        ensures lender { self.new.places.ghost_name ≡ self.old.places.ghost_name }
    {
        self.used = 0;
    }

    /// Puts an entry after the last one, or leaves a full list as it is.
    pub fn push(&mut self, entry: E) -> Result<(), Full>
        ensures lender { self.new.places.ghost_name ≡ self.old.places.ghost_name }
        ensures cases { MatchResult result (λ _. Joins self.old entry self.new) (λ _. (spare self.old ≡ []) × Stays self.old self.new) }
    {
        if self.used == self.places.len() {
            return Err(Full);
        }
        // By index, since a slice's `get_mut` says nothing of what the slice ends as.
        self.places[self.used] = entry;
        self.used += 1;
        Ok(())
    }
}
