//! An array with a word for each slot of a slot map.
ghost use Rattle.std.specs.Prelude.{◌≡◌, ◌+◌, ◌<◌, ◌≤◌, length, slice_set};
ghost use Rattle.ix_slotmap.specs.inner.Words.{word_at};

use ix_tables::{Array, Counted, Touches};
use std::marker::Model;

/// The words of the slots of a slot map. A word is twice the slot's generation, and one more if a value is there. Contracts see the
/// list of words.
#[derive(Drop)]
pub(crate) struct WordTable<G: Array<u64>> {
    words: Counted<G>,
}

/// The word of a retired slot.
pub(crate) const RETIRED: u64 = 8_589_934_592;

impl<G: Array<u64>> Model for WordTable<G> {
    ghost use Rattle.std.specs.Prelude.{ℕ, List};
    ghost use Rattle.std.specs.Coded.{coded_ℕ, coded_list};

    ghost Value = { List ℕ };

    ghost coded = { coded_list coded_ℕ };

    ghost view = { λ table. G.items table.words };
}

impl<G: Array<u64>> WordTable<G> {
    /// Wraps an array. O(1).
    #[inline]
    pub(crate) fn new(words: G) -> Self
        ensures { result ≡ G.items words }
    {
        WordTable {
            words: Counted::new(words),
        }
    }

    /// Overwrites an array of as many slots with the words of `other`, and wraps it. O(the number of slots).
    pub(crate) fn copy_of<H: Array<u64>>(mut array: G, other: &WordTable<H>) -> Self
        requires { length (G.items array) ≡ length other.now }
        ensures { result ≡ other.now }
    {
        for place in 0..array.len() {
            *array.get_mut(place) = other.get(place, &mut Touches::new());
        }
        WordTable::new(array)
    }

    /// Returns the word of a slot.
    #[inline]
    pub(crate) fn get(&self, place: usize, touches: &mut Touches) -> u64
        requires { place < length self.now }
        ensures value { result ≡ word_at self.now place }
        ensures touches { touches.new ≡ touches.old + 1 }
    {
        *self.words.item(place, touches)
    }

    /// Adds `more` to the word of a slot, and returns the new word.
    #[inline]
    pub(crate) fn raise(&mut self, place: usize, more: u64, touches: &mut Touches) -> u64
        requires within { place < length self.old }
        requires fits { word_at self.old place + more ≤ 18446744073709551615 }
        ensures value { result ≡ word_at self.old place + more }
        ensures table { self.new ≡ slice_set self.old place (word_at self.old place + more) }
        ensures touches { touches.new ≡ touches.old + 2 }
    {
        let word = self.words.item_mut(place, touches);
        *word += more;
        *word
    }
}
