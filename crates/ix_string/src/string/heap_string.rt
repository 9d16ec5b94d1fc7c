//! The string in memory of an allocator.
//!
//! The impls of comparisons, hashes and printed texts do not call the trait `String`, whose laws cite them.
ghost use Rattle.std.specs.Prelude.{◌≡◌, ◌∷◌, [], refl, Some};
ghost use Rattle.std.specs.Cmp.Rules.{comparing, hashing};
ghost use Rattle.std.specs.Cmp.{partial_order_from_own_ties};
ghost use Rattle.std.specs.Fmt.{WritesOnOk};
ghost use Rattle.std.specs.Ordering.{as_partial_cmp};
ghost use Rattle.ix_string.specs.Text.{text_eq, text_cmp};
ghost use Rattle.std.proofs.Common.{rules};
ghost use Rattle.ix_string.specs.Debug.{heap_debug_text};
ghost use Rattle.ix_string.specs.Escape.{escaped_text};

use crate::string::escape::Escaped;
use crate::string::vector_text::{insert_into, remove_from, retain_in};
use crate::string::{HeapStringKind, String};
use ix_vector::{PolymorphicVec, Vector};
use std::alloc::{Allocator, Global};
use std::cmp::Ordering;
use std::fmt;
use std::hash::{Hash, Hasher};
use std::marker::{Model, PhantomData};

/// A string in memory of the allocator `A`. The memory is allocated when the string is made, and deallocated when the string is
/// dropped. Contracts see the string as a bounded list.
///
/// The two kinds `K` have type aliases, [`PolymorphicString`](crate::PolymorphicString) and
/// [`RelocatableString`](crate::RelocatableString). A polymorphic string has `try_clone`, which requires an allocator that is
/// `Copy`.
#[derive(Drop)]
pub struct HeapString<K, A: Allocator = Global> {
    pub(crate) bytes: PolymorphicVec<u8, A>,
    pub(crate) kind: PhantomData<K>,
}

impl<K, A: Allocator> Model for HeapString<K, A> {
    ghost use Rattle.std.specs.Prelude.{ℕ};
    ghost use Rattle.std.specs.Coded.{coded_ℕ};
    ghost use Rattle.ix_tables.specs.Bounded.{Bounded, bounded_code};
    ghost use Rattle.ix_string.specs.Text.{IsText};

    ghost Value = { Bounded ℕ };

    ghost coded = { bounded_code coded_ℕ };

    ghost view = { λ string. string.bytes };

    ghost invariant = { λ string. IsText string.bytes.items };
}

impl<K, A: Allocator> HeapString<K, A> {
    /// Creates an empty string in an empty vector.
    #[inline]
    pub(crate) fn in_vector(bytes: PolymorphicVec<u8, A>) -> Self
        requires { bytes.items ≡ [] }
        ensures { result ≡ bytes }
    {
        HeapString {
            bytes,
            kind: PhantomData,
        }
    }
}

impl<K: HeapStringKind, A: Allocator> String for HeapString<K, A> {
    ghost bounded = { λ string. string };

    ghost eq_by_bytes = { λ _ _. refl };

    ghost cmp_by_bytes = { λ _ _. refl };

    ghost hash_input_by_bytes = { λ _. refl };

    ghost output_by_bytes = { λ _. refl };

    #[inline]
    fn as_bytes(&self) -> &[u8] {
        self.bytes.as_slice()
    }

    #[inline]
    fn capacity(&self) -> usize {
        self.bytes.capacity()
    }

    #[inline]
    fn len(&self) -> usize {
        self.bytes.len()
    }

    fn insert_bytes_unchecked(&mut self, idx: usize, bytes: &[u8]) {
        insert_into(&mut self.bytes, idx, bytes);
    }

    fn remove_range(&mut self, idx: usize, n: usize) -> bool {
        let len = self.bytes.len();
        if idx > len || n > len - idx {
            return false;
        }
        remove_from(&mut self.bytes, idx, n);
        true
    }

    fn remove_if<F: FnMut(u8) -> bool>(&mut self, f: F) {
        retain_in(&mut self.bytes, f);
    }
}

/// Strings are equal if their bytes are, whatever their capacities.
impl<K, A: Allocator> PartialEq for HeapString<K, A> {
    ghost eq = { λ string other. text_eq string.items other.items };

    ghost laws = { Prim.search (comparing, rules) };

    fn eq(&self, other: &Self) -> bool {
        self.bytes.as_slice() == other.bytes.as_slice()
    }
}

impl<K, A: Allocator> Eq for HeapString<K, A> {
    ghost laws = { Prim.search (comparing, rules) };
}

/// Strings are compared by the first byte that differs, and otherwise the shorter one is less, whatever their
/// capacities.
impl<K, A: Allocator> Ord for HeapString<K, A> {
    ghost cmp = { λ string other. text_cmp string.items other.items };

    ghost total = { Prim.search (comparing, rules) };

    ghost matches_partial_cmp = { Prim.search (comparing, rules) };

    ghost matches_eq = { Prim.search (comparing, rules) };

    fn cmp(&self, other: &Self) -> Ordering {
        self.bytes.as_slice().cmp(&other.bytes.as_slice())
    }
}

impl<K, A: Allocator> PartialOrd for HeapString<K, A> {
    ghost partial_cmp = { as_partial_cmp
        (λ string other. text_cmp string.items other.items) };

    ghost laws = { partial_order_from_own_ties (Prim.search (comparing, rules))
        (Prim.search (comparing, rules)) };

    fn partial_cmp(&self, other: &Self) -> Option<Ordering> {
        Some(self.cmp(other))
    }
}

/// Feeds the bytes to the hasher in one write.
impl<K, A: Allocator> Hash for HeapString<K, A> {
    ghost hash_input = { λ string. string.items ∷ [] };

    ghost respects_eq = { Prim.search (hashing, rules) };

    fn hash<H: Hasher>(&self, state: &mut H) {
        state.write(self.bytes.as_slice());
    }
}

/// Prints the bytes escaped.
impl<K, A: Allocator> fmt::Display for HeapString<K, A> {
    ghost output = { λ string. Some (escaped_text string.items) };

    fn fmt<W: fmt::Write>(&self, f: &mut fmt::Formatter<W>) -> fmt::Result {
        Escaped(self.bytes.as_slice()).fmt(f)
    }
}

/// Prints the kind, the capacity, the length and the escaped bytes, as
/// `RelocatableString { capacity: 5, len: 2, data: "ab" }`.
impl<K: HeapStringKind, A: Allocator> fmt::Debug for HeapString<K, A> {
    ghost debug_output = { λ string. Some (heap_debug_text K.text string) };

    fn fmt<W: fmt::Write>(&self, f: &mut fmt::Formatter<W>) -> fmt::Result {
        write_debug(f, K::name(), self.bytes.capacity(), self.bytes.as_slice())
    }
}

/// Writes the `Debug` text of a string of this kind, capacity and bytes.
fn write_debug<W: fmt::Write>(
    f: &mut fmt::Formatter<W>,
    kind: &str,
    capacity: usize,
    bytes: &[u8],
) -> fmt::Result
    ensures { WritesOnOk W.write_str_gives f.old result
        (heap_debug_text kind.now (record { items = bytes.now; capacity = capacity })) f.new }
{
    write!(
        f,
        "{kind} {{ capacity: {capacity}, len: {}, data: \"{}\" }}",
        bytes.len(),
        Escaped(bytes)
    )
}
