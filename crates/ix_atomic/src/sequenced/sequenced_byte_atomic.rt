//! Reading and writing a cell. The loops over its words are here too.
ghost use Rattle.std.specs.Prelude.{◌≡◌, ℕ, ◌+◌, ◌/◌, ◌<◌, ◌≤◌, ◌⊎◌, [], ◌∷◌, ◌++◌, List, All, length, Some, Ok, Err, IsOk, IfOk, IfErr};
ghost use Rattle.ix_atomic.specs.Words.{word_count};
ghost use Rattle.ix_atomic.specs.History.{Begins, Loads, LoadsTwice, history_value, last_value, IsEven, IsOdd, data_words, all_words};
ghost use Rattle.ix_atomic.specs.Shares.{halved, IsWhole};
ghost use Rattle.ix_atomic.specs.Writers.{Writes, Refuses, AreOwn, AreApart, HoldsEach, as_reader, places_merge};
ghost use Rattle.ix_atomic.specs.inner.SequencedRule.{Encodes, parity};
ghost use Rattle.ix_atomic.specs.inner.SequencedSteps.{seated_stage, reader_of, writer_of, view_merged, ViewLoads};
ghost use Rattle.ix_atomic.specs.declared.sequenced.rule.Stage.TheVariants.{Reading, Writing};

use crate::byte_atomic::AtomicCopy;
use crate::byte_atomic::steps::next_versions;
use crate::sequenced::data_words::{new_words, set_word_at, word_at};
use crate::sequenced::errors::{Interfered, TryWriteError, Unfinished};
use crate::sequenced::rule::{
    CellRule, Claim, End, LoadVersion, LoadWord, Merge, NewReader, NewWriter, SeatView, Store,
};
use crate::sequenced::seats::{ReaderSeat, WriterSeat};
use atomic_table::{Seat, Table};
use std::alloc::{AllocError, Allocator, Global};
use std::fmt;
use std::marker::Model;

/// No allocation has more bytes than `isize::MAX`. One word is the version, each other one has eight bytes.
const MAX_SIZE: usize = (isize::MAX as usize / size_of::<u64>() - 1) * 8;

/// A cell that threads write and read without a lock. `SIZE` is `T::SIZE`.
///
/// Threads share it by reference. The holders of [`WriterSeat`]s write, the holders of [`ReaderSeat`]s read. Each call loads or
/// stores single words, and neither waits nor tries again. All finished writes are one history.
#[derive(Drop)]
pub struct SequencedByteAtomic<T: AtomicCopy, const SIZE: usize> {
    table: Table<(), SeatView<T>, T, CellRule<T>, Global>,
}

impl<T: AtomicCopy, const SIZE: usize> Model for SequencedByteAtomic<T, SIZE> {
    ghost use Rattle.std.specs.Prelude.{◌≡◌, ◌+◌, ◌≤◌};
    ghost use Rattle.ix_atomic.specs.Words.{word_count};
    ghost use Rattle.atomic_table.specs.Seated.{TableId, table_id_coded};
    ghost use Rattle.ix_atomic.specs.declared.sequenced.sequenced_byte_atomic.TheConstants.{MAX_SIZE};

    ghost Value = { TableId };

    ghost coded = { table_id_coded };

    ghost view = { λ cell. cell.table.shared.table_id };

    ghost invariant = { λ cell. (cell.table.shared.table_id.words ≡ 1 + word_count SIZE)
        × (cell.table.shared.table_id.slots ≡ 0) × (SIZE ≡ T.SIZE) × (SIZE ≤ MAX_SIZE) };
}

impl<T: AtomicCopy, const SIZE: usize> SequencedByteAtomic<T, SIZE> {
    /// Creates a cell at version 0 whose last value is `value`, a writer's seat, and a reader's.
    ///
    /// O(`SIZE`). Allocates from `alloc`. Returns `AllocError` if the allocation fails, and for any `SIZE` whose words, 8 bytes
    /// each, would fill more than `isize::MAX` bytes.
    ///
    /// An unproved run stops here if `SIZE` is not `T::SIZE`.
    pub fn new(alloc: Global, value: T) -> Result<(Self, WriterSeat<T>, ReaderSeat<T>), AllocError>
        requires { SIZE ≡ T.SIZE }
        ensures writer { IfOk result (λ made.
            (made.1.cell ≡ made.0) × (made.1.known ≡ value ∷ []) × (made.1.seen ≡ [])
            × (made.1.places ≡ [])) }
        ensures own { IfOk result (λ made. AreOwn made.1) }
        ensures reader { IfOk result (λ made.
            (made.2.cell ≡ made.0) × (made.2.known ≡ value ∷ []) × (made.2.seen ≡ [])) }
        ensures share { IfOk result (λ made. made.1.share ≡ 0 ∷ []) }
        ensures touches { IfOk result (λ made. (made.1.touched ≡ 0 ∷ []) × (made.2.touched ≡ [])) }
    {
        prove!(SIZE == T::SIZE);
        if SIZE > MAX_SIZE {
            return Err(AllocError);
        }
        let mut bytes = [0u8; SIZE];
        value.encode(&mut bytes);
        let words = new_words(alloc, &bytes)?;
        let (table, mut seat) = Table::of_words(alloc, words.as_slice(), &value)?;
        let reader = ReaderSeat {
            seat: table.shared.split_seat::<NewReader>(&mut seat),
        };
        Ok((SequencedByteAtomic { table }, WriterSeat { seat }, reader))
    }

    /// Appends `value` to the history, unless another write is in progress: it becomes the last finished value. O(`SIZE`).
    ///
    /// Encodes `value`, loads the version, exchanges it for the next odd one, stores the bytes, and then the next even version. So
    /// the cell is not busy while `encode` runs. Does not try again.
    ///
    /// Returns [`TryWriteError::Busy`] if the version is odd, or is no longer the loaded one when it would be exchanged. Returns
    /// [`TryWriteError::VersionsUsedUp`] at version 18,446,744,073,709,551,614, the greatest even number of a `u64`. In both cases
    /// the cell is left unchanged.
    ///
    /// In a loop, state in an invariant that the seat is still one of this cell, as `l.seat.cell ≡ l.cell`.
    pub fn try_write(&self, seat: &mut WriterSeat<T>, value: T) -> Result<(), TryWriteError>
        requires { seat.old.cell ≡ self.now }
        ensures cell { seat.new.cell ≡ seat.old.cell }
        ensures written { IfOk result (λ _. Writes seat.old seat.new value) }
        ensures refused { IfErr result (λ error. Refuses seat.old seat.new error) }
        ensures no_place { IfErr result (λ _. seat.new.places ≡ seat.old.places) }
        ensures share { seat.new.share ≡ seat.old.share }
        ensures own { AreOwn seat.new }
        ensures touches { IfOk result
            (λ _. seat.new.touched ≡ seat.old.touched ++ 0 ∷ all_words SIZE) }
    {
        let shared = &self.table.shared;
        let mut bytes = [0u8; SIZE];
        value.encode(&mut bytes);
        let loaded = shared.load::<LoadVersion>(&mut seat.seat, 0);
        if loaded % 2 == 1 {
            return Err(TryWriteError::Busy {
                loaded,
                found: loaded,
            });
        }
        let (odd, even) = next_versions(loaded)?;
        let found = shared.compare_exchange::<Claim>(&mut seat.seat, 0, loaded, odd);
        if found != loaded {
            return Err(TryWriteError::Busy { loaded, found });
        }
        self.store_bytes(&mut seat.seat, &bytes);
        shared.store::<End>(&mut seat.seat, 0, even);
        Ok(())
    }

    /// Returns the value, if the version is the same even number before and after its bytes are loaded. O(`SIZE`).
    ///
    /// Loads the version, each word of bytes, and the version again, each of them once, whatever it finds.
    ///
    /// Returns [`Interfered`] with both versions, unless they are equal and even. The cell does not change.
    pub fn try_read(&self, seat: &mut ReaderSeat<T>) -> Result<T, Interfered>
        requires { seat.old.cell ≡ self.now }
        ensures value { IfOk result
            (λ value. (version : ℕ) × LoadsTwice seat.old seat.new version version
            × IsEven version × (history_value seat.new.known version ≡ Some value)) }
        ensures interfered { IfErr result
            (λ error. LoadsTwice seat.old seat.new error.first error.last
            × (IsOdd error.first ⊎ (error.first < error.last))) }
        ensures touches { seat.new.touched ≡ seat.old.touched ++ all_words SIZE }
    {
        self.read(&mut seat.seat)
    }

    /// Returns the number of the cell's words, of 8 bytes each. One is the version. Each other has eight bytes of a value, or the
    /// rest of them. O(1).
    #[must_use]
    #[inline]
    pub fn words(&self) -> usize
        ensures value { result ≡ 1 + (SIZE + 7) / 8 }
        ensures table { result ≡ self.now.words }
    {
        self.table.word_count()
    }

    /// Returns the version, which is not less than any that this seat has loaded. O(1).
    #[must_use]
    #[inline]
    pub fn version(&self, seat: &mut ReaderSeat<T>) -> u64
        requires { seat.old.cell ≡ self.now }
        ensures seat { Loads seat.old seat.new result }
        ensures touches { seat.new.touched ≡ seat.old.touched ++ 0 ∷ [] }
    {
        self.table.shared.load::<LoadVersion>(&mut seat.seat, 0)
    }

    /// Returns the value, read with a writer's seat, as [`try_read`](Self::try_read) does with a reader's. It is not older than the
    /// last value that was written with this seat. O(`SIZE`).
    ///
    /// Returns [`Interfered`] with both versions, unless they are equal and even. The cell does not change.
    pub fn read_own(&self, seat: &mut WriterSeat<T>) -> Result<T, Interfered>
        requires { seat.old.cell ≡ self.now }
        ensures value { IfOk result (λ value. (version : ℕ)
            × LoadsTwice (as_reader seat.old) (as_reader seat.new) version version
            × IsEven version × (history_value seat.new.known version ≡ Some value)) }
        ensures interfered { IfErr result (λ error.
            LoadsTwice (as_reader seat.old) (as_reader seat.new) error.first error.last
            × (IsOdd error.first ⊎ (error.first < error.last))) }
        ensures places { seat.new.places ≡ seat.old.places }
        ensures share { seat.new.share ≡ seat.old.share }
        ensures own { AreOwn seat.new }
        ensures all { IsWhole seat.new.share
            → HoldsEach (length seat.new.known) seat.new.places }
        ensures touches { seat.new.touched ≡ seat.old.touched ++ all_words SIZE }
    {
        self.read(&mut seat.seat)
    }

    /// Returns a new reader's seat, whose holder knows what the holder of `seat` knows. Does not allocate, and loads the version
    /// once, by `seat`. Never fails. O(1).
    #[inline]
    pub fn reader(
        &self,
        _alloc: Global,
        seat: &mut WriterSeat<T>,
    ) -> Result<ReaderSeat<T>, AllocError>
        requires { seat.old.cell ≡ self.now }
        ensures reader { IfOk result (λ reader.
            (reader.cell ≡ seat.old.cell) × (reader.known ≡ seat.old.known) × (reader.seen ≡ [])) }
        ensures seat { seat.new ≡ record seat.old { touched = seat.old.touched ++ 0 ∷ [] } }
        ensures touches { IfOk result (λ reader. reader.touched ≡ []) }
        ensures memory { IsOk result }
    {
        let reader = self.table.shared.split_seat::<NewReader>(&mut seat.seat);
        Ok(ReaderSeat { seat: reader })
    }

    /// Returns a new writer's seat, whose holder knows what the holder of `seat` knows, and has written nothing. It takes half of
    /// that seat's share of the right to write. Does not allocate, and loads the version once, by `seat`. Never fails. O(1).
    #[inline]
    pub fn writer(
        &self,
        _alloc: Global,
        seat: &mut WriterSeat<T>,
    ) -> Result<WriterSeat<T>, AllocError>
        requires { seat.old.cell ≡ self.now }
        ensures writer { IfOk result
            (λ writer. (writer.cell ≡ seat.old.cell) × (writer.known ≡ seat.old.known)
            × (writer.seen ≡ []) × (writer.places ≡ [])) }
        ensures own { IfOk result AreOwn }
        ensures share { IfOk result (λ writer. writer.share ≡ halved seat.old.share) }
        ensures seat { seat.new
            ≡ record seat.old { share = halved seat.old.share; touched = seat.old.touched ++ 0 ∷ [] } }
        ensures touches { IfOk result (λ writer. writer.touched ≡ []) }
        ensures memory { IsOk result }
    {
        let writer = self.table.shared.split_seat::<NewWriter>(&mut seat.seat);
        Ok(WriterSeat { seat: writer })
    }

    /// Consumes `other`, so that the holder of `seat` knows what both knew. All values that were written with either seat are then
    /// its own, and so are both shares of the right to write. Does not allocate, and loads the version twice. O(1).
    pub fn merge(&self, seat: &mut WriterSeat<T>, other: WriterSeat<T>)
        requires seat { seat.old.cell ≡ self.now }
        requires other { other.cell ≡ self.now }
        ensures cell { seat.new.cell ≡ seat.old.cell }
        ensures known { Begins seat.old.known seat.new.known × Begins other.known seat.new.known }
        ensures places { seat.new.places ≡ places_merge seat.old.places other.places }
        ensures own { AreOwn seat.new }
        ensures apart { AreApart seat.old.places other.places }
        ensures seen { (version : ℕ)
            × (seat.new.seen ≡ (seat.old.seen ++ other.seen) ++ version ∷ [])
            × All (λ earlier. earlier ≤ version) (seat.old.seen ++ other.seen)
            × (length seat.new.known ≡ version / 2 + 1) }
        ensures share { seat.new.share ≡ seat.old.share ++ other.share }
        ensures all { IsWhole seat.new.share
            → HoldsEach (length seat.new.known) seat.new.places }
        ensures touches { seat.new.touched ≡ (seat.old.touched ++ other.touched) ++ 0 ∷ 0 ∷ [] }
    {
        let WriterSeat { seat: other } = other;
        self.take_in(&mut seat.seat, other);
    }

    /// Consumes `reader`: the holder of `seat` then knows what both knew. Does not allocate, and loads the version twice. O(1).
    pub fn merge_reader(&self, seat: &mut WriterSeat<T>, reader: ReaderSeat<T>)
        requires seat { seat.old.cell ≡ self.now }
        requires reader { reader.cell ≡ self.now }
        ensures cell { seat.new.cell ≡ seat.old.cell }
        ensures known { Begins seat.old.known seat.new.known × Begins reader.known seat.new.known }
        ensures places { seat.new.places ≡ seat.old.places }
        ensures own { AreOwn seat.new }
        ensures seen { (version : ℕ)
            × (seat.new.seen ≡ (seat.old.seen ++ reader.seen) ++ version ∷ [])
            × All (λ earlier. earlier ≤ version) (seat.old.seen ++ reader.seen)
            × (length seat.new.known ≡ version / 2 + 1) }
        ensures share { seat.new.share ≡ seat.old.share }
        ensures all { IsWhole seat.new.share
            → HoldsEach (length seat.new.known) seat.new.places }
        ensures touches { seat.new.touched ≡ (seat.old.touched ++ reader.touched) ++ 0 ∷ 0 ∷ [] }
    {
        let ReaderSeat { seat: reader } = reader;
        self.take_in(&mut seat.seat, reader);
    }

    /// Deallocates the cell and returns the last finished value. O(`SIZE`).
    ///
    /// Returns [`Unfinished`] if a write is in progress: the version is odd. The cell is deallocated then too.
    pub fn close(self, seat: WriterSeat<T>) -> Result<T, Unfinished>
        requires { seat.cell ≡ self }
        ensures value { IfOk result (λ value. (history : List T) × Begins seat.known history
            × (last_value history ≡ Some value)) }
        ensures whole { IsWhole seat.share → (value : T) × (result ≡ Ok value)
            × (history : List T) × Begins seat.known history × (last_value history ≡ Some value)
            × HoldsEach (length history) seat.places }
    {
        let SequencedByteAtomic { table } = self;
        let WriterSeat { seat } = seat;
        let closed = table.close_with(seat);
        let is_unfinished = closed.word(0) % 2 == 1;
        let mut bytes = [0u8; SIZE];
        for i in 0..SIZE.div_ceil(8) {
            set_word_at(&mut bytes, i, closed.word(i + 1));
        }
        closed.free();
        if is_unfinished {
            return Err(Unfinished);
        }
        Ok(decoded(&bytes))
    }

    /// Loads the version, each word of bytes, and the version again. Returns the value, unless the versions differ or are odd.
    /// O(`SIZE`).
    fn read(&self, seat: &mut Seat<(), SeatView<T>>) -> Result<T, Interfered>
        requires cell { seat.old.table_id ≡ self.now }
        requires between_calls { parity seat.old.me.0.stage ≡ 0 }
        ensures value { IfOk result (λ value. (version : ℕ)
            × LoadsTwice (reader_of seat.old.table_id seat.old.me.0)
            (reader_of seat.new.table_id seat.new.me.0) version version
            × IsEven version × (history_value seat.new.me.0.known version ≡ Some value)) }
        ensures interfered { IfErr result (λ error.
            LoadsTwice (reader_of seat.old.table_id seat.old.me.0)
            (reader_of seat.new.table_id seat.new.me.0) error.first error.last
            × (IsOdd error.first ⊎ (error.first < error.last))) }
        ensures places { seat.new.me.0.places ≡ seat.old.me.0.places }
        ensures share { seat.new.me.0.share ≡ seat.old.me.0.share }
        ensures all { IsWhole seat.new.me.0.share
            → HoldsEach (length seat.new.me.0.known) seat.new.me.0.places }
        ensures own { AreOwn (writer_of seat.new.table_id seat.new.me.0) }
        ensures touches { seat.new.me.0.touched ≡ seat.old.me.0.touched ++ all_words SIZE }
        ensures seat { (seat.new.me.1 ≡ seat.old.me.1) × (parity seat.new.me.0.stage ≡ 0) }
    {
        let shared = &self.table.shared;
        let mut bytes = [0u8; SIZE];
        let first = shared.load::<LoadVersion>(seat, 0);
        self.load_bytes(seat, first, &mut bytes);
        let last = shared.load::<LoadVersion>(seat, 0);
        if first == last && first % 2 == 0 {
            Ok(decoded(&bytes))
        } else {
            interfered(first, last)
        }
    }

    /// Merges `other` into `seat`, and loads the version: the seat then knows the history, which both knew a beginning of.
    fn take_in(&self, seat: &mut Seat<(), SeatView<T>>, other: Seat<(), SeatView<T>>)
        requires cell { (seat.old.table_id ≡ self.now) × (other.table_id ≡ self.now) }
        requires holds_nothing { other.me.1 ≡ [] }
        requires between_calls { (parity seat.old.me.0.stage ≡ 0) × (parity other.me.0.stage ≡ 0) }
        ensures place { (seat.new.table_id ≡ seat.old.table_id) × (seat.new.me.1 ≡ seat.old.me.1) }
        ensures loads { (version : ℕ) × ViewLoads (Encodes T.is_value T.encoding)
            (view_merged seat.old.me.0 other.me.0) seat.new.me.0 version }
    {
        let shared = &self.table.shared;
        shared.join_seat::<Merge>(seat, other);
        shared.load::<LoadVersion>(seat, 0);
    }

    /// Stores the bytes of a value, eight a word, from the first to the last. O(`SIZE`).
    fn store_bytes(&self, seat: &mut Seat<(), SeatView<T>>, bytes: &[u8; SIZE])
        requires cell { seat.old.table_id ≡ self.now }
        requires bytes { (value : T) × Encodes T.is_value T.encoding value bytes.now }
        requires writing { seat.old.me.0.stage ≡ Writing [] }
        ensures place { (seat.new.table_id ≡ seat.old.table_id) × (seat.new.id ≡ seat.old.id) }
        ensures seat { seat.new.me
            ≡ seated_stage (data_words (word_count SIZE)) (Writing bytes.now) seat.old.me }
    {
        let shared = &self.table.shared;
        for i in 0..SIZE.div_ceil(8) {
            shared.store::<Store>(seat, i + 1, word_at(bytes, i));
        }
    }

    /// Loads the bytes into `bytes`, eight a word, from the first to the last. O(`SIZE`).
    fn load_bytes(&self, seat: &mut Seat<(), SeatView<T>>, first: u64, bytes: &mut [u8; SIZE])
        requires cell { seat.old.table_id ≡ self.now }
        requires reading { seat.old.me.0.stage ≡ Reading first [] }
        ensures place { (seat.new.table_id ≡ seat.old.table_id) × (seat.new.id ≡ seat.old.id) }
        ensures seat { seat.new.me
            ≡ seated_stage (data_words (word_count SIZE)) (Reading first bytes.new) seat.old.me }
        ensures length { length bytes.new ≡ SIZE }
    {
        let shared = &self.table.shared;
        for i in 0..SIZE.div_ceil(8) {
            set_word_at(bytes, i, shared.load::<LoadWord>(seat, i + 1));
        }
    }
}

/// Returns the error of a read that loaded these versions.
// Inlined, so that the place which the call writes to is one of its own, and is cleared in this case alone.
#[inline(always)]
fn interfered<T>(first: u64, last: u64) -> Result<T, Interfered>
    ensures { result ≡ Err (record { first = first; last = last }) }
{
    interfered_out_of_line(first, last)
}

/// Does the same as [`interfered`].
// Out of line, so that a value is copied as a whole: where LLVM sees the error's numbers stored, it cuts the value where they
// begin, and a load of the whole then waits for the stores of the parts.
#[cold]
#[inline(never)]
fn interfered_out_of_line<T>(first: u64, last: u64) -> Result<T, Interfered>
    ensures { result ≡ Err (record { first = first; last = last }) }
{
    Err(Interfered { first, last })
}

/// Returns the value whose encoding is `bytes`.
#[inline]
fn decoded<T: AtomicCopy>(bytes: &[u8]) -> T
    requires len { length bytes.now ≡ T.SIZE }
    requires bytes { (value : T) × Encodes T.is_value T.encoding value bytes.now }
    ensures { (value : T) → Encodes T.is_value T.encoding value bytes.now → result ≡ value }
{
    match T::decode(bytes) {
        Some(value) => value,
        None => unreachable!(),
    }
}

/// Prints the type's name. A value is read with a seat.
impl<T: AtomicCopy, const SIZE: usize> fmt::Debug for SequencedByteAtomic<T, SIZE> {
    fn fmt<W: fmt::Write>(&self, f: &mut fmt::Formatter<W>) -> fmt::Result {
        f.debug_struct("SequencedByteAtomic")
            .finish_non_exhaustive()
    }
}
