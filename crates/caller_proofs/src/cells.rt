//! Structs in cells, and properties of all values of a cell.
ghost use Rattle.std.specs.Prelude.{◌≡◌, ◌≤◌, Some, IfSome, IfOk};
ghost use Rattle.ix_atomic.specs.Writers.{Writes};
ghost use Rattle.ix_atomic.specs.laws.HistoryLaws.{Knows};

use ix_atomic::{
    AtomicCopy, AtomicFields, Fields, FixedSizeByteAtomic, ReaderSeat, RelocatableByteAtomic,
    Ruled, SequencedByteAtomic, TryWriteError, UninitByteAtomic, ValueRule, WriterSeat,
};
use std::alloc::{AllocError, Global};

/// A range of numbers, in order.
#[derive(Clone, Copy, PartialEq, Eq, Debug)]
pub struct Range {
    pub low: u64,
    pub high: u64,
    pub ghost in_order: { low ≤ high },
}

impl AtomicFields for Range {
    ghost use Rattle.std.specs.Coded.{le_prop};
    ghost use mathlib.Core.HLevel.{is_prop→PathP};

    type Fields = (u64, u64);

    ghost fields = { λ range. (range.low, range.high) };

    fn to_fields(&self) -> Self::Fields {
        (self.low, self.high)
    }

    fn from_fields((low, high): Self::Fields) -> Option<Range> {
        if low <= high {
            Some(Range { low, high })
        } else {
            None
        }
    }

    ghost one_value = { λ v w same i. record {
      low = (same i).0;
      high = (same i).1;
      in_order = is_prop→PathP (λ j. (same j).0 ≤ (same j).1) (λ j. le_prop) v.in_order w.in_order i;
    } };
}

/// How many bytes a range takes in a cell.
pub const RANGE_SIZE: usize = u64::SIZE + u64::SIZE;

/// A range that threads share.
pub type RangeCell = SequencedByteAtomic<Fields<Range>, RANGE_SIZE>;

/// Sets the range, unless another thread sets it right now.
pub fn set_range(
    cell: &RangeCell,
    seat: &mut WriterSeat<Fields<Range>>,
    low: u64,
    high: u64,
) -> bool
    requires cell { seat.old.cell ≡ cell.now }
    requires in_order { low ≤ high }
    ensures { seat.new.cell ≡ seat.old.cell }
{
    cell.try_write(seat, Fields(Range { low, high })).is_ok()
}

/// Returns the ends of the range that is read, if no write interferes.
pub fn read_ends(cell: &RangeCell, reader: &mut ReaderSeat<Fields<Range>>) -> Option<(u64, u64)>
    requires { reader.old.cell ≡ cell.now }
    ensures cell { reader.new.cell ≡ reader.old.cell }
    ensures in_order { IfSome result (λ ends. ends.0 ≤ ends.1) }
{
    match cell.try_read(reader) {
        Ok(range) => Some((range.low, range.high)),
        Err(_) => None,
    }
}

/// Returns the width of the range that is read, if no write interferes.
pub fn read_width(cell: &RangeCell, reader: &mut ReaderSeat<Fields<Range>>) -> Option<u64>
    requires { reader.old.cell ≡ cell.now }
    ensures { reader.new.cell ≡ reader.old.cell }
{
    match cell.try_read(reader) {
        Ok(Fields(range)) => Some(range.high - range.low),
        Err(_) => None,
    }
}

/// Returns the width of the range that is read byte by byte, if the bytes are those of a range: they may be of several writes.
pub fn width_of_bytes(cell: &FixedSizeByteAtomic<Fields<Range>, RANGE_SIZE>) -> Option<u64> {
    match cell.read().assume_consistent() {
        Some(Fields(range)) => Some(range.high - range.low),
        None => None,
    }
}

/// Five numbers that belong together.
#[derive(Clone, Copy, PartialEq, Eq, Debug)]
pub struct Settings {
    pub low: u64,
    pub high: u64,
    pub window: u32,
    pub mode: u8,
    pub is_open: bool,
}

impl AtomicFields for Settings {
    ghost use Rattle.std.proofs.Common.{rules};

    type Fields = (u64, u64, (u32, u8, bool));

    ghost fields = { λ s. (s.low, s.high, (s.window, s.mode, s.is_open)) };

    fn to_fields(&self) -> Self::Fields {
        (self.low, self.high, (self.window, self.mode, self.is_open))
    }

    fn from_fields((low, high, (window, mode, is_open)): Self::Fields) -> Option<Settings> {
        Some(Settings {
            low,
            high,
            window,
            mode,
            is_open,
        })
    }

    ghost one_value = { Prim.search rules };
}

/// The number of bytes of settings in a cell.
pub const SETTINGS_SIZE: usize = u64::SIZE + u64::SIZE + (u32::SIZE + u8::SIZE + bool::SIZE);

/// Settings that threads share.
pub type SettingsCell = SequencedByteAtomic<Fields<Settings>, SETTINGS_SIZE>;

/// Makes a cell of settings. Its size is that of settings, since the constant is.
pub fn share_settings(
    alloc: Global,
    settings: Settings,
) -> Result<
    (
        SettingsCell,
        WriterSeat<Fields<Settings>>,
        ReaderSeat<Fields<Settings>>,
    ),
    AllocError,
>
    ensures { IfOk result (λ made. (made.1.cell ≡ made.0) × (made.2.cell ≡ made.0)) }
{
    SettingsCell::new(alloc, settings.into())
}

/// Makes a byte-wise cell of settings, and one that is in memory if there is enough.
pub fn settings_in_bytes(
    alloc: Global,
    settings: Settings,
) -> (
    FixedSizeByteAtomic<Fields<Settings>, SETTINGS_SIZE>,
    Option<RelocatableByteAtomic<Fields<Settings>, SETTINGS_SIZE>>,
) {
    let in_memory = UninitByteAtomic::new_uninit().init(alloc, Fields(settings));
    (FixedSizeByteAtomic::new(Fields(settings)), in_memory.ok())
}

/// Sets the settings, unless another thread sets them right now.
pub fn set_settings(
    cell: &SettingsCell,
    seat: &mut WriterSeat<Fields<Settings>>,
    settings: Settings,
) -> Result<(), TryWriteError>
    requires { seat.old.cell ≡ cell.now }
    ensures cell { seat.new.cell ≡ seat.old.cell }
    ensures set { IfOk result (λ _. Writes seat.old seat.new (record { 0 = settings })) }
{
    cell.try_write(seat, settings.into())
}

/// Returns the settings that are read, if no write interferes: they are of some version.
pub fn read_settings(
    cell: &SettingsCell,
    reader: &mut ReaderSeat<Fields<Settings>>,
) -> Option<Settings>
    requires { reader.old.cell ≡ cell.now }
    ensures cell { reader.new.cell ≡ reader.old.cell }
    ensures known { IfSome result (λ settings. Knows reader.new.known (record { 0 = settings })) }
{
    match cell.try_read(reader) {
        Ok(settings) => Some(*settings),
        Err(_) => None,
    }
}

/// Encodes settings and decodes them again, as a cell does.
pub fn through_bytes(settings: Fields<Settings>) -> Option<Fields<Settings>>
    ensures { result ≡ Some settings }
{
    let mut bytes = [0; SETTINGS_SIZE];
    settings.encode(&mut bytes);
    Fields::decode(&bytes)
}

/// Numbers of one type, by an array.
#[derive(Clone, Copy, PartialEq, Eq, Debug)]
pub struct Pose {
    pub x: u32,
    pub y: u32,
    pub z: u32,
    pub angle: u32,
    pub time: u32,
}

impl AtomicFields for Pose {
    ghost use Rattle.std.specs.Prelude.{◌∷◌, []};
    ghost use Rattle.std.proofs.Common.{rules};

    type Fields = [u32; 5];

    ghost fields = { λ pose. pose.x ∷ pose.y ∷ pose.z ∷ pose.angle ∷ pose.time ∷ [] };

    fn to_fields(&self) -> Self::Fields {
        [self.x, self.y, self.z, self.angle, self.time]
    }

    fn from_fields([x, y, z, angle, time]: Self::Fields) -> Option<Pose> {
        Some(Pose {
            x,
            y,
            z,
            angle,
            time,
        })
    }

    ghost one_value = { Prim.search rules };
}

/// Settings whose `low` is not above their `high`: a rule beside a type that does not state it.
#[derive(Clone, Copy)]
pub struct InOrder;

impl ValueRule<Settings> for InOrder {
    ghost holds = { λ settings. settings.low ≤ settings.high };

    fn is_held(value: &Settings) -> bool {
        value.low <= value.high
    }
}

/// Settings in order.
pub type Ordered = Fields<Ruled<Settings, InOrder>>;

/// Settings in order that threads share.
pub type OrderedCell = SequencedByteAtomic<Ordered, SETTINGS_SIZE>;

/// Sets the settings, unless another thread sets them right now.
pub fn set_ordered(cell: &OrderedCell, seat: &mut WriterSeat<Ordered>, settings: Settings) -> bool
    requires cell { seat.old.cell ≡ cell.now }
    requires in_order { settings.low ≤ settings.high }
    ensures { seat.new.cell ≡ seat.old.cell }
{
    cell.try_write(seat, Fields(Ruled::new(settings))).is_ok()
}

/// Sets the settings if they are in order, unless another thread sets them right now.
pub fn set_checked(cell: &OrderedCell, seat: &mut WriterSeat<Ordered>, settings: Settings) -> bool
    requires { seat.old.cell ≡ cell.now }
    ensures { seat.new.cell ≡ seat.old.cell }
{
    match Ruled::try_new(settings) {
        Some(ruled) => cell.try_write(seat, Fields(ruled)).is_ok(),
        None => false,
    }
}

/// Returns the settings that are read, if no write interferes.
pub fn read_ordered(cell: &OrderedCell, reader: &mut ReaderSeat<Ordered>) -> Option<Settings>
    requires { reader.old.cell ≡ cell.now }
    ensures cell { reader.new.cell ≡ reader.old.cell }
    ensures in_order { IfSome result (λ settings. settings.low ≤ settings.high) }
{
    match cell.try_read(reader) {
        Ok(ruled) => Some(ruled.get()),
        Err(_) => None,
    }
}

/// Returns the width of the settings that are read, if no write interferes.
pub fn ordered_width(cell: &OrderedCell, reader: &mut ReaderSeat<Ordered>) -> Option<u64>
    requires { reader.old.cell ≡ cell.now }
    ensures { reader.new.cell ≡ reader.old.cell }
{
    match cell.try_read(reader) {
        Ok(Fields(ruled)) => Some(ruled.value.high - ruled.value.low),
        Err(_) => None,
    }
}

/// Reads the limit, or keeps the one that was read last if a write interferes. The kept limit is still of a known version.
#[tactic(auto, using(ix_atomic::specs::laws::HistoryLaws::latest_known))]
pub fn read_or_keep(
    cell: &SequencedByteAtomic<u64, 8>,
    reader: &mut ReaderSeat<u64>,
    latest: Option<u64>,
) -> Option<u64>
    requires cell { reader.old.cell ≡ cell.now }
    requires known { IfSome latest (Knows reader.old.known) }
    ensures cell { reader.new.cell ≡ reader.old.cell }
    ensures known { IfSome result (Knows reader.new.known) }
{
    match cell.try_read(reader) {
        Ok(value) => Some(value),
        Err(_) => latest,
    }
}
