//! Structs of your own in cells: one of plain fields, and one whose ghost field holds of each value that is read.
ghost use Rattle.std.specs.Prelude.{◌≡◌, ◌≤◌, Some};

use ix_atomic::{AtomicCopy, AtomicFields, Fields, SequencedByteAtomic};

/// A position, and a time.
#[derive(Clone, Copy, PartialEq, Eq, Debug)]
pub struct Pose {
    pub x: u32,
    pub y: u32,
    pub time: u64,
}

/// It is stored as the bytes of `x`, of `y`, and of `time`.
impl AtomicFields for Pose {
    ghost use Rattle.std.proofs.Common.{rules};

    type Fields = (u32, u32, u64);

    ghost fields = { λ pose. (pose.x, pose.y, pose.time) };

    fn to_fields(&self) -> Self::Fields {
        (self.x, self.y, self.time)
    }

    fn from_fields((x, y, time): Self::Fields) -> Option<Pose> {
        Some(Pose { x, y, time })
    }

    ghost one_value = { Prim.search rules };
}

/// The number of bytes of a pose in a cell: the sum of the sizes of its fields.
pub const POSE_SIZE: usize = u32::SIZE + u32::SIZE + u64::SIZE;

/// A pose that threads share. `PoseCell::new(alloc, Fields(pose))?` is a cell, a writer's seat and a reader's.
pub type PoseCell = SequencedByteAtomic<Fields<Pose>, POSE_SIZE>;

/// Encodes a pose and decodes it again, as a cell does.
pub fn pose_through_bytes(pose: Fields<Pose>) -> Option<Fields<Pose>>
    ensures { result ≡ Some pose }
{
    let mut bytes = [0; POSE_SIZE];
    pose.encode(&mut bytes);
    Fields::decode(&bytes)
}

/// A range of numbers, in order. Each range that is read from a cell is in order too, whoever wrote it.
#[derive(Clone, Copy, PartialEq, Eq, Debug)]
pub struct Range {
    pub low: u64,
    pub high: u64,
    pub ghost in_order: { low ≤ high },
}

/// It is stored as the bytes of `low`, and of `high`.
impl AtomicFields for Range {
    ghost use Rattle.std.specs.Coded.{le_prop};
    ghost use mathlib.Core.HLevel.{is_prop→PathP};

    type Fields = (u64, u64);

    ghost fields = { λ range. (range.low, range.high) };

    fn to_fields(&self) -> Self::Fields {
        (self.low, self.high)
    }

    fn from_fields((low, high): Self::Fields) -> Option<Range> {
        if low <= high {
            Some(Range { low, high })
        } else {
            None
        }
    }

    ghost one_value = { λ v w same i. record {
      low = (same i).0;
      high = (same i).1;
      in_order = is_prop→PathP (λ j. (same j).0 ≤ (same j).1) (λ j. le_prop) v.in_order w.in_order i;
    } };
}

/// The number of bytes of a range in a cell.
pub const RANGE_SIZE: usize = u64::SIZE + u64::SIZE;

/// Encodes a range and decodes it again, as a cell does.
pub fn range_through_bytes(range: Fields<Range>) -> Option<Fields<Range>>
    ensures { result ≡ Some range }
{
    let mut bytes = [0; RANGE_SIZE];
    range.encode(&mut bytes);
    Fields::decode(&bytes)
}
