//! The common part of plain and versioned steps: the bytes that they store and load.
ghost use Rattle.std.specs.Prelude.{◌≡◌, ℕ, ◌<◌, ◌↔◌, List, length, Option, Some, IsTrue, true, slice_index, filter_map};
ghost use Rattle.ix_atomic.specs.declared.byte_atomic.steps.plain.Act.{Act};
ghost use Rattle.ix_atomic.specs.ByteActs.{AreLegal};
ghost use Rattle.ix_atomic.specs.inner.StepTests.{all_within, loads_agree};

use crate::byte_atomic::steps::plain::Act;

/// A step that may store or load a byte.
pub(crate) trait ByteStep: Copy {
    /// The store or load of a byte that the step is.
    ghost act_of: { Self → Option Act };

    /// Returns the store or load of a byte that the step is.
    fn act(self) -> Option<Act>
        ensures { result ≡ act_of self };
}

/// Returns whether the stores and loads are legal, in this order, on a value whose first bytes are `first`. O(n * m) for n
/// bytes and m steps.
pub(crate) fn acts_are_legal<S: ByteStep>(first: &[u8], steps: &[S]) -> bool
    ensures { IsTrue result ↔ AreLegal first.now (filter_map S.act_of steps.now) }
{
    places_are_within(first.len(), steps) && all_loads_agree(first, steps)
}

/// Returns whether each place is less than the length.
fn places_are_within<S: ByteStep>(len: usize, steps: &[S]) -> bool
    ensures { result ≡ all_within len (filter_map S.act_of steps.now) }
{
    for step in steps {
        if let Some(Act::Store { place, .. } | Act::Load { place, .. }) = step.act()
            && place >= len
        {
            return false;
        }
    }
    true
}

/// Returns whether each load has the byte that its place has by then.
fn all_loads_agree<S: ByteStep>(first: &[u8], steps: &[S]) -> bool
    ensures { IsTrue result ↔ ((place : ℕ) → place < length first.now
        → loads_agree place (slice_index first.now place) (filter_map S.act_of steps.now) ≡ true) }
{
    for (place, byte) in first.iter().enumerate() {
        if !loads_agree_at(place, *byte, steps) {
            return false;
        }
    }
    true
}

/// Returns whether each load from one place has the byte that it has by then, where `first` is the first one.
fn loads_agree_at<S: ByteStep>(place: usize, first: u8, steps: &[S]) -> bool
    ensures { result ≡ loads_agree place first (filter_map S.act_of steps.now) }
{
    let mut latest = first;
    for step in steps {
        match step.act() {
            Some(Act::Store { place: at, byte }) if at == place => latest = byte,
            Some(Act::Load { place: at, byte }) if at == place && byte != latest => return false,
            _ => {}
        }
    }
    true
}
