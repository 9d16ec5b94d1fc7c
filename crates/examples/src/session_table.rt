//! A table of sessions, whose numbers are used again.
ghost use Rattle.std.specs.Prelude.{◌≡◌, ◌≢◌, ◌↔◌, ℕ, Some, None, IsTrue, IfSome, slice_get, option_map};
ghost use Rattle.examples.specs.declared.session_table.Session.{Session};
ghost use Rattle.ix_maps.specs.SlotTableState.{value_at, IsHeld};
ghost use Rattle.ix_maps.specs.SlotTableSteps.{slot_table_insert};

use ix_maps::{SlotTable, SlotTableKey};
use std::alloc::Allocator;

/// A session with a peer.
#[derive(Clone, Copy, PartialEq, Eq, Debug)]
pub struct Session {
    pub peer: u32,
    pub last_heard: u64,
}

/// Sessions by number. `SessionTable::new(alloc, 1000)?` allocates a table for 1,000 of them.
pub type SessionTable<A> = SlotTable<Session, A>;

/// Opens a session and returns its number, or `None` if the table is full.
pub fn open<A: Allocator>(table: &mut SessionTable<A>, session: Session) -> Option<SlotTableKey>
    ensures number { result ≡ slice_get table.old.free 0 }
    ensures opened { IfSome result (λ number. value_at table.new number ≡ Some session) }
    ensures kept { (other : ℕ) → IsHeld table.old other
        → value_at table.new other ≡ value_at table.old other }
    // No other session is opened.
    ensures table { table.new ≡ slot_table_insert table.old session }
{
    table.insert(session)
}

/// Notes that the peer of a session was heard at `time`. Returns `false` if no session has this number.
pub fn note_heard<A: Allocator>(
    table: &mut SessionTable<A>,
    number: SlotTableKey,
    time: u64,
) -> bool
    ensures value { IsTrue result ↔ IsHeld table.old number }
    ensures heard { IfSome (value_at table.new number) (λ session. session.last_heard ≡ time) }
    ensures peer { option_map (λ (session : Session). session.peer) (value_at table.new number)
        ≡ option_map (λ (session : Session). session.peer) (value_at table.old number) }
    ensures kept { (other : ℕ) → other ≢ number
        → value_at table.new other ≡ value_at table.old other }
{
    match table.get_mut(number) {
        Some(session) => {
            session.last_heard = time;
            true
        }
        None => false,
    }
}

/// Closes a session and returns it, or `None` if no session has this number. The next session gets the number.
pub fn close<A: Allocator>(table: &mut SessionTable<A>, number: SlotTableKey) -> Option<Session>
    ensures value { result ≡ value_at table.old number }
    ensures closed { value_at table.new number ≡ None }
    ensures free { IfSome result (λ _. slice_get table.new.free 0 ≡ Some number) }
    ensures kept { (other : ℕ) → other ≢ number
        → value_at table.new other ≡ value_at table.old other }
{
    table.remove(number)
}
