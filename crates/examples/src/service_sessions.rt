//! Numbers that are read from a container, and raised up to a bound that is read there too.
ghost use Rattle.std.specs.Prelude.{◌≡◌, ◌≢◌, ◌+◌, IsNone, IsTrue};
ghost use Rattle.std.specs.Bool.{OnFalse};
ghost use Rattle.ix_maps.specs.Generations.{SlotKey, slot_map_value};

use ix_maps::{SlotMap, SlotMapKey};

/// A service, and the number of sessions that it may have.
#[derive(Clone, Copy, Drop)]
pub struct Service {
    pub sessions: u8,
    pub max_sessions: u8,
}

/// Opens a session and returns how many there were, or `None` if there is no such service or it has no room.
pub fn open_session(services: &mut SlotMap<Service>, key: SlotMapKey) -> Option<u8>
    ensures refused { IsNone result → services.new ≡ services.old }
    ensures kept { (other : SlotKey) → other ≢ key
        → slot_map_value services.new other ≡ slot_map_value services.old other }
{
    let held = services.get_mut(key)?;
    // This is a copy: its numbers have the range of their type. The numbers behind the reference have no range that is known.
    let before = *held;
    if before.sessions < before.max_sessions {
        held.sessions = before.sessions + 1;
        return Some(before.sessions);
    }
    None
}

/// Does the same as [`open_session`] for elements that can't be copied, and returns `true` if it opened a session.
pub fn open_in_place(services: &mut SlotMap<Service>, key: SlotMapKey) -> bool {
    match services.get_mut(key) {
        Some(held) => raise(held),
        None => false,
    }
}

/// Raises the number of sessions and returns `true`, unless it is the maximum.
// The numbers behind a parameter have the range of their type.
fn raise(service: &mut Service) -> bool
    ensures max { service.new.max_sessions ≡ service.old.max_sessions }
    ensures raised { IsTrue result → service.new.sessions ≡ service.old.sessions + 1 }
    ensures refused { OnFalse result (service.new ≡ service.old) }
{
    if service.sessions < service.max_sessions {
        service.sessions += 1;
        return true;
    }
    false
}
