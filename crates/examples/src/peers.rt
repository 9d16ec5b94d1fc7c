//! Peers that are found by their name and by a handle: a slot map, and beside it a flat map that is an index of it.
ghost use Rattle.std.specs.Prelude.{◌≡◌, ◌↔◌, List, ℕ, [], Some, None, IsSome, IsNone, IfSome, false};
ghost use Rattle.examples.specs.declared.peers.Peer.{Peer};
ghost use Rattle.ix_flatmap.specs.MapState.{map_value};
ghost use Rattle.ix_slotmap.specs.Generations.{SlotKey, slot_map_value, IsDead};
ghost use Rattle.ix_slotmap.specs.KeyIndexes.{IsIndexOf};
ghost use Rattle.ix_string.specs.Text.{text_eq};

use ix_flatmap::FixedSizeFlatMap;
use ix_slotmap::{FixedSizeSlotMap, SlotMapKey};
use ix_string::StaticString;

/// The name of a peer.
pub type Name = StaticString<32>;

/// The data of a peer.
#[derive(Clone, Copy, PartialEq, Eq, Debug)]
pub struct Peer {
    pub name: Name,
    pub port: u16,
}

/// The peers by their handles.
pub type Held = FixedSizeSlotMap<Peer, 16>;

/// The handle of each name. `FixedSizeHashMap<Name, SlotMapKey, 16>` of `ix_hashmap` serves as well, with the same proofs.
pub type Names = FixedSizeFlatMap<Name, SlotMapKey, 16>;

/// At most 16 peers, each with a name of its own.
#[derive(Drop)]
pub struct Peers {
    pub held: Held,
    pub names: Names,
    pub ghost index: { IsIndexOf (λ (peer : Peer). peer.name) (map_value text_eq names) (slot_map_value held) },
}

impl Peers {
    /// Creates a table without peers.
    pub fn new() -> Self
        ensures held { (handle : SlotKey) → slot_map_value result.held handle ≡ None }
        ensures names { (name : List ℕ) → map_value text_eq result.names name ≡ None }
    {
        Peers {
            held: Held::new(),
            names: Names::new(),
        }
    }

    /// Adds a peer and returns its handle, or `None` if there is a peer with its name, or no room.
    pub fn add(&mut self, peer: Peer) -> Option<SlotMapKey>
        ensures held { IfSome result (λ handle. slot_map_value self.new.held handle ≡ Some peer) }
        ensures named { IfSome result (λ handle.
            map_value text_eq self.new.names peer.name ≡ Some handle) }
        ensures taken { IsSome (map_value text_eq self.old.names peer.name) → IsNone result }
        ensures full { self.old.held.slots.free ≡ [] → IsNone result }
        ensures refused { IsNone result → self.new ≡ self.old }
        ensures kept { (other : List ℕ) → text_eq other peer.name ≡ false
            → map_value text_eq self.new.names other ≡ map_value text_eq self.old.names other }
        ensures dead { (other : SlotKey) → IsDead self.old.held other → IsDead self.new.held other }
    {
        let handle = self.held.next_free_key()?;
        match self.names.insert(peer.name, handle) {
            Err(_) => None,
            Ok(()) => self.held.insert(peer),
        }
    }

    /// Returns the peer with this handle, or `None` if there is no such peer.
    pub fn get(&self, handle: SlotMapKey) -> Option<Peer>
        ensures { result ≡ slot_map_value self.now.held handle }
    {
        self.held.get(handle).copied()
    }

    /// Returns the peer with this name, or `None` if there is no such peer.
    pub fn find(&self, name: &Name) -> Option<Peer>
        ensures some { IsSome result ↔ IsSome (map_value text_eq self.now.names name.now) }
        ensures name { IfSome result (λ peer. peer.name ≡ name.now) }
    {
        let handle = self.names.get_ref(name)?;
        self.held.get(*handle).copied()
    }

    /// Removes the peer with this name and returns it, or `None` if there is no such peer. Its handle is dead then.
    pub fn remove(&mut self, name: &Name) -> Option<Peer>
        ensures gone { map_value text_eq self.new.names name.now ≡ None }
        ensures some { IsSome result ↔ IsSome (map_value text_eq self.old.names name.now) }
        ensures name { IfSome result (λ peer. peer.name ≡ name.now) }
        ensures killed { IfSome (map_value text_eq self.old.names name.now) (λ handle. IsDead self.new.held handle) }
        ensures kept { (other : List ℕ) → text_eq other name.now ≡ false
            → map_value text_eq self.new.names other ≡ map_value text_eq self.old.names other }
        ensures dead { (other : SlotKey) → IsDead self.old.held other → IsDead self.new.held other }
    {
        let handle = self.names.remove(name)?;
        self.held.remove(handle)
    }
}
