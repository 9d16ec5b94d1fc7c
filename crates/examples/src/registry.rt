//! A registry of services, whose handles are dead for good once their service is removed.
ghost use Rattle.std.specs.Prelude.{◌≡◌, ◌≢◌, ◌↔◌, [], None, Some, IsSome, IfSome, IsNone, fold, option_map};
ghost use Rattle.ix_slotmap.specs.Generations.{SlotKey, slot_map_value, IsDead};
ghost use Rattle.ix_slotmap.specs.SlotMapSteps.{slot_map_insert, slot_map_remove};

use ix_slotmap::slotmap::dead_keys_law;
use ix_slotmap::{FixedSizeSlotMap, SlotMapKey};
use ix_string::StaticString;

/// A service that a handle finds.
#[derive(Clone, Copy, PartialEq, Eq, Debug)]
pub struct Service {
    pub name: StaticString<32>,
    pub port: u16,
}

/// At most 64 services. `Registry::new()` is empty.
pub type Registry = FixedSizeSlotMap<Service, 64>;

/// Registers a service and returns its handle, or `None` if the registry is full. Then the registry is unchanged.
pub fn register(registry: &mut Registry, service: Service) -> Option<SlotMapKey>
    ensures found { IfSome result (λ handle. slot_map_value registry.new handle ≡ Some service) }
    ensures kept { (other : SlotKey) → IsSome (slot_map_value registry.old other)
        → slot_map_value registry.new other ≡ slot_map_value registry.old other }
    ensures dead { (other : SlotKey) → IsDead registry.old other → IsDead registry.new other }
    ensures full { IsNone result ↔ (registry.old.slots.free ≡ []) }
    ensures refused { IsNone result → registry.new ≡ registry.old }
    // No other service is registered.
    ensures registry { registry.new ≡ slot_map_insert registry.old service }
{
    registry.insert(service)
}

/// Returns the port of the service with this handle, or `None` if there is no such service.
pub fn port_of(registry: &Registry, handle: SlotMapKey) -> Option<u16>
    ensures { result ≡ option_map (λ service. service.port) (slot_map_value registry.now handle) }
{
    let service = registry.get(handle)?;
    Some(service.port)
}

/// Removes the service with this handle and returns it, or `None` if there is no such service. A handle that found one is
/// dead then.
pub fn unregister(registry: &mut Registry, handle: SlotMapKey) -> Option<Service>
    ensures value { result ≡ slot_map_value registry.old handle }
    ensures dead { IsSome result → IsDead registry.new handle }
    ensures kept { (other : SlotKey) → other ≢ handle
        → slot_map_value registry.new other ≡ slot_map_value registry.old other }
    ensures registry { registry.new ≡ slot_map_remove registry.old handle }
{
    registry.remove(handle)
}

/// Removes the service with this handle, and registers others, as many as there is room for. If the handle found a service, it
/// finds none of the others, whichever slots they get.
pub fn hand_over(registry: &mut Registry, handle: SlotMapKey, services: &[Service])
    ensures dead { IsSome (slot_map_value registry.old handle) → slot_map_value registry.new handle ≡ None }
    ensures registry { registry.new
        ≡ fold slot_map_insert (slot_map_remove registry.old handle) services.now }
{
    unregister(registry, handle);
    for service in services {
        register(registry, *service);
    }
    dead_keys_law::<Service>();
}
