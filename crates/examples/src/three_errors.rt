//! Errors of three containers, which `?` returns as one.
ghost use Rattle.std.specs.Prelude.{◌≡◌, nat_eq, IsOk, OnErr, IsSomeAnd};
ghost use Rattle.ix_maps.specs.MapState.{map_value};

use ix_cells::StaticVec;
use ix_maps::FixedSizeFlatMap;
use ix_string::StaticString;

/// A service: its name, and the ports that it listens on.
#[derive(Debug, Drop)]
pub struct Service {
    pub name: StaticString<16>,
    pub ports: StaticVec<u16, 4>,
}

/// At most 8 services, by their numbers. `Services::new()` is empty.
pub type Services = FixedSizeFlatMap<u32, Service, 8>;

/// Adds a service. Returns an error that prints as the first error does: that of the name, of the ports, or of the map.
pub fn add(
    services: &mut Services,
    number: u32,
    name: &str,
    ports: &[u16],
) -> Result<(), anyhow::Error>
    ensures name { IsOk result
        → IsSomeAnd (map_value nat_eq services.new number) (λ service. service.name ≡ name.now) }
    ensures ports { IsOk result
        → IsSomeAnd (map_value nat_eq services.new number) (λ service. service.ports ≡ ports.now) }
    ensures refused { OnErr result (services.new ≡ services.old) }
{
    let name = StaticString::try_from(name)?; // a StringModificationError
    let ports = StaticVec::try_from(ports)?; // a VectorModificationError
    services.insert(number, Service { name, ports })?; // a MapError
    Ok(())
}
