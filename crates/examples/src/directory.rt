//! A directory of services, by names of any type that can be compared.
ghost use Rattle.std.specs.Prelude.{◌≡◌, ◌↔◌, false, Some, None, Err, IsTrue, IsSome, IsOk, OnErr, slice_get};
ghost use Rattle.ix_flatmap.specs.MapState.{map_value};
ghost use Rattle.ix_flatmap.specs.declared.flatmap.MapError.TheVariants.{KeyAlreadyExists, IsFull};

use ix_flatmap::{FixedSizeFlatMap, MapError};

/// The ports of at most 32 services. `Directory::new()` is empty.
pub type Directory<N> = FixedSizeFlatMap<N, u16, 32>;

/// Publishes the port of a service. Returns an error if there is a service with this name, or no room.
pub fn publish<N: Eq + Drop>(
    directory: &mut Directory<N>,
    name: N,
    port: u16,
) -> Result<(), MapError>
    ensures published { IsOk result → map_value N.eq directory.new name ≡ Some port }
    ensures taken { result ≡ Err KeyAlreadyExists ↔ IsSome (map_value N.eq directory.old name) }
    ensures full { result ≡ Err IsFull → slice_get directory.old.free 0 ≡ None }
    ensures refused { OnErr result (directory.new ≡ directory.old) }
    ensures kept { (other : N) → N.eq other name ≡ false
        → map_value N.eq directory.new other ≡ map_value N.eq directory.old other }
{
    directory.insert(name, port)
}

/// Returns the port of a service, or `None` if there is no such service.
pub fn port_of<N: Eq + Drop>(directory: &Directory<N>, name: &N) -> Option<u16>
    ensures { result ≡ map_value N.eq directory.now name.now }
{
    let port = directory.get_ref(name)?;
    Some(*port)
}

/// Changes the port of a service. Returns `false` if there is no such service.
pub fn change_port<N: Eq + Drop>(directory: &mut Directory<N>, name: &N, port: u16) -> bool
    ensures value { IsTrue result ↔ IsSome (map_value N.eq directory.old name.now) }
    ensures changed { IsTrue result → map_value N.eq directory.new name.now ≡ Some port }
    ensures kept { (other : N) → N.eq other name.now ≡ false
        → map_value N.eq directory.new other ≡ map_value N.eq directory.old other }
{
    match directory.get_mut_ref(name) {
        Some(held) => {
            *held = port;
            true
        }
        None => false,
    }
}

/// Withdraws a service and returns its port, or `None` if there is no such service.
pub fn withdraw<N: Eq + Drop>(directory: &mut Directory<N>, name: &N) -> Option<u16>
    ensures value { result ≡ map_value N.eq directory.old name.now }
    ensures gone { map_value N.eq directory.new name.now ≡ None }
    ensures kept { (other : N) → N.eq other name.now ≡ false
        → map_value N.eq directory.new other ≡ map_value N.eq directory.old other }
{
    directory.remove(name)
}
