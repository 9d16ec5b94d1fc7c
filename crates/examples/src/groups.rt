//! A register of groups: names that obey rules, by small numbers, in a map that is allocated once.
ghost use Rattle.std.specs.Prelude.{◌≡◌, ◌≢◌, ◌↔◌, ℕ, nat_eq, Some, None, IsOk, OnErr};
ghost use Rattle.ix_maps.specs.MapState.{map_value};
ghost use Rattle.ix_maps.specs.MapSteps.{map_insert_result};
ghost use Rattle.ix_names.specs.Rules.{IsAccepted};
ghost use Rattle.ix_names.specs.SampleRules.{group_name_rules};

use ix_maps::FlatMap;
use ix_names::GroupName;
use std::alloc::Allocator;

/// The names of groups by their numbers. `Groups::new(alloc, 3)?` allocates room for 3 of them.
pub type Groups<A> = FlatMap<u8, GroupName, A>;

/// Registers a group. Returns an error that prints as the first error does: that of the name, or that of the map.
pub fn register<A: Allocator>(
    groups: &mut Groups<A>,
    number: u8,
    name: &[u8],
) -> Result<(), anyhow::Error>
    ensures registered { IsOk result → map_value nat_eq groups.new number ≡ Some name.now }
    ensures exactly { IsOk result ↔ IsAccepted 31 group_name_rules name.now
        × IsOk (map_insert_result nat_eq groups.old number) }
    ensures refused { OnErr result (groups.new ≡ groups.old) }
    ensures kept { (other : ℕ) → other ≢ number
        → map_value nat_eq groups.new other ≡ map_value nat_eq groups.old other }
{
    let name = GroupName::new(name)?; // a SemanticStringError
    groups.insert(number, name)?; // a MapError
    Ok(())
}

/// Withdraws a group and returns its name, or `None` if there is no such group. The next group gets its slot in the map.
pub fn withdraw<A: Allocator>(groups: &mut Groups<A>, number: u8) -> Option<GroupName>
    ensures value { result ≡ map_value nat_eq groups.old number }
    ensures gone { map_value nat_eq groups.new number ≡ None }
    ensures kept { (other : ℕ) → other ≢ number
        → map_value nat_eq groups.new other ≡ map_value nat_eq groups.old other }
{
    groups.remove(&number)
}
