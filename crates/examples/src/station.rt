//! A struct of a program, which has one of each container except a hash map.
ghost use Rattle.std.specs.Prelude.{◌≡◌, IfOk};
ghost use Rattle.ix_cells.specs.Bounded.{bounded_push, has_room};
ghost use Rattle.ix_maps.specs.Generations.{slot_map_new};
ghost use Rattle.ix_maps.specs.SlotTableState.{slot_table_new};

use ix_atomic::{FixedSizeByteAtomic, ReaderSeat, SequencedByteAtomic, WriterSeat};
use ix_cells::StaticVec;
use ix_maps::{FixedSizeQueue, FlatMap, SlotMap, SlotTable};
use ix_names::{GroupName, RelocatableOption};
use ix_string::StaticString;
use std::alloc::{AllocError, Global};

/// The data of a station.
#[derive(Drop)]
pub struct Station {
    pub name: GroupName,
    pub place: StaticString<16>,
    pub samples: StaticVec<u32, 8>,
    pub waiting: FixedSizeQueue<u32, 4>,
    pub services: SlotMap<u16>,
    pub sessions: SlotTable<u16>,
    pub ports: FlatMap<u16, u32>,
    pub last: RelocatableOption<u32>,
    pub mode: FixedSizeByteAtomic<u64, 8>,
    pub limit: SequencedByteAtomic<u64, 8>,
    pub reader: ReaderSeat<u64>,
}

/// Creates a station without content, and the seat that sets its limit, which is 100 at first.
pub fn empty_station(
    alloc: Global,
    name: GroupName,
) -> Result<(Station, WriterSeat<u64>), AllocError>
    ensures name { IfOk result (λ made. made.0.name ≡ name) }
    ensures services { IfOk result (λ made. made.0.services ≡ slot_map_new 32 0) }
    ensures sessions { IfOk result (λ made. made.0.sessions ≡ slot_table_new 16) }
    ensures ports { IfOk result (λ made. made.0.ports ≡ slot_table_new 8) }
    ensures seat { IfOk result (λ made. made.1.cell ≡ made.0.limit) }
{
    let services = SlotMap::new(alloc, 32)?;
    let sessions = SlotTable::new(alloc, 16)?;
    let ports = FlatMap::new(alloc, 8)?;
    let (limit, writer, reader) = SequencedByteAtomic::new(alloc, 100)?;
    let station = Station {
        name,
        place: StaticString::new(),
        samples: StaticVec::new(),
        waiting: FixedSizeQueue::new(),
        services,
        sessions,
        ports,
        last: RelocatableOption::None,
        mode: FixedSizeByteAtomic::new(0),
        limit,
        reader,
    };
    Ok((station, writer))
}

/// Moves a station to the others. If there are four already, drops it, with all that it has.
pub fn add_station(stations: &mut FixedSizeQueue<Station, 4>, station: Station) -> bool
    ensures added { result ≡ has_room stations.old }
    ensures stations { stations.new ≡ bounded_push stations.old station }
{
    stations.push(station)
}
