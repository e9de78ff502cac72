//! The two ends of a lane in memory.
ghost use Rattle.std.specs.Prelude.{◌≡◌, ◌≤◌, ◌^◌, ◌++◌, [], ◌∷◌, length, IfOk, OnErr, OnOk, Some};
ghost use Rattle.lane_core.specs.Lane.{lane_of};

use crate::ends::{Inlet, Outlet, Put, Take};
use crate::table::MemLanes;
use gst_item::Item;
use gst_value::{List, OutOfMemory};
use std::alloc::Global;

/// The most items that are sent through one lane.
const MOST_ITEMS: u64 = 1 << 62;

/// The end of a lane in memory that a task puts items into.
#[derive(Drop)]
pub struct MemOutlet {
    place: u64,
    capacity: u32,
    count: u64,
    readings: u64,
    reading: u64,
    refusals: u64,
    ghost bounded: { count ≤ 2 ^ 62 },
}

/// The end of a lane in memory that a task takes items from.
#[derive(Drop)]
pub struct MemInlet {
    place: u64,
    count: u64,
    readings: u64,
    reading: u64,
    refusals: u64,
    ghost bounded: { count ≤ 2 ^ 62 },
}

/// Adds a lane for at most `capacity` items to the table, with all its room, and answers its ends.
pub fn memory_lane(
    alloc: Global,
    lanes: &mut MemLanes,
    capacity: u32,
) -> Result<(MemOutlet, MemInlet), OutOfMemory>
    ensures table { OnOk result (lanes.new ≡ lanes.old ++ lane_of [] capacity ∷ []) }
    ensures place { IfOk result (λ ends.
        (⟦<MemOutlet as Outlet>⟧.place ends.0 ≡ length lanes.old)
        × (⟦<MemInlet as Inlet>⟧.place ends.1 ≡ length lanes.old)
        ) }
    ensures id { IfOk result (λ ends. ⟦<MemInlet as Inlet>⟧.id ends.1 ≡ ⟦<MemOutlet as Outlet>⟧.id ends.0) }
    ensures limits { IfOk result (λ ends. (⟦<MemOutlet as Outlet>⟧.limits ends.0).items ≡ capacity) }
    ensures lists { IfOk result (λ ends.
        ⟦<MemOutlet as Outlet>⟧.sent ends.0 [] × ⟦<MemInlet as Inlet>⟧.received ends.1 []
        ) }
    ensures heard { IfOk result (λ ends. ⟦<MemOutlet as Outlet>⟧.heard ends.0 [] × ⟦<MemInlet as Inlet>⟧.heard ends.1 []) }
    ensures outlet { IfOk result (λ ends.
        (⟦<MemOutlet as Outlet>⟧.count ends.0 ≡ 0) × (⟦<MemOutlet as Outlet>⟧.readings ends.0 ≡ 0)
        × (⟦<MemOutlet as Outlet>⟧.refusals ends.0 ≡ 0)
        ) }
    ensures inlet { IfOk result (λ ends.
        (⟦<MemInlet as Inlet>⟧.count ends.1 ≡ 0) × (⟦<MemInlet as Inlet>⟧.readings ends.1 ≡ 0)
        × (⟦<MemInlet as Inlet>⟧.refusals ends.1 ≡ 0)
        ) }
    ensures err { OnErr result (lanes.new ≡ lanes.old) }
{
    let place = lanes.add(alloc, capacity)?;
    let outlet = MemOutlet {
        place,
        capacity,
        count: 0,
        readings: 0,
        reading: 0,
        refusals: 0,
    };
    let inlet = MemInlet {
        place,
        count: 0,
        readings: 0,
        reading: 0,
        refusals: 0,
    };
    Ok((outlet, inlet))
}

impl Outlet for MemOutlet {
    type Lanes = MemLanes;

    ghost tells = { λ t. Some t };

    ghost id = { λ o. (o.place ∷ []) ∷ [] };

    ghost place = { λ o. o.place };

    ghost limits = { λ o. record { items = o.capacity } };

    ghost sent = { λ o was. length was ≡ o.count };

    ghost count = { λ o. o.count };

    ghost readings = { λ o. o.readings };

    ghost reading = { λ o. o.reading ∷ 0 ∷ 0 ∷ [] };

    ghost heard = { λ o was. Unit {0} };

    ghost refusals = { λ o. o.refusals };

    ghost counts = { λ o was e. e };

    ghost bounded = { λ o. o.bounded };

    #[inline(always)]
    fn put(&mut self, lanes: &mut MemLanes, item: Item) -> Put {
        let held = lanes.len_of(self.place) as u64;
        self.reading = self.count - held;
        self.readings = self.readings.saturating_add(1);
        if held >= self.capacity as u64 {
            self.refusals = self.refusals.saturating_add(1);
            return Put::Full(item);
        }
        lanes.put(self.place, item);
        self.count += 1;
        Put::Stored
    }

    fn count(&self) -> u64 {
        self.count
    }
}

impl Inlet for MemInlet {
    type Lanes = MemLanes;

    type Out = MemOutlet;

    ghost id = { λ i. (i.place ∷ []) ∷ [] };

    ghost place = { λ i. i.place };

    ghost received = { λ i was. length was ≡ i.count };

    ghost count = { λ i. i.count };

    ghost readings = { λ i. i.readings };

    ghost reading = { λ i. i.reading ∷ 0 ∷ 0 ∷ [] };

    ghost heard = { λ i was. Unit {0} };

    ghost refusals = { λ i. i.refusals };

    ghost counts = { λ i was e. e };

    ghost bounded = { λ i. i.bounded };

    #[inline(always)]
    fn take(&mut self, lanes: &mut MemLanes) -> Take {
        let held = lanes.len_of(self.place) as u64;
        self.reading = self.count.saturating_add(held).min(MOST_ITEMS);
        self.readings = self.readings.saturating_add(1);
        if self.reading == self.count {
            self.refusals = self.refusals.saturating_add(1);
            return Take::Empty;
        }
        let Some(item) = lanes.take(self.place) else {
            unreachable!()
        };
        self.count += 1;
        Take::Item(item)
    }

    fn count(&self) -> u64 {
        self.count
    }

    fn is_empty(&self, lanes: &MemLanes) -> bool {
        lanes.is_empty(self.place)
    }

    fn meet(
        &mut self,
        alloc: Global,
        lanes: &mut MemLanes,
        outlet: &mut MemOutlet,
        into: &mut List<Item>,
    ) -> Result<(), OutOfMemory> {
        lanes.pour(alloc, self.place, into)?;
        self.count = outlet.count;
        Ok(())
    }
}
