//! The stops that commands ask for, in the order in which they come.
ghost use Rattle.std.specs.Prelude.{◌≡◌, ◌<◌, ◌^◌, length, IfOk};
ghost use Rattle.script_probes.specs.Stops.{AreStops, InOrder, stops_of};

use gst_value::OutOfMemory;
use pad_core::Probe;
use script_text::{Command, When};
use std::alloc::Global;

/// The probes of the commands that wait for buffers of a pad, in the order of the commands.
fn stops_of(alloc: Global, commands: &[Command]) -> Result<Vec<Probe>, OutOfMemory>
    requires { length commands.now < 2 ^ 32 }
    ensures { IfOk result (λ stops. stops.items ≡ stops_of 0 commands.now) }
{
    let mut stops = Vec::new(alloc);
    for (place, command) in commands.iter().enumerate() {
        if let When::At { buffers, .. } = &command.when {
            stops.push(Probe {
                command: place as u32,
                buffers: *buffers,
            })?;
        }
    }
    Ok(stops)
}

/// The same by their numbers of buffers, and those with one number in the order of the commands.
pub(crate) fn ordered_stops(alloc: Global, commands: &[Command]) -> Result<Vec<Probe>, OutOfMemory>
    requires { length commands.now < 2 ^ 32 }
    ensures whole { IfOk result (λ stops. AreStops commands.now stops.items) }
    ensures ordered { IfOk result (λ stops. InOrder stops.items) }
{
    let mut stops = stops_of(alloc, commands)?;
    stops.sort_unstable_by_key(|stop| (stop.buffers, stop.command));
    Ok(stops)
}
