//! The input ports of a network: those that are local or have a link.

ghost use Rattle.std.specs.Prelude.{◌≡◌, ◌*◌, ◌/◌, ◌%◌, ◌<◌};
ghost use Rattle.noc_files.specs.Prelude.{nodes, ports};
ghost use Rattle.noc_files.specs.Channels.{AreInputs, is_input};

use crate::ports::has_inputs;
use noc_packet::{MAX_NODES, MAX_PORTS};
use noc_topo::Shape;

/// For each router and each of its ports, `MAX_PORTS` entries to a router,
/// whether it is an input port.
pub(crate) type InputPorts = [bool; MAX_NODES * MAX_PORTS];

/// The input ports of a shape.
pub(crate) fn inputs_of(shape: &Shape) -> InputPorts
    ensures { AreInputs shape.now result }
{
    let mut inputs = [false; MAX_NODES * MAX_PORTS];
    for index in 0..shape.nodes() * MAX_PORTS {
        inputs[index] = has_input_at(shape, index);
    }
    inputs
}

// Whether an index is that of an input port.
fn has_input_at(shape: &Shape, index: usize) -> bool
    requires { index < nodes shape.now * MAX_PORTS }
    ensures { index % MAX_PORTS < ports shape.now
        → result ≡ is_input shape.now (index / MAX_PORTS) (index % MAX_PORTS) }
{
    let port = index % MAX_PORTS;
    port < shape.ports() && has_inputs(shape, index / MAX_PORTS, port)
}
