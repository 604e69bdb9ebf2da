//! The names of ports (docs/FORMATS.md).

ghost use Rattle.std.specs.Prelude.{◌≡◌, ◌<◌, ◌≤◌, length, option_map, IfSome};
ghost use Rattle.noc_files.specs.Prelude.{nodes, ports};
ghost use Rattle.noc_files.specs.Channels.{is_input};
ghost use Rattle.noc_files.specs.Ports.{name_of_port, port_named, port_text};

use noc_topo::Shape;

/// The most bytes of the name of a port.
pub const LONGEST_PORT_NAME: usize = 5;

/// The name of a port of a shape: `+0`, `-0` and so on for the links of each dimension, and `local`
/// for the last port; None where the shape has no such port.
pub fn port_name(shape: &Shape, port: usize) -> Option<&'static str>
    ensures text { option_map (λ name. name.now) result ≡ port_text shape.now port }
    ensures short { IfSome result (λ name. length name.now ≤ LONGEST_PORT_NAME) }
{
    if port < shape.ports() {
        Some(known_name(shape, port))
    } else {
        None
    }
}

// The name of a port that the shape has.
pub(crate) fn known_name(shape: &Shape, port: usize) -> &'static str
    requires { port < ports shape.now }
    ensures text { result.now ≡ name_of_port shape.now port }
    ensures short { length result.now ≤ LONGEST_PORT_NAME }
{
    if port == 2 * shape.dimensions() {
        return "local";
    }
    match port {
        0 => "+0",
        1 => "-0",
        2 => "+1",
        3 => "-1",
        4 => "+2",
        _ => "-2",
    }
}

// The port of a shape that has this name.
pub(crate) fn port_named(shape: &Shape, name: &[u8]) -> Option<usize>
    ensures { result ≡ port_named shape.now name.now }
{
    for port in 0..shape.ports() {
        if name == known_name(shape, port).as_bytes() {
            return Some(port);
        }
    }
    None
}

// Whether an input port is local or has a link.
pub(crate) fn has_inputs(shape: &Shape, router: usize, port: usize) -> bool
    requires router { router < nodes shape.now }
    requires port { port < ports shape.now }
    ensures { result ≡ is_input shape.now router port }
{
    port == 2 * shape.dimensions() || shape.neighbour(router, port).is_some()
}
