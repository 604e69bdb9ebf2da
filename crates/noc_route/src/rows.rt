//! What can be wrong with the rows of a table.

ghost use Rattle.std.specs.Prelude.{◌≡◌, ◌<◌, IfNone, IfSome, All, None};
ghost use Rattle.noc_topo.specs.Shape.{nodes};
ghost use Rattle.noc_route.specs.Order.{row_before};
ghost use Rattle.noc_route.specs.Relation.{IsFirstFault, earlier_fault, row_fault, is_real_row, is_open};

use crate::map::Map;
use crate::rule::{RouteFault, RouteRow};

// The first fault of a row.
pub(crate) fn row_fault(map: &Map, row: &RouteRow) -> Option<RouteFault>
    ensures { result
        ≡ row_fault map.now.sizes.shape map.now.sizes.vcs map.now.sizes.classes row.now }
{
    if !is_real(map, row) {
        return Some(RouteFault::NoLink(*row));
    }
    match map.link(row.router, row.out_port) {
        None if row.router == row.dst => None,
        None => Some(RouteFault::EarlyEject(*row)),
        Some(_) if row.router == row.dst => Some(RouteFault::LateHop(*row)),
        Some((next, _)) => {
            if map.distance(next, row.dst) < map.distance(row.router, row.dst) {
                None
            } else {
                Some(RouteFault::NotMinimal(*row))
            }
        }
    }
}

// Whether the class, router, ports, channels and destination of a row exist, and its ports
// are local or have a link.
fn is_real(map: &Map, row: &RouteRow) -> bool
    ensures { result ≡ is_real_row map.now.sizes.shape map.now.sizes.vcs map.now.sizes.classes
        row.now }
{
    let sizes = &map.sizes;
    let nodes = sizes.node_count;
    row.class < sizes.classes
        && row.router < nodes
        && row.in_vc < sizes.vcs
        && row.out_vc < sizes.vcs
        && row.dst < nodes
        && is_port(map, row.router, row.in_port)
        && is_port(map, row.router, row.out_port)
}

// Whether a router has a port, and it is local or has a link.
fn is_port(map: &Map, router: usize, port: usize) -> bool
    requires { router < nodes map.now.sizes.shape }
    ensures { result ≡ is_open map.now.sizes.shape router port }
{
    let ports = map.sizes.port_count;
    port < ports && (port + 1 == ports || map.link(router, port).is_some())
}

// The first fault among the rows, in the order of class, router, input port and channel,
// destination, output port and channel.
pub(crate) fn first_fault(map: &Map, rows: &[RouteRow]) -> Option<RouteFault>
    ensures none { IfNone result (All (λ row. row_fault map.now.sizes.shape map.now.sizes.vcs
        map.now.sizes.classes row ≡ None) rows.now) }
    ensures some { IfSome result (IsFirstFault map.now.sizes.shape map.now.sizes.vcs
        map.now.sizes.classes rows.now) }
{
    let mut first = None;
    for row in rows {
        first = earlier_fault(map, row, first);
    }
    row_fault(map, &first?)
}

// A row, if it has a fault and comes before the other, and else the other.
fn earlier_fault(map: &Map, row: &RouteRow, other: Option<RouteRow>) -> Option<RouteRow>
    ensures { result ≡ earlier_fault map.now.sizes.shape map.now.sizes.vcs map.now.sizes.classes
        row.now other }
{
    if row_fault(map, row).is_some() && is_before(row, &other) {
        Some(*row)
    } else {
        other
    }
}

// Whether a row comes before another one, if there is one.
fn is_before(row: &RouteRow, other: &Option<RouteRow>) -> bool
    ensures { result ≡ row_before row.now other.now }
{
    match other {
        Some(other) => row.numbers() < other.numbers(),
        None => true,
    }
}
