//! Shapes of a network-on-chip: meshes and tori, their nodes, ports, links and distances.
#![tactic(auto)]

mod axis;
mod fault;
mod limits;
mod shape;

pub use limits::{LINKS, MAX_DIMENSIONS, MAX_DISTANCE, MAX_NODES, MAX_PORTS, MAX_RADIX};
pub use shape::{Kind, Shape, ShapeFault, links_are_mutual};
