//! Ranks that are made of rows.

use noc_rank::{RankFault, Ranks};
use noc_topo::{Kind, Shape};
use std::alloc::Global;

// Whether ranks of a line with more channels than there are numbers are refused for want of memory.
fn is_refused(alloc: Global) -> bool {
    let Ok(line) = Shape::new(Kind::Mesh, &[2]) else {
        return false;
    };
    Ranks::from_rows(alloc, &line, usize::MAX, &[]).err() == Some(RankFault::Memory)
}

#[test]
fn memory_has_no_room_for_so_many_channels(rt: HostRuntime) {
    assert!(rt; is_refused(rt.alloc()));
}
