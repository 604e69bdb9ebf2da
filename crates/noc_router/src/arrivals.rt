//! The packets that end at a node.

ghost use Rattle.std.specs.Prelude.{◌≡◌, IfOk, if◌then◌else◌, None, map, vec_len};
ghost use Rattle.std.specs.List.{zip};
ghost use Rattle.std.specs.List.Sorted.{IsStrictlyIncreasing};
ghost use Rattle.noc_view.specs.Arrivals.{is_expected_in, arrivals_after, noted_arrival};

use noc_packet::Memory;
use std::alloc::Global;

/// The packets that were built to end at a node, by rising number, and the cycle in which
/// the tail of each was out.
#[derive(Drop)]
pub(crate) struct Arrivals {
    ends: Vec<u32>,
    cycles: Vec<Option<u64>>,
    ghost one_each: { vec_len cycles ≡ vec_len ends },
    ghost rising: { IsStrictlyIncreasing ends.items },
}

impl Arrivals {
    pub(crate) fn new(alloc: Global, ends: Vec<u32>) -> Result<Arrivals, Memory>
        requires { IsStrictlyIncreasing ends.items }
        ensures { IfOk result (λ arrivals. zip arrivals.ends.items arrivals.cycles.items
            ≡ map (λ p. (p, None)) ends.items) }
    {
        let cycles = vec![in alloc; None; ends.len()]?;
        Ok(Arrivals { ends, cycles })
    }

    // The cycle in which a packet's tail was out: None for one that was not built to end here.
    pub(crate) fn cycle_of(&self, packet: u32) -> Option<u64>
        ensures { result ≡ noted_arrival packet (zip self.now.ends.items self.now.cycles.items) }
    {
        match self.ends.binary_search(&packet) {
            Ok(index) => self.cycles[index],
            Err(_) => None,
        }
    }

    // Notes that a packet's tail is out. False where the packet was not built to end
    // here or has arrived before.
    pub(crate) fn note(&mut self, packet: u32, cycle: u64) -> bool
        ensures expected { result
            ≡ is_expected_in packet (zip self.old.ends.items self.old.cycles.items) }
        ensures noted { zip self.new.ends.items self.new.cycles.items ≡ (if result
            then arrivals_after packet cycle (zip self.old.ends.items self.old.cycles.items)
            else zip self.old.ends.items self.old.cycles.items) }
    {
        let Ok(index) = self.ends.binary_search(&packet) else {
            return false;
        };
        if self.cycles[index].is_some() {
            return false;
        }
        self.cycles[index] = Some(cycle);
        true
    }
}
