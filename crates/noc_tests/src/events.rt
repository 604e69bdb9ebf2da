//! Worked networks: parts taken and put together again, and events one by one.

ghost use Rattle.std.specs.Prelude.{◌≡◌, ◌∷◌, [], IfSome, false};

use crate::networks::{line_of_three, line_of_two};
use crate::read::{LINE, are_out};
use noc_net::{Core, Event, Network};
use std::alloc::Global;

// The line of three routers after four cycles, in which one packet waits for the other.
fn waiting(alloc: Global) -> Option<Network>
    ensures { IfSome result (λ n. n.count ≡ 4) }
{
    let Some(mut line) = line_of_three(alloc) else {
        return None;
    };
    line.run(4);
    Some(line)
}

// Whether the network of the parts of this line goes on as the line does.
fn goes_on_from_parts(alloc: Global) -> bool {
    let Some(line) = waiting(alloc) else {
        return false;
    };
    let mut line = Network::from_parts(line.into_parts());
    line.run(16);
    let are_out = are_out(&line, LINE);
    drop(line);
    are_out
}

#[test]
fn parts_make_the_network_again(rt: HostRuntime) {
    assert!(rt; goes_on_from_parts(rt.alloc()));
}

// All routers of a line of three take, decide and put, from the last to the first.
fn backwards(core: &mut Core) {
    for router in [2, 1, 0] {
        for port in 0..2 {
            let _ = core.apply(Event::Take(router, port));
        }
    }
    for router in [2, 1, 0] {
        let _ = core.apply(Event::Decide(router));
    }
    for router in [2, 1, 0] {
        for port in 0..2 {
            let _ = core.apply(Event::Put(router, port));
        }
    }
}

// Whether a core is a network of so many cycles, whose packets are out in these ones.
fn is_network(core: Core, count: u64, cycles: &[Option<u64>]) -> bool {
    match core.finish() {
        Ok(line) => {
            let is_as_wanted = line.count() == count && are_out(&line, cycles);
            drop(line);
            is_as_wanted
        }
        Err(core) => {
            drop(core);
            false
        }
    }
}

// Whether this line goes on as it does where its routers take turns the other way round.
fn goes_on_backwards(alloc: Global) -> bool {
    let Some(line) = waiting(alloc) else {
        return false;
    };
    let mut core = Core::new(line);
    for _ in 0..16 {
        backwards(&mut core);
    }
    is_network(core, 20, LINE)
}

#[test]
fn cycles_from_the_last_router_to_the_first(rt: HostRuntime) {
    assert!(rt; goes_on_backwards(rt.alloc()));
}

// Whether each event is ready or not, as it should be.
fn agree(core: &mut Core, answers: &[(Event, bool)]) -> bool
    ensures { core.new.net ≡ core.old.net }
{
    for (event, ready) in answers {
        if core.apply(*event).is_ok() != *ready {
            return false;
        }
    }
    true
}

// Whether two routers in a line have made so many steps, and there are so many beats on the wires
// between them, towards the second and back.
fn is_at(core: &Core, steps: [u64; 2], beats: [usize; 2]) -> bool
    requires { core.now.net.relation.grid ≡ record { wraps = false; radix = 2 ∷ [] } }
{
    core.steps(0) == steps[0]
        && core.steps(1) == steps[1]
        && core.beats(1, 1) == beats[0]
        && core.beats(0, 0) == beats[1]
}

// Events up to the first put of router 0, and whether each is ready.
const FIRST: &[(Event, bool)] = &[
    (Event::Take(0, 0), true),
    (Event::Take(0, 0), false),
    (Event::Decide(1), false),
    (Event::Decide(0), true),
    (Event::Put(0, 0), true),
    (Event::Put(0, 0), false),
    (Event::Take(0, 0), false),
    (Event::Take(0, 2), false),
    (Event::Take(5, 0), false),
];

// Events up to the first put of router 1.
const SECOND: &[(Event, bool)] = &[
    (Event::Take(1, 1), true),
    (Event::Decide(1), true),
    (Event::Put(1, 1), true),
    (Event::Take(0, 2), false),
    (Event::Take(5, 0), false),
];

// Whether a router of a line of two waits for its neighbour, and then the two are in step.
fn waits(core: Core) -> bool
    requires { core.net.relation.grid ≡ record { wraps = false; radix = 2 ∷ [] } }
{
    let mut core = core;
    let is_ahead = agree(&mut core, FIRST) && is_at(&core, [1, 0], [2, 0]);
    let mut core = match core.finish() {
        Err(core) => core,
        Ok(line) => {
            drop(line);
            return false;
        }
    };
    let is_level = agree(&mut core, SECOND) && is_at(&core, [1, 1], [1, 1]);
    let is_network = is_network(core, 1, &[]);
    is_ahead && is_level && is_network
}

#[test]
fn a_router_waits_for_its_neighbour(rt: HostRuntime) {
    let waits = match line_of_two(rt.alloc()) {
        Some(line) => waits(Core::new(line)),
        None => false,
    };
    assert!(rt; waits);
}

// The first events of router 0.
const DECIDED: &[(Event, bool)] = &[(Event::Take(0, 0), true), (Event::Decide(0), true)];

// Whether router 0 of a line of two has no findings before it decides, and three after it.
fn finds_what_is_decided(alloc: Global) -> bool {
    let Some(line) = line_of_two(alloc) else {
        return false;
    };
    let mut core = Core::new(line);
    let before = core.findings(0).len();
    let are_ready = agree(&mut core, DECIDED);
    let after = core.findings(0).len();
    drop(core);
    are_ready && before == 0 && after == 3
}

#[test]
fn nothing_is_found_before_a_decide(rt: HostRuntime) {
    assert!(rt; finds_what_is_decided(rt.alloc()));
}
