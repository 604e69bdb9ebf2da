//! Calls that take memory, and calls that take none once a network is made. `run_growth.py`
//! refuses their growths one by one, and counts them.

ghost use Rattle.std.specs.Prelude.{◌≡◌, ◌∷◌, [], false};

use crate::networks::{line, line_of_three};
use crate::read::{LINE, are_out};
use crate::threads::line_goes_out;
use noc_net::{Core, Event, Network, RunFault};
use noc_packet::Memory;
use noc_route::Relation;
use noc_router::{Plan, Router};
use noc_tiles::AllOpen;
use std::alloc::Global;

// Makes router 0 of a relation, and a plan. Whether nothing has happened at the router.
fn are_made(alloc: Global, relation: &Relation) -> Result<bool, Memory> {
    if relation.shape().nodes() == 0 {
        return Ok(false);
    }
    let router = Router::new(alloc, relation, 0, 2, Vec::new(alloc), Vec::new(alloc))?;
    let is_new = router.last_event().is_none();
    drop(router);
    let plan = Plan::new(alloc, relation)?;
    drop(plan);
    Ok(is_new)
}

#[test]
fn a_router_and_a_plan_are_made(rt: HostRuntime) -> Result<(), Memory> {
    let Some(line) = line(rt.alloc(), 2) else {
        return Err(Memory);
    };
    let are_made = are_made(rt.alloc(), &line);
    drop(line);
    assert!(rt; are_made?);
    Ok(())
}

// The tests below, and others on this line, may ask for as many growths as this one, and no more.
#[test]
fn a_line_is_made(rt: HostRuntime) -> Result<(), Memory> {
    let Some(line) = line_of_three(rt.alloc()) else {
        return Err(Memory);
    };
    let packets = line.packets();
    drop(line);
    assert!(rt; packets == 2);
    Ok(())
}

// Whether all that is read of the line after 20 cycles is as it should be.
fn is_read(line: &Network) -> bool {
    are_out(line, LINE)
        && !line.pending()
        && !line.stuck()
        && line.all_out()
        && line.misfits() == 0
        && line.last_event() == Some(11)
        && line.limit() > 0
        && line.relation().shape().nodes() > 0
        && line.findings(0).len() == 3
}

// Whether it is so where these cycles are run in two calls.
fn is_read_after_two_calls(alloc: Global) -> bool {
    let Some(mut line) = line_of_three(alloc) else {
        return false;
    };
    line.run(4);
    line.run(16);
    let is_read = is_read(&line);
    drop(line);
    is_read
}

#[test]
fn a_line_runs_twice_and_is_read(rt: HostRuntime) {
    assert!(rt; is_read_after_two_calls(rt.alloc()));
}

// Whether router 0 takes, decides and puts once in a core of the line after 4 cycles.
fn goes_on(core: &mut Core) -> bool
    requires { core.old.net.relation.grid ≡ record { wraps = false; radix = 3 ∷ [] } }
{
    let takes = core.apply(Event::Take(0, 0)).is_ok();
    let decides = core.apply(Event::Decide(0)).is_ok();
    let puts = core.apply(Event::Put(0, 0)).is_ok();
    let puts_again = core.apply(Event::Put(0, 0)).is_ok();
    let found = core.findings(0).len();
    let is_done = takes && decides && puts && !puts_again && found == 3;
    is_done && core.steps(0) == 5 && core.beats(0, 0) == 0
}

// Whether a core is no network, since its routers are at different cycles.
fn is_between(core: Core) -> bool {
    match core.finish() {
        Ok(line) => {
            drop(line);
            false
        }
        Err(core) => {
            drop(core);
            true
        }
    }
}

// Whether both hold of the line.
fn core_is_read(alloc: Global) -> bool {
    let Some(mut line) = line_of_three(alloc) else {
        return false;
    };
    line.run(4);
    let mut core = Core::new(line);
    let goes_on = goes_on(&mut core);
    is_between(core) && goes_on
}

#[test]
fn a_core_of_a_line_is_read(rt: HostRuntime) {
    assert!(rt; core_is_read(rt.alloc()));
}

#[test]
fn a_line_runs_by_one_worker(rt: HostRuntime) -> Result<(), RunFault> {
    assert!(rt; line_goes_out(&rt, 1, &AllOpen)?);
    Ok(())
}

#[test]
fn a_line_runs_by_two_workers(rt: HostRuntime) -> Result<(), RunFault> {
    assert!(rt; line_goes_out(&rt, 2, &AllOpen)?);
    Ok(())
}

#[test]
fn a_line_runs_by_three_workers(rt: HostRuntime) -> Result<(), RunFault> {
    assert!(rt; line_goes_out(&rt, 3, &AllOpen)?);
    Ok(())
}
