//! Waiting channels of the routers of a block are granted output channels.

ghost use Rattle.std.specs.Prelude.{◌≡◌, ◌^◌, ℕ, List, slice_index};
ghost use Rattle.noc_columns.specs.Allotted.{HasAllottedAll, HasAllottedOne, MayAllot, MayAllotAll};

use crate::asks::ask_all;
use crate::channel_table::ChannelTable;
use crate::given::Grants;
use crate::grants::{grant, grant_all};
use crate::marks::Marks;
use crate::planes::less;
use crate::sets::{but_lowest, least, lowest};
use crate::words::Words;

/// In the routers in which an idle output channel is wanted the waiting channels ask, and each
/// output channel that is asked for is granted. It is told who is granted one, and who asks for one
/// and is not. (What calls this is not to grow by it.)
#[inline(never)]
pub fn allocate(table: &ChannelTable, marks: &mut Marks, grants: &mut Grants, lost: &mut Words)
    requires { MayAllotAll table.now.ports marks.old grants.old }
    ensures { HasAllottedAll table.now.ports marks.old marks.new grants.old grants.new lost.old
        lost.new }
{
    let mut rest = marks.asking;
    while rest != 0 {
        allocate_router(table, least(rest), marks, grants, lost);
        rest = but_lowest(rest);
    }
}

// Allocates the output channels of one router in which one channel alone waits. It is granted what
// it asks for, so no request is written or read, and nobody loses.
#[inline(always)]
fn allocate_alone(table: &ChannelTable, router: usize, marks: &mut Marks, grants: &mut Grants)
    requires may { MayAllot table.now.ports router marks.old grants.old }
    requires alone { (k : ℕ) × (slice_index marks.old.waiting router ≡ 2 ^ k) }
    ensures { (lost : List ℕ) → HasAllottedOne table.now.ports router marks.old marks.new grants.old
        grants.new lost lost }
{
    let waiting = marks.waiting[router];
    let idle = marks.idle[router];
    let set = marks.sets[router][least(waiting)];
    let free = set & idle;
    if free == 0 {
        marks.put(router, waiting, set, idle);
    } else {
        marks.put(router, 0, set, less(idle, lowest(free)));
        grant(
            table,
            router,
            least(free),
            waiting,
            &mut marks.turns[router],
            grants,
        );
    }
}

// Allocates the output channels of one router. (Where no channel finds an idle output channel, no
// grants are looked for.)
fn allocate_router(
    table: &ChannelTable,
    router: usize,
    marks: &mut Marks,
    grants: &mut Grants,
    lost: &mut Words,
)
    requires { MayAllot table.now.ports router marks.old grants.old }
    ensures { HasAllottedOne table.now.ports router marks.old marks.new grants.old grants.new
        lost.old lost.new }
{
    let waiting = marks.waiting[router];
    if but_lowest(waiting) == 0 {
        allocate_alone(table, router, marks, grants);
        return;
    }
    let idle = marks.idle[router];
    let asks = ask_all(waiting, idle, &marks.sets[router], &mut marks.requests);
    if asks.outs == 0 {
        marks.put(router, waiting, asks.wanted, idle);
    } else {
        let granted = grant_all(
            table,
            router,
            asks.outs,
            &mut marks.requests,
            &mut marks.turns[router],
            grants,
        );
        table.put(router, less(asks.inputs, granted), lost);
        marks.put(
            router,
            less(waiting, granted),
            asks.wanted,
            less(idle, asks.outs),
        );
    }
}
