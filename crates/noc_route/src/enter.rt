//! How a rule's sets are found, before entries that no packet reaches are taken out.

ghost use Rattle.std.specs.Prelude.{◌≡◌, ℕ, None, ◌/◌, ◌%◌, ◌<◌, ◌&&◌, IfOk, IfErr, length, slice_index, nat_lt, All, true};
ghost use Rattle.noc_packet.specs.Set.{has_bit};
ghost use Rattle.noc_route.specs.Entered.{parts_of, has_row_at, AreAll, sets_in, IsEntered};
ghost use Rattle.noc_route.specs.Relation.{is_real_row, is_led, row_fault, table_rows_of, IsFaultOf};
ghost use Rattle.noc_route.specs.Routes.{width, pages, page_class, page_router, page_dst};
ghost use Rattle.noc_route.specs.Gathering.{IsBlank};
ghost use Rattle.noc_route.specs.Trimming.{routes_in, page_set};

use crate::entered::Entered;
use crate::fitting::FittingRule;
use crate::map::Map;
use crate::named::named_set;
use crate::rows::first_fault;
use crate::rule::{RouteFault, RouteRow, Rule};
use noc_packet::ChannelSet;
use std::alloc::Global;

// A rule's sets. Answers the fault of the first bad row, or `Memory`.
pub(crate) fn enter(alloc: Global, fitting: &FittingRule) -> Result<Entered, RouteFault>
    ensures err { IfErr result (IsFaultOf (parts_of fitting.now)) }
    ensures rows { IfOk result (λ _. let g = parts_of fitting.now in
        All (λ row. row_fault g.grid g.vcs g.classes row ≡ None) (table_rows_of g.rule)) }
    ensures all { IfOk result (AreAll fitting.now.map.now.sizes) }
    ensures entered { IfOk result (λ e. let f = fitting.now.map.now.sizes in
        IsEntered (parts_of fitting.now) (routes_in f (sets_in f e))) }
{
    let sizes = &fitting.map.sizes;
    let Rule::Rows(rows) = fitting.rule else {
        let mut sets = vec![in alloc; ChannelSet::empty(); sizes.pages()]?;
        enter_named(fitting, &mut sets);
        return Ok(Entered::OfPages(sets));
    };
    let mut sets = vec![in alloc; ChannelSet::empty(); sizes.pages() * sizes.width()]?;
    if let Some(fault) = first_fault(fitting.map, rows) {
        return Err(fault);
    }
    enter_rows(fitting.map, rows, &mut sets);
    Ok(Entered::OfEntries(sets))
}

// Writes the sets of a rule by coordinates, one for each page.
fn enter_named(fitting: &FittingRule, sets: &mut [ChannelSet])
    requires { let f = fitting.now.map.now.sizes in length sets.old ≡ pages f.shape f.classes }
    ensures { let f = fitting.now.map.now.sizes in (b k : ℕ) → b < pages f.shape f.classes
        → has_bit (slice_index sets.new b) k ≡ (nat_lt k (width f.shape f.vcs)
        && is_led (parts_of fitting.now) (page_class f.shape f.classes b)
        (page_router f.shape f.classes b) (page_dst f.shape b) (k / f.vcs) (k % f.vcs)) }
{
    for page in 0..sets.len() {
        let (class, router, dst) = fitting.map.sizes.page_parts(page);
        sets[page] = named_set(fitting, class, router, dst);
    }
}

// Writes the sets of a table's rows, each of which names what exists, over sets without members.
fn enter_rows(map: &Map, rows: &[RouteRow], sets: &mut [ChannelSet])
    requires blank { IsBlank map.now.sizes sets.old }
    requires rows { All (λ row. is_real_row map.now.sizes.shape map.now.sizes.vcs
        map.now.sizes.classes row ≡ true) rows.now }
    ensures { let f = map.now.sizes in (b i k : ℕ) → b < pages f.shape f.classes
        → i < width f.shape f.vcs → has_bit (page_set (routes_in f sets.new) b i) k
        ≡ (nat_lt k (width f.shape f.vcs) && has_row_at (routes_in f sets.new) rows.now b i k) }
{
    for row in rows {
        let page = map.sizes.page(row.class, row.router, row.dst);
        let input = map.sizes.index(row.in_port, row.in_vc);
        let slot = map.sizes.slot(page, input);
        sets[slot] = sets[slot].with(map.sizes.index(row.out_port, row.out_vc));
    }
}
