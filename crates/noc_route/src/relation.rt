//! The routing relation.

ghost use Rattle.std.specs.Prelude.{◌≡◌, ◌<◌, ◌*◌, ◌/◌, ◌%◌, All, MatchResult, IfOk, None};
ghost use Rattle.noc_topo.specs.Shape.{nodes, ports};
ghost use Rattle.noc_route.specs.Built.{routing_of, IsRelationOfRule};
ghost use Rattle.noc_route.specs.Columns.{table_of};
ghost use Rattle.noc_route.specs.Entered.{parts_of, AreAll, sets_in, IsEntered};
ghost use Rattle.noc_route.specs.Gathering.{AreOuts};
ghost use Rattle.noc_route.specs.Relation.{row_fault, table_rows_of, IsFaultOf};
ghost use Rattle.noc_route.specs.Routes.{set_at, IsRelation};
ghost use Rattle.noc_route.specs.Trimming.{routes_in};

use crate::columns::Columns;
use crate::enter::enter;
use crate::entered::Entered;
use crate::fitting::FittingRule;
use crate::gather::{Departures, gather};
use crate::map::Map;
use crate::rule::{RouteFault, Rule};
use crate::sizes::Sizes;
use noc_packet::ChannelSet;
use noc_topo::Shape;
use std::alloc::Global;
use std::marker::Model;

/// A routing relation: the output channels that each entry permits.
#[derive(Drop)]
pub struct Relation {
    columns: Columns,
}

impl Model for Relation {
    ghost use Rattle.noc_route.specs.Routes.{Routes, IsRelation};

    ghost Value = { Routes };

    ghost use Rattle.noc_route.specs.Stored.{routes_of};

    ghost view = { routes_of };

    ghost invariant = { λ r. IsRelation (routes_of r) };
}

impl Relation {
    /// The relation of a rule: the rule at the entries that packets reach. Answers the first fault.
    /// `WrongShape` comes first. Then comes the fault of the first bad row, in the order of class,
    /// router, input port and channel, destination, output port and channel. Last comes `NoWay`,
    /// with the first reached entry that permits nothing, in the order of class, router, input port
    /// and channel, and destination. `Memory` may come in place of either, and where no row is bad
    /// also for the columns, which are made behind the rows.
    pub fn build(
        alloc: Global,
        shape: &Shape,
        vcs: usize,
        classes: usize,
        rule: Rule,
    ) -> Result<Relation, RouteFault>
        ensures exact { let g = routing_of shape.now vcs classes rule in
            MatchResult result (IsRelationOfRule g) (IsFaultOf g) }
        ensures built { IfOk result IsRelation }
    {
        let Some(sizes) = Sizes::of(shape, vcs, classes, &rule) else {
            return Err(RouteFault::WrongShape);
        };
        let map = Map::new(alloc, sizes)?;
        let fitting = FittingRule {
            map: &map,
            rule: &rule,
        };
        Ok(Relation {
            columns: columns_of(alloc, &fitting)?,
        })
    }

    /// The output channels by which a packet of this class, that came to the router by this input
    /// port and channel and is bound for `dst`, may go on.
    pub fn permitted(
        &self,
        class: usize,
        router: usize,
        in_port: usize,
        in_vc: usize,
        dst: usize,
    ) -> ChannelSet
        requires class { class < self.now.classes }
        requires router { router < nodes self.now.grid }
        requires in_port { in_port < ports self.now.grid }
        requires in_vc { in_vc < self.now.vcs }
        requires dst { dst < nodes self.now.grid }
        ensures value { result ≡ set_at self.now class router in_port in_vc dst }
        ensures built { IsRelation self.now }
    {
        let input = self.columns.sizes.index(in_port, in_vc);
        self.permitted_from(class, router, input, dst)
    }

    /// The same for a packet that came by the input channel with this index, which is
    /// `in_port * vcs + in_vc`.
    pub fn permitted_from(
        &self,
        class: usize,
        router: usize,
        input: usize,
        dst: usize,
    ) -> ChannelSet
        requires class { class < self.now.classes }
        requires router { router < nodes self.now.grid }
        requires input { input < ports self.now.grid * self.now.vcs }
        requires dst { dst < nodes self.now.grid }
        ensures value { result ≡ set_at self.now class router (input / self.now.vcs)
            (input % self.now.vcs) dst }
        ensures built { IsRelation self.now }
    {
        let column = self.columns.sizes.column(class, router, input);
        self.columns.set(column, dst)
    }

    /// The shape of the network.
    pub fn shape(&self) -> &Shape
        ensures value { result.now ≡ self.now.grid }
        ensures built { IsRelation self.now }
    {
        &self.columns.sizes.shape
    }

    /// How many virtual channels a link has, 1 to 8.
    pub fn vcs(&self) -> usize
        ensures value { result ≡ self.now.vcs }
        ensures built { IsRelation self.now }
    {
        self.columns.sizes.vcs
    }

    /// How many message classes there are, 1 to 4.
    pub fn classes(&self) -> usize
        ensures value { result ≡ self.now.classes }
        ensures built { IsRelation self.now }
    {
        self.columns.sizes.classes
    }
}

// The columns of a rule's sets at the entries that packets reach, or the first fault.
fn columns_of(alloc: Global, fitting: &FittingRule) -> Result<Columns, RouteFault>
    ensures sizes { IfOk result (λ c. c.sizes ≡ fitting.now.map.now.sizes) }
    ensures exact { let f = fitting.now.map.now.sizes in
        MatchResult result (λ c. IsRelationOfRule (parts_of fitting.now) (routes_in f
        (table_of f c.sets c.starts.items))) (IsFaultOf (parts_of fitting.now)) }
{
    let mut outs = vec![in alloc; ChannelSet::empty(); fitting.map.sizes.pages()]?;
    let entered = enter(alloc, fitting)?;
    reached_columns(alloc, fitting, &entered, &mut outs)
}

// The same by the rule's sets at all entries, where no row is bad. `outs` gets the channels by
// which packets leave each router.
fn reached_columns(
    alloc: Global,
    fitting: &FittingRule,
    entered: &Entered,
    outs: &mut [ChannelSet],
) -> Result<Columns, RouteFault>
    requires rows { let g = parts_of fitting.now in
        All (λ row. row_fault g.grid g.vcs g.classes row ≡ None) (table_rows_of g.rule) }
    requires all { AreAll fitting.now.map.now.sizes entered.now }
    requires entered { let f = fitting.now.map.now.sizes in
        IsEntered (parts_of fitting.now) (routes_in f (sets_in f entered.now)) }
    requires outs { let f = fitting.now.map.now.sizes in
        AreOuts (routes_in f (sets_in f entered.now)) outs.old }
    ensures sizes { IfOk result (λ c. c.sizes ≡ fitting.now.map.now.sizes) }
    ensures exact { let f = fitting.now.map.now.sizes in
        MatchResult result (λ c. IsRelationOfRule (parts_of fitting.now) (routes_in f
        (table_of f c.sets c.starts.items))) (IsFaultOf (parts_of fitting.now)) }
{
    gather(fitting.map, entered, outs);
    let leaving = Departures {
        map: fitting.map,
        outs,
    };
    let (columns, stuck) = Columns::new(alloc, &leaving, entered)?;
    match stuck {
        Some(entry) => Err(RouteFault::NoWay(entry)),
        None => Ok(columns),
    }
}
