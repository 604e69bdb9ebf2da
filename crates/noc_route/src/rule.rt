//! Routing rules, table rows and what can be wrong with them.

ghost use Rattle.std.specs.Prelude.{◌≡◌};
ghost use Rattle.noc_route.specs.Names.{rule_of, rule_named};
ghost use Rattle.noc_route.specs.Order.{row_numbers, entry_numbers};

use std::alloc::AllocError;

/// A routing rule (Dally and Towles, chapters 8 to 11).
#[derive(Drop)]
pub enum Rule {
    /// Dimension order: the lowest dimension in which router and destination
    /// differ, by the shorter way.
    Dor,
    /// Dimension order on a torus, with the channels of a class in two halves, of which the low one
    /// is taken while the way still crosses the ends of the dimension.
    Dateline,
    /// On a mesh of two dimensions: first down dimension 0, then every port that comes nearer.
    WestFirst,
    /// The lowest channel of each class, on a torus the two lowest, is an escape channel: it is
    /// taken as by dimension order, on a torus the one or the other as by a dateline. The other
    /// channels are taken along every port that comes nearer.
    Adaptive,
    /// The output channels that these rows name.
    Rows(Vec<RouteRow>),
}

/// A routing rule by its name, as configurations have it (docs/FORMATS.md).
#[derive(Clone, Copy, Debug, PartialEq, Eq)]
pub enum RuleName {
    Dor,
    Dateline,
    WestFirst,
    Adaptive,
    /// The rule of a table's rows.
    Table,
}

impl RuleName {
    /// The rule of this name, if there is one.
    pub fn named(name: &str) -> Option<RuleName>
        ensures { result ≡ rule_of name.now }
    {
        match name {
            "dor" => Some(RuleName::Dor),
            "dateline" => Some(RuleName::Dateline),
            "west-first" => Some(RuleName::WestFirst),
            "adaptive" => Some(RuleName::Adaptive),
            "table" => Some(RuleName::Table),
            _ => None,
        }
    }

    /// The rule of this name; None of `Table`, whose rows stand elsewhere.
    pub fn rule(self) -> Option<Rule>
        ensures { result ≡ rule_named self }
    {
        match self {
            RuleName::Dor => Some(Rule::Dor),
            RuleName::Dateline => Some(Rule::Dateline),
            RuleName::WestFirst => Some(Rule::WestFirst),
            RuleName::Adaptive => Some(Rule::Adaptive),
            RuleName::Table => None,
        }
    }
}

/// A row of a routing table: where a packet stands, and by which channel it may go on.
#[derive(Clone, Copy, Debug, PartialEq, Eq)]
pub struct RouteRow {
    /// The class of the packet.
    pub class: usize,
    /// The router at which it stands.
    pub router: usize,
    /// The input port by which it came.
    pub in_port: usize,
    /// The virtual channel on which it came.
    pub in_vc: usize,
    /// The node for which it is bound.
    pub dst: usize,
    /// The output port by which it may go on.
    pub out_port: usize,
    /// The virtual channel of that port.
    pub out_vc: usize,
}

impl RouteRow {
    // The numbers of a row, by which rows are in order.
    pub(crate) fn numbers(&self) -> [usize; 7]
        ensures { result ≡ row_numbers self.now }
    {
        [
            self.class,
            self.router,
            self.in_port,
            self.in_vc,
            self.dst,
            self.out_port,
            self.out_vc,
        ]
    }
}

/// Where a packet can stand for its next channel.
#[derive(Clone, Copy, Debug, PartialEq, Eq)]
pub struct Entry {
    /// The class of the packet.
    pub class: usize,
    /// The router at which it stands.
    pub router: usize,
    /// The input port by which it came.
    pub in_port: usize,
    /// The virtual channel on which it came.
    pub in_vc: usize,
    /// The node for which it is bound.
    pub dst: usize,
}

impl Entry {
    // The numbers of an entry, by which entries are in order.
    pub(crate) fn numbers(&self) -> [usize; 5]
        ensures { result ≡ entry_numbers self.now }
    {
        [self.class, self.router, self.in_port, self.in_vc, self.dst]
    }
}

/// Why a rule makes no relation.
#[derive(Clone, Copy, Debug, PartialEq, Eq)]
pub enum RouteFault {
    /// The numbers of channels or classes are out of their limits, or the
    /// rule does not fit the shape.
    WrongShape,
    /// A row names what does not exist, or a port that has no link.
    NoLink(RouteRow),
    /// A row leads along a link that comes no nearer to the destination.
    NotMinimal(RouteRow),
    /// A row leads out of the network at a router that is not the destination.
    EarlyEject(RouteRow),
    /// A row leads along a link at the destination.
    LateHop(RouteRow),
    /// Packets reach this entry and nothing is permitted there.
    NoWay(Entry),
    /// Memory was refused.
    Memory,
}

impl From<AllocError> for RouteFault {
    ghost use Rattle.std.specs.Prelude.{◌≡◌};
    ghost use Rattle.noc_route.specs.declared.rule.RouteFault.TheVariants.{Memory};

    ghost from_gives = { λ _ e. e ≡ Memory };

    fn from(_e: AllocError) -> RouteFault {
        RouteFault::Memory
    }
}
