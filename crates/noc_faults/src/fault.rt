//! Everything that can be wrong with a request, and the exit status of each fault.

ghost use Rattle.std.specs.Prelude.{◌≡◌, ◌≤◌, Some, length};
ghost use Rattle.noc_faults.specs.Line.{option_title};
ghost use Rattle.noc_faults.specs.Status.{status_of_fault};

use noc_bytes::{InputFault, LONGEST_TITLE, WriteFault};
use noc_net::{NetFault, RunFault};
use noc_rank::RankFault;
use noc_route::RouteFault;
use noc_topo::{Shape, ShapeFault};
use std::error::Error;
use std::fmt;

/// A fault of the options.
#[derive(Clone, Copy, Debug, PartialEq, Eq)]
pub enum OptionFault {
    /// A cycle that is to be explained or traced is not one of the run, or a
    /// span ends before it begins.
    BadCycle,
    /// The router that is to be explained or traced does not exist.
    BadRouter,
    /// There are more workers than routers.
    BadWorkers,
    /// The rule is `table`, and there is no table file.
    NoTable,
    /// There is a table file, and the rule is another one.
    SpareTable,
    /// The packet that is to be traced does not exist.
    BadPacket,
}

impl OptionFault {
    /// The number and the name of the fault, as its fault line has them; at most `LONGEST_TITLE`
    /// bytes (docs/FORMATS.md, "Fault lines").
    pub fn title(&self) -> &'static str
        ensures title { result.now ≡ option_title self.now }
        ensures short { length result.now ≤ LONGEST_TITLE }
    {
        match self {
            OptionFault::BadCycle => "1 BadCycle",
            OptionFault::BadRouter => "2 BadRouter",
            OptionFault::BadWorkers => "3 BadWorkers",
            OptionFault::NoTable => "4 NoTable",
            OptionFault::SpareTable => "5 SpareTable",
            OptionFault::BadPacket => "6 BadPacket",
        }
    }
}

/// Its title.
impl fmt::Display for OptionFault {
    ghost output = { λ fault. Some (option_title fault) };

    fn fmt<W: fmt::Write>(&self, f: &mut fmt::Formatter<W>) -> fmt::Result {
        f.write_str(self.title())
    }
}

impl Error for OptionFault {}

/// The first fault of a request, by family (docs/FORMATS.md, "Fault lines").
#[derive(Clone, Copy, Debug, PartialEq, Eq)]
pub enum Fault {
    Joined(InputFault),
    Config(InputFault),
    Table(InputFault),
    RankFile(InputFault),
    Traffic(InputFault),
    Option(OptionFault),
    Shape(ShapeFault),
    /// With the shape, which names the ports.
    Relation(RouteFault, Shape),
    /// With the shape, which names the ports.
    Rank(RankFault, Shape),
    Network(NetFault),
    /// Only where two or more workers run.
    Run(RunFault),
    Write(WriteFault),
}

/// The exit status of a fault: 3 for texts, options, shapes and networks, 4 for relations and
/// ranks, 6 where memory or a worker was refused, 7 where the report could not be written.
pub fn status_of(fault: &Fault) -> u8
    ensures { result ≡ status_of_fault fault.now }
{
    match fault {
        Fault::Joined(InputFault::Memory)
        | Fault::Config(InputFault::Memory)
        | Fault::Table(InputFault::Memory)
        | Fault::RankFile(InputFault::Memory)
        | Fault::Traffic(InputFault::Memory)
        | Fault::Relation(RouteFault::Memory, _)
        | Fault::Rank(RankFault::Memory, _)
        | Fault::Network(NetFault::Memory)
        | Fault::Run(_) => 6,
        Fault::Joined(_)
        | Fault::Config(_)
        | Fault::Table(_)
        | Fault::RankFile(_)
        | Fault::Traffic(_)
        | Fault::Option(_)
        | Fault::Shape(_)
        | Fault::Network(_) => 3,
        Fault::Relation(_, _) | Fault::Rank(_, _) => 4,
        Fault::Write(_) => 7,
    }
}
