//! A fault of a relation as a text, and as an error of the standard library.

ghost use Rattle.std.specs.Prelude.{◌≡◌, ◌≤◌, Some, length};
ghost use Rattle.noc_route.specs.Titles.{route_title};

use crate::rule::RouteFault;
use std::error::Error;
use std::fmt;

impl RouteFault {
    /// The number and the name of the fault, as its fault line has them; at most 20 bytes
    /// (docs/FORMATS.md, "Fault lines").
    pub fn title(&self) -> &'static str
        ensures title { result.now ≡ route_title self.now }
        ensures short { length result.now ≤ 20 }
    {
        match self {
            RouteFault::WrongShape => "1 WrongShape",
            RouteFault::NoLink(_) => "2 NoLink",
            RouteFault::NotMinimal(_) => "3 NotMinimal",
            RouteFault::EarlyEject(_) => "4 EarlyEject",
            RouteFault::LateHop(_) => "5 LateHop",
            RouteFault::NoWay(_) => "6 NoWay",
            RouteFault::Memory => "7 Memory",
        }
    }
}

/// Its title.
impl fmt::Display for RouteFault {
    ghost output = { λ fault. Some (route_title fault) };

    fn fmt<W: fmt::Write>(&self, f: &mut fmt::Formatter<W>) -> fmt::Result {
        f.write_str(self.title())
    }
}

impl Error for RouteFault {}
