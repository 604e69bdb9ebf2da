//! A fault of a shape as a text, and as an error of the standard library.

ghost use Rattle.std.specs.Prelude.{◌≡◌, ◌≤◌, Some, length};
ghost use Rattle.noc_topo.specs.Titles.{shape_title};

use crate::shape::ShapeFault;
use std::error::Error;
use std::fmt;

impl ShapeFault {
    /// The number and the name of the fault, as its fault line has them; at most 20 bytes
    /// (docs/FORMATS.md, "Fault lines").
    pub fn title(&self) -> &'static str
        ensures title { result.now ≡ shape_title self.now }
        ensures short { length result.now ≤ 20 }
    {
        match self {
            ShapeFault::BadDimensions => "1 BadDimensions",
            ShapeFault::BadRadix => "2 BadRadix",
            ShapeFault::TooManyNodes => "3 TooManyNodes",
        }
    }
}

/// Its title.
impl fmt::Display for ShapeFault {
    ghost output = { λ fault. Some (shape_title fault) };

    fn fmt<W: fmt::Write>(&self, f: &mut fmt::Formatter<W>) -> fmt::Result {
        f.write_str(self.title())
    }
}

impl Error for ShapeFault {}
