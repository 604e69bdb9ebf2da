//! Why an input was refused.

ghost use Rattle.std.specs.Prelude.{◌≡◌, ◌≤◌, Some, length};
ghost use Rattle.noc_bytes.specs.declared.input_fault.InputFault.TheVariants.{Memory};
ghost use Rattle.noc_bytes.specs.Keys.{key_name};
ghost use Rattle.noc_bytes.specs.Titles.{input_title};

use std::alloc::{AllocError, AllocFailed};
use std::error::Error;
use std::fmt;

/// The most bytes of the title of a fault.
pub const LONGEST_TITLE: usize = 20;

/// A key of a configuration, in the order in which the keys are looked at (docs/FORMATS.md).
#[derive(Clone, Copy, Debug, PartialEq, Eq)]
pub enum Key {
    Kind,
    Radix,
    Channels,
    Buffer,
    Classes,
    Rule,
    Cycles,
}

impl Key {
    /// The text of the key, as it stands in a configuration.
    pub fn name(self) -> &'static str
        ensures { result.now ≡ key_name self }
    {
        match self {
            Key::Kind => "kind",
            Key::Radix => "radix",
            Key::Channels => "channels",
            Key::Buffer => "buffer",
            Key::Classes => "classes",
            Key::Rule => "rule",
            Key::Cycles => "cycles",
        }
    }
}

/// The first fault of an input (docs/FORMATS.md). Rows count from 0 after
/// the header, columns from 0.
#[derive(Clone, Copy, Debug, PartialEq, Eq)]
pub enum InputFault {
    /// The reader failed.
    ReadFailed,
    /// More bytes came than the limit allows.
    TooLong,
    /// A growth was refused.
    Memory,
    /// The text is no TOML document.
    BadToml,
    /// A key that no configuration has.
    UnknownKey,
    /// A key that stands nowhere.
    MissingKey(Key),
    /// The value of a key has another type.
    WrongType(Key),
    /// The value of a key is none of those allowed.
    BadValue(Key),
    /// The first record is not the header, or there is none.
    BadHeader,
    /// A row with another number of fields.
    BadCount { row: usize },
    /// A field that is no number of 1 to 10 digits, at most 4294967295.
    BadNumber { row: usize, column: usize },
    /// A field that names no port of the shape.
    BadPort { row: usize, column: usize },
    /// A joined text without the line of three dashes.
    NoSplit,
}

impl InputFault {
    /// The number and the name of the fault, as its fault line has them; at most `LONGEST_TITLE`
    /// bytes (docs/FORMATS.md, "Fault lines").
    pub fn title(&self) -> &'static str
        ensures title { result.now ≡ input_title self.now }
        ensures short { length result.now ≤ LONGEST_TITLE }
    {
        match self {
            InputFault::ReadFailed => "1 ReadFailed",
            InputFault::TooLong => "2 TooLong",
            InputFault::Memory => "3 Memory",
            InputFault::BadToml => "4 BadToml",
            InputFault::UnknownKey => "5 UnknownKey",
            InputFault::MissingKey(_) => "6 MissingKey",
            InputFault::WrongType(_) => "7 WrongType",
            InputFault::BadValue(_) => "8 BadValue",
            InputFault::BadHeader => "9 BadHeader",
            InputFault::BadCount { .. } => "10 BadCount",
            InputFault::BadNumber { .. } => "11 BadNumber",
            InputFault::BadPort { .. } => "12 BadPort",
            InputFault::NoSplit => "13 NoSplit",
        }
    }
}

impl From<AllocError> for InputFault {
    ghost from_gives = { λ _ e. e ≡ Memory };

    fn from(_e: AllocError) -> InputFault {
        InputFault::Memory
    }
}

impl<T: Drop> From<AllocFailed<T>> for InputFault {
    ghost from_gives = { λ _ e. e ≡ Memory };

    fn from(_e: AllocFailed<T>) -> InputFault {
        InputFault::Memory
    }
}

/// Its title.
impl fmt::Display for InputFault {
    ghost output = { λ fault. Some (input_title fault) };

    fn fmt<W: fmt::Write>(&self, f: &mut fmt::Formatter<W>) -> fmt::Result {
        f.write_str(self.title())
    }
}

impl Error for InputFault {}
