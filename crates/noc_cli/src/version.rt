//! The version of the program, which stands here alone.

/// The number of the program.
pub const VERSION: &str = "1.0.0";

/// The number of the formats of files, reports and lines (docs/FORMATS.md).
pub const FORMATS: &str = "1";

/// The kit with which the program is proved.
pub const KIT: &str = "rattle-kit-13f";
