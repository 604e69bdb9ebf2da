//! The commands of the program.

use crate::report::Report;
use crate::verdicts::VerdictSet;

/// The most workers of a run, which noc_net has too.
pub const MAX_WORKERS: usize = 16;

/// What is asked for.
#[derive(Clone, Copy, Debug, PartialEq, Eq)]
pub enum Command {
    /// The latency report of a joined text.
    Joined,
    /// A report of a run by 1 to `MAX_WORKERS` workers. The ranks are checked before it, if there
    /// are any. It may go on until every packet is out, or to the network's limit.
    Run {
        workers: usize,
        report: Report,
        drain: bool,
    },
    /// What a router found in a cycle.
    Explain {
        cycle: u64,
        router: usize,
    },
    /// What the input channels did in each cycle of a span.
    Trace {
        /// The first cycle, or cycle 0.
        from: Option<u64>,
        /// The last cycle, or the last of the configuration.
        to: Option<u64>,
        /// The input channels of this router, or those of all.
        router: Option<usize>,
        /// Those that hold this packet, or all.
        packet: Option<u64>,
        /// The lines with these verdicts, or all.
        verdicts: Option<VerdictSet>,
        /// Only lines that tell something else of the channel than the cycle before did.
        changes: bool,
    },
    /// Whether the ranks rise along the routing relation. A rank file that is
    /// not given counts as empty.
    Check,
    /// The ranks by formula of the routing rule.
    Ranks,
}
