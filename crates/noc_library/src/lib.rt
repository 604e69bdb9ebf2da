//! noc as a library: what a program over the simulator uses, under one name.
//!
//! The items keep the contracts that they have in their own crates. `specs/Lib.antt` passes on the
//! definitions of which these contracts speak.
#![tactic(auto)]

// Shapes and packets.
pub use noc_packet::{
    ChannelSet, MAX_BUFFER, MAX_CHANNELS, MAX_CLASSES, MAX_DUE, MAX_LENGTH, MAX_PACKETS, Memory,
    Packet,
};
pub use noc_topo::{Kind, MAX_DIMENSIONS, MAX_NODES, MAX_RADIX, Shape, ShapeFault};

// Relations and ranks.
pub use noc_rank::{Accepted, LinkChannel, RankFault, RankRow, Ranks, check};
pub use noc_route::{Entry, Relation, RouteFault, RouteRow, Rule, RuleName};

// Networks, by columns and by tiles of routers.
pub use noc_net::{
    CYCLE_LIMIT, Core, Event, MAX_LIMIT, MAX_WORKERS, NetFault, Network, NotReady, NotRun, RunFault,
};
pub use noc_tiles::{AllOpen, Gate, Stop, run_tiles};
pub use noc_view::{Finding, VERDICTS, Verdict};

// Files.
pub use noc_commands::{Report, VerdictSet};
pub use noc_files::{
    Config, InputFault, Key, MAX_CYCLES, Out, Sink, Trace, Traced, WriteFault, port_name, read_all,
    read_config, read_ranks, read_table, read_traffic, split_joined, write_findings, write_latency,
    write_ranks, write_report, write_stalls, write_summary, write_trace,
};
