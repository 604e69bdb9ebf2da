//! The texts of the simulator: configurations and files of rows are read, and reports are written.
//! What it takes of `noc_bytes` it passes on.
#![tactic(auto)]

mod configuration;
mod cycle_lines;
mod findings;
mod inputs;
mod kept;
mod label;
mod labels;
mod latency;
mod listing;
mod page;
mod pages;
mod permitted;
mod ports;
mod ranks;
mod reports;
mod rows;
mod sets;
mod sheet;
mod stalls;
mod summary;
mod table;
mod told;
mod trace;
mod traffic;

pub use configuration::{Config, MAX_CYCLES, RuleName, configuration_is_read_exactly, read_config};
pub use findings::{findings_before_the_first_cycle_are_the_header, write_findings};
pub use latency::write_latency;
pub use noc_bytes::{InputFault, Key, Out, Sink, WriteFault, read_all, split_joined, write_pieces};
pub use ports::{LONGEST_PORT_NAME, port_name};
pub use ranks::{rank_file_is_read_exactly, read_ranks, write_ranks, written_ranks_are_read_back};
pub use reports::write_report;
pub use rows::{plain_rows_are_read_back, rows_are_records};
pub use stalls::{the_counts_of_a_line_add_up, write_stalls};
pub use summary::{the_greatest_is_one_of_them, write_summary};
pub use table::{read_table, table_is_read_exactly, written_table_is_read_back};
pub use trace::{
    Trace, Traced, a_line_is_left_out_where_the_same_is_told, a_trace_adds_up_to_the_stall_report,
    a_trace_tells_what_explain_tells, write_trace,
};
pub use traffic::{read_traffic, traffic_is_read_exactly, written_traffic_is_read_back};
