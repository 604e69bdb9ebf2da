//! The reports of a run, with their names. A new report is one more line in each of the four lists.

ghost use Rattle.std.specs.Prelude.{◌≡◌, ◌≢◌, All, IfNone, IfSome};
ghost use Rattle.noc_commands.specs.Reports.{report_names, name_of};

/// The reports of a run.
#[derive(Clone, Copy, Debug, PartialEq, Eq)]
pub enum Report {
    /// Sums over all packets and channels.
    Summary,
    /// When each packet was out.
    Latency,
    /// In how many cycles each input channel had each verdict.
    Stalls,
}

/// The names of the reports.
pub const REPORT_NAMES: [&str; 3] = ["summary", "latency", "stalls"];

/// What the reports tell, a line for each.
pub const REPORT_HELP: &str = "latency  when each packet was out, and how long that took
stalls   how often each input channel had each verdict: what it did, or why it waited
summary  the sums of both over the whole network
";

impl Report {
    /// The report of this name, if there is one.
    pub fn named(name: &str) -> Option<Report>
        ensures some { IfSome result (λ report. name.now ≡ name_of report) }
        ensures none { IfNone result (All (λ other. name.now ≢ other) report_names) }
    {
        match name {
            "summary" => Some(Report::Summary),
            "latency" => Some(Report::Latency),
            "stalls" => Some(Report::Stalls),
            _ => None,
        }
    }
}
