//! The ten verdicts, with their names.

ghost use Rattle.std.specs.Prelude.{◌≡◌};
ghost use Rattle.noc_view.specs.Names.{column_name, verdict_name};

/// How many verdicts there are.
pub const VERDICTS: usize = 10;

/// What an input channel does in one cycle, or the first condition that fails for it, in the order
/// of the stall report (docs/MODEL.md, "Verdicts"; Dally and Towles, chapter 16).
#[derive(Clone, Copy, Debug, PartialEq, Eq)]
pub enum Verdict {
    /// It holds no packet and no flit.
    Empty,
    /// Its head gets the set of output channels that the relation permits.
    Routed,
    /// Its packet gets the output channel that it asks for.
    Granted,
    /// Its first flit leaves.
    Moved,
    /// Its packet owns an output channel, and the next flit is not there yet.
    NoFlit,
    /// No output channel of its set is idle.
    NoIdleChannel,
    /// The output channel that it asks for goes to another input channel.
    LostChannel,
    /// Its output channel has no credit.
    NoCredit,
    /// Another channel of its input port was picked.
    LostInput,
    /// Another input port won the output port.
    LostSwitch,
}

impl Verdict {
    /// All of them, in the order of the stall report.
    pub const ALL: [Verdict; VERDICTS] = [
        Verdict::Empty,
        Verdict::Routed,
        Verdict::Granted,
        Verdict::Moved,
        Verdict::NoFlit,
        Verdict::NoIdleChannel,
        Verdict::LostChannel,
        Verdict::NoCredit,
        Verdict::LostInput,
        Verdict::LostSwitch,
    ];

    /// The name of a verdict, as findings and traces write it.
    pub fn name(self) -> &'static str
        ensures { result.now ≡ verdict_name self }
    {
        match self {
            Verdict::Empty => "Empty",
            Verdict::Routed => "Routed",
            Verdict::Granted => "Granted",
            Verdict::Moved => "Moved",
            Verdict::NoFlit => "NoFlit",
            Verdict::NoIdleChannel => "NoIdleChannel",
            Verdict::LostChannel => "LostChannel",
            Verdict::NoCredit => "NoCredit",
            Verdict::LostInput => "LostInput",
            Verdict::LostSwitch => "LostSwitch",
        }
    }

    /// The name of its column in the stall report, and of its total in the summary.
    pub fn column_name(self) -> &'static str
        ensures { result.now ≡ column_name self }
    {
        match self {
            Verdict::Empty => "empty",
            Verdict::Routed => "routed",
            Verdict::Granted => "granted",
            Verdict::Moved => "moved",
            Verdict::NoFlit => "no_flit",
            Verdict::NoIdleChannel => "no_idle_channel",
            Verdict::LostChannel => "lost_channel",
            Verdict::NoCredit => "no_credit",
            Verdict::LostInput => "lost_input",
            Verdict::LostSwitch => "lost_switch",
        }
    }
}
