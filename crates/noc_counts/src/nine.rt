//! A word for each verdict but Empty.

ghost use Rattle.std.specs.Prelude.{◌≡◌, sum};
ghost use Rattle.noc_sets.specs.Counts.{nine_counts};
ghost use Rattle.noc_counts.specs.Counts.{AreSmall, numbers_of};

// A word, or a number, for each verdict but Empty.
#[derive(Drop)]
pub(crate) struct Nine {
    // For Routed.
    pub(crate) routed: u64,
    // For Granted.
    pub(crate) granted: u64,
    // For Moved.
    pub(crate) moved: u64,
    // For NoFlit.
    pub(crate) no_flit: u64,
    // For NoIdleChannel.
    pub(crate) no_idle_channel: u64,
    // For LostChannel.
    pub(crate) lost_channel: u64,
    // For NoCredit.
    pub(crate) no_credit: u64,
    // For LostInput.
    pub(crate) lost_input: u64,
    // For LostSwitch.
    pub(crate) lost_switch: u64,
}

impl Nine {
    // The nine, in the order of the stall report.
    #[inline(always)]
    pub(crate) fn list(&self) -> [u64; 9]
        ensures { result ≡ nine_counts (numbers_of self.now) }
    {
        [
            self.routed,
            self.granted,
            self.moved,
            self.no_flit,
            self.no_idle_channel,
            self.lost_channel,
            self.no_credit,
            self.lost_input,
            self.lost_switch,
        ]
    }

    // Their sum, where they are counts.
    pub(crate) fn sum(&self) -> u64
        requires { AreSmall (numbers_of self.now) }
        ensures { result ≡ sum (nine_counts (numbers_of self.now)) }
    {
        let waited = self.no_flit + self.no_idle_channel + self.no_credit;
        let lost = self.lost_channel + self.lost_input + self.lost_switch;
        self.routed + self.granted + self.moved + waited + lost
    }
}
