//! Output virtual channels and their credits (Dally and Towles, chapters 13 and 16).

ghost use Rattle.std.specs.Prelude.{◌≡◌, ◌<◌, ◌≤◌, IsTrue, IfSome, IsSomeAnd, IsNone, is_ok, if◌then◌else◌};
ghost use Rattle.noc_vc.specs.Output.{link_output, ejection_output, is_owned, credit_fits, output_after_credit, output_after_hold, output_after_spend, output_after_release, IsOutput};

use crate::misfit::Misfit;
use noc_packet::MAX_BUFFER;
use std::marker::Model;

/// Who has an output channel.
#[derive(Clone, Copy, Debug, PartialEq, Eq)]
pub enum OutputState {
    /// No packet.
    Idle,
    /// A packet: the index of the input channel that it comes from, and its number.
    Owned(usize, u32),
    /// A tail has left by it, and not all credits have come back.
    Draining,
}

/// An output virtual channel of a router: a link channel, which counts its credits, or an ejection
/// channel, which has none.
#[derive(Clone, Copy, Debug)]
pub struct OutputChannel {
    state: OutputState,
    credit: Option<u8>,
    depth: u8,
}

impl Model for OutputChannel {
    ghost use Rattle.noc_vc.specs.Output.{Output, IsOutput};

    ghost Value = { Output };

    ghost view = { λ c. record { holder = c.state; credit = c.credit; depth = c.depth } };

    ghost invariant = { λ c. IsOutput
        (record { holder = c.state; credit = c.credit; depth = c.depth }) };

    ghost inverse = { λ o. record { state = o.holder; credit = o.credit; depth = o.depth } };
}

impl OutputChannel {
    /// An idle link channel with all its credits: as many as the depth of the buffer
    /// at the other end, 1 to 16.
    pub fn link(depth: usize) -> OutputChannel
        requires some { 0 < depth }
        requires depth { depth ≤ MAX_BUFFER }
        ensures { result ≡ link_output depth }
    {
        OutputChannel {
            state: OutputState::Idle,
            credit: Some(depth as u8),
            depth: depth as u8,
        }
    }

    /// An idle ejection channel.
    pub fn ejection() -> OutputChannel
        ensures { result ≡ ejection_output }
    {
        OutputChannel {
            state: OutputState::Idle,
            credit: None,
            depth: 0,
        }
    }

    /// Who has the channel.
    pub fn state(&self) -> OutputState
        ensures value { result ≡ self.now.holder }
        ensures sound { IsOutput self.now }
    {
        self.state
    }

    /// How many credits are left, at most the depth; None for an ejection channel.
    pub fn credit(&self) -> Option<usize>
        ensures value { result ≡ self.now.credit }
        ensures bound { IfSome result (λ count. count ≤ self.now.depth) }
        ensures sound { IsOutput self.now }
    {
        match self.credit {
            Some(count) => Some(count as usize),
            None => None,
        }
    }

    /// A credit comes back, and a draining channel that has them all again is idle. A credit that
    /// is one too many, or that comes to an ejection channel, is a misfit and changes nothing
    /// (Dally and Towles, chapter 13).
    pub fn credit_back(&mut self) -> Result<(), Misfit>
        ensures fits { is_ok result ≡ credit_fits self.old }
        ensures channel { self.new
            ≡ (if is_ok result then output_after_credit self.old else self.old) }
    {
        let Some(count) = self.credit else {
            return Err(Misfit);
        };
        if count >= self.depth {
            return Err(Misfit);
        }
        self.credit = Some(count + 1);
        if self.state == OutputState::Draining && count + 1 == self.depth {
            self.state = OutputState::Idle;
        }
        Ok(())
    }

    /// The idle channel goes to the packet with this number, from the input
    /// channel with this index.
    pub fn hold(&mut self, input: usize, packet: u32)
        requires { self.old.holder ≡ OutputState.Idle }
        ensures { self.new ≡ output_after_hold self.old input packet }
    {
        self.state = OutputState::Owned(input, packet);
    }

    /// A flit leaves by an owned link channel and takes a credit; after the tail
    /// the channel is draining.
    pub fn spend(&mut self, last: bool)
        requires owned { IsTrue (is_owned self.old.holder) }
        requires credit { IsSomeAnd self.old.credit (λ count. 0 < count) }
        ensures { self.new ≡ output_after_spend last self.old }
    {
        if let Some(count) = self.credit {
            self.credit = Some(count - 1);
        }
        if last {
            self.state = OutputState::Draining;
        }
    }

    /// The tail has left by an owned ejection channel, which is idle at once.
    pub fn release(&mut self)
        requires owned { IsTrue (is_owned self.old.holder) }
        requires ejection { IsNone self.old.credit }
        ensures { self.new ≡ output_after_release self.old }
    {
        self.state = OutputState::Idle;
    }
}
