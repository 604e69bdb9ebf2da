//! Where the channels of a router stand, by channel.

ghost use Rattle.std.specs.Prelude.{◌≡◌, ◌<◌, ◌≤◌, ◌+◌, ◌*◌, ◌/◌, ◌%◌, ℕ, nat_eq, bit_or, slice_index, if◌then◌else◌};
ghost use Rattle.noc_columns.specs.Prelude.{CHANNELS, MembersAreBelow, WORDS, channels_of, set_of};

use crate::ports::{PORTS, RouterPorts};
use crate::sets::{CHANNELS, but_lowest, least};
use crate::words::{ROUTERS, WORDS, Words, put_router};
use noc_packet::MAX_CHANNELS;

/// Of each channel of a router its word, its port and its virtual channel. (It is made once, so
/// that nobody divides.)
#[derive(Drop)]
pub struct ChannelTable {
    /// The ports of the router.
    pub ports: RouterPorts,
    // By channel, the index of its word.
    index: [u8; CHANNELS],
    // By channel, its port.
    port: [u8; CHANNELS],
    // By channel, which virtual channel of the port it is.
    vc: [u8; CHANNELS],
    // By the index of its word, a channel.
    channel: [u8; CHANNELS],
    ghost few: { (ports.links.width + 1) * ports.links.vcs ≤ CHANNELS },
    ghost stands: { (c : ℕ) → c < (ports.links.width + 1) * ports.links.vcs
        → slice_index index c ≡ (channels_of ports).index c },
    ghost within: { (c : ℕ) → c < (ports.links.width + 1) * ports.links.vcs
        → slice_index index c < WORDS },
    ghost by_port: { (c : ℕ) → c < (ports.links.width + 1) * ports.links.vcs
        → slice_index port c ≡ c / ports.links.vcs },
    ghost by_vc: { (c : ℕ) → c < (ports.links.width + 1) * ports.links.vcs
        → slice_index vc c ≡ c % ports.links.vcs },
    ghost by_index: { (c : ℕ) → c < (ports.links.width + 1) * ports.links.vcs
        → slice_index channel ((channels_of ports).index c) ≡ c },
}

impl ChannelTable {
    /// The table of a router with these ports.
    pub fn of(ports: RouterPorts) -> ChannelTable
        requires { (ports.links.width + 1) * ports.links.vcs ≤ CHANNELS }
        ensures { result.ports ≡ ports }
    {
        let size = (ports.links.width + 1) * ports.links.vcs;
        let mut index = [0u8; CHANNELS];
        let mut port = [0u8; CHANNELS];
        let mut vc = [0u8; CHANNELS];
        let mut channel = [0u8; CHANNELS];
        for c in 0..size {
            let stands = ports.index(c);
            index[c] = stands as u8;
            port[c] = (c / ports.links.vcs) as u8;
            vc[c] = (c % ports.links.vcs) as u8;
            channel[stands] = c as u8;
        }
        ChannelTable {
            ports,
            index,
            port,
            vc,
            channel,
        }
    }

    /// Where the word of a channel stands.
    #[inline(always)]
    pub fn index(&self, channel: usize) -> usize
        requires { channel < (self.now.ports.links.width + 1) * self.now.ports.links.vcs }
        ensures is { result ≡ (channels_of self.now.ports).index channel }
        ensures within { result < WORDS }
    {
        usize::from(self.index[channel])
    }

    /// The channel whose word has this index.
    #[inline(always)]
    pub fn channel_at(&self, index: usize) -> usize
        requires { index < (self.now.ports.links.width + 1) * self.now.ports.links.vcs }
        ensures within { result < (self.now.ports.links.width + 1) * self.now.ports.links.vcs }
        ensures is { (channels_of self.now.ports).index result ≡ index }
    {
        usize::from(self.channel[index])
    }

    /// The port of a channel.
    #[inline(always)]
    pub fn port(&self, channel: usize) -> usize
        requires { channel < (self.now.ports.links.width + 1) * self.now.ports.links.vcs }
        ensures is { result ≡ channel / self.now.ports.links.vcs }
        ensures within { result < PORTS }
    {
        usize::from(self.port[channel])
    }

    /// Which virtual channel of its port it is.
    #[inline(always)]
    pub fn vc(&self, channel: usize) -> usize
        requires { channel < (self.now.ports.links.width + 1) * self.now.ports.links.vcs }
        ensures is { result ≡ channel % self.now.ports.links.vcs }
        ensures within { result < MAX_CHANNELS }
    {
        usize::from(self.vc[channel])
    }

    /// Puts a router into the words of these channels.
    pub fn put(&self, router: usize, set: u64, words: &mut Words)
        requires router { router < ROUTERS }
        requires below { MembersAreBelow
            ((self.now.ports.links.width + 1) * self.now.ports.links.vcs) set }
        ensures { (r : ℕ) → set_of (channels_of self.now.ports) r words.new
            ≡ (if nat_eq r router
            then bit_or (set_of (channels_of self.now.ports) r words.old) set
            else set_of (channels_of self.now.ports) r words.old) }
    {
        let mut rest = set;
        while rest != 0 {
            put_router(words, self.index(least(rest)), router);
            rest = but_lowest(rest);
        }
    }
}
