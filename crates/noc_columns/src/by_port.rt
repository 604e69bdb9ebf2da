//! The words of one virtual channel of all ports of a router.

ghost use Rattle.std.specs.Prelude.{◌≡◌, ◌≢◌, ◌⊎◌, ◌<◌, ◌≤◌, ◌+◌, ◌*◌, ℕ, slice_index};
ghost use Rattle.noc_columns.specs.Prelude.{channels_of, output_of, port_at, port_of, word};

use crate::ports::{PORTS, Ports, RouterPorts};
use crate::words::{WORDS, Words};

impl RouterPorts {
    /// The same ports, of which it is told how many are link ports, and how many virtual channels
    /// each has. (Where these are constants, loops over them are unrolled.)
    #[inline(always)]
    pub fn known(&self, width: usize, vcs: usize) -> RouterPorts
        requires width { width ≡ self.now.links.width }
        requires vcs { vcs ≡ self.now.links.vcs }
        ensures { result ≡ self.now }
    {
        RouterPorts {
            links: Ports {
                first: self.links.first,
                width,
                vcs,
            },
            local: Ports {
                first: self.local.first,
                width: 1,
                vcs,
            },
        }
    }

    /// The output ports of the switch, with a word for each input port that may ask for them.
    #[inline(always)]
    pub fn outputs(&self) -> RouterPorts
        ensures width { result.links.width ≡ self.now.links.width }
        ensures inputs { result.links.vcs ≡ self.now.links.width + 1 }
        ensures words { (q p : ℕ) → (port_of result q).index p ≡ (output_of self.now q).index p }
    {
        let width = self.links.width;
        let vcs = width + 1;
        RouterPorts {
            links: Ports {
                first: 0,
                width,
                vcs,
            },
            local: Ports {
                first: vcs * width,
                width: 1,
                vcs,
            },
        }
    }

    /// Where the word of a channel stands.
    #[inline(always)]
    pub fn index(&self, channel: usize) -> usize
        requires some { 0 < self.now.links.vcs }
        requires channel { channel < (self.now.links.width + 1) * self.now.links.vcs }
        ensures is { result ≡ (channels_of self.now).index channel }
        ensures within { result < WORDS }
    {
        let port = channel / self.links.vcs;
        let vc = channel % self.links.vcs;
        if port < self.links.width {
            self.links.first + vc * self.links.width + port
        } else {
            self.local.first + vc
        }
    }

    /// The words of a virtual channel of each port.
    #[inline(always)]
    pub fn at(&self, v: usize, words: &Words) -> [u64; PORTS]
        requires { v < self.now.links.vcs }
        ensures { (p : ℕ) → p < self.now.links.width + 1
            → slice_index result p ≡ word ((port_of self.now p).index v) words.now }
    {
        let mut by_port = [0; PORTS];
        read_side(&self.links, v, words, &mut by_port);
        by_port[self.links.width] = words[self.local.first + v];
        by_port
    }

    /// Writes the words of a virtual channel of each port.
    #[inline(always)]
    pub fn put(&self, v: usize, by_port: &[u64; PORTS], words: &mut Words)
        requires { v < self.now.links.vcs }
        ensures here { (p : ℕ) → p < self.now.links.width + 1
            → word ((port_of self.now p).index v) words.new ≡ slice_index by_port.now p }
        ensures others { (p c : ℕ) → p < self.now.links.width + 1 → c < self.now.links.vcs → c ≢ v
            → word ((port_of self.now p).index c) words.new
            ≡ word ((port_of self.now p).index c) words.old }
    {
        write_side(&self.links, v, by_port, words);
        words[self.local.first + v] = by_port[self.links.width];
    }
}

// The words of a virtual channel of ports that stand side by side.
#[inline(always)]
fn read_side(ports: &Ports, v: usize, words: &Words, by_port: &mut [u64; PORTS])
    requires { v < ports.now.vcs }
    ensures { (j : ℕ) → j < ports.now.width
        → slice_index by_port.new j ≡ word ((port_at ports.now j).index v) words.now }
{
    let at = ports.first + v * ports.width;
    for j in 0..ports.width {
        by_port[j] = words[at + j];
    }
}

// Writes the words of a virtual channel of ports that stand side by side.
#[inline(always)]
pub(crate) fn write_side(ports: &Ports, v: usize, by_port: &[u64; PORTS], words: &mut Words)
    requires { v < ports.now.vcs }
    ensures here { (j : ℕ) → j < ports.now.width
        → word ((port_at ports.now j).index v) words.new ≡ slice_index by_port.now j }
    ensures others { (k : ℕ)
        → (k < ports.now.first + v * ports.now.width)
        ⊎ (ports.now.first + v * ports.now.width + ports.now.width ≤ k)
        → word k words.new ≡ word k words.old }
{
    let at = ports.first + v * ports.width;
    for j in 0..ports.width {
        words[at + j] = by_port[j];
    }
}
