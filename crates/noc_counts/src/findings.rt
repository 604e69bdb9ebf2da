//! What is found of the channels of a block in the last cycle.

ghost use Rattle.std.specs.Prelude.{◌≡◌, ◌+◌, ◌*◌, ◌/◌, ◌%◌, ◌^◌, ◌<◌, ℕ, option_map, if◌then◌else◌};
ghost use Rattle.noc_view.specs.VerdictSets.{verdict_by};
ghost use Rattle.noc_sets.specs.Counts.{verdict_sets};
ghost use Rattle.noc_sets.specs.Grants.{asked_of};
ghost use Rattle.noc_columns.specs.Supply.{digits_by, number_in};
ghost use Rattle.noc_columns.specs.Prelude.{channels_of, has_bit, set_of, word};
ghost use Rattle.noc_cycles.specs.Held.{held_at};
ghost use Rattle.noc_counts.specs.Counts.{numbers_of};
ghost use Rattle.noc_counts.specs.Findings.{finding_of, out_by, outs_of, packet_by};
ghost use Rattle.noc_counts.specs.Told.{told_at};

use crate::nine::Nine;
use crate::verdicts::words_at;
use noc_columns::{NUMBERS, ROUTERS, RouterPorts, Sends, WORDS, Words, alone_if, bit, least};
use noc_cycles::{Block, Pattern, Work};
use noc_view::{Finding, Verdict};

/// What is found of a channel of a router in the last cycle, where these output channels of the
/// router were granted then.
pub fn find(
    pattern: &Pattern,
    block: &Block,
    work: &Work,
    outs: u64,
    router: usize,
    channel: usize,
) -> Finding
    requires router { router < ROUTERS }
    requires channel { channel < (pattern.now.table.ports.links.width + 1)
        * pattern.now.table.ports.links.vcs }
    ensures { result ≡ finding_of pattern.now.table.ports.links.vcs
        (told_at (channels_of pattern.now.table.ports) block.now work.now router) outs
        (held_at pattern.now.table.ports block.now router) channel }
{
    let index = pattern.table.index(channel);
    let verdict = verdict_at(&words_at(block, work, index), router);
    let asked = asked_of(outs, block.marks.sets[router][channel]);
    let asked = place_of(pattern.table.ports.links.vcs, asked);
    let owned = number_of(&block.grants.sends, index, router);
    Finding {
        verdict,
        packet: packet_by(verdict, block.packets[router][channel]),
        out: out_by(verdict, asked, owned),
    }
}

/// The output channels of a router that were granted in the last cycle.
pub fn granted_outs(pattern: &Pattern, block: &Block, router: usize) -> u64
    requires { router < ROUTERS }
    ensures { result ≡ outs_of
        ((pattern.now.table.ports.links.width + 1) * pattern.now.table.ports.links.vcs)
        pattern.now.table.ports.links.vcs
        (set_of (channels_of pattern.now.table.ports) router block.now.grants.granted)
        (held_at pattern.now.table.ports block.now router) }
{
    let ports = &pattern.table.ports;
    let mut outs = 0;
    for channel in 0..(ports.links.width + 1) * ports.links.vcs {
        let index = pattern.table.index(channel);
        let is_granted = has(block.grants.granted[index], router);
        let number = number_of(&block.grants.sends, index, router);
        outs = outs | out_if(is_granted, ports, number);
    }
    outs
}

// The output channel with a number alone, or none.
fn out_if(test: bool, ports: &RouterPorts, number: (usize, usize)) -> u64
    requires port { number.0 < NUMBERS }
    requires vc { number.1 < NUMBERS }
    ensures { result
        ≡ (if test then 2 ^ (number.0 * ports.now.links.vcs + number.1) else 0) }
{
    alone_if(test, number.0 * ports.links.vcs + number.1)
}

// The packet of a channel with this verdict.
fn packet_by(verdict: Verdict, packet: u32) -> Option<u32>
    ensures { result ≡ packet_by verdict packet }
{
    match verdict {
        Verdict::Empty => None,
        _ => Some(packet),
    }
}

// Its output channel: the one that it asks for or owns.
fn out_by(
    verdict: Verdict,
    asked: Option<(usize, usize)>,
    owned: (usize, usize),
) -> Option<(usize, usize)>
    ensures { result ≡ out_by verdict asked owned }
{
    match verdict {
        Verdict::Empty | Verdict::Routed => None,
        Verdict::Granted | Verdict::NoIdleChannel | Verdict::LostChannel => asked,
        Verdict::Moved
        | Verdict::NoFlit
        | Verdict::NoCredit
        | Verdict::LostInput
        | Verdict::LostSwitch => Some(owned),
    }
}

// The output channel that is asked for by a channel that may take these.
fn asked_of(idle: u64, set: u64) -> Option<usize>
    ensures { result ≡ asked_of idle set }
{
    let free = set & idle;
    if free == 0 { None } else { Some(least(free)) }
}

// The port and the virtual channel of a channel.
fn place_of(vcs: usize, out: Option<usize>) -> Option<(usize, usize)>
    requires { 0 < vcs }
    ensures { result ≡ option_map (λ o. (o / vcs, o % vcs)) out }
{
    out.map(|o| (o / vcs, o % vcs))
}

// Those of the output channel by which one channel of a router sends.
fn number_of(sends: &Sends<Words>, index: usize, router: usize) -> (usize, usize)
    requires index { index < WORDS }
    requires router { router < ROUTERS }
    ensures port { result.0 ≡ number_in (digits_by (word index) sends.now.port) router }
    ensures vc { result.1 ≡ number_in (digits_by (word index) sends.now.vc) router }
    ensures few_ports { result.0 < NUMBERS }
    ensures few_vcs { result.1 < NUMBERS }
{
    let port = sends.port.at(index);
    let vc = sends.vc.at(index);
    (port.number(router), vc.number(router))
}

// Whether a router is in a word.
#[inline(always)]
fn has(word: u64, router: usize) -> bool
    requires { router < ROUTERS }
    ensures { result ≡ has_bit word router }
{
    bit(word, router) == 1
}

// The verdict of a channel in a router, by the words of that channel.
fn verdict_at(words: &Nine, router: usize) -> Verdict
    requires { router < ROUTERS }
    ensures { result ≡ verdict_by (verdict_sets (numbers_of words.now)) router }
{
    if has(words.moved, router) {
        Verdict::Moved
    } else if has(words.granted, router) {
        Verdict::Granted
    } else if has(words.routed, router) {
        Verdict::Routed
    } else if has(words.no_flit, router) {
        Verdict::NoFlit
    } else if has(words.no_idle_channel, router) {
        Verdict::NoIdleChannel
    } else if has(words.lost_channel, router) {
        Verdict::LostChannel
    } else if has(words.no_credit, router) {
        Verdict::NoCredit
    } else if has(words.lost_input, router) {
        Verdict::LostInput
    } else if has(words.lost_switch, router) {
        Verdict::LostSwitch
    } else {
        Verdict::Empty
    }
}
