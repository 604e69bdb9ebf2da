//! The summary report (docs/FORMATS.md).

ghost use Rattle.std.specs.Prelude.{◌+◌, ◌*◌, ◌^◌, ◌<◌, ◌≤◌, ◌++◌, [], length, nat_le, slice_index, sum, true, ◌≡◌, ℕ, List, Some, None};
ghost use Rattle.noc_files.specs.Prelude.{flat_map, list_all, nodes, ports, tabulate, Wrote, dash_or};
ghost use Rattle.noc_files.specs.Summary.{AreRaised, AreUpTo, IsGreatest, column_total, entry_value, greatest_of, latencies, port_total, router_total, summary_line, summary_lines, summary_of, summary_text, total_line};

use crate::page::{PAGE, Page};
use crate::ports::has_inputs;
use itoa::Buffer;
use noc_bytes::{Sink, WriteFault, put_all};
use noc_net::Network;
use noc_packet::{INDICES, MAX_CHANNELS};
use noc_view::{VERDICTS, Verdict};

// The most bytes of a name, of a number of 128 bits, and of a line of both.
pub(crate) const LONGEST_NAME: usize = 15;

const WIDE: usize = 40;

const LINE: usize = LONGEST_NAME + WIDE + 2;

// What the summary says of a network.
#[derive(Drop)]
struct Summary {
    cycles: u128,
    packets: u128,
    delivered: u128,
    left: u128,
    latency_sum: u128,
    latency_max: Option<u128>,
    last_event: Option<u128>,
    misfits: u128,
    totals: [u128; VERDICTS],
}

// How many latencies there are, their sum, and the greatest of them.
#[derive(Drop)]
struct LatencyTotals {
    count: usize,
    sum: u128,
    greatest: Option<u64>,
}

// Adds a number, or a dash where there is none.
fn add_number(number: Option<u128>, page: &mut Page)
    requires room { length page.old + WIDE ≤ PAGE }
    ensures added { page.new ≡ page.old ++ dash_or number }
    ensures short { length page.new ≤ length page.old + WIDE }
{
    match number {
        Some(number) => {
            let mut digits = Buffer::new();
            page.add(digits.format(number));
        }
        None => page.add_byte(b'-'),
    }
}

// Adds the line of a name and a number.
fn add_line(name: &str, number: Option<u128>, page: &mut Page)
    requires name { length name.now ≤ LONGEST_NAME }
    requires room { length page.old + LINE ≤ PAGE }
    ensures added { page.new ≡ page.old ++ summary_line (name.now, number) }
    ensures short { length page.new ≤ length page.old + LINE }
{
    page.add(name);
    page.add_byte(b' ');
    add_number(number, page);
    page.add_byte(b'\n');
}

// Adds lines of names and numbers.
fn add_lines(entries: &[(&str, Option<u128>)], page: &mut Page)
    requires names { list_all (λ entry. nat_le (length entry.0.now) LONGEST_NAME) entries.now
        ≡ true }
    requires room { length page.old + LINE * length entries.now ≤ PAGE }
    ensures added { page.new ≡ page.old
        ++ flat_map (λ entry. summary_line (entry_value entry)) entries.now }
    ensures short { length page.new ≤ length page.old + LINE * length entries.now }
{
    for entry in entries {
        add_line(entry.0, entry.1, page);
    }
}

// Adds the lines of the totals.
fn add_totals(totals: &[u128; VERDICTS], page: &mut Page)
    requires { length page.old + LINE * VERDICTS ≤ PAGE }
    ensures { page.new ≡ page.old ++ flat_map (total_line totals.now) Verdict.ALL }
{
    for index in 0..VERDICTS {
        let name = Verdict::ALL[index].column_name();
        add_line(name, Some(totals[index]), page);
    }
}

// Fills a page with a summary.
#[tactic(auto, unfolding(crate::specs::Summary::summary_entries))]
fn fill_summary(s: &Summary, page: &mut Page)
    ensures { page.new ≡ summary_lines s.now }
{
    let entries = [
        ("cycles", Some(s.cycles)),
        ("packets", Some(s.packets)),
        ("delivered", Some(s.delivered)),
        ("left", Some(s.left)),
        ("latency_sum", Some(s.latency_sum)),
        ("latency_max", s.latency_max),
        ("last_event", s.last_event),
        ("misfits", Some(s.misfits)),
    ];
    page.clear();
    add_lines(&entries, page);
    add_totals(&s.totals, page);
}

// Counts the latencies of the packets whose tails are out, and finds their sum
// and the greatest of them.
fn latencies(network: &Network) -> LatencyTotals
    ensures few { result.count ≤ length network.now.net.packets }
    ensures count { result.count ≡ length (latencies network.now) }
    ensures sum { result.sum ≡ sum (latencies network.now) }
    ensures greatest { result.greatest ≡ greatest_of (latencies network.now) }
{
    let mut count = 0usize;
    let mut sum = 0u128;
    let mut greatest: Option<u64> = None;
    for packet in 0..network.packets() {
        if let Some(latency) = network.latency(packet) {
            count += 1;
            sum += u128::from(latency);
            greatest = Some(greatest.unwrap_or(0).max(latency));
        }
    }
    LatencyTotals {
        count,
        sum,
        greatest,
    }
}

/// The greatest latency of a summary is one of the latencies, and none of them is above it; there
/// is none only where there are no latencies.
pub fn the_greatest_is_one_of_them()
    ensures greatest { (ns : List ℕ) (m : ℕ) → greatest_of ns ≡ Some m → IsGreatest ns m }
    ensures none { (ns : List ℕ) → greatest_of ns ≡ None → ns ≡ [] }
{}

// Adds the counts of a channel to totals.
fn add(totals: &mut [u128; VERDICTS], counts: &[u64; VERDICTS])
    requires { AreUpTo (2 ^ 127) totals.old }
    ensures { AreRaised (slice_index counts.now) 1 totals.old totals.new }
{
    for column in 0..VERDICTS {
        totals[column] += u128::from(counts[column]);
    }
}

// Adds the counts of the channels of an input port to totals.
fn add_port(totals: &mut [u128; VERDICTS], network: &Network, router: usize, port: usize)
    requires router { router < nodes network.now.net.relation.grid }
    requires port { port < ports network.now.net.relation.grid }
    requires few { AreUpTo (2 ^ 126) totals.old }
    ensures { AreRaised (port_total network.now router port) MAX_CHANNELS totals.old totals.new }
{
    if !has_inputs(network.relation().shape(), router, port) {
        return;
    }
    for vc in 0..network.relation().vcs() {
        add(totals, &network.counts(router, port, vc));
    }
}

// Adds the counts of the channels of a router to totals.
fn add_router(totals: &mut [u128; VERDICTS], network: &Network, router: usize)
    requires router { router < nodes network.now.net.relation.grid }
    requires few { AreUpTo (2 ^ 125) totals.old }
    ensures { AreRaised (router_total network.now router) INDICES totals.old totals.new }
{
    for port in 0..network.relation().shape().ports() {
        add_port(totals, network, router, port);
    }
}

// The sum of each column of the stall report.
fn totals(network: &Network) -> [u128; VERDICTS]
    ensures { result ≡ tabulate VERDICTS (column_total network.now) }
{
    let mut totals = [0; VERDICTS];
    for router in 0..network.relation().shape().nodes() {
        add_router(&mut totals, network, router);
    }
    totals
}

// The summary of a network.
#[tactic(auto, unfolding(crate::specs::Summary::summary_of))]
fn summary_of(network: &Network) -> Summary
    ensures { result ≡ summary_of network.now }
{
    let packets = network.packets();
    let latencies = latencies(network);
    Summary {
        cycles: u128::from(network.count()),
        packets: packets as u128,
        delivered: latencies.count as u128,
        left: (packets - latencies.count) as u128,
        latency_sum: latencies.sum,
        latency_max: latencies.greatest.map(u128::from),
        last_event: network.last_event().map(u128::from),
        misfits: u128::from(network.misfits()),
        totals: totals(network),
    }
}

/// Writes the summary: eighteen lines of a name and a number, over the packets and the input
/// channels of the network. Latencies are over the packets whose tail is out. It stays a call, so
/// that its callers need no stack for a page.
#[inline(never)]
pub fn write_summary<W: Sink>(network: &Network, sink: &mut W) -> Result<(), WriteFault>
    ensures { Wrote W.contents W.has_failed sink.old sink.new (summary_text network.now) result }
{
    let mut page = Page::new();
    fill_summary(&summary_of(network), &mut page);
    put_all(sink, page.text())
}
