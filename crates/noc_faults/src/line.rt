//! The line that tells a fault.

ghost use Rattle.std.specs.Prelude.{◌≡◌, ◌<◌, ◌≤◌, Some, length};
ghost use Rattle.noc_files.specs.Writing.{Wrote};
ghost use Rattle.noc_faults.specs.Line.{channel_details, descent_details, entry_details, entry_in, fall_details, hop_details, input_details, line_of, name_of, text_of, text_with, value_of};
ghost use Rattle.noc_bytes.specs.Titles.{input_title};

use crate::fault::Fault;
use arrayvec::ArrayString;
use itoa::Buffer;
use noc_files::{InputFault, Key, Sink, WriteFault, port_name, write_pieces};
use noc_net::NetFault;
use noc_rank::{LinkChannel, RankFault};
use noc_route::{Entry, RouteFault, RouteRow};
use noc_topo::Shape;
use std::error::Error;
use std::fmt;

// The most bytes of a family, of a title, and of the name or the value of a detail.
const WORD: usize = 20;

// The most details of a fault.
const DETAILS: usize = 9;

// The most bytes of a line: `fault` and a family, a title, two such words for each detail, and the
// spaces and the end.
const LINE: usize = 2 * WORD * (DETAILS + 1) + 8;

// A detail of a fault: a name and its value. A port comes with the shape that names it.
#[derive(Clone, Copy)]
enum Detail {
    Key(Key),
    Row(usize),
    Column(usize),
    Class(usize),
    Router(usize),
    Port(Shape, usize),
    Vc(usize),
    Dst(usize),
    Out(Shape, usize),
    ToRouter(usize),
    Rank(u32),
    NextRank(u32),
    Written(u64),
}

impl Detail {
    // The name before the value.
    fn name(self) -> &'static str
        ensures name { result.now ≡ name_of self }
        ensures short { length result.now ≤ WORD }
    {
        match self {
            Detail::Key(_) => " key ",
            Detail::Row(_) => " row ",
            Detail::Column(_) => " column ",
            Detail::Class(_) => " class ",
            Detail::Router(_) => " router ",
            Detail::Port(_, _) => " port ",
            Detail::Vc(_) => " vc ",
            Detail::Dst(_) => " dst ",
            Detail::Out(_, _) => " out ",
            Detail::ToRouter(_) => " to router ",
            Detail::Rank(_) => " ranks ",
            Detail::NextRank(_) => " ",
            Detail::Written(_) => " written ",
        }
    }

    // The value as a text.
    fn value(self, buffer: &mut Buffer) -> &str
        ensures value { result.now ≡ value_of self }
        ensures short { length result.now ≤ WORD }
    {
        match self {
            Detail::Key(key) => key.name(),
            // A port that the shape does not have is told by its number.
            Detail::Port(shape, port) | Detail::Out(shape, port) => match port_name(&shape, port) {
                Some(name) => name,
                None => buffer.format(port),
            },
            Detail::Row(number)
            | Detail::Column(number)
            | Detail::Class(number)
            | Detail::Router(number)
            | Detail::Vc(number)
            | Detail::Dst(number)
            | Detail::ToRouter(number) => buffer.format(number),
            Detail::Rank(rank) | Detail::NextRank(rank) => buffer.format(rank),
            Detail::Written(bytes) => buffer.format(bytes),
        }
    }
}

type FaultText = ArrayString<LINE>;

/// Writes the line of a fault: `fault`, its family, its number, its name and its details
/// (docs/FORMATS.md, "Fault lines").
pub fn fault_line<W: Sink>(fault: &Fault, sink: &mut W) -> Result<(), WriteFault>
    ensures { Wrote W.contents W.has_failed sink.old sink.new (line_of fault.now) result }
{
    let mut line = text_of(fault);
    line.push_str("\n");
    write_pieces(&[line.as_str()], sink)
}

/// The line of the fault, without its end.
impl fmt::Display for Fault {
    ghost output = { λ fault. Some (text_of fault) };

    fn fmt<W: fmt::Write>(&self, f: &mut fmt::Formatter<W>) -> fmt::Result {
        f.write_str(text_of(self).as_str())
    }
}

impl Error for Fault {}

// The line of a fault, without its end.
fn text_of(fault: &Fault) -> FaultText
    ensures text { result.bytes ≡ text_of fault.now }
    ensures short { length result.bytes < LINE }
{
    match fault {
        Fault::Joined(fault) => input_text("joined", *fault),
        Fault::Config(fault) => input_text("config", *fault),
        Fault::Table(fault) => input_text("table", *fault),
        Fault::RankFile(fault) => input_text("ranks", *fault),
        Fault::Traffic(fault) => input_text("traffic", *fault),
        Fault::Option(fault) => text_with("option", fault.title(), &[]),
        Fault::Shape(fault) => text_with("shape", fault.title(), &[]),
        Fault::Relation(fault, shape) => relation_text(fault, shape),
        Fault::Rank(fault, shape) => rank_text(fault, shape),
        Fault::Network(fault) => network_text(*fault),
        Fault::Run(fault) => text_with("run", fault.title(), &[]),
        Fault::Write(fault) => write_text(*fault),
    }
}

// `fault`, a family, a number with its name, and details.
fn text_with(family: &str, title: &str, details: &[Detail]) -> FaultText
    requires family { length family.now ≤ WORD }
    requires title { length title.now ≤ WORD }
    requires details { length details.now ≤ DETAILS }
    ensures text { result.bytes ≡ text_with family.now title.now details.now }
    ensures short { length result.bytes < LINE }
{
    let mut text = FaultText::new();
    text.push_str("fault ");
    text.push_str(family);
    text.push_str(" ");
    text.push_str(title);
    for detail in details {
        let mut buffer = Buffer::new();
        text.push_str(detail.name());
        text.push_str(detail.value(&mut buffer));
    }
    text
}

// A fault of a text.
fn input_text(family: &str, fault: InputFault) -> FaultText
    requires { length family.now ≤ WORD }
    ensures text { result.bytes ≡ text_with family.now (input_title fault) (input_details fault) }
    ensures short { length result.bytes < LINE }
{
    let title = fault.title();
    match fault {
        InputFault::MissingKey(key) | InputFault::WrongType(key) | InputFault::BadValue(key) => {
            text_with(family, title, &[Detail::Key(key)])
        }
        InputFault::BadCount { row } => text_with(family, title, &[Detail::Row(row)]),
        InputFault::BadNumber { row, column } | InputFault::BadPort { row, column } => {
            text_with(family, title, &[Detail::Row(row), Detail::Column(column)])
        }
        _ => text_with(family, title, &[]),
    }
}

// A fault of a relation.
fn relation_text(fault: &RouteFault, shape: &Shape) -> FaultText
    ensures text { result.bytes ≡ text_of (Fault.Relation fault.now shape.now) }
    ensures short { length result.bytes < LINE }
{
    let title = fault.title();
    match fault {
        RouteFault::NoLink(row)
        | RouteFault::NotMinimal(row)
        | RouteFault::EarlyEject(row)
        | RouteFault::LateHop(row) => text_with("relation", title, &hop_details(shape, row)),
        RouteFault::NoWay(entry) => text_with("relation", title, &entry_details(shape, entry)),
        RouteFault::WrongShape | RouteFault::Memory => text_with("relation", title, &[]),
    }
}

// An entry of a relation.
fn entry_details(shape: &Shape, entry: &Entry) -> [Detail; 5]
    ensures { result ≡ entry_details shape.now entry.now }
{
    [
        Detail::Class(entry.class),
        Detail::Router(entry.router),
        Detail::Port(*shape, entry.in_port),
        Detail::Vc(entry.in_vc),
        Detail::Dst(entry.dst),
    ]
}

// A row of a table.
fn hop_details(shape: &Shape, row: &RouteRow) -> [Detail; 7]
    ensures { result ≡ hop_details shape.now row.now }
{
    let [class, router, port, vc, dst] = entry_details(shape, &entry_in(row));
    [
        class,
        router,
        port,
        vc,
        dst,
        Detail::Out(*shape, row.out_port),
        Detail::Vc(row.out_vc),
    ]
}

// Where the packet of a row stands.
fn entry_in(row: &RouteRow) -> Entry
    ensures { result ≡ entry_in row.now }
{
    Entry {
        class: row.class,
        router: row.router,
        in_port: row.in_port,
        in_vc: row.in_vc,
        dst: row.dst,
    }
}

// A fault of ranks.
fn rank_text(fault: &RankFault, shape: &Shape) -> FaultText
    ensures text { result.bytes ≡ text_of (Fault.Rank fault.now shape.now) }
    ensures short { length result.bytes < LINE }
{
    let title = fault.title();
    match fault {
        RankFault::NotRising {
            entry,
            out_port,
            out_vc,
            rank,
            next,
        } => {
            let details = fall_details(shape, entry, *out_port, *out_vc, *rank, *next);
            text_with("rank", title, &details)
        }
        RankFault::NotRisingTo {
            from,
            to,
            rank,
            next,
        } => {
            let details = descent_details(shape, from, to, *rank, *next);
            text_with("rank", title, &details)
        }
        RankFault::NoEscape(entry) => text_with("rank", title, &entry_details(shape, entry)),
        RankFault::UnknownChannel { row }
        | RankFault::DoubleChannel { row }
        | RankFault::BadRank { row } => text_with("rank", title, &[Detail::Row(*row)]),
        RankFault::MissingChannel { router, port, vc } => {
            text_with("rank", title, &channel_details(shape, *router, *port, *vc))
        }
        RankFault::NoGenerated | RankFault::Memory => text_with("rank", title, &[]),
    }
}

// A step of a packet, and the ranks before and after it.
fn fall_details(
    shape: &Shape,
    entry: &Entry,
    out_port: usize,
    out_vc: usize,
    rank: u32,
    next: u32,
) -> [Detail; 9]
    ensures { result ≡ fall_details shape.now entry.now out_port out_vc rank next }
{
    let [class, router, port, vc, dst] = entry_details(shape, entry);
    [
        class,
        router,
        port,
        vc,
        dst,
        Detail::Out(*shape, out_port),
        Detail::Vc(out_vc),
        Detail::Rank(rank),
        Detail::NextRank(next),
    ]
}

// A link channel.
fn channel_details(shape: &Shape, router: usize, port: usize, vc: usize) -> [Detail; 3]
    ensures { result ≡ channel_details shape.now router port vc }
{
    [
        Detail::Router(router),
        Detail::Port(*shape, port),
        Detail::Vc(vc),
    ]
}

// Two link channels and their ranks.
fn descent_details(
    shape: &Shape,
    from: &LinkChannel,
    to: &LinkChannel,
    rank: u32,
    next: u32,
) -> [Detail; 8]
    ensures { result ≡ descent_details shape.now from.now to.now rank next }
{
    [
        Detail::Router(from.router),
        Detail::Port(*shape, from.port),
        Detail::Vc(from.vc),
        Detail::ToRouter(to.router),
        Detail::Port(*shape, to.port),
        Detail::Vc(to.vc),
        Detail::Rank(rank),
        Detail::NextRank(next),
    ]
}

// A fault of a network.
fn network_text(fault: NetFault) -> FaultText
    ensures text { result.bytes ≡ text_of (Fault.Network fault) }
    ensures short { length result.bytes < LINE }
{
    let title = fault.title();
    match fault {
        NetFault::SelfPacket { row }
        | NetFault::BadNode { row }
        | NetFault::BadClass { row }
        | NetFault::BadLength { row }
        | NetFault::BadDue { row } => text_with("network", title, &[Detail::Row(row)]),
        NetFault::TooMany | NetFault::Memory => text_with("network", title, &[]),
    }
}

// A fault of writing.
fn write_text(fault: WriteFault) -> FaultText
    ensures text { result.bytes ≡ text_of (Fault.Write fault) }
    ensures short { length result.bytes < LINE }
{
    text_with("write", fault.title(), &[Detail::Written(fault.written)])
}
