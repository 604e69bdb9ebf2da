//! What a configuration asks for: its options, its shape, and its routing relation.

ghost use Rattle.std.specs.Prelude.{◌≡◌, None, IfErr, IfOk, is_some, option_map};
ghost use Rattle.noc_requests.specs.Prelude.{config_of, settings, KeepsLimits, Gives, table_of, Refuses, lent_files, lent_text, read_by};
ghost use Rattle.noc_requests.specs.Options.{cycle_fault, early_fault, last_cycle, late_fault, packet_option_fault, router_fault, table_fault};
ghost use Rattle.noc_requests.specs.Settings.{AsksForRelation, AsksForShape, IsRuleOf, RefusesTable, SettingsFault};

use crate::request::{Bytes, Files};
use noc_commands::Command;
use noc_faults::{Fault, OptionFault};
use noc_files::{Config, InputFault, RuleName, read_config, read_table};
use noc_route::{Relation, RouteRow, Rule};
use noc_topo::Shape;
use std::alloc::Global;

// A configuration whose options are sound, with its shape.
#[derive(Drop)]
struct Layout {
    config: Config,
    shape: Shape,
}

/// The configuration and the routing relation that are asked for, or the first fault: configuration,
/// options, shape, table, relation.
pub fn relation_of(alloc: Global, files: &Files<'_>) -> Result<(Config, Relation), Fault>
    ensures limits { IfOk result (λ r. KeepsLimits r.0) }
    ensures relation { IfOk result (λ r. AsksForRelation (lent_files files.now)
        (settings r.0) r.1) }
    ensures fault { IfErr result (Refuses (SettingsFault (lent_files files.now))) }
{
    let Layout { config, shape } = layout_of(alloc, files)?;
    let rule = rule_of(alloc, config.rule, files.table, &shape)?;
    let built = Relation::build(alloc, &shape, config.channels, config.classes, rule);
    let relation = built.map_err(|fault| Fault::Relation(fault, shape))?;
    Ok((config, relation))
}

// The configuration and its shape, around which the options are looked at.
fn layout_of(alloc: Global, files: &Files<'_>) -> Result<Layout, Fault>
    ensures limits { IfOk result (λ r. KeepsLimits r.config) }
    ensures shape { IfOk result (λ r. AsksForShape (lent_files files.now)
        (settings r.config) r.shape) }
    ensures fault { IfErr result (Refuses (SettingsFault (lent_files files.now))) }
{
    let config = config_in(alloc, files.config).map_err(Fault::Config)?;
    if let Some(fault) = early_fault(files.command, files.table.is_some(), &config) {
        return Err(Fault::Option(fault));
    }
    let shape = Shape::new(config.kind, config.radix.as_slice()).map_err(Fault::Shape)?;
    match late_fault(files.command, &shape) {
        Some(fault) => Err(Fault::Option(fault)),
        None => Ok(Layout { config, shape }),
    }
}

// The configuration that a text says.
fn config_in(alloc: Global, text: Bytes<'_>) -> Result<Config, InputFault>
    ensures value { Gives settings result (read_by config_of (lent_text text.entry)) }
    ensures limits { IfOk result KeepsLimits }
{
    read_config(alloc, text?)
}

// The first fault of the options that is looked for before the shape. It is of a table file beside
// another rule, or none beside the rule `table`; then a cycle or a span that is not of the run.
fn early_fault(command: Command, has_table: bool, config: &Config) -> Option<OptionFault>
    ensures { result ≡ early_fault command has_table (settings config.now) }
{
    match (config.rule, has_table) {
        (RuleName::Table, false) => Some(OptionFault::NoTable),
        (RuleName::Table, true) | (_, false) => cycle_fault(command, config.cycles),
        (_, true) => Some(OptionFault::SpareTable),
    }
}

// The fault of a cycle to be explained, or of a span to be traced, that is not one of the run.
fn cycle_fault(command: Command, cycles: u64) -> Option<OptionFault>
    ensures { result ≡ cycle_fault command cycles }
{
    match command {
        Command::Explain { cycle, .. } if cycles <= cycle => Some(OptionFault::BadCycle),
        Command::Trace { from, to, .. } => {
            let (first, last) = (from.unwrap_or(0), last_cycle(to, cycles));
            if cycles <= first || cycles <= last || last < first {
                Some(OptionFault::BadCycle)
            } else {
                None
            }
        }
        _ => None,
    }
}

/// The last cycle of a trace, of a run of so many.
pub fn last_cycle(to: Option<u64>, cycles: u64) -> u64
    ensures { result ≡ last_cycle to cycles }
{
    to.unwrap_or(cycles.saturating_sub(1))
}

// The fault of more workers than routers, or of a router to be explained or
// traced that does not exist.
fn late_fault(command: Command, shape: &Shape) -> Option<OptionFault>
    ensures { result ≡ late_fault command shape.now }
{
    match command {
        Command::Run { workers, .. } if shape.nodes() < workers => Some(OptionFault::BadWorkers),
        Command::Explain { router, .. } => router_fault(shape, Some(router)),
        Command::Trace { router, .. } => router_fault(shape, router),
        _ => None,
    }
}

// The fault of a router that does not exist.
fn router_fault(shape: &Shape, router: Option<usize>) -> Option<OptionFault>
    ensures { result ≡ router_fault shape.now router }
{
    match router {
        Some(router) if shape.nodes() <= router => Some(OptionFault::BadRouter),
        _ => None,
    }
}

/// The fault of a packet to be traced that is not among so many.
pub fn packet_fault(command: Command, packets: usize) -> Option<OptionFault>
    ensures { result ≡ packet_option_fault command packets }
{
    match command {
        Command::Trace {
            packet: Some(packet),
            ..
        } if packets as u64 <= packet => Some(OptionFault::BadPacket),
        _ => None,
    }
}

// The routing rule of this name, whose rows are those of the table file where it is `table`.
fn rule_of(
    alloc: Global,
    name: RuleName,
    table: Option<Bytes<'_>>,
    shape: &Shape,
) -> Result<Rule, Fault>
    requires { table_fault name (is_some table) ≡ None }
    ensures rule { IfOk result (IsRuleOf (option_map lent_text table.entry) shape.now name) }
    ensures fault { IfErr result (Refuses
        (RefusesTable (option_map lent_text table.entry) shape.now name)) }
{
    match (name.rule(), table) {
        (Some(rule), _) => Ok(rule),
        (None, Some(text)) => route_rows_in(alloc, shape, text)
            .map(Rule::Rows)
            .map_err(Fault::Table),
        (None, None) => unreachable!(),
    }
}

// The rows that a table file says.
fn route_rows_in(alloc: Global, shape: &Shape, text: Bytes<'_>) -> Result<Vec<RouteRow>, InputFault>
    ensures { Gives (λ v. v.items) result (read_by (table_of shape.now) (lent_text text.entry)) }
{
    read_table(alloc, shape, text?)
}
