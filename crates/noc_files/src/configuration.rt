//! Configurations (docs/FORMATS.md).

ghost use Rattle.std.specs.Prelude.{◌≡◌, ◌≤◌, string_bytes, option_and_then, IfOk, IfSome};
ghost use Rattle.std.specs.BTreeMap.{keys};
ghost use Rattle.noc_files.specs.Prelude.{list_all, Gives, IsReadAs, result_map};
ghost use Rattle.std.specs.Option.{is_some, ok_or};
ghost use Rattle.toml.specs.Data.{as_integer, get_member};
ghost use Rattle.toml.specs.View.{items_view, table_view, view};
ghost use Rattle.noc_files.specs.Configuration.{config_at, config_of, document_of, is_key, kind_at, lengths_of, integer_in, radix_at, settings, within, string_at, IsConfiguration, IsConfigurationFault, KeepsLimits};
ghost use Rattle.noc_bytes.specs.Keys.{key_name};

use noc_bytes::{InputFault, Key};
use noc_packet::{MAX_BUFFER, MAX_CHANNELS, MAX_CLASSES};
pub use noc_route::RuleName;
use noc_topo::Kind;
use std::alloc::Global;
use toml::{Table, Value};

/// The most cycles of a configuration.
pub const MAX_CYCLES: u64 = 2_000_000;

// The greatest radix that a configuration may name; the shape decides further.
const MAX_RADIX: u64 = 1000;

/// A configuration (docs/FORMATS.md).
#[derive(Drop)]
pub struct Config {
    /// Mesh or torus.
    pub kind: Kind,
    /// The radix of each dimension, 0 to 1000.
    pub radix: Vec<usize>,
    /// The virtual channels of a link, 1 to `MAX_CHANNELS`.
    pub channels: usize,
    /// The flits that a buffer holds, 1 to `MAX_BUFFER`.
    pub buffer: usize,
    /// The message classes, 1 to `MAX_CLASSES`.
    pub classes: usize,
    /// The routing rule.
    pub rule: RuleName,
    /// How many cycles to run, 1 to `MAX_CYCLES`.
    pub cycles: u64,
}

// Whether a text is a key.
fn is_known(key: &str) -> bool
    ensures { result ≡ is_key key.now }
{
    match key {
        "kind" | "radix" | "channels" | "buffer" | "classes" | "rule" | "cycles" => true,
        _ => false,
    }
}

// Whether each key of the table is one of a configuration.
fn has_known_keys(table: &Table) -> bool
    ensures { result ≡ list_all (λ k. is_key (string_bytes k)) (keys table.now) }
{
    table.keys().all(|key| is_known(key.as_str()))
}

// The document that a text is.
fn document(alloc: Global, text: &[u8]) -> Result<Table, InputFault>
    ensures { Gives table_view result (document_of text.now) }
{
    match toml::table_from_slice(alloc, text) {
        Ok(table) => Ok(table),
        Err(fault) => {
            if fault.is_memory() {
                Err(InputFault::Memory)
            } else {
                Err(InputFault::BadToml)
            }
        }
    }
}

// The value at a key.
fn value(table: &Table, key: Key) -> Result<&Value, InputFault>
    ensures { result_map (λ v. view v.now) result
        ≡ ok_or (get_member (key_name key) (table_view table.now)) (InputFault.MissingKey key) }
{
    match table.get(key.name()) {
        Some(value) => Ok(value),
        None => Err(InputFault::MissingKey(key)),
    }
}

// The string at a key.
fn string(table: &Table, key: Key) -> Result<&str, InputFault>
    ensures { result_map (λ s. s.now) result ≡ string_at key (table_view table.now) }
{
    value(table, key)?
        .as_str()
        .ok_or(InputFault::WrongType(key))
}

// The integer, if it lies within these limits.
fn limited(integer: i64, low: u64, high: u64) -> Option<u64>
    ensures value { result ≡ within low high integer }
    ensures limits { IfSome result (λ n. (low ≤ n) × (n ≤ high)) }
{
    match u64::try_from(integer) {
        Ok(value) if low <= value && value <= high => Some(value),
        _ => None,
    }
}

// The integer at a key, which has to lie within these limits.
fn integer(table: &Table, key: Key, low: u64, high: u64) -> Result<u64, InputFault>
    ensures value { result ≡ integer_in key low high (table_view table.now) }
    ensures limits { IfOk result (λ n. (low ≤ n) × (n ≤ high)) }
{
    let integer = value(table, key)?
        .as_integer()
        .ok_or(InputFault::WrongType(key))?;
    limited(integer, low, high).ok_or(InputFault::BadValue(key))
}

#[tactic(auto, unfolding(crate::specs::Configuration::kind_at))]
fn kind_in(table: &Table) -> Result<Kind, InputFault>
    ensures { result ≡ kind_at (table_view table.now) }
{
    match string(table, Key::Kind)? {
        "mesh" => Ok(Kind::Mesh),
        "torus" => Ok(Kind::Torus),
        _ => Err(InputFault::BadValue(Key::Kind)),
    }
}

// Whether each value is an integer.
fn are_integers(values: &[Value]) -> bool
    ensures { result ≡ list_all (λ v. is_some (as_integer (view v))) values.now }
{
    values.iter().all(|value| value.is_integer())
}

// The integer from 0 to 1000 that a value is.
fn length_in(value: &Value) -> Option<u64>
    ensures { result ≡ option_and_then (within 0 MAX_RADIX) (as_integer (view value.now)) }
{
    match value.as_integer() {
        Some(integer) => limited(integer, 0, MAX_RADIX),
        None => None,
    }
}

// The integers from 0 to 1000 of an array.
fn lengths(alloc: Global, values: &[Value]) -> Result<Vec<usize>, InputFault>
    ensures { Gives (λ v. v.items) result
        (ok_or (lengths_of (items_view values.now)) (InputFault.BadValue Key.Radix)) }
{
    let mut lengths = Vec::new(alloc);
    for value in values {
        let Some(length) = length_in(value) else {
            return Err(InputFault::BadValue(Key::Radix));
        };
        lengths.push(length as usize)?;
    }
    Ok(lengths)
}

#[tactic(auto, using(crate::proofs::KeyLemmas::all_integers_values), unfolding(crate::specs::Configuration::radix_at))]
fn radix_in(alloc: Global, table: &Table) -> Result<Vec<usize>, InputFault>
    ensures { Gives (λ v. v.items) result (radix_at (table_view table.now)) }
{
    let value = value(table, Key::Radix)?;
    match value.as_array() {
        Some(values) => {
            if are_integers(values) {
                lengths(alloc, values)
            } else {
                Err(InputFault::WrongType(Key::Radix))
            }
        }
        None => Err(InputFault::WrongType(Key::Radix)),
    }
}

// The configuration of a table that has no other keys.
#[tactic(auto, unfolding(crate::specs::Configuration::config_at, crate::specs::Configuration::rule_setting))]
fn settings_in(alloc: Global, table: &Table) -> Result<Config, InputFault>
    ensures value { Gives settings result (config_at (table_view table.now)) }
    ensures limits { IfOk result KeepsLimits }
{
    let kind = kind_in(table)?;
    let radix = radix_in(alloc, table)?;
    let channels = integer(table, Key::Channels, 1, MAX_CHANNELS as u64)?;
    let buffer = integer(table, Key::Buffer, 1, MAX_BUFFER as u64)?;
    let classes = integer(table, Key::Classes, 1, MAX_CLASSES as u64)?;
    let rule = RuleName::named(string(table, Key::Rule)?).ok_or(InputFault::BadValue(Key::Rule))?;
    let cycles = integer(table, Key::Cycles, 1, MAX_CYCLES)?;
    Ok(Config {
        kind,
        radix,
        channels: channels as usize,
        buffer: buffer as usize,
        classes: classes as usize,
        rule,
        cycles,
    })
}

/// The configuration that a text is, or its first fault: `BadToml`, `UnknownKey`, and then key by
/// key, in the order of `Key`, `MissingKey`, `WrongType` and `BadValue`; `Memory` where a growth
/// was refused (docs/FORMATS.md).
pub fn read_config(alloc: Global, text: &[u8]) -> Result<Config, InputFault>
    ensures value { Gives settings result (config_of text.now) }
    ensures limits { IfOk result KeepsLimits }
{
    let table = document(alloc, text)?;
    if !has_known_keys(&table) {
        return Err(InputFault::UnknownKey);
    }
    settings_in(alloc, &table)
}

/// A text is read as these settings exactly where it is a TOML document in UTF-8 that has just the
/// keys of a configuration, with these settings as their values.
///
/// It is refused with this fault exactly where it is the first one. The text is no TOML document in
/// UTF-8, or it has a key that no configuration has. Or, in the order of the keys, this is the first
/// that is missing, has a value of another type, or has one that it may not have.
pub fn configuration_is_read_exactly()
    ensures { IsReadAs IsConfiguration IsConfigurationFault config_of }
{}
