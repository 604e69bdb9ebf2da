//! Tests of all libraries: what no clause says, and what the built program does not show
//! (docs/DEVELOPING.md). They are a crate of their own, since a crate with tests is proved twice.
#![tactic(auto)]

#[cfg(test)]
mod arbiters;
#[cfg(test)]
mod buffers;
#[cfg(test)]
mod channels;
#[cfg(test)]
mod engines;
#[cfg(test)]
mod events;
#[cfg(test)]
mod faults;
#[cfg(test)]
mod gates;
#[cfg(test)]
mod growth;
#[cfg(test)]
mod inputs;
#[cfg(test)]
mod networks;
#[cfg(test)]
mod packets;
#[cfg(test)]
mod ranks;
#[cfg(test)]
mod read;
#[cfg(test)]
mod relations;
#[cfg(test)]
mod requests;
#[cfg(test)]
mod sinks;
#[cfg(test)]
mod threads;
#[cfg(test)]
mod tray;
#[cfg(test)]
mod workers;
