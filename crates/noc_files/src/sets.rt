//! Sets of output channels as texts.

ghost use Rattle.std.specs.Prelude.{◌≡◌, ℕ, ◌+◌, ◌*◌, ◌/◌, ◌%◌, ◌<◌, ◌≤◌, ◌++◌, [], ◌∷◌, codes, decimal, false, if◌then◌else◌, length, true};
ghost use Rattle.noc_files.specs.Prelude.{ports, text_of_pieces};
ghost use Rattle.noc_packet.specs.Set.{has_bit};
ghost use Rattle.noc_files.specs.Ports.{name_of_port};
ghost use Rattle.noc_files.specs.Trace.{permitted_text, set_text};
ghost use Rattle.noc_files.specs.Labels.{AreLabels};

use crate::label::LABEL;
use crate::labels::Labels;
use crate::page::{PAGE, Page};
use noc_packet::{ChannelSet, INDICES};
use noc_route::Relation;

// The least member of a set that is no less than an index, of those below a count; the
// count where there is none.
#[inline]
fn next_member(set: ChannelSet, from: usize, count: usize) -> usize
    requires from { from ≤ count }
    requires count { count ≤ INDICES }
    ensures within { (from ≤ result) × (result ≤ count) }
    ensures least { (k : ℕ) → from ≤ k → k < result → has_bit set k ≡ false }
    ensures member { result < count → has_bit set result ≡ true }
{
    if from == count {
        return count;
    }
    match set.least_from(from) {
        Some(index) if index < count => index,
        _ => count,
    }
}

// The most bytes of an output channel with a space before it, and of a set of them.
const MEMBER: usize = LABEL + 1;

pub(crate) const SET: usize = INDICES * MEMBER;

// Adds the output channels of a set, by rising index, with a space between.
fn add_set(relation: &Relation, labels: &Labels, set: ChannelSet, page: &mut Page)
    requires labels { AreLabels relation.now labels.now }
    requires room { length page.old + SET ≤ PAGE }
    ensures added { page.new ≡ page.old ++ set_text relation.now set }
    ensures short { length page.new ≤ length page.old + SET }
{
    let count = relation.shape().ports() * relation.vcs();
    let mut has_some = false;
    let mut index = next_member(set, 0, count);
    while index < count {
        add_member(relation, labels, index, has_some, page);
        has_some = true;
        index = next_member(set, index + 1, count);
    }
}

// Adds an output channel, with a space before it where there are some before.
#[inline]
fn add_member(relation: &Relation, labels: &Labels, index: usize, has_some: bool, page: &mut Page)
    requires labels { AreLabels relation.now labels.now }
    requires index { index < ports relation.now.grid * relation.now.vcs }
    requires few { index < INDICES }
    requires room { length page.old + MEMBER ≤ PAGE }
    ensures added { page.new ≡ page.old
        ++ text_of_pieces ((if has_some then codes " " else [])
        ∷ name_of_port relation.now.grid (index / relation.now.vcs) ∷ codes "."
        ∷ decimal (index % relation.now.vcs) ∷ []) }
    ensures short { length page.new ≤ length page.old + MEMBER }
{
    add_gap(has_some, page);
    page.add_label(&labels.channels[index]);
}

// Adds a space where there are some before.
#[inline]
fn add_gap(has_some: bool, page: &mut Page)
    requires room { length page.old < PAGE }
    ensures added { page.new ≡ page.old ++ (if has_some then codes " " else []) }
    ensures short { length page.new ≤ length page.old + 1 }
{
    if has_some {
        page.add_byte(b' ');
    }
}

// Adds the output channels that were permitted, or a dash, and the end of the line.
#[inline]
pub(crate) fn add_permitted(
    relation: &Relation,
    labels: &Labels,
    set: Option<ChannelSet>,
    page: &mut Page,
)
    requires labels { AreLabels relation.now labels.now }
    requires room { length page.old + SET + 1 ≤ PAGE }
    ensures added { page.new ≡ page.old ++ permitted_text relation.now set }
    ensures short { length page.new ≤ length page.old + SET + 1 }
{
    match set {
        Some(set) => add_set(relation, labels, set, page),
        None => page.add_byte(b'-'),
    }
    page.add_byte(b'\n');
}
