//! Lists of sets of channels, of which few are different.

ghost use Rattle.std.specs.Prelude.{◌≡◌, ◌<◌, ◌≤◌, IfOk, IfSome, length, slice_index};
ghost use Rattle.noc_route.specs.Listed.{AreNumbered};

use noc_packet::ChannelSet;
use std::alloc::{AllocError, Global};
use std::marker::Model;

// How many kinds of sets have a number.
const KINDS: usize = 256;

// Sets of channels, one after the other. (Where there are at most 256 kinds of them, each is kept
// as a byte. The table of a network is looked up at random, so it has to fit into the caches of the
// processor.)
#[derive(Drop)]
pub(crate) struct SetList {
    // The kinds, or where there are no numbers all sets.
    sets: Vec<ChannelSet>,
    // By place, the number of the kind.
    numbers: Vec<u8>,
}

impl Model for SetList {
    ghost use Rattle.std.specs.Prelude.{ℕ, List};
    ghost use Rattle.noc_route.specs.Listed.{AreNumbers, listed};

    ghost Value = { List ℕ };

    ghost view = { λ l. listed l.sets.items l.numbers.items };

    ghost invariant = { λ l. AreNumbers l.sets.items l.numbers.items };
}

impl SetList {
    // These sets as a list.
    pub(crate) fn of(alloc: Global, sets: Vec<ChannelSet>) -> Result<SetList, AllocError>
        ensures { IfOk result (λ list. list ≡ sets.items) }
    {
        let mut numbers = vec![in alloc; 0u8; sets.len()]?;
        let mut kinds = [ChannelSet::empty(); KINDS];
        match number_all(&sets, &mut kinds, &mut numbers) {
            Some(count) => list_of(sets, numbers, &kinds, count),
            None => Ok(SetList {
                sets,
                numbers: Vec::new(alloc),
            }),
        }
    }

    // The set at a place.
    pub(crate) fn at(&self, place: usize) -> ChannelSet
        requires { place < length self.now }
        ensures { result ≡ slice_index self.now place }
    {
        if self.numbers.is_empty() {
            self.sets[place]
        } else {
            self.sets[self.numbers[place] as usize]
        }
    }
}

// The list of sets that have these numbers, where there are so many kinds. (The kinds take the
// place of the sets: a large list that is given back would change where others come to lie.)
fn list_of(
    mut sets: Vec<ChannelSet>,
    numbers: Vec<u8>,
    kinds: &[ChannelSet; KINDS],
    count: usize,
) -> Result<SetList, AllocError>
    requires numbered { AreNumbered sets.items kinds.now numbers.items (length sets.items) count }
    requires long { length numbers.items ≡ length sets.items }
    requires few { count ≤ KINDS }
    ensures { IfOk result (λ list. list ≡ sets.items) }
{
    sets.clear();
    sets.extend_from_slice(&kinds[..count])?;
    sets.shrink_to_fit();
    Ok(SetList { sets, numbers })
}

// Numbers the kinds of these sets, and answers how many there are: None where they are too many.
fn number_all(
    sets: &[ChannelSet],
    kinds: &mut [ChannelSet; KINDS],
    numbers: &mut [u8],
) -> Option<usize>
    requires { length numbers.old ≡ length sets.now }
    ensures few { IfSome result (λ count. count ≤ KINDS) }
    ensures numbered { IfSome result
        (AreNumbered sets.now kinds.new numbers.new (length sets.now)) }
{
    let mut count = 0;
    for place in 0..sets.len() {
        let set = sets[place];
        let number = number_of(set, kinds, count);
        if number == KINDS {
            return None;
        }
        kinds[number] = set;
        numbers[place] = number as u8;
        count = count.max(number + 1);
    }
    Some(count)
}

// The number of a set's kind among so many: one more than the last where it is new.
fn number_of(set: ChannelSet, kinds: &[ChannelSet; KINDS], count: usize) -> usize
    requires { count ≤ KINDS }
    ensures within { result ≤ count }
    ensures same { result < count → slice_index kinds.now result ≡ set }
{
    for number in 0..count {
        if kinds[number] == set {
            return number;
        }
    }
    count
}
