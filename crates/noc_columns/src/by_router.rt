//! Output channels of routers are idle again, out of words of channels.

ghost use Rattle.std.specs.Prelude.{◌≡◌, ◌*◌, ◌<◌, ℕ, bit_or, slice_index};
ghost use Rattle.noc_columns.specs.Marks.{ChangesIdle};
ghost use Rattle.noc_columns.specs.Prelude.{links_of, set_of, word};

use crate::channel_table::ChannelTable;
use crate::marks::Marks;
use crate::walk::step;
use crate::words::{ROUTERS, Words, used_words};

/// The link channels that a router has in these words are idle again. Nothing is left of the words.
pub fn add_links(table: &ChannelTable, words: &mut Words, marks: &mut Marks)
    ensures idle { (r : ℕ) → r < ROUTERS → slice_index marks.new.idle r
        ≡ bit_or (slice_index marks.old.idle r)
        (set_of (links_of table.now.ports.links) r words.old) }
    ensures kept { ChangesIdle marks.old marks.new }
    ensures left { (i : ℕ) → i < table.now.ports.links.width * table.now.ports.links.vcs
        → word i words.new ≡ 0 }
{
    let links = &table.ports.links;
    let mut rest = used_words(links.width * links.vcs, words);
    while rest != 0 {
        let next = step(words, rest);
        let channel = table.channel_at(next.index);
        marks.add_idle(next.router, 1 << channel as u32);
        rest = next.rest;
    }
}
