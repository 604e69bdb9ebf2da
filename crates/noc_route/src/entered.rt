//! A rule's sets at all entries, those that no packet reaches included.

ghost use Rattle.std.specs.Prelude.{◌≡◌, ◌<◌};
ghost use Rattle.noc_route.specs.Routes.{width, pages};
ghost use Rattle.noc_route.specs.Entered.{AreAll, sets_in};
ghost use Rattle.noc_route.specs.Trimming.{routes_in, page_set};

use crate::sizes::Sizes;
use noc_packet::ChannelSet;

// A rule's sets of output channels: by coordinates one for each page, whatever the input channel,
// and by a table one for each entry.
#[derive(Drop)]
pub(crate) enum Entered {
    OfPages(Vec<ChannelSet>),
    OfEntries(Vec<ChannelSet>),
}

impl Entered {
    // The set at an input channel of a page.
    pub(crate) fn set(&self, sizes: &Sizes, page: usize, input: usize) -> ChannelSet
        requires all { AreAll sizes.now self.now }
        requires page { page < pages sizes.now.shape sizes.now.classes }
        requires input { input < width sizes.now.shape sizes.now.vcs }
        ensures { result ≡ page_set (routes_in sizes.now (sets_in sizes.now self.now)) page input }
    {
        match self {
            Entered::OfPages(sets) => sets[page],
            Entered::OfEntries(sets) => sets[sizes.slot(page, input)],
        }
    }
}
