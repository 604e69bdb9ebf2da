//! What a block is to one router of it. Nothing here runs.

ghost use Rattle.std.specs.Prelude.{◌≡◌, ◌+◌, ◌<◌, ◌*◌, ℕ, length};
ghost use Rattle.noc_sets.specs.Layout.{Layout};
ghost use Rattle.noc_sets.specs.Opening.{AreEmptyMarks, IsEmptyColumn};
ghost use Rattle.noc_sets.specs.Planes.{plane_number};
ghost use Rattle.noc_columns.specs.Planes.{list_of};
ghost use Rattle.noc_columns.specs.declared.words.TheConstants.{ROUTERS};
ghost use Rattle.noc_cycles.specs.Held.{Held, ShowsHeld};
ghost use Rattle.noc_cycles.specs.Opened.{HoldsNothing, no_links, router_of};
ghost use Rattle.noc_cycles.specs.Taking.{FitsLayout};
ghost use Rattle.noc_cycles.specs.declared.first.First.{First};
ghost use Rattle.noc_cycles.specs.declared.pattern.Pattern.{Pattern};

/// A router that holds nothing shows an empty one, to which nothing comes and whose source is at
/// its first packet.
pub fn routers_that_hold_nothing_are_empty()
    ensures shown { (pattern : Pattern) (one : First) (r : ℕ) (h : Held)
        → HoldsNothing pattern one r h → ShowsHeld pattern h no_links (router_of pattern h) }
    ensures column { (pattern : Pattern) (layout : Layout) (one : First) (places r : ℕ) (h : Held)
        → r < ROUTERS → FitsLayout pattern layout
        → plane_number (list_of pattern.frame.deep pattern.frame.places) r ≡ places
        → HoldsNothing pattern one r h
        → IsEmptyColumn (length (list_of pattern.frame.deep pattern.frame.places))
        ((pattern.table.ports.links.width + 1) * pattern.table.ports.links.vcs) layout.links
        layout.local places (router_of pattern h).column }
    ensures marks { (pattern : Pattern) (one : First) (r : ℕ) (h : Held)
        → HoldsNothing pattern one r h
        → AreEmptyMarks (pattern.table.ports.links.width + 1)
        ((pattern.table.ports.links.width + 1) * pattern.table.ports.links.vcs)
        (router_of pattern h).marks }
    ensures ended { (pattern : Pattern) (one : First) (r : ℕ) (h : Held)
        → HoldsNothing pattern one r h → (router_of pattern h).ended ≡ 0 }
    ensures source { (pattern : Pattern) (one : First) (r : ℕ) (h : Held)
        → HoldsNothing pattern one r h
        → (router_of pattern h).source
        ≡ record { due = one.due; left = 0; queue = one.place } }
{}
