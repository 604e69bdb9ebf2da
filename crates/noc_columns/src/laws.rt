//! What the picks of all ports of a router are. Nothing here runs.

ghost use Rattle.std.specs.Prelude.{◌≡◌, ◌≢◌, ◌<◌, ◌≤◌, ◌+◌, ◌*◌, ◌/◌, ◌%◌, ◌^◌, ◌&&◌, ◌||◌, ℕ, Bool, true, false, List, not, nat_eq, bit_and, bit_or, if◌then◌else◌, ◌⊎◌, nat_le, nat_lt};
ghost use Rattle.noc_topo.specs.Shape.{Grid, IsGrid, local_port, neighbour, nodes, opposite};
ghost use Rattle.noc_sets.specs.Column.{Column, RouterMarks};
ghost use Rattle.noc_sets.specs.Gather.{is_over};
ghost use Rattle.noc_sets.specs.Grants.{HasAllocated};
ghost use Rattle.noc_sets.specs.Moves.{HasSwitched, chosen_by, dry_by};
ghost use Rattle.noc_sets.specs.Passes.{Effects};
ghost use Rattle.noc_sets.specs.Routed.{HasChosen, HasRouted};
ghost use Rattle.noc_sets.specs.Turns.{ArePast, ArePicked, first_bit};
ghost use Rattle.noc_columns.specs.Allotted.{Allotment, HasAllotted, ShowsOwned, allotted_after, allotted_before, allotted_marks, routed_after};
ghost use Rattle.noc_columns.specs.Near.{ArePlaces, ArePlacesOf, Places, comes_by, comes_from};
ghost use Rattle.noc_sets.specs.Source.{Source, Start, begun_source, sent_source};
ghost use Rattle.noc_columns.specs.Arrivals.{given_back, leaves_from};
ghost use Rattle.noc_columns.specs.Places.{AreFar, IsNear, far_places, places_by, way_by};
ghost use Rattle.noc_columns.specs.Picks.{HavePicked, IsPassedBy};
ghost use Rattle.noc_columns.specs.Sources.{begun_if, sent_if};
ghost use Rattle.noc_columns.specs.Supply.{digits_by, number_in};
ghost use Rattle.noc_columns.specs.Wants.{asks_of};
ghost use Rattle.noc_columns.specs.Switch.{HasTraversed, PortPicks, ShowsOutputs, ShowsPicks, ShowsSends, leaves_by, picks_in, switched_effects, switched_marks};
ghost use Rattle.noc_columns.specs.declared.neighbours.Far.{Far};
ghost use Rattle.noc_columns.specs.declared.neighbours.Near.{Near};
ghost use Rattle.noc_columns.specs.declared.picks.Picks.{Picks};
ghost use Rattle.noc_columns.specs.declared.supply.Sends.{Sends};
ghost use Rattle.noc_columns.specs.Prelude.{AreApart, MembersAreBelow, Numbering, channels_of, has_bit, less, lowest, port_of, rest_from, set_of, word};
ghost use Rattle.noc_columns.specs.declared.ports.RouterPorts.{RouterPorts};

use crate::sets::CHANNELS;
use crate::words::ROUTERS;

/// Where of each port the first channel in turn is picked, these are the picks of the router.
pub fn ports_pick_what_a_router_picks()
    ensures { (ports : RouterPorts) (r : ℕ) (ready ahead picked : List ℕ)
        → 0 < ports.links.vcs → ports.links.vcs ≤ CHANNELS
        → ((p : ℕ) → p < ports.links.width + 1
        → set_of (port_of ports p) r picked
        ≡ first_bit (set_of (port_of ports p) r ready)
        (set_of (port_of ports p) r ahead))
        → ArePicked ports.links.vcs (ports.links.width + 1) (set_of (channels_of ports) r ready)
        (set_of (channels_of ports) r ahead) (set_of (channels_of ports) r picked) }
{}

/// Where the pointers of the ports that send go past their picks, these are those of the router.
pub fn ports_pass_what_a_router_passes()
    ensures { (ports : RouterPorts) (r : ℕ) (ready ahead picked past sends : List ℕ)
        (sending : ℕ → Bool) → 0 < ports.links.vcs
        → (ports.links.width + 1) * ports.links.vcs ≤ CHANNELS
        → ((p : ℕ) → p < ports.links.width + 1
        → IsPassedBy (port_of ports p) r ready ahead picked past sends (sending p))
        → (let all = channels_of ports in
        ArePast ports.links.vcs (ports.links.width + 1) (set_of all r ahead)
        (bit_and (set_of all r picked) (set_of all r sends))
        (bit_or (less (set_of all r ahead) (set_of all r sends))
        (bit_and (set_of all r past) (set_of all r sends)))) }
{}

/// What the ports pick is the set of the picked channels of the router, where its marks show by
/// which output channels these send.
pub fn picked_channels_are_those_of_the_ports()
    ensures { (ports : RouterPorts) (r : ℕ) (ready ahead picked past last : List ℕ)
        (sends : Sends (List ℕ)) (picks : Picks) (m : RouterMarks)
        → HavePicked ports r ready ahead picked past last sends picks
        → (let all = channels_of ports in
        ShowsSends (ports.links.width + 1) ports.links.vcs (set_of all r picked)
        (number_in (digits_by (set_of all r) sends.port))
        (number_in (digits_by (set_of all r) sends.vc)) m
        → ShowsPicks (ports.links.width + 1) ports.links.vcs (set_of all r picked)
        (has_bit (set_of all r last)) m (picks_in picks r)) }
{}

/// What goes through the switch port by port is what a router switches.
pub fn ports_switch_what_a_router_switches()
    ensures { (ports vcs picked single old : ℕ) (tail : ℕ → Bool) (m : RouterMarks) (e : Effects)
        (picks : PortPicks) (ahead after : ℕ → ℕ) (sends flits tails : ℕ → ℕ → Bool)
        → 0 < vcs → ports * vcs ≤ CHANNELS
        → ShowsPicks ports vcs picked tail m picks → ShowsOutputs ports vcs ahead m
        → HasTraversed ports vcs picks ahead after sends flits tails
        → HasSwitched vcs ports picked single tail m
        (switched_marks ports vcs picked tail after m)
        (switched_effects ports vcs picked tail sends
        (leaves_by ports picks ahead (λ p. true) flits)
        (leaves_by ports picks ahead picks.tail tails) e) old
        (rest_from old ports (λ q. dry_by single m.taken (chosen_by picked m q))) }
{}

/// Where these are the places of the neighbours of a router by one port, what comes from there is
/// what its link brings.
pub fn places_bring_what_comes_over_the_link()
    ensures { (g : Grid) (s p v vcs : ℕ) (places : Places) (sent words : ℕ → ℕ)
        → ArePlaces g s p places
        → ((b r : ℕ) → r < ROUTERS
        → has_bit (words (ROUTERS * b + r)) (opposite p * vcs + v) ≡ has_bit (sent b) r)
        → comes_by places sent (s % ROUTERS) ≡ is_over vcs words v (neighbour g s p) }
{}

/// In a mesh or a torus the neighbours stand at these distances.
pub fn neighbours_stand_at_these_places()
    ensures { (g : Grid) (b p s : ℕ) (far : ℕ → Bool) (places : Places)
        → IsGrid g → p < local_port g → ArePlacesOf g b p far places
        → s / ROUTERS ≡ b → s < nodes g → ArePlaces g s p places }
{}

/// Where these tables tell the neighbours in a block and in the others, those are the places.
pub fn near_and_far_are_the_places()
    ensures { (g : Grid) (vcs b v p : ℕ) (near : Near) (far : List Far) (others : AreFar g b p far)
        → v < vcs → p < local_port g → IsNear g vcs b near
        → ArePlacesOf g b p (way_by others.way) (places_by near far b (v * local_port g + p)) }
{}

/// What comes from there is what comes from the neighbours in the block, and then what comes from
/// the others.
pub fn what_comes_from_the_places_is_near_or_far()
    ensures { (g : Grid) (vcs b k r : ℕ) (near : Near) (far : List Far) (sent : ℕ → ℕ)
        → k < vcs * local_port g → r < ROUTERS → IsNear g vcs b near
        → comes_by (places_by near far b k) sent r
        ≡ ((comes_from (word k near.straight.distance) (word k near.straight.mask) (sent b) r
        || (near.rings && comes_from (word k near.round.distance) (word k near.round.mask)
        (sent b) r)) || comes_by (far_places far) sent r) }
{}

/// What leaves from these channels is what arrives, where marks tell which channels send by the
/// local port.
pub fn what_leaves_by_the_local_port_arrives()
    ensures { (n : Numbering) (r local to_local : ℕ) (arrived moved last : List ℕ) (port : ℕ → ℕ)
        → ((c : ℕ) → c < n.size → has_bit (set_of n r arrived) c
        ≡ leaves_from local (set_of n r moved) (set_of n r last) port c)
        → ((c : ℕ) → c < n.size
        → has_bit (bit_and (set_of n r moved) (set_of n r last)) c ≡ true
        → has_bit to_local c ≡ nat_eq (port c) local)
        → set_of n r arrived ≡ bit_and (bit_and (set_of n r moved) (set_of n r last)) to_local }
{}

/// The local output channels that are given back then are those that tails free.
pub fn what_leaves_gives_its_channel_back()
    ensures { (links vcs picked single : ℕ) (tail : ℕ → Bool) (m w : RouterMarks) (e : Effects)
        (old new idle local : ℕ) (port vc : ℕ → ℕ)
        → (links + 1) * vcs ≤ CHANNELS → MembersAreBelow ((links + 1) * vcs) picked
        → ShowsSends (links + 1) vcs picked port vc m
        → HasSwitched vcs (links + 1) picked single tail m w e old new
        → ((o : ℕ) → has_bit local o
        ≡ (nat_le (links * vcs) o && nat_lt o ((links + 1) * vcs)))
        → given_back idle ((links + 1) * vcs) (links * vcs)
        (bit_and e.released (m.to_port links)) vc ≡ bit_or idle (bit_and e.freed local) }
{}

/// A source that sends a flit of the packet that has begun, or else begins the next packet, makes
/// what a router makes of it.
pub fn sources_send_what_a_router_sends()
    ensures { (starts : List Start) (injected begins : ℕ) (s : Source) → begins < 2 ^ CHANNELS
        → (injected ≡ 0) ⊎ (begins ≡ 0)
        → sent_source starts (bit_or injected (lowest begins)) (begun_source starts begins s)
        ≡ begun_if starts (not (nat_eq (lowest begins) 0))
        (sent_if starts (not (nat_eq injected 0)) s) }
{}

/// Where one router is put into the word of a channel, its set has this channel besides, and no
/// other set changes.
pub fn a_router_that_is_put_has_the_channel()
    ensures { (n : Numbering) (words new : List ℕ) (c router r : ℕ) → AreApart n → c < n.size
        → ((k s : ℕ) → has_bit (word k new) s
        ≡ ((nat_eq k (n.index c) && nat_eq s router) || has_bit (word k words) s))
        → set_of n r new
        ≡ (if nat_eq r router then bit_or (set_of n r words) (2 ^ c) else set_of n r words) }
{}

/// The words of the channels of a router are apart.
pub fn channels_of_a_router_are_apart()
    ensures { (ports : RouterPorts) → AreApart (channels_of ports) }
{}

/// What allocation makes of a router of a block is what a router allocates, where nothing was
/// granted and lost before.
pub fn allotments_are_what_a_router_allocates()
    ensures { (size vcs : ℕ) (a b : Allotment) (c : Column) (m : RouterMarks) → 0 < vcs
        → size ≤ CHANNELS → MembersAreBelow size a.waiting → a.granted ≡ 0 → a.lost ≡ 0
        → HasAllotted vcs a b
        → HasAllocated size (λ o. o / vcs) (allotted_before a c m)
        (allotted_after size vcs a b c m) }
{}

/// After it the marks show which output channel each input channel owns, where they did so before
/// of those that are active: the owner is the one with the number of the output channel.
pub fn allotments_show_who_owns_a_channel()
    ensures { (ports vcs active : ℕ) (a b : Allotment) (m : RouterMarks) → 0 < vcs
        → ports * vcs ≤ CHANNELS → MembersAreBelow (ports * vcs) a.waiting
        → MembersAreBelow (ports * vcs) a.idle → a.granted ≡ 0
        → ((i : ℕ) → has_bit active i ≡ true → has_bit a.waiting i ≡ false)
        → ((i : ℕ) → has_bit active i ≡ true
        → has_bit a.idle (a.out_port i * vcs + a.out_vc i) ≡ false) → HasAllotted vcs a b
        → ShowsOwned ports vcs active a.out_port a.out_vc m
        → ShowsOwned ports vcs (bit_or active b.granted) b.out_port b.out_vc
        (allotted_marks (ports * vcs) vcs b m) }
{}

/// Allocation where an idle output channel is wanted, and then routes, are what a router chooses.
pub fn allotments_and_routes_are_what_a_router_chooses()
    ensures { (size vcs heads all : ℕ) (sets : ℕ → ℕ → ℕ) (set : ℕ → ℕ) (a b : Allotment)
        (c : Column) (m : RouterMarks) → 0 < vcs → size ≤ CHANNELS → MembersAreBelow size a.waiting
        → a.granted ≡ 0 → a.lost ≡ 0 → all < 2 ^ CHANNELS
        → (asks_of a.waiting a.wanted a.idle ≢ 0 → HasAllotted vcs a b)
        → (asks_of a.waiting a.wanted a.idle ≡ 0 → b ≡ a)
        → HasRouted heads sets (allotted_marks size vcs b m)
        (record (allotted_marks size vcs b m) { set = set }) b.wanted all
        → HasChosen size (λ o. o / vcs) heads sets (allotted_before a c m)
        (routed_after (allotted_after size vcs a b c m) set all) }
{}
