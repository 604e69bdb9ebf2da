//! What holds of every router, and of every good setup.

ghost use Rattle.std.specs.Prelude.{◌≡◌, ◌≢◌, ℕ, List};
ghost use Rattle.noc_packet.specs.declared.packet.Beat.{Beat};
ghost use Rattle.noc_route.specs.Routes.{Routes};
ghost use Rattle.noc_theory.specs.Good.{IsGoodSetup, IsWellFormedSetup};
ghost use Rattle.noc_theory.specs.Network.{Setup};
ghost use Rattle.noc_view.specs.View.{View, local_step, view_after_take};
ghost use Rattle.noc_view.specs.declared.finding.Finding.{Finding as FindingValue};

/// What was found changes nothing of what comes: from a view with any other findings a cycle over
/// the same beats gives the same view and the same beats to put. So a run in which nobody reads the
/// findings of a cycle goes on as one in which they are read.
pub fn findings_change_nothing()
    ensures { (relation : Routes) (view : View) (findings : List FindingValue)
        (beats : List Beat) (n : ℕ)
        → local_step relation (record view { findings = findings }) beats n
        ≡ local_step relation view beats n }
{}

/// What comes to a router in one cycle can be taken in any order: the takes of two ports
/// commute, from every view and for all beats, those that do not fit included.
pub fn takes_commute()
    ensures { (relation : Routes) (p q : ℕ) (one other : Beat) (view : View) → p ≢ q
        → view_after_take relation p one (view_after_take relation q other view)
        ≡ view_after_take relation q other (view_after_take relation p one view) }
{}

/// A good setup is well-formed. So each law of well-formed setups holds of every network and every
/// core that a call makes.
pub fn a_good_setup_is_well_formed()
    ensures { (net : Setup) → IsGoodSetup net → IsWellFormedSetup net }
{}
