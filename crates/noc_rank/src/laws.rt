//! Which rules have ranks that make their relations ranked.

ghost use Rattle.std.specs.Prelude.{◌≡◌, ◌∷◌, [], true};
ghost use Rattle.noc_route.specs.Built.{IsRelationOfRule, routing_of};
ghost use Rattle.noc_route.specs.Ranks.{Ranking, AreAllRanked, IsRankedBy, rank_at};
ghost use Rattle.noc_route.specs.Relation.{RelationParts};
ghost use Rattle.noc_route.specs.Routes.{Routes};
ghost use Rattle.noc_route.specs.declared.rule.Rule.TheVariants.{Dor};
ghost use Rattle.noc_route.specs.declared.rule.Entry.{Entry as EntryValue};
ghost use Rattle.noc_rank.specs.Faults.{IsBare};
ghost use Rattle.noc_rank.specs.Formulas.{has_ranks, IsGenerated};

use noc_route::a_relation_is_ranked_as_its_rule;

/// Each relation of dimension order on a mesh, of dateline, of west first, and of adaptive is
/// ranked, whatever the shape and the numbers of channels and classes. Its ranks by formula make it
/// ranked, so there are ranks that do.
pub fn formula_ranks_are_accepted()
    ensures accepted { (g : RelationParts) (routes : Routes) (ranks : Ranking)
        → IsRelationOfRule g routes → IsGenerated g.grid g.vcs g.classes g.rule ranks
        → IsRankedBy routes ranks }
    ensures exist { (g : RelationParts) (routes : Routes) → IsRelationOfRule g routes
        → has_ranks g.grid g.vcs g.classes g.rule ≡ true → (ranks : Ranking)
        × IsRankedBy routes ranks }
{}

/// No ranks at all make dimension order on a ring of four routers with one channel per link ranked,
/// so each list of ranks is refused. Each channel up is the only way for some packet, and four hops
/// up close a circle. Where ranks leave a channel out, some entry has no escape: each channel is
/// the only way of a packet to the neighbour at its end. So a rank file that says `adaptive` of
/// some channel is refused for want of an escape.
pub fn a_ring_of_four_has_no_ranks()
    ensures none { (routes : Routes) (ranks : Ranking)
        → IsRelationOfRule (routing_of (record { wraps = true; radix = 4 ∷ [] }) 1 1 Dor) routes
        → IsRankedBy routes ranks → ⊥ }
    ensures bare { (routes : Routes) (ranks : Ranking)
        → IsRelationOfRule (routing_of (record { wraps = true; radix = 4 ∷ [] }) 1 1 Dor) routes
        → (AreAllRanked routes.grid routes.vcs (rank_at ranks) → ⊥) → (e : EntryValue)
        × IsBare routes ranks e }
{
    a_relation_is_ranked_as_its_rule();
}
