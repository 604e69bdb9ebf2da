//! What every rule has in common.

ghost use Rattle.std.specs.Prelude.{◌≡◌, ◌↔◌, ℕ, Option, IsTrue};
ghost use Rattle.noc_route.specs.Built.{IsRelationOfRule};
ghost use Rattle.noc_route.specs.Ranks.{Ranking, rank_at, IsRanked, IsRankedBy, IsRankedRule, AreAllRanked, IsRising};
ghost use Rattle.noc_route.specs.Relation.{IsFaultOf, RelationParts};
ghost use Rattle.noc_route.specs.Routes.{Routes, IsRelation, permits};
ghost use Rattle.noc_route.specs.declared.rule.RouteFault.{RouteFault as RouteFaultValue};
ghost use Rattle.noc_route.specs.declared.rule.RouteFault.TheVariants.{Memory};

/// A rule has one relation at most: two tables of it are equal in every number.
pub fn a_rule_has_one_relation()
    ensures { (g : RelationParts) (a b : Routes) → IsRelationOfRule g a → IsRelationOfRule g b
        → a ≡ b }
{}

/// A rule that has a relation has no fault, but that memory was refused.
pub fn a_rule_has_a_relation_or_a_fault()
    ensures { (g : RelationParts) (routes : Routes) (fault : RouteFaultValue)
        → IsRelationOfRule g routes → IsFaultOf g fault → fault ≡ Memory }
{}

/// A relation is ranked exactly where its rule is, by the steps that the rule permits.
pub fn a_relation_is_ranked_as_its_rule()
    ensures { (g : RelationParts) (routes : Routes) (ranks : Ranking) → IsRelationOfRule g routes
        → IsRankedBy routes ranks ↔ IsRankedRule g (rank_at ranks) }
{}

/// Where each link channel has a rank, a relation is ranked exactly where ranks rise with each
/// permitted step from one link channel to the next.
pub fn ranks_of_all_channels_need_only_rise()
    ensures { (routes : Routes) (ranks : ℕ → ℕ → ℕ → Option ℕ) → IsRelation routes
        → AreAllRanked routes.grid routes.vcs ranks
        → IsRanked (λ m c t o. IsTrue (permits routes m c t o)) routes.grid ranks
        ↔ IsRising routes ranks }
{}
