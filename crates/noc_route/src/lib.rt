//! Routing rules and the routing relation: by which output channels a packet may go on.
#![tactic(auto)]

mod columns;
mod enter;
mod entered;
mod fault;
mod fitting;
mod gather;
mod laws;
mod map;
mod named;
mod relation;
mod rows;
mod rule;
mod set_list;
mod sizes;
mod trim;

pub use laws::{
    a_relation_is_ranked_as_its_rule, a_rule_has_a_relation_or_a_fault, a_rule_has_one_relation,
    ranks_of_all_channels_need_only_rise,
};
pub use relation::Relation;
pub use rule::{Entry, RouteFault, RouteRow, Rule, RuleName};
pub use sizes::{escapes, is_right, resource_class};
