//! Writing the ranks by formula of a routing rule.

ghost use Rattle.std.specs.Prelude.{◌≡◌};
ghost use Rattle.noc_answers.specs.Prelude.{lent_files, IsAnswered};

use noc_commands::Command;
use noc_faults::{Fault, Status};
use noc_files::{Sink, write_ranks};
use noc_rank::{RankFault, Ranks};
use noc_requests::{Files, ended, relation_of};
use std::alloc::Global;

// Writes the ranks by formula of the rule, once its relation could be made. A table has none.
pub(crate) fn answer_ranks<W: Sink>(
    alloc: Global,
    files: &Files<'_>,
    sink: &mut W,
) -> Result<Status, Fault>
    requires { files.now.command ≡ Command.Ranks }
    ensures { IsAnswered W.contents W.has_failed sink.old sink.new (lent_files files.now) result }
{
    let (config, relation) = relation_of(alloc, files)?;
    let shape = relation.shape();
    let Some(rule) = config.rule.rule() else {
        return Err(Fault::Rank(RankFault::NoGenerated, *shape));
    };
    let generated = Ranks::generated(alloc, shape, config.channels, config.classes, &rule);
    let ranks = generated.map_err(|fault| Fault::Rank(fault, *shape))?;
    ended(
        write_ranks(&ranks, shape, config.channels, sink),
        Status::Done,
    )
}
