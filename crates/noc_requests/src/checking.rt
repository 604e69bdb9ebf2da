//! Reading ranks, and checking that they rise along a routing relation.

ghost use Rattle.std.specs.Prelude.{◌≡◌, IfErr, IfOk, OnOk, IfSome, IsSomeAnd, option_map};
ghost use Rattle.noc_requests.specs.Prelude.{KeepsLimits, settings, Gives, ranks_of, lent_files, lent_text, read_by, Refuses, IsAnswered, TextsFault};
ghost use Rattle.noc_requests.specs.Check.{Accepts, AsksForChecked, HasRanking, RanksFault, checked_ranks};

use crate::outcome::ended;
use crate::request::{Bytes, Files};
use crate::settings::relation_of;
use noc_commands::Command;
use noc_faults::{Fault, Status};
use noc_files::{Config, InputFault, Sink, read_ranks, write_pieces};
use noc_rank::{RankRow, Ranks, check};
use noc_route::Relation;
use noc_topo::Shape;
use std::alloc::Global;
use std::thread::Threads;

/// Writes `accepted`, if the ranks of the rank file rise along the relation. Where none is
/// given, it counts as empty.
pub fn answer_check<W: Sink>(
    rt: &(impl Threads + Sync),
    alloc: Global,
    files: &Files<'_>,
    sink: &mut W,
) -> Result<Status, Fault>
    requires { files.now.command ≡ Command.Check }
    ensures { IsAnswered W.contents W.has_failed sink.old sink.new (lent_files files.now) result }
{
    checked_relation(rt, alloc, files)?;
    ended(write_pieces(&["accepted\n"], sink), Status::Done)
}

// The configuration and the relation, once the ranks are checked at which the command looks.
pub(crate) fn checked_relation(
    rt: &(impl Threads + Sync),
    alloc: Global,
    files: &Files<'_>,
) -> Result<(Config, Relation), Fault>
    ensures limits { IfOk result (λ r. KeepsLimits r.0) }
    ensures checked { IfOk result (λ r. AsksForChecked (lent_files files.now) (settings r.0) r.1) }
    ensures fault { IfErr result (Refuses (TextsFault (lent_files files.now))) }
{
    let (config, relation) = relation_of(alloc, files)?;
    accept_if_given(rt, alloc, checked_ranks(files), &relation)?;
    Ok((config, relation))
}

// The ranks that are checked: those of a run if there are any, and those of `check`, for which a
// file that is not given counts as empty.
fn checked_ranks<'a>(files: &Files<'a>) -> Option<Bytes<'a>>
    ensures { option_map lent_text result ≡ checked_ranks (lent_files files.now) }
{
    match files.command {
        Command::Joined | Command::Run { .. } => files.ranks,
        Command::Check => Some(files.ranks.unwrap_or(Ok(&[]))),
        _ => None,
    }
}

// Whether the ranks of a rank file rise along a relation, if there is one: the first fault of the
// file, of its rows, or of the check.
fn accept_if_given(
    rt: &(impl Threads + Sync),
    alloc: Global,
    text: Option<Bytes<'_>>,
    relation: &Relation,
) -> Result<(), Fault>
    ensures accepted { OnOk result (IfSome (option_map lent_text text.entry)
        (Accepts relation.now)) }
    ensures fault { IfErr result (Refuses
        (λ f. IsSomeAnd (option_map lent_text text.entry) (λ t. RanksFault relation.now t f))) }
{
    let Some(text) = text else {
        return Ok(());
    };
    let ranks = ranks_of(alloc, text, relation)?;
    check(rt, alloc, relation, &ranks).map_err(|fault| Fault::Rank(fault, *relation.shape()))?;
    Ok(())
}

// The ranks of a rank file, for the channels of a relation.
fn ranks_of(alloc: Global, text: Bytes<'_>, relation: &Relation) -> Result<Ranks, Fault>
    ensures ranks { IfOk result (HasRanking relation.now (lent_text text.entry)) }
    ensures fault { IfErr result (Refuses (RanksFault relation.now (lent_text text.entry))) }
{
    let shape = relation.shape();
    let rows = rank_rows_in(alloc, shape, text).map_err(Fault::RankFile)?;
    let ranks = Ranks::from_rows(alloc, shape, relation.vcs(), &rows);
    ranks.map_err(|fault| Fault::Rank(fault, *shape))
}

// The rows that a rank file says.
fn rank_rows_in(alloc: Global, shape: &Shape, text: Bytes<'_>) -> Result<Vec<RankRow>, InputFault>
    ensures { Gives (λ v. v.items) result (read_by (ranks_of shape.now) (lent_text text.entry)) }
{
    read_ranks(alloc, shape, text?)
}
