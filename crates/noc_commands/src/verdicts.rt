//! Sets of verdicts, and the texts that name them.

ghost use Rattle.std.specs.Prelude.{◌≡◌, ◌≢◌, ◌==◌, ◌||◌, IfNone, IfSome};
ghost use Rattle.noc_view.specs.Names.{verdict_name};
ghost use Rattle.noc_view.specs.Verdict.{column};
ghost use Rattle.noc_view.specs.declared.verdict.Verdict.{Verdict as VerdictValue};
ghost use Rattle.noc_commands.specs.Verdicts.{Names, NamesNone, is_member};

use noc_view::{VERDICTS, Verdict};

/// A set of verdicts.
#[derive(Clone, Copy, Debug, PartialEq, Eq)]
pub struct VerdictSet {
    /// Whether each verdict is a member, in the order of `Verdict::ALL`.
    pub members: [bool; VERDICTS],
}

impl VerdictSet {
    /// The verdicts that a text names, by their names in a trace with a comma between. A name that
    /// is there twice counts once.
    pub fn named(text: &str) -> Option<VerdictSet>
        ensures some { IfSome result (Names text.now) }
        ensures none { IfNone result (NamesNone text.now) }
    {
        let mut set = VerdictSet {
            members: [false; VERDICTS],
        };
        let mut rest = text;
        'names: while let Some((name, more)) = rest.split_once(',') {
            set.insert(verdict_named(name)?);
            rest = more;
        }
        set.insert(verdict_named(rest)?);
        Some(set)
    }

    /// Whether a verdict is in the set.
    pub fn contains(&self, verdict: Verdict) -> bool
        ensures { result ≡ is_member self.now verdict }
    {
        self.members[verdict as usize]
    }

    // Adds a verdict.
    fn insert(&mut self, verdict: Verdict)
        ensures { (other : VerdictValue) → is_member self.new other
            ≡ (is_member self.old other || column verdict == column other) }
    {
        self.members[verdict as usize] = true;
    }
}

// The verdict of a name, if there is one.
fn verdict_named(name: &str) -> Option<Verdict>
    ensures some { IfSome result (λ verdict. name.now ≡ verdict_name verdict) }
    ensures none { IfNone result ((verdict : VerdictValue) → name.now ≢ verdict_name verdict) }
{
    for verdict in Verdict::ALL {
        if verdict.name() == name {
            return Some(verdict);
        }
    }
    None
}
