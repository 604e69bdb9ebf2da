//! What workers give of which one half ran in a thread of its own.

ghost use Rattle.std.specs.Prelude.{◌≡◌, ◌⊎◌, ◌++◌, Err, IfOk, IsOkAnd};

use noc_packet::Memory;

/// Why workers did not run.
#[derive(Clone, Copy, Debug, PartialEq, Eq)]
pub enum NotRun {
    /// Memory was refused.
    Memory,
    /// A worker could not be started.
    NoWorker,
}

impl From<Memory> for NotRun {
    ghost use Rattle.noc_exchange.specs.declared.halves.NotRun.{NotRun};

    ghost from_gives = { λ _ e. e ≡ NotRun.Memory };

    fn from(_memory: Memory) -> NotRun {
        NotRun::Memory
    }
}

/// Both lists in one, or a fault of one of them: that memory was refused, if either says so.
pub fn joined<T: Drop>(
    first: Result<Vec<T>, NotRun>,
    second: Result<Vec<T>, NotRun>,
) -> Result<Vec<T>, NotRun>
    ensures both { IfOk result (λ v. IsOkAnd first (λ a. IsOkAnd second (λ b.
        v.items ≡ a.items ++ b.items))) }
    ensures memory { (first ≡ Err NotRun.Memory) ⊎ (second ≡ Err NotRun.Memory)
        → result ≡ Err NotRun.Memory }
    ensures worker { result ≡ Err NotRun.NoWorker
        → (first ≡ Err NotRun.NoWorker) ⊎ (second ≡ Err NotRun.NoWorker) }
{
    match (first, second) {
        (Ok(mut first), Ok(mut second)) => {
            if first.append(&mut second).is_err() {
                return Err(NotRun::Memory);
            }
            Ok(first)
        }
        (Err(NotRun::Memory), _) | (_, Err(NotRun::Memory)) => Err(NotRun::Memory),
        (Err(_), _) | (_, Err(_)) => Err(NotRun::NoWorker),
    }
}
