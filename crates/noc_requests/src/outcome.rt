//! How an answer ends.

ghost use Rattle.std.specs.Prelude.{◌≡◌};
ghost use Rattle.noc_requests.specs.Prelude.{ended, ending};

use noc_faults::{Fault, Status};
use noc_files::WriteFault;
use noc_net::Network;

/// How an answer ends whose text was written, or could not be.
pub fn ended(written: Result<(), WriteFault>, status: Status) -> Result<Status, Fault>
    ensures { result ≡ ended written status }
{
    written.map(|()| status).map_err(Fault::Write)
}

/// How a run has ended.
pub fn ending(network: &Network) -> Status
    ensures { result ≡ ending network.now }
{
    if network.stuck() {
        Status::Stuck
    } else {
        Status::Done
    }
}
