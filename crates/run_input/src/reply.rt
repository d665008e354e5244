// What a run answers.
ghost use Rattle.std.specs.Prelude.{◌≡◌, IfOk};
ghost use Rattle.run_input.specs.declared.reply.Cut.TheVariants.{Memory as NoMemory};
ghost use Rattle.run_input.specs.Fault.{IsFaultLine};
ghost use Rattle.run_input.specs.Status.{IsRefused};
ghost use Rattle.run_input.specs.Reply.{status_of_cut, cut_of};

use crate::fault::RunFault;
use crate::status::Status;
use plan_core::OutOfMemory;
use refute_log::LogSinkFault;
use std::alloc::Global;

/// A status, and the text that goes with it.
#[derive(Drop)]
pub struct Reply {
    /// What the run ends with once the text is printed.
    pub status: Status,
    /// The whole text for the output.
    pub text: Vec<u8>,
}

/// Why there is no answer.
#[derive(Clone, Copy, Debug, PartialEq, Eq)]
pub enum Cut {
    /// The log or the picture couldn't be written.
    Unwritten,
    /// Memory couldn't be had.
    Memory,
}

impl Cut {
    /// How the run ends then.
    pub fn status(self) -> Status
        ensures { result ≡ status_of_cut self }
    {
        match self {
            Cut::Unwritten => Status::Unwritten,
            Cut::Memory => Status::NoMemory,
        }
    }
}

impl From<OutOfMemory> for Cut {
    ghost from_gives = { λ _ e. e ≡ NoMemory };

    fn from(_: OutOfMemory) -> Self {
        Cut::Memory
    }
}

/// Why there is no answer where a log failed.
pub fn cut_of(fault: LogSinkFault) -> Cut
    ensures { result ≡ cut_of fault }
{
    match fault {
        LogSinkFault::Failed => Cut::Unwritten,
        LogSinkFault::Memory => Cut::Memory,
    }
}

/// The answer that names a fault.
pub fn fault_reply(alloc: Global, fault: RunFault) -> Result<Reply, OutOfMemory>
    ensures told { IfOk result (λ r. IsFaultLine fault r.status r.text.items) }
    ensures refused { IfOk result (λ r. IsRefused r.status) }
{
    Ok(Reply {
        status: fault.status(),
        text: fault.line(alloc)?,
    })
}
