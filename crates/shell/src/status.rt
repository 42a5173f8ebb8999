// The exit status.
ghost use Rattle.std.specs.Prelude.{◌≡◌, ◌≢◌, ◌↔◌, None, IsErr};
ghost use Rattle.shell.specs.Text.{fault_status, status_of};

use io_edge::Failed;
use reply_text::Fault;

/// The exit status of a fault.
fn fault_status(fault: Fault) -> u8
    ensures { result ≡ fault_status fault }
{
    match fault {
        Fault::Usage => 2,
        Fault::OutOfMemory => 3,
        Fault::Disk(_) => 4,
        Fault::Source => 5,
        Fault::Script { .. } => 7,
        Fault::Damaged(_) => 8,
        Fault::NoBase => 9,
        Fault::Exists => 10,
        Fault::Lanes { .. } => 11,
    }
}

/// The exit status once all is printed or the sink has failed: 6 where all else was done.
pub(crate) fn status_after(fault: Option<Fault>, printed: Result<(), Failed>) -> u8
    ensures six { (result ≡ 6) ↔ ((fault ≡ None) × IsErr printed) }
    ensures other { result ≢ 6 → result ≡ status_of fault }
{
    match (fault, printed) {
        (Some(fault), _) => fault_status(fault),
        (None, Ok(())) => 0,
        (None, Err(Failed)) => 6,
    }
}
