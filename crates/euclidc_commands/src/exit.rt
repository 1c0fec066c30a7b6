ghost use Rattle.std.specs.Prelude.{◌≡◌};
ghost use Rattle.std.specs.Process.{exit_status};
ghost use Rattle.euclidc_commands.specs.CommandViews.{command_in};
ghost use Rattle.euclidc_commands.specs.Statuses.{number_of};
ghost use Rattle.euclidc_commands.specs.declared.status.Status.{Status};
ghost use Rattle.euclidc_commands.specs.Top.{Meets};

use crate::status::Status;
use crate::top::euclidc;
use shelf_io::{Shelf, Sink};
use std::alloc::Global;
use std::process::ExitCode;

/// Does what the words ask for, and gives the number of the status as the exit status.
pub fn run<F: Shelf, K: Sink>(
    alloc: Global,
    words: &[String],
    shelf: &mut F,
    out: &mut K,
) -> ExitCode
    ensures { (s : Status) × (exit_status result ≡ number_of s)
        × Meets (command_in words.now) (F.seen shelf.old) (F.seen shelf.new) (K.seen out.old) (K.seen out.new) s }
{
    let status = euclidc(alloc, words, shelf, out);
    exit_code(status)
}

// The exit status with a status's number.
fn exit_code(status: Status) -> ExitCode
    ensures { exit_status result ≡ number_of status }
{
    ExitCode::from(status.number())
}
