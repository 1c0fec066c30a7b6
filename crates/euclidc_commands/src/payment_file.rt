ghost use Rattle.std.specs.Prelude.{[], ◌∷◌};
ghost use Rattle.euclidc_commands.specs.declared.status.Verdict.TheVariants.{Refused};
ghost use Rattle.euclidc_commands.specs.PaymentFiles.{payment_refusal, payment_file};
ghost use Rattle.euclidc_commands.specs.Stages.{Gives, HaltsWith};

use crate::answer::Halt;
use crate::file::read_file;
use crate::refusal::refused;
use crate::role::Role;
use json_program::write_string;
use key_table::{KeyTable, NoMemory, Payment, Stop};
use payment_reader::PaymentError;
use shelf_io::Shelf;
use std::alloc::Global;

/// The payment in a file.
pub fn read_payment<F: Shelf>(
    alloc: Global,
    shelf: &mut F,
    table: &KeyTable,
    name: &str,
) -> Result<Payment, Halt>
    ensures { Gives (λ p. p) (payment_file table.now name.now) (name.now ∷ []) (F.seen shelf.old) (F.seen shelf.new) result }
{
    let bytes = read_file(alloc, shelf, name, Role::Payment)?;
    match payment_reader::read_payment(alloc, table, &bytes) {
        Ok(payment) => Ok(payment),
        Err(Stop::Memory) => Err(Halt::NoMemory),
        Err(Stop::Fault(error)) => Err(refused_payment(alloc, &error)),
    }
}

// The refusal of a payment file.
fn refused_payment(alloc: Global, error: &PaymentError) -> Halt
    ensures { HaltsWith result (payment_refusal error.now) Refused }
{
    match write_string(alloc, &error.path) {
        Ok(path) => refused(alloc, "payment", error.code, path.as_str()),
        Err(NoMemory) => Halt::NoMemory,
    }
}
