ghost use Rattle.std.specs.Prelude.{◌≡◌, [], ◌∷◌, true, IfOk};
ghost use Rattle.std.specs.List.{list_all};
ghost use Rattle.key_table.specs.Atoms.{atom_fits};
ghost use Rattle.certificate_text.specs.Limits.{IsWithinLimits};
ghost use Rattle.euclidc_commands.specs.declared.status.Verdict.TheVariants.{Refused};
ghost use Rattle.euclidc_commands.specs.CertificateFiles.{certificate_refusal, certificate_file};
ghost use Rattle.euclidc_commands.specs.Stages.{Gives, HaltsWith};

use crate::answer::Halt;
use crate::file::read_file;
use crate::refusal::refused;
use crate::role::Role;
use certificate_text::CertError;
use key_table::{KeyTable, Stop};
use rule_problem::Certificate;
use shelf_io::Shelf;
use std::alloc::Global;

/// The certificate in a file, which is within the limits, and whose atoms fit the table.
pub fn read_certificate<F: Shelf>(
    alloc: Global,
    shelf: &mut F,
    table: &KeyTable,
    name: &str,
) -> Result<Certificate, Halt>
    ensures stage { Gives (λ c. c) (certificate_file table.now name.now) (name.now ∷ []) (F.seen shelf.old) (F.seen shelf.new) result }
    ensures fits { IfOk result (λ c. list_all (atom_fits table.now) c.atoms ≡ true) }
    ensures limits { IfOk result (λ c. IsWithinLimits c) }
{
    let bytes = read_file(alloc, shelf, name, Role::Certificate)?;
    match certificate_text::read_certificate(alloc, table, &bytes) {
        Ok(certificate) => Ok(certificate),
        Err(Stop::Memory) => Err(Halt::NoMemory),
        Err(Stop::Fault(error)) => Err(refused_certificate(alloc, error)),
    }
}

// The refusal of a certificate file.
fn refused_certificate(alloc: Global, error: CertError) -> Halt
    ensures { HaltsWith result (certificate_refusal error) Refused }
{
    match error.line.to_string(alloc) {
        Ok(line) => refused(alloc, "certificate", error.code, line.as_str()),
        Err(_) => Halt::NoMemory,
    }
}
