ghost use Rattle.std.specs.Prelude.{◌≡◌, [], ◌∷◌, true, IfOk};
ghost use Rattle.connector_settings.specs.Fit.{settings_fit};
ghost use Rattle.euclidc_commands.specs.declared.status.Verdict.TheVariants.{Refused};
ghost use Rattle.euclidc_commands.specs.SettingsFiles.{settings_refusal, settings_file};
ghost use Rattle.euclidc_commands.specs.Stages.{Gives, HaltsWith};

use crate::answer::Halt;
use crate::file::read_file;
use crate::refusal::refused;
use crate::role::Role;
use connector_settings::{Settings, SettingsError};
use json_program::write_string;
use key_table::{KeyTable, NoMemory, Stop};
use shelf_io::Shelf;
use std::alloc::Global;

/// The connector settings in a file, which fit the table.
pub fn read_settings<F: Shelf>(
    alloc: Global,
    shelf: &mut F,
    table: &KeyTable,
    name: &str,
) -> Result<Settings, Halt>
    ensures stage { Gives (λ s. s) (settings_file table.now name.now) (name.now ∷ []) (F.seen shelf.old) (F.seen shelf.new) result }
    ensures fits { IfOk result (λ s. settings_fit table.now s ≡ true) }
{
    let bytes = read_file(alloc, shelf, name, Role::Settings)?;
    match connector_settings::read_settings(alloc, table, &bytes) {
        Ok(settings) => Ok(settings),
        Err(Stop::Memory) => Err(Halt::NoMemory),
        Err(Stop::Fault(error)) => Err(refused_settings(alloc, &error)),
    }
}

// The refusal of a settings file.
fn refused_settings(alloc: Global, error: &SettingsError) -> Halt
    ensures { HaltsWith result (settings_refusal error.now) Refused }
{
    match write_string(alloc, &error.path) {
        Ok(path) => refused(alloc, "settings", error.code, path.as_str()),
        Err(NoMemory) => Halt::NoMemory,
    }
}
