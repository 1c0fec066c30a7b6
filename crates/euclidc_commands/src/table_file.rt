ghost use Rattle.std.specs.Prelude.{◌≡◌, [], ◌∷◌, string_bytes, IfOk};
ghost use Rattle.euclidc_commands.specs.declared.status.Verdict.TheVariants.{Refused};
ghost use Rattle.euclidc_commands.specs.CommandViews.{source_view};
ghost use Rattle.euclidc_commands.specs.TableFiles.{key_text, table_refusal, table_file, table_in, table_names};
ghost use Rattle.euclidc_commands.specs.Stages.{Gives, HaltsWith};

use crate::answer::Halt;
use crate::command::TableSource;
use crate::file::read_file;
use crate::refusal::refused;
use crate::role::Role;
use key_table::{KeyTable, Stop, TableError};
use shelf_io::Shelf;
use std::alloc::{AllocError, Global};

/// The key table: the built-in one, or that of a file.
pub fn read_table<F: Shelf>(
    alloc: Global,
    shelf: &mut F,
    source: TableSource<'_>,
) -> Result<KeyTable, Halt>
    ensures { let source = source_view source.entry in
        Gives (λ t. t) (table_in source) (table_names source) (F.seen shelf.old) (F.seen shelf.new) result }
{
    match source {
        TableSource::BuiltIn => Ok(KeyTable::built_in(alloc)?),
        TableSource::File(name) => read_table_file(alloc, shelf, name),
    }
}

fn read_table_file<F: Shelf>(alloc: Global, shelf: &mut F, name: &str) -> Result<KeyTable, Halt>
    ensures { Gives (λ t. t) (table_file name.now) (name.now ∷ []) (F.seen shelf.old) (F.seen shelf.new) result }
{
    let bytes = read_file(alloc, shelf, name, Role::Table)?;
    match KeyTable::from_toml(alloc, &bytes) {
        Ok(table) => Ok(table),
        Err(Stop::Memory) => Err(Halt::NoMemory),
        Err(Stop::Fault(error)) => Err(refused_table(alloc, error)),
    }
}

fn refused_table(alloc: Global, error: TableError) -> Halt
    ensures { HaltsWith result (table_refusal error) Refused }
{
    match key_text(alloc, error.key) {
        Ok(key) => refused(alloc, "table", error.code, key.as_str()),
        Err(_) => Halt::NoMemory,
    }
}

// The number of a key, where there is one.
#[tactic(auto, unfolding(crate::specs::TableFiles::key_text))]
fn key_text(alloc: Global, key: Option<u32>) -> Result<String, AllocError>
    ensures { IfOk result (λ s. string_bytes s ≡ key_text key) }
{
    match key {
        Some(key) => key.to_string(alloc),
        None => String::from_str(alloc, "-"),
    }
}
