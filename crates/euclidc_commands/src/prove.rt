ghost use Rattle.std.specs.Prelude.{◌≡◌, [], ◌∷◌, length, true, IfOk};
ghost use Rattle.euclid_ast.specs.Meaning.{IsWithin};
ghost use Rattle.connector_settings.specs.Fit.{settings_fit};
ghost use Rattle.euclidc_commands.specs.CommandViews.{source_view};
ghost use Rattle.euclidc_commands.specs.Inquiries.{inquiry};
ghost use Rattle.euclidc_commands.specs.Prove.{run_on, run_by, Proved, MayAnswer, asked, names};
ghost use Rattle.euclidc_commands.specs.Stages.{Ending, Concludes};

use crate::answer::{Answer, Halt};
use crate::command::TableSource;
use crate::finding::{is_open, put_report, verdict_where};
use crate::settings_file::read_settings;
use crate::table_file::read_table;
use crate::target::judge_target;
use crate::typed_file::read_typed;
use connector_settings::{Settings, graph_of};
use dir_typing::DirProgram;
use euclid_ast::{Choice, Program};
use key_table::{KeyTable, NoMemory, Text};
use rule_problem::fits_law;
use rule_report::Targets;
use shelf_io::Shelf;
use std::alloc::Global;
use vir_lowering::lower;

/// Runs the command `prove`: what is found, with a budget of splits, on a target of a program under settings.
pub fn run_prove<F: Shelf>(
    alloc: Global,
    shelf: &mut F,
    source: TableSource<'_>,
    program_name: &str,
    settings_name: &str,
    target: Choice,
    budget: u32,
) -> Result<Answer, Halt>
    ensures { let source = source_view source.entry in
        Concludes (MayAnswer source program_name.now settings_name.now target budget) (asked source program_name.now settings_name.now target) (names source program_name.now settings_name.now) (F.seen shelf.old) (F.seen shelf.new) result }
{
    let table = read_table(alloc, shelf, source)?;
    prove_by(
        alloc,
        shelf,
        &table,
        program_name,
        settings_name,
        target,
        budget,
    )
}

// What is found by a table.
fn prove_by<F: Shelf>(
    alloc: Global,
    shelf: &mut F,
    table: &KeyTable,
    program_name: &str,
    settings_name: &str,
    target: Choice,
    budget: u32,
) -> Result<Answer, Halt>
    ensures { let run = run_by table.now program_name.now settings_name.now target in
        Concludes (λ files. Ending (Proved target budget) (run files).end) (λ files. (run files).asked) (program_name.now ∷ settings_name.now ∷ []) (F.seen shelf.old) (F.seen shelf.new) result }
{
    let read = read_typed(alloc, shelf, table, program_name)?;
    prove_on(
        alloc,
        shelf,
        table,
        &read.0,
        &read.1,
        settings_name,
        target,
        budget,
    )
}

// What is found on a program, which is typed by the table.
fn prove_on<F: Shelf>(
    alloc: Global,
    shelf: &mut F,
    table: &KeyTable,
    source: &Program,
    typed: &DirProgram,
    settings_name: &str,
    target: Choice,
    budget: u32,
) -> Result<Answer, Halt>
    requires source { typed.now.source ≡ source.now }
    requires table { typed.now.table ≡ table.now }
    ensures { let run = run_on table.now typed.now settings_name.now target in
        Concludes (λ files. Ending (Proved target budget) (run files).end) (λ files. (run files).asked) (settings_name.now ∷ []) (F.seen shelf.old) (F.seen shelf.new) result }
{
    let settings = read_settings(alloc, shelf, table, settings_name)?;
    judge_target(alloc, source, target)?;
    Ok(prove_under(alloc, table, typed, &settings, target, budget)?)
}

// What is found on a target, which is one of the program's. The settings fit the table.
fn prove_under(
    alloc: Global,
    table: &KeyTable,
    typed: &DirProgram,
    settings: &Settings,
    target: Choice,
    budget: u32,
) -> Result<Answer, NoMemory>
    requires table { typed.now.table ≡ table.now }
    requires settings { settings_fit table.now settings.now ≡ true }
    requires target { IsWithin target (length typed.now.source.rules) }
    ensures { IfOk result (λ a. Proved target budget (inquiry typed.now settings.now) a.text a.verdict) }
{
    fits_law();
    let connectors = graph_of(alloc, table, settings)?;
    let program = lower(alloc, table, typed)?;
    // Every lowered program is typed, as its rules say.
    let _ = program.rules();
    let targets = Targets::new(alloc, table, &program, &connectors)?;
    let report = targets.report(alloc, table, target, budget)?;
    let mut out = String::new(alloc);
    put_report(alloc, &mut out, table, &report)?;
    Ok(Answer {
        text: Text::from(out),
        verdict: verdict_where(is_open(&report)),
    })
}
