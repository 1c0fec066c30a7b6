ghost use Rattle.std.specs.Prelude.{◌≡◌, [], ◌∷◌, ◌++◌, length, codes, decimal, true, IfOk};
ghost use Rattle.std.specs.List.{list_all};
ghost use Rattle.key_table.specs.Atoms.{atom_fits};
ghost use Rattle.euclid_ast.specs.Meaning.{IsWithin};
ghost use Rattle.connector_settings.specs.Fit.{settings_fit};
ghost use Rattle.certificate_text.specs.Limits.{IsWithinLimits};
ghost use Rattle.euclidc_commands.specs.CommandViews.{source_view};
ghost use Rattle.euclidc_commands.specs.Check.{trial, run_under, run_on, run_by, Judged, MayAnswer, asked, names, AcceptedLaw};
ghost use Rattle.euclidc_commands.specs.Verdicts.{Tells};
ghost use Rattle.euclidc_commands.specs.Stages.{Ending, Concludes};

use crate::answer::{Answer, Halt};
use crate::certificate_file::read_certificate;
use crate::command::TableSource;
use crate::settings_file::read_settings;
use crate::status::Verdict;
use crate::table_file::read_table;
use crate::target::judge_target;
use crate::typed_file::read_typed;
use connector_settings::{Settings, graph_of};
use contradiction_checker::check;
use dir_typing::DirProgram;
use euclid_ast::{Choice, Program};
use key_table::{KeyTable, NoMemory, Text};
use rule_problem::{Certificate, proof_law};
use rule_report::{problem_for, reaches_law};
use shelf_io::Shelf;
use std::alloc::Global;
use vir_lowering::lower;

/// Runs the command `check`: whether a certificate proves that no payment reaches a target of a program under settings.
pub fn run_check<F: Shelf>(
    alloc: Global,
    shelf: &mut F,
    source: TableSource<'_>,
    program_name: &str,
    settings_name: &str,
    target: Choice,
    certificate_name: &str,
) -> Result<Answer, Halt>
    ensures { let source = source_view source.entry in
        Concludes (MayAnswer source program_name.now settings_name.now target certificate_name.now) (asked source program_name.now settings_name.now target certificate_name.now) (names source program_name.now settings_name.now certificate_name.now) (F.seen shelf.old) (F.seen shelf.new) result }
{
    let table = read_table(alloc, shelf, source)?;
    check_by(
        alloc,
        shelf,
        &table,
        program_name,
        settings_name,
        target,
        certificate_name,
    )
}

// The judgement by a table.
fn check_by<F: Shelf>(
    alloc: Global,
    shelf: &mut F,
    table: &KeyTable,
    program_name: &str,
    settings_name: &str,
    target: Choice,
    certificate_name: &str,
) -> Result<Answer, Halt>
    ensures { let run = run_by table.now program_name.now settings_name.now target certificate_name.now in
        Concludes (λ files. Ending Judged (run files).end) (λ files. (run files).asked) (program_name.now ∷ settings_name.now ∷ certificate_name.now ∷ []) (F.seen shelf.old) (F.seen shelf.new) result }
{
    let read = read_typed(alloc, shelf, table, program_name)?;
    check_on(
        alloc,
        shelf,
        table,
        &read.0,
        &read.1,
        settings_name,
        target,
        certificate_name,
    )
}

// The judgement on a program, which is typed by the table.
fn check_on<F: Shelf>(
    alloc: Global,
    shelf: &mut F,
    table: &KeyTable,
    source: &Program,
    typed: &DirProgram,
    settings_name: &str,
    target: Choice,
    certificate_name: &str,
) -> Result<Answer, Halt>
    requires source { typed.now.source ≡ source.now }
    requires table { typed.now.table ≡ table.now }
    ensures { let run = run_on table.now typed.now settings_name.now target certificate_name.now in
        Concludes (λ files. Ending Judged (run files).end) (λ files. (run files).asked) (settings_name.now ∷ certificate_name.now ∷ []) (F.seen shelf.old) (F.seen shelf.new) result }
{
    let settings = read_settings(alloc, shelf, table, settings_name)?;
    check_under(
        alloc,
        shelf,
        table,
        source,
        typed,
        &settings,
        target,
        certificate_name,
    )
}

// The judgement on a program under settings, which fit the table.
fn check_under<F: Shelf>(
    alloc: Global,
    shelf: &mut F,
    table: &KeyTable,
    source: &Program,
    typed: &DirProgram,
    settings: &Settings,
    target: Choice,
    certificate_name: &str,
) -> Result<Answer, Halt>
    requires source { typed.now.source ≡ source.now }
    requires table { typed.now.table ≡ table.now }
    requires settings { settings_fit table.now settings.now ≡ true }
    ensures { let run = run_under table.now typed.now settings.now target certificate_name.now in
        Concludes (λ files. Ending Judged (run files).end) (λ files. (run files).asked) (certificate_name.now ∷ []) (F.seen shelf.old) (F.seen shelf.new) result }
{
    judge_target(alloc, source, target)?;
    let certificate = read_certificate(alloc, shelf, table, certificate_name)?;
    Ok(judge(alloc, table, typed, settings, target, &certificate)?)
}

// What is answered of a certificate, which fits the table, as the settings do. The target is one of the program's.
fn judge(
    alloc: Global,
    table: &KeyTable,
    typed: &DirProgram,
    settings: &Settings,
    target: Choice,
    certificate: &Certificate,
) -> Result<Answer, NoMemory>
    requires table { typed.now.table ≡ table.now }
    requires settings { settings_fit table.now settings.now ≡ true }
    requires target { IsWithin target (length typed.now.source.rules) }
    requires atoms { list_all (atom_fits table.now) certificate.now.atoms ≡ true }
    requires limits { IsWithinLimits certificate.now }
    ensures { IfOk result (λ a. Judged (trial typed.now settings.now target certificate.now) a.text a.verdict) }
{
    let connectors = graph_of(alloc, table, settings)?;
    let program = lower(alloc, table, typed)?;
    let problem = problem_for(alloc, table, &program, &connectors, target)?;
    let verdict = check(alloc, table, &problem, certificate)?;
    // Every lowered program is typed, as its rules say.
    let _ = program.rules();
    answer(alloc, verdict)
}

// The answer that a verdict is.
fn answer(alloc: Global, verdict: contradiction_checker::Verdict) -> Result<Answer, NoMemory>
    ensures { IfOk result (λ a. Tells verdict a.text a.verdict) }
{
    match verdict {
        contradiction_checker::Verdict::Accepted => Ok(Answer {
            text: Text::from_str(alloc, "accepted\n")?,
            verdict: Verdict::Done,
        }),
        contradiction_checker::Verdict::Rejected(item) => Ok(Answer {
            text: rejected(alloc, item)?,
            verdict: Verdict::No,
        }),
    }
}

fn rejected(alloc: Global, item: u32) -> Result<Text, NoMemory>
    ensures { IfOk result (λ t. t ≡ codes "rejected " ++ (decimal item ++ codes "\n")) }
{
    let line = format!(in alloc; "rejected {item}\n")?;
    Ok(Text::from(line))
}

/// Where a certificate is accepted, no payment whatever reaches the target, whoever made the certificate.
pub fn accepted_law()
    ensures { AcceptedLaw }
{
    reaches_law();
    proof_law();
}
