ghost use Rattle.std.specs.Prelude.{◌≡◌, ◌++◌, ◌||◌, [], ◌∷◌, length, string_bytes, true, IfOk, OnOk};
ghost use Rattle.euclid_ast.specs.Meaning.{IsWithin};
ghost use Rattle.connector_settings.specs.Fit.{settings_fit};
ghost use Rattle.rule_report.specs.Answers.{targets_of};
ghost use Rattle.euclidc_commands.specs.CommandViews.{source_view};
ghost use Rattle.euclidc_commands.specs.Appended.{rules_to, IsBlock, AppendsAll};
ghost use Rattle.euclidc_commands.specs.Inquiries.{inquiry};
ghost use Rattle.euclidc_commands.specs.Report.{run_on, run_by, rule_label, target_label, word_for, Reported, MayAnswer, asked, names};
ghost use Rattle.euclidc_commands.specs.Stages.{Ending, Concludes};

use crate::answer::{Answer, Halt};
use crate::command::TableSource;
use crate::finding::{is_open, put_report, verdict_where};
use crate::settings_file::read_settings;
use crate::table_file::read_table;
use crate::typed_file::read_typed;
use connector_settings::{Settings, graph_of};
use dir_typing::DirProgram;
use euclid_ast::{Choice, Program, Rule};
use json_program::write_string;
use key_table::{KeyTable, NoMemory, Text};
use rule_problem::{Report, fits_law};
use rule_report::Targets;
use shelf_io::Shelf;
use std::alloc::Global;
use vir_lowering::lower;

/// Runs the command `report`: what is found, with a budget of splits, on each rule and the default of a program under
/// settings.
pub fn run_report<F: Shelf>(
    alloc: Global,
    shelf: &mut F,
    source: TableSource<'_>,
    program_name: &str,
    settings_name: &str,
    budget: u32,
) -> Result<Answer, Halt>
    ensures { let source = source_view source.entry in
        Concludes (MayAnswer source program_name.now settings_name.now budget) (asked source program_name.now settings_name.now) (names source program_name.now settings_name.now) (F.seen shelf.old) (F.seen shelf.new) result }
{
    let table = read_table(alloc, shelf, source)?;
    report_by(alloc, shelf, &table, program_name, settings_name, budget)
}

// What is found by a table.
fn report_by<F: Shelf>(
    alloc: Global,
    shelf: &mut F,
    table: &KeyTable,
    program_name: &str,
    settings_name: &str,
    budget: u32,
) -> Result<Answer, Halt>
    ensures { let run = run_by table.now program_name.now settings_name.now in
        Concludes (λ files. Ending (Reported budget) (run files).end) (λ files. (run files).asked) (program_name.now ∷ settings_name.now ∷ []) (F.seen shelf.old) (F.seen shelf.new) result }
{
    let read = read_typed(alloc, shelf, table, program_name)?;
    report_on(alloc, shelf, table, &read.0, &read.1, settings_name, budget)
}

// What is found on a program, which is typed by the table.
fn report_on<F: Shelf>(
    alloc: Global,
    shelf: &mut F,
    table: &KeyTable,
    source: &Program,
    typed: &DirProgram,
    settings_name: &str,
    budget: u32,
) -> Result<Answer, Halt>
    requires source { typed.now.source ≡ source.now }
    requires table { typed.now.table ≡ table.now }
    ensures { let run = run_on table.now typed.now settings_name.now in
        Concludes (λ files. Ending (Reported budget) (run files).end) (λ files. (run files).asked) (settings_name.now ∷ []) (F.seen shelf.old) (F.seen shelf.new) result }
{
    let settings = read_settings(alloc, shelf, table, settings_name)?;
    Ok(report_under(alloc, table, source, typed, &settings, budget)?)
}

// What is found under settings, which fit the table.
fn report_under(
    alloc: Global,
    table: &KeyTable,
    source: &Program,
    typed: &DirProgram,
    settings: &Settings,
    budget: u32,
) -> Result<Answer, NoMemory>
    requires source { typed.now.source ≡ source.now }
    requires table { typed.now.table ≡ table.now }
    requires settings { settings_fit table.now settings.now ≡ true }
    ensures { IfOk result (λ a. Reported budget (inquiry typed.now settings.now) a.text a.verdict) }
{
    let connectors = graph_of(alloc, table, settings)?;
    let program = lower(alloc, table, typed)?;
    // Every lowered program is typed, as its rules say.
    let _ = program.rules();
    let targets = Targets::new(alloc, table, &program, &connectors)?;
    let mut out = String::new(alloc);
    let is_left = put_targets(alloc, &mut out, table, source, &targets, budget)?;
    Ok(Answer {
        text: Text::from(out),
        verdict: verdict_where(is_left),
    })
}

// Appends what is found on each target, the rules in order and then the default. The answer is whether one is left open.
fn put_targets(
    alloc: Global,
    out: &mut String,
    table: &KeyTable,
    source: &Program,
    targets: &Targets,
    budget: u32,
) -> Result<bool, NoMemory>
    requires table { targets.now.program.table ≡ table.now }
    requires source { targets.now.program.source ≡ source.now }
    ensures { IfOk result (AppendsAll targets.now budget (targets_of (length targets.now.program.source.rules)) (string_bytes out.old) (string_bytes out.new)) }
{
    let rule_left = put_rules(alloc, out, table, source, targets, budget)?;
    let default_left = put_target(alloc, out, table, source, targets, Choice::Default, budget)?;
    Ok(either(rule_left, default_left))
}

fn put_rules(
    alloc: Global,
    out: &mut String,
    table: &KeyTable,
    source: &Program,
    targets: &Targets,
    budget: u32,
) -> Result<bool, NoMemory>
    requires table { targets.now.program.table ≡ table.now }
    requires source { targets.now.program.source ≡ source.now }
    ensures { IfOk result (AppendsAll targets.now budget (rules_to (length targets.now.program.source.rules)) (string_bytes out.old) (string_bytes out.new)) }
{
    let mut is_left = false;
    for rule in 0..targets.rule_count() {
        let here = put_target(
            alloc,
            out,
            table,
            source,
            targets,
            Choice::Rule(rule),
            budget,
        )?;
        is_left = either(is_left, here);
    }
    Ok(is_left)
}

// Whether one of two is so.
fn either(left: bool, right: bool) -> bool
    ensures { result ≡ (left || right) }
{
    left || right
}

// Appends what is found on a target, which is one of the program's. The answer is whether it is left open.
fn put_target(
    alloc: Global,
    out: &mut String,
    table: &KeyTable,
    source: &Program,
    targets: &Targets,
    target: Choice,
    budget: u32,
) -> Result<bool, NoMemory>
    requires table { targets.now.program.table ≡ table.now }
    requires source { targets.now.program.source ≡ source.now }
    requires target { IsWithin target (length source.now.rules) }
    ensures { IfOk result (IsBlock targets.now budget target (string_bytes out.old) (string_bytes out.new)) }
{
    fits_law();
    let report = targets.report(alloc, table, target, budget)?;
    put_label(alloc, out, source, target)?;
    out.push_str(word(&report))?;
    put_report(alloc, out, table, &report)?;
    Ok(is_open(&report))
}

// Appends what a target is called.
fn put_label(
    alloc: Global,
    out: &mut String,
    program: &Program,
    target: Choice,
) -> Result<(), NoMemory>
    requires { IsWithin target (length program.now.rules) }
    ensures { OnOk result (string_bytes out.new ≡ string_bytes out.old ++ target_label program.now target) }
{
    match target {
        Choice::Rule(number) => {
            let rule = &program.rules.as_slice()[number as usize];
            put_rule_label(alloc, out, number, rule)
        }
        Choice::Default => {
            out.push_str("default")?;
            Ok(())
        }
    }
}

fn put_rule_label(alloc: Global, out: &mut String, number: u32, rule: &Rule) -> Result<(), NoMemory>
    ensures { OnOk result (string_bytes out.new ≡ string_bytes out.old ++ rule_label number rule.now) }
{
    let name = write_string(alloc, &rule.name)?;
    let name = name.as_str();
    write!(out, "rule {number} {name}")?;
    Ok(())
}

// The word for what is found, which ends the line.
fn word(report: &Report) -> &'static str
    ensures { result.now ≡ word_for report.now }
{
    match report {
        Report::Reach(_) => " reached\n",
        Report::Never(_) => " never\n",
        Report::Spent(_) => " open\n",
    }
}
