ghost use Rattle.std.specs.Prelude.{◌≡◌, ◌+◌, ◌<◌, ◌^◌, length, true, if◌then◌else◌, Ok, IfOk};
ghost use Rattle.key_table.specs.BuiltIn.{built_in};
ghost use Rattle.euclid_ast.specs.Meaning.{IsWithin};
ghost use Rattle.connector_settings.specs.declared.layout.ConnectorGraph.{ConnectorGraph};
ghost use Rattle.connector_settings.specs.Fit.{settings_fit};
ghost use Rattle.connector_settings.specs.GraphOf.{IsGraphOf};
ghost use Rattle.json_program.specs.Programs.{program_file};
ghost use Rattle.rule_report.specs.Aims.{aims};
ghost use Rattle.sample_program.specs.Laws.{sample};
ghost use Rattle.sample_program.specs.Programs.{program};
ghost use Rattle.sample_program.specs.SettingsTexts.{settings};
ghost use Rattle.euclidc_commands.specs.Stages.{Concludes};
ghost use Rattle.euclidc_commands.specs.Sample.{Tells, Counts, AreSmall, rules_up_to, targets_of, summary, Summarized, IsOnly, MayAnswer, asked, names};

use crate::answer::{Answer, Halt};
use crate::status::Verdict;
use connector_settings::{Settings, graph_of, read_settings};
use dir_typing::{DirProgram, type_program};
use euclid_ast::{Choice, Program};
use json_program::{read_json, write_json};
use key_table::{KeyTable, NoMemory, Stop, Text};
use rule_problem::{Report, bound_law, proof_law};
use rule_report::Targets;
use rule_search::search;
use sample_program::{
    sample_program, sample_settings, settings_law, small_law, typed_law, within_law,
};
use shelf_io::Shelf;
use std::alloc::Global;
use vir_lowering::lower;

const RULES: u32 = 256;

// Enough for 11 atoms and more.
const BUDGET: u32 = 65_536;

/// How many targets are reached by some payment, and how many by none.
#[derive(Clone, Copy)]
struct Tally {
    reached: u32,
    never: u32,
}

/// Runs the command `sample`: how many targets of the program of a seed are reached under the settings of samples. It reads no
/// file.
pub fn run_sample<F: Shelf>(alloc: Global, _shelf: &mut F, seed: u32) -> Result<Answer, Halt>
    ensures { Concludes (MayAnswer seed) (asked seed) (names seed) (F.seen _shelf.old) (F.seen _shelf.new) result }
{
    Ok(answer(alloc, seed)?)
}

// The answer of a seed, which has no other one. The program and the settings are made as files have them, read and typed.
fn answer(alloc: Global, seed: u32) -> Result<Answer, NoMemory>
    ensures summary { IfOk result (λ a. Summarized seed a.text a.verdict) }
    ensures only { IfOk result (λ a. IsOnly seed a.text) }
{
    within_law();
    small_law();
    let table = KeyTable::built_in(alloc)?;
    let typed = typed_sample(alloc, &table, seed)?;
    let settings = settings(alloc, &table)?;
    let tally = tally_targets(alloc, &table, &typed, &settings)?;
    Ok(Answer {
        text: summary(alloc, seed, tally)?,
        verdict: Verdict::Done,
    })
}

// The program of a seed, typed by the built-in table.
fn typed_sample(alloc: Global, table: &KeyTable, seed: u32) -> Result<DirProgram, NoMemory>
    requires { table.now ≡ built_in }
    ensures { IfOk result (λ p. p ≡ sample seed) }
{
    within_law();
    typed_law();
    let program = program(alloc, seed)?;
    match type_program(alloc, table, &program) {
        Ok(typed) => Ok(typed),
        Err(Stop::Memory) => Err(NoMemory),
        Err(Stop::Fault(_)) => unreachable!(),
    }
}

// The program of a seed, written as JSON and read.
fn program(alloc: Global, seed: u32) -> Result<Program, NoMemory>
    ensures { IfOk result (λ p. p ≡ program seed) }
{
    let json = written_program(alloc, seed)?;
    match read_json(alloc, json.as_bytes()) {
        Ok(program) => Ok(program),
        Err(Stop::Memory) => Err(NoMemory),
        Err(Stop::Fault(_)) => unreachable!(),
    }
}

fn written_program(alloc: Global, seed: u32) -> Result<Text, NoMemory>
    ensures { IfOk result (λ t. program_file t ≡ Ok (program seed)) }
{
    within_law();
    let program = sample_program(alloc, seed)?;
    write_json(alloc, &program)
}

// The settings of samples, as they are read by the built-in table.
fn settings(alloc: Global, table: &KeyTable) -> Result<Settings, NoMemory>
    requires { table.now ≡ built_in }
    ensures settings { IfOk result (λ s. s ≡ settings) }
    ensures fits { IfOk result (λ s. settings_fit table.now s ≡ true) }
{
    settings_law();
    match read_settings(alloc, table, sample_settings().as_bytes()) {
        Ok(settings) => Ok(settings),
        Err(Stop::Memory) => Err(NoMemory),
        Err(Stop::Fault(_)) => unreachable!(),
    }
}

// How many targets of a program of 256 rules are reached under settings, where their problems are small.
fn tally_targets(
    alloc: Global,
    table: &KeyTable,
    typed: &DirProgram,
    settings: &Settings,
) -> Result<Tally, NoMemory>
    requires table { typed.now.table ≡ table.now }
    requires fits { settings_fit table.now settings.now ≡ true }
    requires rules { length typed.now.source.rules ≡ 256 }
    requires small { (connectors : ConnectorGraph) → IsGraphOf table.now settings.now connectors → AreSmall (aims typed.now connectors) }
    ensures { IfOk result (λ t. Counts typed.now settings.now (targets_of 256) t.reached t.never) }
{
    let connectors = graph_of(alloc, table, settings)?;
    let program = lower(alloc, table, typed)?;
    let targets = Targets::new(alloc, table, &program, &connectors)?;
    let tally = tally_rules(alloc, table, &targets)?;
    let is_reached = is_reached(alloc, table, &targets, Choice::Default)?;
    Ok(tally.with(is_reached))
}

// How many rules are reached.
fn tally_rules(alloc: Global, table: &KeyTable, targets: &Targets) -> Result<Tally, NoMemory>
    requires table { targets.now.program.table ≡ table.now }
    requires rules { length targets.now.program.source.rules ≡ 256 }
    requires small { AreSmall targets.now }
    ensures counted { IfOk result (λ t. t.reached + t.never ≡ 256) }
    ensures counts { (s : Settings) → IsGraphOf table.now s targets.now.connectors → IfOk result (λ t. Counts targets.now.program s (rules_up_to 256) t.reached t.never) }
{
    let mut tally = Tally {
        reached: 0,
        never: 0,
    };
    for rule in 0..RULES {
        tally = tally.with(is_reached(alloc, table, targets, Choice::Rule(rule))?);
    }
    Ok(tally)
}

// Whether some payment reaches a target, whose problem is small.
fn is_reached(
    alloc: Global,
    table: &KeyTable,
    targets: &Targets,
    target: Choice,
) -> Result<bool, NoMemory>
    requires table { targets.now.program.table ≡ table.now }
    requires target { IsWithin target (length targets.now.program.source.rules) }
    requires small { AreSmall targets.now }
    ensures { (s : Settings) → IsGraphOf table.now s targets.now.connectors → IfOk result (Tells targets.now.program s target) }
{
    proof_law();
    bound_law();
    let problem = targets.problem(alloc, target)?;
    match search(alloc, table, &problem, BUDGET)? {
        Report::Reach(_) => Ok(true),
        Report::Never(_) => Ok(false),
        Report::Spent(_) => unreachable!(),
    }
}

impl Tally {
    // With one more target.
    fn with(self, is_reached: bool) -> Tally
        requires { self.reached + self.never < 2 ^ 31 }
        ensures reached { result.reached ≡ (if is_reached then self.reached + 1 else self.reached) }
        ensures never { result.never ≡ (if is_reached then self.never else self.never + 1) }
    {
        if is_reached {
            Tally {
                reached: self.reached + 1,
                never: self.never,
            }
        } else {
            Tally {
                reached: self.reached,
                never: self.never + 1,
            }
        }
    }
}

// The lines of the answer.
fn summary(alloc: Global, seed: u32, tally: Tally) -> Result<Text, NoMemory>
    ensures { IfOk result (λ t. t ≡ summary seed tally.reached tally.never) }
{
    let reached = tally.reached;
    let never = tally.never;
    let lines = format!(in alloc;
        "sample {seed}\nrules 256\nreached {reached}\nnever {never}\nopen 0\n"
    )?;
    Ok(Text::from(lines))
}
