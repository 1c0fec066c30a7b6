ghost use Rattle.euclidc_commands.specs.Commands.{MayAnswer, asked, names};
ghost use Rattle.euclidc_commands.specs.CommandViews.{command_in, command_view};
ghost use Rattle.euclidc_commands.specs.Stages.{Concludes};
ghost use Rattle.euclidc_commands.specs.Top.{Finishes, PutGives, Meets, Keeps, LeavesShelf, Completes, Misses, Accepts};

use crate::answer::{Answer, Halt};
use crate::check::{accepted_law, run_check};
use crate::command::Command;
use crate::convert::run_convert;
use crate::decide::run_decide;
use crate::laws::{enough_law, never_law};
use crate::prove::run_prove;
use crate::report::run_report;
use crate::sample::run_sample;
use crate::status::Status;
use crate::words::command;
use shelf_io::{Shelf, Sink};
use std::alloc::Global;

const USAGE: &[u8] =
    b"usage: euclidc decide K P PAY | report K P S B | prove K P S T B | check K P S T C | convert P json|text | sample N\n";

/// Does what the words ask for, and puts the whole answer. Where the words are no command it puts the usage
/// line, and reads no file.
pub fn euclidc<F: Shelf, K: Sink>(
    alloc: Global,
    words: &[String],
    shelf: &mut F,
    out: &mut K,
) -> Status
    // What the status means.
    ensures means { Meets (command_in words.now) (F.seen shelf.old) (F.seen shelf.new) (K.seen out.old) (K.seen out.new) result }

    // What stays.
    ensures keeps { Keeps (F.seen shelf.old) (F.seen shelf.new) (K.seen out.old) (K.seen out.new) }
    ensures still { LeavesShelf (command_in words.now) (F.seen shelf.old) (F.seen shelf.new) result }

    // When it succeeds, and what a missing file gives.
    ensures completes { Completes (command_in words.now) (F.seen shelf.old) (F.seen shelf.new) (K.seen out.old) (K.seen out.new) result }
    ensures misses { Misses (command_in words.now) (F.seen shelf.old) result }

    // What an accepted certificate means, and what it means that no target is left open.
    ensures accepts { Accepts (command_in words.now) (F.seen shelf.old) result }
{
    accepted_law();
    never_law();
    enough_law();
    let Some(command) = command(words) else {
        return match out.put(USAGE) {
            Ok(()) => Status::Usage,
            Err(_) => Status::WriteFault,
        };
    };
    let outcome = outcome(alloc, shelf, command);
    finish(out, &outcome)
}

// Runs a command up to its answer.
fn outcome<F: Shelf>(alloc: Global, shelf: &mut F, command: Command<'_>) -> Result<Answer, Halt>
    ensures { let command = command_view command.entry in
        Concludes (MayAnswer command) (asked command) (names command) (F.seen shelf.old) (F.seen shelf.new) result }
{
    match command {
        Command::Decide(source, program_name, payment_name) => {
            run_decide(alloc, shelf, source, program_name, payment_name)
        }
        Command::Report(source, program_name, settings_name, budget) => {
            run_report(alloc, shelf, source, program_name, settings_name, budget)
        }
        Command::Prove(source, program_name, settings_name, target, budget) => run_prove(
            alloc,
            shelf,
            source,
            program_name,
            settings_name,
            target,
            budget,
        ),
        Command::Check(source, program_name, settings_name, target, certificate_name) => run_check(
            alloc,
            shelf,
            source,
            program_name,
            settings_name,
            target,
            certificate_name,
        ),
        Command::Convert(form, program_name) => run_convert(alloc, shelf, form, program_name),
        Command::Sample(seed) => run_sample(alloc, shelf, seed),
    }
}

// Puts the answer, where there is one.
fn finish<K: Sink>(out: &mut K, outcome: &Result<Answer, Halt>) -> Status
    ensures { Finishes outcome.now (K.seen out.old) (K.seen out.new) result }
{
    match outcome {
        Ok(answer) | Err(Halt::Ends(answer)) => put(out, answer),
        Err(Halt::NoMemory) => Status::NoMemory,
        Err(Halt::ReadFault) => Status::ReadFault,
    }
}

fn put<K: Sink>(out: &mut K, answer: &Answer) -> Status
    ensures { PutGives answer.now (K.seen out.old) (K.seen out.new) result }
{
    match out.put(answer.text.as_bytes()) {
        Ok(()) => answer.verdict.status(),
        Err(_) => Status::WriteFault,
    }
}
