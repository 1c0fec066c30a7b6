ghost use Rattle.std.specs.Prelude.{◌≡◌, [], ◌∷◌};
ghost use Rattle.euclidc_commands.specs.CommandViews.{source_view};
ghost use Rattle.euclidc_commands.specs.Decide.{run_on, run_by, Decides, MayAnswer, asked, names};
ghost use Rattle.euclidc_commands.specs.Stages.{Ending, Concludes};

use crate::answer::{Answer, Halt};
use crate::command::TableSource;
use crate::decision::decision;
use crate::payment_file::read_payment;
use crate::status::Verdict;
use crate::table_file::read_table;
use crate::typed_file::read_typed;
use dir_typing::DirProgram;
use euclid_ast::Program;
use key_table::KeyTable;
use shelf_io::Shelf;
use std::alloc::Global;
use vir_evaluator::decide;
use vir_lowering::lower;

/// Runs the command `decide`: the decision, by a key table, of a program on a payment.
pub fn run_decide<F: Shelf>(
    alloc: Global,
    shelf: &mut F,
    source: TableSource<'_>,
    program_name: &str,
    payment_name: &str,
) -> Result<Answer, Halt>
    ensures { let source = source_view source.entry in
        Concludes (MayAnswer source program_name.now payment_name.now) (asked source program_name.now payment_name.now) (names source program_name.now payment_name.now) (F.seen shelf.old) (F.seen shelf.new) result }
{
    let table = read_table(alloc, shelf, source)?;
    decide_by(alloc, shelf, &table, program_name, payment_name)
}

// The decision of a program on a payment, by a table.
fn decide_by<F: Shelf>(
    alloc: Global,
    shelf: &mut F,
    table: &KeyTable,
    program_name: &str,
    payment_name: &str,
) -> Result<Answer, Halt>
    ensures { let run = run_by table.now program_name.now payment_name.now in
        Concludes (λ files. Ending Decides (run files).end) (λ files. (run files).asked) (program_name.now ∷ payment_name.now ∷ []) (F.seen shelf.old) (F.seen shelf.new) result }
{
    let read = read_typed(alloc, shelf, table, program_name)?;
    decide_on(alloc, shelf, table, &read.0, &read.1, payment_name)
}

// The decision of a program, which is typed by the table, on a payment.
fn decide_on<F: Shelf>(
    alloc: Global,
    shelf: &mut F,
    table: &KeyTable,
    source: &Program,
    typed: &DirProgram,
    payment_name: &str,
) -> Result<Answer, Halt>
    requires source { typed.now.source ≡ source.now }
    requires table { typed.now.table ≡ table.now }
    ensures { let run = run_on table.now typed.now payment_name.now in
        Concludes (λ files. Ending Decides (run files).end) (λ files. (run files).asked) (payment_name.now ∷ []) (F.seen shelf.old) (F.seen shelf.new) result }
{
    let payment = read_payment(alloc, shelf, table, payment_name)?;
    let choice = decide(&lower(alloc, table, typed)?, &payment);
    Ok(Answer {
        text: decision(alloc, source, choice)?,
        verdict: Verdict::Done,
    })
}
