ghost use Rattle.std.specs.Prelude.{◌≡◌, ◌++◌, codes, true, string_bytes, OnOk, Ok};
ghost use Rattle.std.specs.List.{list_all};
ghost use Rattle.key_table.specs.Atoms.{atom_fits};
ghost use Rattle.key_table.specs.Payments.{is_legal};
ghost use Rattle.payment_reader.specs.Reading.{payment_of};
ghost use Rattle.payment_reader.specs.Written.{payment_text, HasFewSubs};
ghost use Rattle.certificate_text.specs.Limits.{IsWithinLimits};
ghost use Rattle.certificate_text.specs.Reading.{certificate_of};
ghost use Rattle.certificate_text.specs.Texts.{certificate_text, trace_text};
ghost use Rattle.euclidc_commands.specs.Findings.{report_text, is_open, verdict_where, ReadsBack, IsWritable};

use crate::status::Verdict;
use certificate_text::{write_certificate, write_trace};
use key_table::{KeyTable, NoMemory, Payment};
use payment_reader::write_payment;
use rule_problem::{Certificate, Report, Trace};
use std::alloc::Global;

/// Appends what is found on a target: a payment as one line, or the text of a certificate or of a trace.
pub fn put_report(
    alloc: Global,
    out: &mut String,
    table: &KeyTable,
    report: &Report,
) -> Result<(), NoMemory>
    requires { IsWritable table.now report.now }
    ensures text { OnOk result (string_bytes out.new ≡ string_bytes out.old ++ report_text table.now report.now) }
    ensures reads_back { OnOk result (ReadsBack table.now report.now) }
{
    match report {
        Report::Reach(payment) => put_payment(alloc, out, table, payment),
        Report::Never(certificate) => put_certificate(alloc, out, table, certificate),
        Report::Spent(trace) => put_trace(alloc, out, table, trace),
    }
}

/// Whether a target on which this is found is left open.
pub fn is_open(report: &Report) -> bool
    ensures { result ≡ is_open report.now }
{
    matches!(report, Report::Spent(_))
}

/// What is answered where some target is left open, and where none is.
pub fn verdict_where(is_left: bool) -> Verdict
    ensures { result ≡ verdict_where is_left }
{
    if is_left { Verdict::No } else { Verdict::Done }
}

fn put_payment(
    alloc: Global,
    out: &mut String,
    table: &KeyTable,
    payment: &Payment,
) -> Result<(), NoMemory>
    requires { is_legal table.now payment.now ≡ true }
    ensures text { OnOk result (string_bytes out.new ≡ string_bytes out.old ++ (payment_text table.now payment.now ++ codes "\n")) }
    ensures reads_back { OnOk result (HasFewSubs payment.now → payment_of table.now (payment_text table.now payment.now) ≡ Ok payment.now) }
{
    let text = write_payment(alloc, table, payment)?;
    out.push_str(text.as_str())?;
    out.push_str("\n")?;
    Ok(())
}

fn put_certificate(
    alloc: Global,
    out: &mut String,
    table: &KeyTable,
    certificate: &Certificate,
) -> Result<(), NoMemory>
    requires { list_all (atom_fits table.now) certificate.now.atoms ≡ true }
    ensures text { OnOk result (string_bytes out.new ≡ string_bytes out.old ++ certificate_text table.now certificate.now) }
    ensures reads_back { OnOk result (IsWithinLimits certificate.now → certificate_of table.now (certificate_text table.now certificate.now) ≡ Ok certificate.now) }
{
    let text = write_certificate(alloc, table, certificate)?;
    out.push_str(text.as_str())?;
    Ok(())
}

fn put_trace(
    alloc: Global,
    out: &mut String,
    table: &KeyTable,
    trace: &Trace,
) -> Result<(), NoMemory>
    requires { list_all (atom_fits table.now) trace.now.atoms ≡ true }
    ensures { OnOk result (string_bytes out.new ≡ string_bytes out.old ++ trace_text table.now trace.now) }
{
    let text = write_trace(alloc, table, trace)?;
    out.push_str(text.as_str())?;
    Ok(())
}
