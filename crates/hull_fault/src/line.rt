//! The line of a fault.
ghost use Rattle.std.specs.Prelude.{◌≡◌};
ghost use Rattle.hull_io.specs.Edge.{Writes};
ghost use Rattle.hull_fault.specs.Words.{kind_word, file_word};
ghost use Rattle.hull_fault.specs.FaultLines.{status_told, words_told, read_told, text_told};
ghost use Rattle.hull_fault.specs.FaultLines.{field_told, shape_told, rule_told, too_big_told};
ghost use Rattle.hull_fault.specs.FaultLines.{work_told, report_told, fault_told};
ghost use Rattle.hull_fault.specs.FaultLines.{price_told, share_told, entry_told, fault_line};

use crate::fault::{FileKind, ReportCode, TopFault};
use gap_proof::EntryFault;
use hull_io::{Sink, WriteFailed, write_whole};
use hull_words::WordFault;
use plan_check::RuleFault;
use report_form::laws::texts_written_in_turn_add_up;
use report_form::{Part, write_form_filled_with_parts};
use uc_field::fault::FieldFault;
use uc_mixture::fault::ShareFault;
use uc_model::kinds::Kind;
use uc_plan::fault::ShapeFault;
use uc_prices::fault::PriceFault;
use uc_text::TextFault;

fn unit_kind_text(kind: Kind) -> &'static [u8]
    ensures { result.now ≡ kind_word kind }
{
    match kind {
        Kind::Case => b"case",
        Kind::Thermal => b"thermal",
        Kind::Renewable => b"renewable",
        Kind::Bid => b"bid",
    }
}

fn file_kind_text(file: FileKind) -> &'static [u8]
    ensures { result.now ≡ file_word file }
{
    match file {
        FileKind::CaseFile => b"case",
        FileKind::ScheduleFile => b"schedule",
        FileKind::ReportFile => b"report",
        FileKind::PricesFile => b"prices",
        FileKind::MixtureFile => b"mixture",
    }
}

#[tactic(auto, unfolding(crate::specs::FaultLines::words_told))]
fn write_command_words_fault<S: Sink>(fault: &WordFault, out: &mut S) -> Result<(), WriteFailed>
    ensures { Writes S.held S.faults S.last out.old out.new result (words_told fault.now) }
{
    let code = fault.code.number();
    write_form_filled_with_parts(
        out,
        b"words % %",
        &[Part::Count(code as u64), Part::Count(fault.position as u64)],
    )
}

#[tactic(auto, unfolding(crate::specs::FaultLines::read_told))]
fn write_read_fault<S: Sink>(file: FileKind, out: &mut S) -> Result<(), WriteFailed>
    ensures { Writes S.held S.faults S.last out.old out.new result (read_told file) }
{
    let word = file_kind_text(file);
    write_form_filled_with_parts(out, b"read %", &[Part::Text(word)])
}

#[tactic(auto, unfolding(crate::specs::FaultLines::text_told))]
fn write_json_text_fault<S: Sink>(
    file: FileKind,
    fault: &TextFault,
    out: &mut S,
) -> Result<(), WriteFailed>
    ensures { Writes S.held S.faults S.last out.old out.new result (text_told file fault.now) }
{
    let word = file_kind_text(file);
    let code = fault.code.number();
    write_form_filled_with_parts(
        out,
        b"% % at %",
        &[
            Part::Text(word),
            Part::Count(code as u64),
            Part::Count(fault.offset as u64),
        ],
    )
}

#[tactic(auto, unfolding(crate::specs::FaultLines::field_told))]
fn write_field_fault<S: Sink>(fault: &FieldFault, out: &mut S) -> Result<(), WriteFailed>
    ensures { Writes S.held S.faults S.last out.old out.new result (field_told fault.now) }
{
    let code = fault.code.number();
    let key = fault.field.key().as_bytes();
    let kind = unit_kind_text(fault.kind);
    write_form_filled_with_parts(
        out,
        b"case % field % kind % unit % item %",
        &[
            Part::Count(code as u64),
            Part::Text(key),
            Part::Text(kind),
            Part::Count(fault.unit as u64),
            Part::Count(fault.item as u64),
        ],
    )
}

#[tactic(auto, unfolding(crate::specs::FaultLines::shape_told))]
fn write_schedule_shape_fault<S: Sink>(fault: &ShapeFault, out: &mut S) -> Result<(), WriteFailed>
    ensures { Writes S.held S.faults S.last out.old out.new result (shape_told fault.now) }
{
    let code = fault.code.number();
    let kind = unit_kind_text(fault.kind);
    write_form_filled_with_parts(
        out,
        b"schedule % kind % unit % item %",
        &[
            Part::Count(code as u64),
            Part::Text(kind),
            Part::Count(fault.unit as u64),
            Part::Count(fault.item as u64),
        ],
    )
}

#[tactic(auto, unfolding(crate::specs::FaultLines::rule_told))]
fn write_schedule_rule_fault<S: Sink>(fault: &RuleFault, out: &mut S) -> Result<(), WriteFailed>
    ensures { Writes S.held S.faults S.last out.old out.new result (rule_told fault.now) }
{
    let code = fault.code.number();
    let kind = unit_kind_text(fault.kind);
    write_form_filled_with_parts(
        out,
        b"schedule % kind % unit % period % left % right %",
        &[
            Part::Count(code as u64),
            Part::Text(kind),
            Part::Count(fault.unit as u64),
            Part::Count(fault.period as u64),
            Part::Amount(fault.left),
            Part::Amount(fault.right),
        ],
    )
}

#[tactic(auto, unfolding(crate::specs::FaultLines::too_big_told))]
fn write_too_big_fault<S: Sink>(file: FileKind, out: &mut S) -> Result<(), WriteFailed>
    ensures { Writes S.held S.faults S.last out.old out.new result (too_big_told file) }
{
    let word = file_kind_text(file);
    write_form_filled_with_parts(out, b"% 32", &[Part::Text(word)])
}

#[tactic(auto, unfolding(crate::specs::FaultLines::work_told))]
fn write_work_limit_fault<S: Sink>(
    proposals: u32,
    units: u32,
    periods: u32,
    out: &mut S,
) -> Result<(), WriteFailed>
    ensures { Writes S.held S.faults S.last out.old out.new result
        (work_told proposals units periods) }
{
    write_form_filled_with_parts(
        out,
        b"work % % %",
        &[
            Part::Count(proposals as u64),
            Part::Count(units as u64),
            Part::Count(periods as u64),
        ],
    )
}

#[tactic(auto, unfolding(crate::specs::FaultLines::report_told))]
fn write_report_fault<S: Sink>(code: ReportCode, line: u32, out: &mut S) -> Result<(), WriteFailed>
    ensures { Writes S.held S.faults S.last out.old out.new result (report_told code line) }
{
    let code = code.number();
    write_form_filled_with_parts(
        out,
        b"report % at %",
        &[Part::Count(code as u64), Part::Count(line as u64)],
    )
}

#[tactic(auto, unfolding(crate::specs::FaultLines::price_told))]
fn write_prices_file_fault<S: Sink>(fault: &PriceFault, out: &mut S) -> Result<(), WriteFailed>
    ensures { Writes S.held S.faults S.last out.old out.new result (price_told fault.now) }
{
    let code = fault.code.number();
    let key = fault.field.key().as_bytes();
    write_form_filled_with_parts(
        out,
        b"prices % field % item %",
        &[
            Part::Count(code as u64),
            Part::Text(key),
            Part::Count(fault.item as u64),
        ],
    )
}

#[tactic(auto, unfolding(crate::specs::FaultLines::share_told))]
fn write_mixture_share_fault<S: Sink>(fault: &ShareFault, out: &mut S) -> Result<(), WriteFailed>
    ensures { Writes S.held S.faults S.last out.old out.new result (share_told fault.now) }
{
    let code = fault.code.number();
    let kind = unit_kind_text(fault.kind);
    write_form_filled_with_parts(
        out,
        b"mixture % kind % unit % entry % item %",
        &[
            Part::Count(code as u64),
            Part::Text(kind),
            Part::Count(fault.unit as u64),
            Part::Count(fault.entry as u64),
            Part::Count(fault.item as u64),
        ],
    )
}

#[tactic(auto, unfolding(crate::specs::FaultLines::entry_told))]
fn write_mixture_rule_fault<S: Sink>(fault: &EntryFault, out: &mut S) -> Result<(), WriteFailed>
    ensures { Writes S.held S.faults S.last out.old out.new result (entry_told fault.now) }
{
    let rule = &fault.fault;
    let code = rule.code.number();
    let kind = unit_kind_text(rule.kind);
    write_form_filled_with_parts(
        out,
        b"mixture % kind % unit % entry % period % left % right %",
        &[
            Part::Count(code as u64),
            Part::Text(kind),
            Part::Count(rule.unit as u64),
            Part::Count(fault.entry),
            Part::Count(rule.period as u64),
            Part::Amount(rule.left),
            Part::Amount(rule.right),
        ],
    )
}

/// Writes what the line of a fault tells behind its status.
fn write_fault_details<S: Sink>(fault: &TopFault, out: &mut S) -> Result<(), WriteFailed>
    ensures { Writes S.held S.faults S.last out.old out.new result (fault_told fault.now) }
{
    match fault {
        TopFault::Words(fault) => write_command_words_fault(fault, out),
        TopFault::Read(file) => write_read_fault(*file, out),
        TopFault::CaseText(fault) => write_json_text_fault(FileKind::CaseFile, fault, out),
        TopFault::CaseField(fault) => write_field_fault(fault, out),
        TopFault::PlanText(fault) => write_json_text_fault(FileKind::ScheduleFile, fault, out),
        TopFault::PlanShape(fault) => write_schedule_shape_fault(fault, out),
        TopFault::PlanRule(fault) => write_schedule_rule_fault(fault, out),
        TopFault::TooBig(file) => write_too_big_fault(*file, out),
        TopFault::Work {
            proposals,
            units,
            periods,
        } => write_work_limit_fault(*proposals, *units, *periods, out),
        TopFault::Memory => write_whole(out, b"memory"),
        TopFault::Report { code, line } => write_report_fault(*code, *line, out),
        TopFault::PricesText(fault) => write_json_text_fault(FileKind::PricesFile, fault, out),
        TopFault::PricesValue(fault) => write_prices_file_fault(fault, out),
        TopFault::MixtureText(fault) => write_json_text_fault(FileKind::MixtureFile, fault, out),
        TopFault::MixtureShare(fault) => write_mixture_share_fault(fault, out),
        TopFault::MixtureRule(fault) => write_mixture_rule_fault(fault, out),
    }
}

#[tactic(auto, unfolding(crate::specs::FaultLines::status_told))]
fn write_status<S: Sink>(status: u8, out: &mut S) -> Result<(), WriteFailed>
    ensures { Writes S.held S.faults S.last out.old out.new result (status_told status) }
{
    write_form_filled_with_parts(out, b"fault % ", &[Part::Count(status as u64)])
}

/// Writes the line of a fault. Refused only where the sink's count of faults rose, and then the
/// sink gained a front of the line.
pub fn write_fault<S: Sink>(fault: &TopFault, out: &mut S) -> Result<(), WriteFailed>
    ensures { Writes S.held S.faults S.last out.old out.new result (fault_line fault.now) }
{
    texts_written_in_turn_add_up::<S>();
    write_status(fault.status(), out)?;
    write_fault_details(fault, out)?;
    write_whole(out, b"\n")
}
