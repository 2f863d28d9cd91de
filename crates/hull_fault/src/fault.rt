//! Why a command ends without its text, and with which status.
ghost use Rattle.std.specs.Prelude.{◌≡◌};
ghost use Rattle.hull_fault.specs.Words.{file_status, report_number};
ghost use Rattle.hull_fault.specs.FaultLines.{status_of};

use gap_proof::EntryFault;
use hull_words::WordFault;
use plan_check::RuleFault;
use uc_field::fault::FieldFault;
use uc_mixture::fault::ShareFault;
use uc_plan::fault::ShapeFault;
use uc_prices::fault::PriceFault;
use uc_text::TextFault;

/// A file that a command reads.
#[derive(Clone, Copy)]
pub enum FileKind {
    CaseFile,
    ScheduleFile,
    ReportFile,
    PricesFile,
    MixtureFile,
}

/// What is wrong with a report.
#[derive(Clone, Copy)]
pub enum ReportCode {
    /// It isn't in form: no report has its lines.
    OutOfForm,
    /// It isn't the right one.
    Wrong,
}

impl ReportCode {
    /// The number that stands for it in a fault line.
    pub fn number(self) -> u32
        ensures { result ≡ report_number self }
    {
        match self {
            ReportCode::OutOfForm => 60,
            ReportCode::Wrong => 61,
        }
    }
}

/// Why a command ends without its text.
#[derive(Clone, Copy)]
pub enum TopFault {
    /// The words give no command.
    Words(WordFault),
    /// A read failed.
    Read(FileKind),
    /// The case file is no JSON text.
    CaseText(TextFault),
    /// The case file is no case.
    CaseField(FieldFault),
    /// The schedule file is no JSON text.
    PlanText(TextFault),
    /// The schedule file is no schedule of the case.
    PlanShape(ShapeFault),
    /// The schedule breaks a rule.
    PlanRule(RuleFault),
    /// A file has more than 67,108,864 bytes.
    TooBig(FileKind),
    /// The run is too large: so many proposals, units with bids, and periods.
    Work {
        proposals: u32,
        units: u32,
        periods: u32,
    },
    /// Memory ran out.
    Memory,
    /// The report isn't in form, or isn't right, first at this line, from 1.
    Report {
        code: ReportCode,
        line: u32,
    },
    /// The prices file is no JSON text.
    PricesText(TextFault),
    /// The prices file has no prices of the case.
    PricesValue(PriceFault),
    /// The mixture file is no JSON text.
    MixtureText(TextFault),
    /// The mixture file is no mixture over the case.
    MixtureShare(ShareFault),
    /// An entry of the mixture breaks a rule.
    MixtureRule(EntryFault),
}

impl FileKind {
    /// The status of a fault of such a file.
    pub fn status(self) -> u8
        ensures { result ≡ file_status self }
    {
        match self {
            FileKind::CaseFile => 3,
            FileKind::ScheduleFile => 4,
            FileKind::ReportFile => 8,
            FileKind::PricesFile => 9,
            FileKind::MixtureFile => 10,
        }
    }
}

impl TopFault {
    /// The status of a run with this fault.
    pub fn status(&self) -> u8
        ensures { result ≡ status_of self.now }
    {
        match self {
            TopFault::Words(_) => 1,
            TopFault::Read(_) => 2,
            TopFault::CaseText(_) | TopFault::CaseField(_) => 3,
            TopFault::PlanText(_) | TopFault::PlanShape(_) | TopFault::PlanRule(_) => 4,
            TopFault::TooBig(file) => file.status(),
            TopFault::Work { .. } => 5,
            TopFault::Memory => 7,
            TopFault::Report { .. } => 8,
            TopFault::PricesText(_) | TopFault::PricesValue(_) => 9,
            TopFault::MixtureText(_) | TopFault::MixtureShare(_) | TopFault::MixtureRule(_) => 10,
        }
    }
}
