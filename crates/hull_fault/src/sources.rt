//! The fault of each reader and check, as the fault that a command ends with.
ghost use Rattle.std.specs.Prelude.{◌≡◌};
ghost use Rattle.hull_fault.specs.Sources.{of_case, of_plan, of_report, of_prices, of_mixture};
ghost use Rattle.hull_fault.specs.declared.fault.TopFault.TheVariants.{Memory, PlanRule};
ghost use Rattle.hull_fault.specs.declared.fault.TopFault.TheVariants.{MixtureRule};

use crate::fault::{ReportCode, TopFault};
use gap_proof::EntryFault;
use plan_check::RuleFault;
use report_read::ReportError;
use std::alloc::AllocError;
use uc_case::fault::CaseFault;
use uc_mixture::fault::MixtureFault;
use uc_plan::fault::PlanFault;
use uc_prices::fault::PricesFault;

impl From<AllocError> for TopFault {
    ghost from_gives = { λ _ fault. fault ≡ Memory };

    fn from(_: AllocError) -> TopFault {
        TopFault::Memory
    }
}

impl From<CaseFault> for TopFault {
    ghost from_gives = { λ own fault. fault ≡ of_case own };

    fn from(own: CaseFault) -> TopFault {
        match own {
            CaseFault::Text(fault) => TopFault::CaseText(fault),
            CaseFault::Field(fault) => TopFault::CaseField(fault),
            CaseFault::Memory => TopFault::Memory,
        }
    }
}

impl From<PlanFault> for TopFault {
    ghost from_gives = { λ own fault. fault ≡ of_plan own };

    fn from(own: PlanFault) -> TopFault {
        match own {
            PlanFault::Text(fault) => TopFault::PlanText(fault),
            PlanFault::Shape(fault) => TopFault::PlanShape(fault),
            PlanFault::Memory => TopFault::Memory,
        }
    }
}

impl From<RuleFault> for TopFault {
    ghost from_gives = { λ own fault. fault ≡ PlanRule own };

    fn from(own: RuleFault) -> TopFault {
        TopFault::PlanRule(own)
    }
}

impl From<ReportError> for TopFault {
    ghost from_gives = { λ own fault. fault ≡ of_report own };

    fn from(own: ReportError) -> TopFault {
        match own {
            ReportError::Fault { line } => TopFault::Report {
                code: ReportCode::OutOfForm,
                line,
            },
            ReportError::Memory => TopFault::Memory,
        }
    }
}

impl From<PricesFault> for TopFault {
    ghost from_gives = { λ own fault. fault ≡ of_prices own };

    fn from(own: PricesFault) -> TopFault {
        match own {
            PricesFault::Text(fault) => TopFault::PricesText(fault),
            PricesFault::Price(fault) => TopFault::PricesValue(fault),
            PricesFault::Memory => TopFault::Memory,
        }
    }
}

impl From<MixtureFault> for TopFault {
    ghost from_gives = { λ own fault. fault ≡ of_mixture own };

    fn from(own: MixtureFault) -> TopFault {
        match own {
            MixtureFault::Text(fault) => TopFault::MixtureText(fault),
            MixtureFault::Share(fault) => TopFault::MixtureShare(fault),
            MixtureFault::Memory => TopFault::Memory,
        }
    }
}

impl From<EntryFault> for TopFault {
    ghost from_gives = { λ own fault. fault ≡ MixtureRule own };

    fn from(own: EntryFault) -> TopFault {
        TopFault::MixtureRule(own)
    }
}
