//! The commands, with what their words give them.

use plain_lists::lists::Name;

/// The words of `hull price` and of `hull fixed`.
pub struct PriceWords {
    /// The name of the file with the case.
    pub case_name: Name,
    /// The name of the file with the schedule.
    pub schedule_name: Name,
    /// The most price vectors that are tried, 1 to 10,000; [`DEFAULT_PROPOSALS`] where the words
    /// don't say.
    pub proposals: u32,
    /// The number of workers, 1 to 32; [`DEFAULT_WORKERS`] where the words don't say.
    pub workers: u32,
    /// How many proposals may be open ahead of the last answered one, 1 to 16; [`DEFAULT_AHEAD`]
    /// where the words don't say.
    pub ahead: u32,
}

// By hand, so that dropping it is one call.
impl Drop for PriceWords {
    fn drop(self) {
        let PriceWords {
            case_name: _,
            schedule_name: _,
            proposals: _,
            workers: _,
            ahead: _,
        } = self;
    }
}

/// The words of `hull check`.
#[derive(Drop)]
pub struct CheckWords {
    /// The name of the file with the case.
    pub case_name: Name,
    /// The name of the file with the schedule.
    pub schedule_name: Name,
}

/// The words of `hull try`.
#[derive(Drop)]
pub struct TryWords {
    /// The number that the case and the schedule are generated from.
    pub number: u64,
    /// As in [`PriceWords`].
    pub proposals: u32,
    /// As in [`PriceWords`].
    pub workers: u32,
    /// As in [`PriceWords`].
    pub ahead: u32,
}

/// The words of `hull bound`.
#[derive(Drop)]
pub struct BoundWords {
    /// What the run needs, as for `hull price`.
    pub run: PriceWords,
    /// How far each price may be from the chosen one, in thousandths of the currency per MW and
    /// period, 0 to 20,000,000; [`DEFAULT_RADIUS`] where the words don't say.
    pub radius: i64,
}

/// The words of `hull audit`.
pub struct AuditWords {
    /// The name of the file with the case.
    pub case_name: Name,
    /// The name of the file with the schedule.
    pub schedule_name: Name,
    /// The name of the file with the report.
    pub report_name: Name,
    /// The number of workers, 1 to 32; [`DEFAULT_WORKERS`] where the words don't say.
    pub workers: u32,
}

// By hand, so that dropping it is one call.
impl Drop for AuditWords {
    fn drop(self) {
        let AuditWords {
            case_name: _,
            schedule_name: _,
            report_name: _,
            workers: _,
        } = self;
    }
}

/// The words of `hull settle`.
pub struct SettleWords {
    /// The name of the file with the case.
    pub case_name: Name,
    /// The name of the file with the schedule.
    pub schedule_name: Name,
    /// The name of the file with the prices.
    pub prices_name: Name,
}

// By hand, so that dropping it is one call.
impl Drop for SettleWords {
    fn drop(self) {
        let SettleWords {
            case_name: _,
            schedule_name: _,
            prices_name: _,
        } = self;
    }
}

/// The words of `hull certify`.
pub struct CertifyWords {
    /// The names of the case, the schedule and the prices, as for `hull settle`.
    pub names: SettleWords,
    /// The name of the file with the mixture.
    pub mixture_name: Name,
    /// How far each price may be from the given one, in thousandths of the currency per MW and
    /// period, 0 to 20,000,000; [`DEFAULT_RADIUS`] where the words don't say.
    pub radius: i64,
}

// By hand, so that dropping it is one call.
impl Drop for CertifyWords {
    fn drop(self) {
        let CertifyWords {
            names: _,
            mixture_name: _,
            radius: _,
        } = self;
    }
}

/// The words of `hull convex`.
pub struct ConvexWords {
    /// The name of the file with the case.
    pub case_name: Name,
    /// The name of the file with the schedule.
    pub schedule_name: Name,
    /// The search ends where the distance is at most this, in money, 0 to 1,000,000,000,000;
    /// [`DEFAULT_WITHIN`] where the words don't say.
    pub within: u64,
    /// The most rounds of the search, 1 to 1,000, where the words say.
    pub rounds: Option<u32>,
}

// By hand, so that dropping it is one call.
impl Drop for ConvexWords {
    fn drop(self) {
        let ConvexWords {
            case_name: _,
            schedule_name: _,
            within: _,
            rounds: _,
        } = self;
    }
}

/// A command with its words.
pub enum Command {
    /// Runs the price rule and reports.
    Price(PriceWords),
    /// Checks that a schedule is feasible, and prints its cost.
    Check(CheckWords),
    /// Runs the price rule on a generated case.
    Try(TryWords),
    /// Certifies how far the chosen prices are from the best ones near by.
    Bound(BoundWords),
    /// Compares with the prices that hold where the schedule's commitments are fixed.
    Fixed(PriceWords),
    /// Says whether a report is right.
    Audit(AuditWords),
    /// Settles given prices.
    Settle(SettleWords),
    /// Certifies given prices by a mixture of schedules.
    Certify(CertifyWords),
    /// Searches for convex hull prices, and certifies those that it found.
    Convex(ConvexWords),
}

// By hand, so that dropping it is one call.
impl Drop for Command {
    fn drop(self) {
        match self {
            Command::Price(_words) => {}
            Command::Check(_words) => {}
            Command::Try(_words) => {}
            Command::Bound(_words) => {}
            Command::Fixed(_words) => {}
            Command::Audit(_words) => {}
            Command::Settle(_words) => {}
            Command::Certify(_words) => {}
            Command::Convex(_words) => {}
        }
    }
}
