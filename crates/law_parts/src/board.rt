//! Laws on the histories of a board: each is the contract of a function that does nothing.
ghost use Rattle.uc_model.specs.Runs.{Fits};
ghost use Rattle.board_store.specs.TaskDifference.{SameTask};
ghost use Rattle.board_store.specs.Totals.{TotalsRun};
ghost use Rattle.law_parts.specs.BoardLaws.{WordsMean, PostsMean, StepsAreMachine, CallsStayLegal};
ghost use Rattle.law_parts.specs.BoardLaws.{RowsAreRight, EventsAreAtMost, HaltsChangeNothing};
ghost use Rattle.law_parts.specs.OneCaller.{HeldIsTaken, ClaimsAreGiven, GivenIsTaken};

/// What the machine means. `words`: a proposal is closed where each of its units is posted, it is
/// open for work where each proposal from 1 to so many before it is closed and none of those is
/// settled, and the board has finished where every proposal that is open is closed. `posts`: what
/// each answer of a post says, that the task's proposal isn't open, or its unit isn't there; that
/// its prices or its unit aren't the board's own; that an answer stands; that another holds the
/// task; and else that the answer is taken, and whether it closed the proposal. `steps`: a legal
/// history's events are what the machine makes, so an event may come next exactly where some call
/// appends it, and the answer of a post is right. `calls`: each call of a caller keeps a history
/// legal, where the answer of a post is right for the task that is posted, with its own unit and
/// prices.
pub fn machine_means()
    ensures words { WordsMean }
    ensures posts { PostsMean }
    ensures steps { StepsAreMachine }
    ensures calls { CallsStayLegal }
{}

/// What every legal history keeps. `rows`: its rows are right, as far as they go. `events`: there
/// are at most as many claims as tasks, as many posts, and one halt for each caller, so at most
/// twice as many entries as tasks, and one for each caller. `halts`: without its halts it is legal
/// and has the same rows, so a halt never changes a price or a value. `totals`: they may run while
/// answers come in, each answer adds what it gives and earns. `tasks`: two whose flat lists have
/// the same number at each place that both have are of the same prices and the same unit.
pub fn histories_keep()
    ensures rows { RowsAreRight Fits }
    ensures events { EventsAreAtMost }
    ensures halts { HaltsChangeNothing Fits }
    ensures totals { TotalsRun }
    ensures tasks { SameTask }
{}

/// Rounds of one caller. `held`: an answer for a task that the caller holds, at its proposal's
/// prices, is taken where the task has none yet. `given`: where nobody has halted and every task
/// that was claimed is posted, a claim is given or the board has finished. `taken`: where one
/// caller claims a task and then posts an answer for that very task, the answer is taken, every
/// task that was claimed is posted again, and there is one post more. By the `events` of
/// `histories_keep` such rounds end.
pub fn lone_caller_goes_on()
    ensures held { HeldIsTaken }
    ensures given { ClaimsAreGiven }
    ensures taken { GivenIsTaken }
{}
