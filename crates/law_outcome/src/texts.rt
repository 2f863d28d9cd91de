//! Laws over texts that are printed: each is the contract of a function that answers nothing.
ghost use Rattle.law_outcome.specs.SettledTexts.{SettlementsHaveForm, TextTellsTheSettlement};
ghost use Rattle.law_outcome.specs.SearchTexts.{TextTellsTheSearch};

use price_settle::laws::plan_has_at_most_one_settlement;
use report_form::laws::{text_determines_the_convex_report, text_determines_the_settlement};
use uc_model::laws::unit_numbers_go_by_kind;

/// What `plan_settle::settle_at` answers has the form of which the text of `hull settle` tells
/// all: its renewable units and bids are on in every period, with reserve 0.
pub fn settlements_have_form()
    ensures { SettlementsHaveForm }
{
    unit_numbers_go_by_kind();
}

/// Two settlements of a plan that have one text are one, so what `hull settle` prints tells the
/// settlement.
pub fn text_tells_the_settlement()
    ensures { TextTellsTheSettlement }
{
    settlements_have_form();
    text_determines_the_settlement();
    plan_has_at_most_one_settlement();
}

/// What two searches for a plan found is one where it has one text, so what `hull convex` prints tells
/// prices, settlement, mixture and bound.
pub fn text_tells_the_search()
    ensures { TextTellsTheSearch }
{
    settlements_have_form();
    text_determines_the_convex_report();
    plan_has_at_most_one_settlement();
}
