//! Laws over texts: each is the contract of a function that does nothing.
ghost use Rattle.report_form.specs.Laws.{GainsAddUp, TextDeterminesReport};
ghost use Rattle.report_form.specs.SettlementText.{TextDeterminesSettlement};
ghost use Rattle.report_form.specs.CertificateText.{TextDeterminesCertificate};
ghost use Rattle.report_form.specs.ConvexText.{TextDeterminesConvex};

use hull_io::Sink;

/// Two texts that a sink gained one after the other are one text that it gained. Where the second
/// was cut short, so was the one; where the first was, so is any text that goes on from it.
pub fn texts_written_in_turn_add_up<S: Sink>()
    ensures { GainsAddUp S.held S.faults S.last }
{}

/// Two reports with equal texts are equal, so what is printed tells the report. Of renewable units
/// and bids only the power is told: they are on in every period of it, with reserve 0.
pub fn text_determines_the_report()
    ensures { TextDeterminesReport }
{}

/// Two settlements with equal texts are equal, in the same way.
pub fn text_determines_the_settlement()
    ensures { TextDeterminesSettlement }
{}

/// Two certificates with equal texts are equal.
pub fn text_determines_the_certificate()
    ensures { TextDeterminesCertificate }
{}

/// Two searches for convex hull prices with equal texts are equal: prices, settlement, mixture and
/// bound. Of renewable units and bids only the power is told, as in a settlement.
pub fn text_determines_the_convex_report()
    ensures { TextDeterminesConvex }
{}
