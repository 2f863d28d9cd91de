use crate::same::{same, same_of};
use report_read::{Report, ReportError, UnitLine, read_report};
use std::alloc::{AllocError, Global};
use std::process::Abort;
use std::string::String;
use std::test::Fail;
use uc_model::kinds::Kind;

/// Two units at one price, as the rows of a run have them.
const TWO_UNITS: &str = "hull-report 1\n\
    periods 1\nunits 2\nbudget 1\nahead 1\ncost 3500\nproposals 1\n\
    proposal 1 value 2500\nenergy 30\nreserve 0\nsupplied 100\nreserved 0\n\
    chosen 1 value 2500\n\
    unit thermal \"A\" earned 2000 scheduled 1000 payment 1000\n\
    on 1\npower 100\nreserve 0\n\
    unit thermal \"B\" earned 0 scheduled 0 payment 0\n\
    on 0\npower 0\nreserve 0\n\
    surplus 0\npayments 1000\ngap 1000\nend\n";

const FIRST_UNIT: &str = "unit thermal \"A\" earned 2000 scheduled 1000 payment 1000\n\
    on 1\npower 100\nreserve 0\n";

/// The line in fault, and 0 where there is none.
fn line_of(alloc: Global, bytes: &[u8]) -> Result<u32, Fail> {
    if bytes.len() > 10_000 {
        return Err(Fail::new("the text is too long"));
    }
    match read_report(alloc, bytes) {
        Ok(_) => Ok(0),
        Err(ReportError::Fault { line }) => Ok(line),
        Err(ReportError::Memory) => Err(Fail::from(AllocError)),
    }
}

/// The text with one part in place of another.
fn changed(alloc: Global, old: &str, new: &str) -> Result<String, Fail> {
    let mut text = String::new(alloc);
    match TWO_UNITS.split_once(old) {
        Some((front, back)) => {
            text.push_str(front)?;
            text.push_str(new)?;
            text.push_str(back)?;
        }
        None => {}
    }
    Ok(text)
}

fn line_of_changed(alloc: Global, old: &str, new: &str) -> Result<u32, Fail> {
    let text = changed(alloc, old, new)?;
    line_of(alloc, text.as_bytes())
}

/// A part of the text, what stands in its place, and the line in fault.
const CHANGES: &[(&str, &str, u32)] = &[
    ("energy 30", "energy 030", 9),
    ("end\n", "end", 25),
    ("end\n", "end\n\n", 26),
    ("end\n", "end\nx", 26),
    ("proposals 1", "proposals 0", 7),
    ("proposals 1", "proposals 4294967296", 7),
    ("proposals 1", "proposals 2", 13),
    ("reserve 0\nsupplied", "reserve -0\nsupplied", 10),
    ("reserve 0\nsupplied", "reserve -1\nsupplied", 10),
    ("energy 30", "energy 10000001", 9),
    ("energy 30", "energy -10000000", 0),
    ("energy 30", "energy 30 30", 9),
    ("units 2", "units 3", 22),
    ("units 2", "units 1", 18),
    ("periods 1", "periods 169", 2),
    ("budget 1", "budget 10001", 4),
    ("ahead 1", "ahead 17", 5),
    ("cost 3500\n", "cost 3500\r\n", 6),
    ("chosen 1 ", "chosen 4294967295 ", 0),
    ("on 1", "on 2", 15),
    ("power 100", "power 4294967296", 16),
    ("thermal \"B\"", "case \"B\"", 18),
    ("\"A\"", "\"\\u0020\"", 14),
    ("\"A\"", "\"\\u001F\"", 14),
    ("\"A\"", "\"1\\u001f\\\\\\\"\"", 0),
    ("earned 2000", "earned 9223372036854775808", 14),
    (
        "gap 1000",
        "gap -170141183460469231731687303715884105728",
        0,
    ),
    (
        "gap 1000",
        "gap 170141183460469231731687303715884105728",
        24,
    ),
    (
        FIRST_UNIT,
        "unit bid \"A\" earned 2000 scheduled 1000 payment 1000\npower 100\n",
        16,
    ),
    (TWO_UNITS, "", 1),
];

#[test]
fn lines_out_of_form(rt: HostRuntime) -> Result<(), Fail> {
    for (old, new, line) in CHANGES {
        same_of(&rt, &new, line_of_changed(rt.alloc(), old, new)?, *line);
    }
    Ok(())
}

fn line_is(rt: &impl Abort, line: &UnitLine, name: &str, earned: i64, power: u32) {
    assert!(rt; line.kind == Kind::Thermal);
    let due = [power];
    let is = (
        line.name.as_str(),
        line.earned,
        line.response.power.as_slice(),
    );
    same(rt, is, (name, earned, due.as_slice()));
}

fn report_is_of_two(rt: &impl Abort, report: &Report) {
    same(rt, (report.rows.len(), report.lines.len()), (1, 2));
    let sums = (
        report.cost,
        report.chosen_value,
        report.payments,
        report.gap,
    );
    same(rt, sums, (3500, 2500, 1000, 1000));
    assert!(rt; !report.lines.is_empty());
    line_is(rt, report.lines.get(0), "A", 2000, 100);
}

#[test]
fn what_a_report_tells(rt: HostRuntime) -> Result<(), Fail> {
    let report = read_report(rt.alloc(), TWO_UNITS.as_bytes())?;
    report_is_of_two(&rt, &report);
    Ok(())
}
