//! Runs that end as worked by hand, or as other programs do.

use crate::runs::{Run, runs_end};
use crate::texts::{
    AUDIT, BOUND, CERTIFY, CERTIFY_NEAR, CHECK, FIXED, NO_UNITS, ONE_BID, ONE_BID_CHECK, PRICE,
    RIGHT, SETTLE, SMALLEST, SMALLEST_REPORT, SMALLEST_SCHEDULE, TRY, TWO_BIDS, TWO_BIDS_REPORT,
    TWO_BIDS_SCHEDULE, TWO_PERIODS, TWO_PROPOSALS, TWO_PROPOSALS_BOUND, TWO_PROPOSALS_FIXED,
    TWO_UNITS, TWO_UNITS_CHECK, TWO_UNITS_FIXED, TWO_UNITS_PLANNED, TWO_UNITS_REPORT,
    TWO_UNITS_SCHEDULE, USUAL, USUAL_CERTIFIED, USUAL_MIXTURE, USUAL_REPORT, USUAL_SCHEDULE,
    USUAL_SETTLED, USUAL_WEIGHED, USUAL_WEIGHED_CERTIFIED, USUAL_WEIGHED_NEAR, WINDOW,
    WINDOW_REPORT, WINDOW_SCHEDULE,
};
use std::test::Fail;

const WORKED: &[Run] = &[
    (
        &PRICE,
        (SMALLEST, SMALLEST_SCHEDULE, b""),
        (0, SMALLEST_REPORT),
    ),
    (&PRICE, TWO_UNITS_PLANNED, (0, TWO_UNITS_REPORT)),
    (
        &[
            "price",
            "--case=c",
            "--schedule=s",
            "--proposals=2",
            "--ahead=1",
        ],
        TWO_UNITS_PLANNED,
        (0, TWO_PROPOSALS),
    ),
    (&BOUND, TWO_UNITS_PLANNED, (0, TWO_PROPOSALS_BOUND)),
    (
        &[
            "fixed",
            "--case=c",
            "--schedule=s",
            "--proposals=1",
            "--ahead=1",
        ],
        TWO_UNITS_PLANNED,
        (0, TWO_UNITS_FIXED),
    ),
    (&FIXED, TWO_UNITS_PLANNED, (0, TWO_PROPOSALS_FIXED)),
    (&PRICE, (USUAL, USUAL_SCHEDULE, b""), (0, USUAL_REPORT)),
    (&CHECK, TWO_UNITS_PLANNED, (0, TWO_UNITS_CHECK)),
    (
        &["try", "7", "--proposals", "6765"],
        ("", "", b""),
        (5, b"fault 5 work 6765 154 48\n"),
    ),
    (&[], ("", "", b""), (1, b"fault 1 words 1 0\n")),
    (
        &["price", "--case", "a", "--case", "b"],
        ("", "", b""),
        (1, b"fault 1 words 4 4\n"),
    ),
    (
        &["check", "--case", "c", "--schedule", "t"],
        TWO_UNITS_PLANNED,
        (2, b"fault 2 read schedule\n"),
    ),
    (
        &CHECK,
        (NO_UNITS, "{}", b""),
        (
            3,
            b"fault 3 case 31 field renewable_generators kind case unit 0 item 0\n",
        ),
    ),
    (
        &CHECK,
        ("{\"time_periods\":1", "{}", b""),
        (3, b"fault 3 case 10 at 17\n"),
    ),
    (
        &CHECK,
        (SMALLEST, "[1,]", b""),
        (4, b"fault 4 schedule 10 at 3\n"),
    ),
    (
        &CHECK,
        (SMALLEST, "{}", b""),
        (4, b"fault 4 schedule 42 kind case unit 0 item 0\n"),
    ),
    (
        &CHECK,
        (
            SMALLEST,
            "{\"thermal\":{},\"renewable\":{\"W\":[0.5]}}",
            b"",
        ),
        (4, b"fault 4 schedule 43 kind renewable unit 1 item 1\n"),
    ),
    (
        &CHECK,
        (
            SMALLEST,
            "{\"thermal\":{},\"renewable\":{\"W\":[99999]}}",
            b"",
        ),
        (
            4,
            b"fault 4 schedule 54 kind case unit 0 period 1 left 99999 right 100000\n",
        ),
    ),
    (
        &CHECK,
        (
            TWO_PERIODS,
            "{\"thermal\":{},\"renewable\":{\"W\":[100,99]}}",
            b"",
        ),
        (
            4,
            b"fault 4 schedule 54 kind case unit 0 period 2 left 99 right 100\n",
        ),
    ),
    (
        &CHECK,
        (
            SMALLEST,
            "{\"thermal\":{},\"renewable\":{\"W\":[100000]}}",
            b"",
        ),
        (
            0,
            b"hull-check 1\nperiods 1 thermal 0 renewable 1\ncost 0\nfeasible\n",
        ),
    ),
    (
        &CHECK,
        (
            ONE_BID,
            "{\"thermal\":{},\"renewable\":{\"W\":[100]},\"bids\":{\"D\":[100]}}",
            b"",
        ),
        (0, ONE_BID_CHECK),
    ),
];

#[test]
fn runs_answer_as_worked(rt: HostRuntime) -> Result<(), Fail> {
    Ok(runs_end(&rt, rt.alloc(), WORKED)?)
}

// Want of memory is free, so only these tell a program that runs from one that gives up: more than
// one period, a bid, a window, proposals ahead, and a generated case. The expected texts are those
// of other programs.
const ANSWERED: &[Run] = &[
    (
        &[
            "price",
            "--case=c",
            "--schedule=s",
            "--proposals=4",
            "--ahead=2",
        ],
        (TWO_BIDS, TWO_BIDS_SCHEDULE, b""),
        (0, TWO_BIDS_REPORT),
    ),
    (
        &["price", "--case=c", "--schedule=s", "--proposals=4"],
        (WINDOW, WINDOW_SCHEDULE, b""),
        (0, WINDOW_REPORT),
    ),
    (&["try", "7", "--proposals", "12"], ("", "", b""), (0, TRY)),
];

#[test]
fn runs_answer_as_other_programs_do(rt: HostRuntime) -> Result<(), Fail> {
    Ok(runs_end(&rt, rt.alloc(), ANSWERED)?)
}

// Two right reports, that of another case, and one that isn't there.
const AUDITED: &[Run] = &[
    (
        &AUDIT,
        (TWO_UNITS, TWO_UNITS_SCHEDULE, TWO_UNITS_REPORT),
        (0, RIGHT),
    ),
    (
        &AUDIT,
        (TWO_UNITS, TWO_UNITS_SCHEDULE, TWO_PROPOSALS),
        (0, b"hull-audit 1\nproposals 2\nright\n"),
    ),
    (
        &AUDIT,
        (TWO_UNITS, TWO_UNITS_SCHEDULE, USUAL_REPORT),
        (8, b"fault 8 report 61 at 6\n"),
    ),
    (
        &["audit", "--case=c", "--schedule=s", "--report=t"],
        (TWO_UNITS, TWO_UNITS_SCHEDULE, TWO_UNITS_REPORT),
        (2, b"fault 2 read report\n"),
    ),
];

#[test]
fn audits_answer_as_worked(rt: HostRuntime) -> Result<(), Fail> {
    let unended = &TWO_UNITS_REPORT[..TWO_UNITS_REPORT.len() - 1];
    let texts = (TWO_UNITS, TWO_UNITS_SCHEDULE, unended);
    let text = b"fault 8 report 60 at 25\n".as_slice();
    runs_end(&rt, rt.alloc(), &[(&AUDIT, texts, (8, text))])?;
    Ok(runs_end(&rt, rt.alloc(), AUDITED)?)
}

// Prices for the usual case, with the end that is due. 10,000.0004 is read as 10,000, the highest
// price, and -0.0005 as 0.
const SETTLED: &[(&[u8], u8, &[u8])] = &[
    (b"{\"energy\":[98]}", 0, USUAL_SETTLED),
    (
        b"{\"reserve\":[-0.0005],\"energy\":[9.8e1]}",
        0,
        USUAL_SETTLED,
    ),
    (b"[1,]", 9, b"fault 9 prices 10 at 3\n"),
    (b"[]", 9, b"fault 9 prices 21 field whole item 0\n"),
    (b"{}", 9, b"fault 9 prices 20 field energy item 0\n"),
    (
        b"{\"energy\":[98,98]}",
        9,
        b"fault 9 prices 25 field energy item 0\n",
    ),
    (
        b"{\"energy\":[\"98\"]}",
        9,
        b"fault 9 prices 21 field energy item 1\n",
    ),
    (
        b"{\"energy\":[10000.0005]}",
        9,
        b"fault 9 prices 24 field energy item 1\n",
    ),
    (
        b"{\"energy\":[10000.0004],\"reserve\":null}",
        9,
        b"fault 9 prices 21 field reserve item 0\n",
    ),
    (
        b"{\"energy\":[1],\"reserve\":[-0.0006]}",
        9,
        b"fault 9 prices 23 field reserve item 1\n",
    ),
];

// No file has this name.
const UNTOLD: [&str; 4] = ["settle", "--case=c", "--schedule=s", "--prices=t"];

#[test]
fn settlements_answer_as_worked(rt: HostRuntime) -> Result<(), Fail> {
    for (prices, status, text) in SETTLED {
        let texts = (USUAL, USUAL_SCHEDULE, *prices);
        runs_end(&rt, rt.alloc(), &[(&SETTLE, texts, (*status, *text))])?;
    }
    let texts = (USUAL, USUAL_SCHEDULE, b"{}".as_slice());
    let text = b"fault 2 read prices\n".as_slice();
    Ok(runs_end(&rt, rt.alloc(), &[(&UNTOLD, texts, (2, text))])?)
}

const CERTIFIED: &[Run] = &[
    (
        &CERTIFY,
        (USUAL, USUAL_SCHEDULE, USUAL_MIXTURE),
        (0, USUAL_CERTIFIED),
    ),
    (
        &CERTIFY,
        (USUAL, USUAL_SCHEDULE, USUAL_WEIGHED),
        (0, USUAL_WEIGHED_CERTIFIED),
    ),
    (
        &CERTIFY_NEAR,
        (USUAL, USUAL_SCHEDULE, USUAL_WEIGHED),
        (0, USUAL_WEIGHED_NEAR),
    ),
];

// Mixtures that are refused for the usual case. G1 gives 8 MW at least.
const UNMIXED: &[(&[u8], &[u8])] = &[
    (b"{\"weight\":1,}", b"fault 10 mixture 10 at 12\n"),
    (
        b"[]",
        b"fault 10 mixture 42 kind case unit 0 entry 0 item 0\n",
    ),
    (
        b"{\"weight\":0,\"thermal\":{\"G1\":[]}}",
        b"fault 10 mixture 62 kind case unit 0 entry 0 item 0\n",
    ),
    (
        b"{\"weight\":1,\"thermal\":{\"W1\":[]}}",
        b"fault 10 mixture 40 kind thermal unit 1 entry 0 item 0\n",
    ),
    (
        b"{\"weight\":1,\"thermal\":{}}",
        b"fault 10 mixture 41 kind thermal unit 1 entry 0 item 0\n",
    ),
    (
        b"{\"weight\":1,\"thermal\":{\"G1\":[]}}",
        b"fault 10 mixture 42 kind thermal unit 1 entry 0 item 0\n",
    ),
    (
        b"{\"weight\":1,\"thermal\":{\"G1\":\
        [{\"weight\":1,\"on\":[1],\"power\":[7999],\"reserve\":[2000]}]}}",
        b"fault 10 mixture 48 kind thermal unit 1 entry 1 period 1 left 8000 right 7999\n",
    ),
    (
        b"{\"weight\":1,\"thermal\":{\"G1\":[{\"weight\":1,\"on\":[1],\"power\":[8000],\"reserve\":[0]},\
        {\"weight\":0,\"on\":[2],\"power\":[0],\"reserve\":[0]}]}}",
        b"fault 10 mixture 43 kind thermal unit 1 entry 2 item 1\n",
    ),
    (
        b"{\"weight\":10,\"thermal\":{\"G1\":[{\"weight\":7,\"on\":[1],\"power\":[10000],\"reserve\":[0]},\
        {\"weight\":4,\"on\":[0],\"power\":[0],\"reserve\":[0]}]}}",
        b"fault 10 mixture 62 kind thermal unit 1 entry 0 item 0\n",
    ),
    (
        b"{\"weight\":10,\"thermal\":{\"G1\":\
        [{\"weight\":11,\"on\":[1],\"power\":[10000],\"reserve\":[0]}]}}",
        b"fault 10 mixture 62 kind thermal unit 1 entry 1 item 0\n",
    ),
];

// No file has this name.
const UNTOLD_MIXTURE: [&str; 5] = [
    "certify",
    "--case=c",
    "--schedule=s",
    "--prices=p",
    "--mixture=t",
];

#[test]
fn certificates_answer_as_worked(rt: HostRuntime) -> Result<(), Fail> {
    runs_end(&rt, rt.alloc(), CERTIFIED)?;
    for (mixture, text) in UNMIXED {
        let texts = (USUAL, USUAL_SCHEDULE, *mixture);
        runs_end(&rt, rt.alloc(), &[(&CERTIFY, texts, (10, *text))])?;
    }
    let texts = (USUAL, USUAL_SCHEDULE, b"{}".as_slice());
    let text = b"fault 2 read mixture\n".as_slice();
    Ok(runs_end(&rt, rt.alloc(), &[(&UNTOLD_MIXTURE, texts, (2, text))])?)
}
