use crate::same::{same, same_of};
use hull_words::{Command, ConvexWords, PriceWords, SettleWords, TryWords, WordError, read_words};
use std::alloc::{AllocError, Global};
use std::test::Fail;

/// The words of a line, one space between two of them.
fn words_of(alloc: Global, line: &str) -> Result<Vec<String>, AllocError> {
    let mut words = Vec::new(alloc);
    for word in line.split(' ') {
        words.push(String::from_str(alloc, word)?)?;
    }
    Ok(words)
}

/// The code and the position of the fault that words have, or two zeros.
fn fault_of(alloc: Global, words: &[String]) -> Result<(u32, u32), AllocError> {
    match read_words(alloc, words) {
        Err(WordError::Fault(fault)) => Ok((fault.code.number(), fault.position)),
        Err(WordError::Memory) => Err(AllocError),
        Ok(_) => Ok((0, 0)),
    }
}

fn fault_of_line(alloc: Global, line: &str) -> Result<(u32, u32), AllocError> {
    let words = words_of(alloc, line)?;
    fault_of(alloc, &words)
}

fn price_text(alloc: Global, words: &PriceWords) -> Result<String, AllocError> {
    let case_name = words.case_name.as_str();
    let schedule_name = words.schedule_name.as_str();
    let PriceWords {
        proposals,
        workers,
        ahead,
        ..
    } = words;
    format!(in alloc; "{case_name} {schedule_name} {proposals} {workers} {ahead}")
}

fn settle_text(alloc: Global, words: &SettleWords) -> Result<String, AllocError> {
    let case_name = words.case_name.as_str();
    let schedule_name = words.schedule_name.as_str();
    let prices_name = words.prices_name.as_str();
    format!(in alloc; "{case_name} {schedule_name} {prices_name}")
}

/// With 0 rounds where the words say none.
fn convex_text(alloc: Global, words: &ConvexWords) -> Result<String, AllocError> {
    let case_name = words.case_name.as_str();
    let schedule_name = words.schedule_name.as_str();
    let within = words.within;
    let rounds = words.rounds.unwrap_or(0);
    format!(in alloc; "convex {case_name} {schedule_name} {within} {rounds}")
}

/// The command and its values in the order of its fields.
fn command_text(alloc: Global, command: &Command) -> Result<String, AllocError> {
    match command {
        Command::Price(words) => {
            let run = price_text(alloc, words)?;
            format!(in alloc; "price {run}")
        }
        Command::Check(words) => {
            let case_name = words.case_name.as_str();
            let schedule_name = words.schedule_name.as_str();
            format!(in alloc; "check {case_name} {schedule_name}")
        }
        Command::Try(words) => {
            let TryWords {
                number,
                proposals,
                workers,
                ahead,
            } = words;
            format!(in alloc; "try {number} {proposals} {workers} {ahead}")
        }
        Command::Bound(words) => {
            let run = price_text(alloc, &words.run)?;
            let radius = words.radius;
            format!(in alloc; "bound {run} {radius}")
        }
        Command::Fixed(words) => {
            let run = price_text(alloc, words)?;
            format!(in alloc; "fixed {run}")
        }
        Command::Audit(words) => {
            let case_name = words.case_name.as_str();
            let schedule_name = words.schedule_name.as_str();
            let report_name = words.report_name.as_str();
            let workers = words.workers;
            format!(in alloc; "audit {case_name} {schedule_name} {report_name} {workers}")
        }
        Command::Settle(words) => {
            let names = settle_text(alloc, words)?;
            format!(in alloc; "settle {names}")
        }
        Command::Certify(words) => {
            let names = settle_text(alloc, &words.names)?;
            let mixture_name = words.mixture_name.as_str();
            let radius = words.radius;
            format!(in alloc; "certify {names} {mixture_name} {radius}")
        }
        Command::Convex(words) => convex_text(alloc, words),
    }
}

/// Lines of words, each with the code and the position of its fault.
const FAULTS: &[(&str, u32, u32)] = &[
    // 2: no command
    ("", 2, 1),
    ("Price", 2, 1),
    ("--help", 2, 1),
    ("prices --case a", 2, 1),
    // 3: no option of the command
    ("price --version", 3, 2),
    ("price --", 3, 2),
    ("price --=x", 3, 2),
    ("price --cas=a", 3, 2),
    ("price --radius 5", 3, 2),
    ("check --case a --proposals 5", 3, 4),
    ("try 7 --case", 3, 3),
    ("bound --case a --report b", 3, 4),
    ("fixed --radius=1", 3, 2),
    ("audit --ahead 2", 3, 2),
    ("audit --prices p", 3, 2),
    ("settle --workers 1", 3, 2),
    ("settle --radius=1", 3, 2),
    ("settle --mixture m", 3, 2),
    ("certify --workers 1", 3, 2),
    ("certify --within 5", 3, 2),
    ("price --rounds 5", 3, 2),
    ("convex --workers 1", 3, 2),
    ("convex --radius=1", 3, 2),
    ("convex --prices p", 3, 2),
    // 4: given before
    ("price --case a --case b", 4, 4),
    ("price --proposals=1 --proposals=0", 4, 3),
    ("check --schedule a --schedule", 4, 4),
    ("try --ahead 16 7 --ahead", 4, 5),
    ("bound --radius 0 --radius=0", 4, 4),
    ("fixed --workers 1 --workers -", 4, 4),
    ("audit --report=a --report", 4, 3),
    ("settle --prices p --case a --prices=p", 4, 6),
    ("certify --mixture p --case a --mixture=p", 4, 6),
    ("convex --within 1 --case a --within", 4, 6),
    ("convex --rounds=1 --rounds=1", 4, 3),
    // 5: no value
    ("price --case", 5, 2),
    ("price --case= a", 5, 2),
    ("price --case --schedule b", 5, 2),
    ("price --proposals=-1", 5, 2),
    ("check --schedule ", 5, 2),
    ("try --workers -1", 5, 2),
    ("bound --radius=", 5, 2),
    ("fixed --case=missing --schedule=-", 5, 3),
    ("audit --report -b", 5, 2),
    ("settle --case a --prices", 5, 4),
    ("certify --radius", 5, 2),
    ("convex --rounds", 5, 2),
    ("convex --case a --within=", 5, 4),
    // 6: no number of the range
    ("price --proposals 0", 6, 2),
    ("price --proposals 10001", 6, 2),
    ("price --workers=0", 6, 2),
    ("price --workers 33", 6, 2),
    ("price --ahead 0", 6, 2),
    ("bound --radius 20000001", 6, 2),
    ("bound --ahead 1 --radius +5", 6, 4),
    ("certify --radius 20000001", 6, 2),
    ("convex --rounds 0", 6, 2),
    ("convex --rounds=1001", 6, 2),
    ("convex --case a --schedule b --within 1000000000001", 6, 6),
    ("fixed --ahead 1_0", 6, 2),
    ("audit --workers 1.0", 6, 2),
    ("try 7 --ahead 17", 6, 3),
    ("try 7 --ahead 000000000000000000016", 6, 3),
    ("try 18446744073709551616", 6, 2),
    ("try 000000000000000000001", 6, 2),
    ("try -5", 6, 2),
    ("try x", 6, 2),
    ("try ", 6, 2),
    // 7: something is missing
    ("price --case=a", 7, 2),
    ("price --schedule a --ahead 1", 7, 5),
    ("check", 7, 1),
    ("try --ahead 2", 7, 3),
    ("bound --schedule 00 --ahead 2 --radius 7", 7, 7),
    ("fixed --case a", 7, 3),
    ("audit --case a --schedule b", 7, 5),
    ("audit --report missing --schedule missing", 7, 5),
    ("settle --case a --schedule b", 7, 5),
    ("settle --prices=p --schedule b", 7, 4),
    ("certify --case a --schedule b --prices p --radius 0", 7, 9),
    ("certify --mixture=m --case=a --schedule=b", 7, 4),
    ("convex --case a", 7, 3),
    ("convex --within 5 --rounds 5 --schedule b", 7, 7),
    // 8: a word too much
    ("price 7", 8, 2),
    ("price --case=a --schedule=b -5", 8, 4),
    ("check --case a b", 8, 4),
    ("try 7 8", 8, 3),
    ("try 7 x", 8, 3),
    (
        "bound --radius 1 --workers=2 --ahead 2 --case=a --schedule b 18446744073709551616 1",
        8,
        10,
    ),
    ("fixed --case a --schedule b ", 8, 6),
    ("audit --case a --workers 2 1 --schedule=b --report=c", 8, 6),
    ("settle 7 --case a", 8, 2),
    ("certify --case a 7", 8, 4),
    ("convex --case a 7", 8, 4),
];

#[test]
fn faults(rt: HostRuntime) -> Result<(), Fail> {
    let alloc = rt.alloc();
    same(&rt, fault_of(alloc, &[])?, (1, 0));
    for (line, code, position) in FAULTS {
        same_of(&rt, &line, fault_of_line(alloc, line)?, (*code, *position));
    }
    Ok(())
}

/// Lines of words, each with its command.
const COMMANDS: &[(&str, &str)] = &[
    ("price --case a --schedule b", "price a b 100 4 4"),
    (
        "price --ahead=16 --workers 32 --schedule=x=y --proposals 10000 --case=é",
        "price é x=y 10000 32 16",
    ),
    ("check --schedule=b --case a", "check a b"),
    ("try 007", "try 7 100 4 4"),
    (
        "try --proposals 00000000000000000001 --ahead 1 18446744073709551615 --workers=1",
        "try 18446744073709551615 1 1 1",
    ),
    ("bound --case a --schedule b", "bound a b 100 4 4 20000000"),
    (
        "bound --radius 0 --case a --schedule b --ahead 2",
        "bound a b 100 4 2 0",
    ),
    (
        "fixed --case a --schedule b --workers 5",
        "fixed a b 100 5 4",
    ),
    ("audit --report c --case a --schedule b", "audit a b c 4"),
    (
        "audit --workers=1 --case try --schedule 7 --report a--b",
        "audit try 7 a--b 1",
    ),
    ("settle --prices p --case a --schedule b", "settle a b p"),
    (
        "certify --mixture m --prices p --case a --schedule b",
        "certify a b p m 20000000",
    ),
    (
        "certify --radius=0 --case a --schedule=b --mixture=c --prices a",
        "certify a b a c 0",
    ),
    ("convex --case a --schedule b", "convex a b 1000000 0"),
    (
        "convex --rounds=1000 --within 0 --schedule=b --case a",
        "convex a b 0 1000",
    ),
    (
        "convex --within 1000000000000 --rounds 1 --case=a --schedule b",
        "convex a b 1000000000000 1",
    ),
];

fn command_of_line(alloc: Global, line: &str) -> Result<Command, WordError> {
    let words = words_of(alloc, line)?;
    read_words(alloc, &words)
}

fn text_of_line(alloc: Global, line: &str) -> Result<Result<String, AllocError>, WordError> {
    let command = command_of_line(alloc, line)?;
    Ok(command_text(alloc, &command))
}

#[test]
fn commands(rt: HostRuntime) -> Result<(), Fail> {
    let alloc = rt.alloc();
    for (line, want) in COMMANDS {
        let text = text_of_line(alloc, line)??;
        same(&rt, text.as_str(), *want);
    }
    Ok(())
}
