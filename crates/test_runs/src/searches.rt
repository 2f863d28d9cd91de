//! Runs of `hull convex`. Which prices a search finds isn't said, so what is compared is what holds
//! of any, with numbers that were worked by hand.

use crate::runs::{Edges, Run, SHORT, WHOLE, run, runs_end};
use crate::same::{same, same_of};
use crate::texts::{CERTIFY, SETTLE, SMALLEST, SMALLEST_SCHEDULE, Texts, USUAL, USUAL_SCHEDULE};
use answer_workers::NoGate;
use std::alloc::{AllocError, Global};
use std::process::Abort;
use std::sync::Wait;
use std::test::Fail;
use std::thread::Threads;

const USUAL_PLANNED: Texts<'static> = (USUAL, USUAL_SCHEDULE, b"");

const CONVEX: [&str; 3] = ["convex", "--case=c", "--schedule=s"];

// What a text tells of a search.
#[derive(Drop)]
struct Told {
    made: i64,
    value: i64,
    payments: i64,
    surplus: i64,
    gap: i64,
    bound: i64,
    distance: i64,
    least: i64,
}

// What stands behind a word at the head of a line.
fn rest_of<'a>(text: &'a str, word: &str) -> &'a str {
    for line in text.split('\n') {
        if let Some(rest) = line.strip_prefix(word) {
            return rest;
        }
    }
    ""
}

fn number_after(text: &str, word: &str) -> Option<i64> {
    rest_of(text, word).parse::<i64>().ok()
}

fn told_in(text: &str) -> Option<Told> {
    Some(Told {
        made: number_after(text, "made ")?,
        value: number_after(text, "value ")?,
        payments: number_after(text, "payments ")?,
        surplus: number_after(text, "surplus ")?,
        gap: number_after(text, "gap ")?,
        bound: number_after(text, "bound ")?,
        distance: number_after(text, "distance ")?,
        least: number_after(text, "least ")?,
    })
}

// A search: its words and files, what the schedule costs, the greatest dual value, the distance and
// the rounds that it is told, and how its text begins.
struct Search {
    words: &'static [&'static str],
    texts: Texts<'static>,
    cost: i64,
    greatest: i64,
    within: i64,
    rounds: i64,
    head: &'static str,
}

// What holds of any prices, mixture and bound that are found; and with more rounds than one such a
// small case comes as near as is asked for.
fn holds(search: &Search, told: &Told) -> bool {
    told.value <= search.greatest
        && told.bound >= search.greatest
        && told.distance == told.bound.saturating_sub(told.value)
        && told.gap == search.cost.saturating_sub(told.value)
        && told.gap == told.payments.saturating_add(told.surplus)
        && told.least == search.cost.saturating_sub(told.bound).max(0)
        && told.made <= search.rounds
        && (told.made == search.rounds || is_near(search, told))
        && (search.rounds == 1 || told.distance <= search.within)
}

// Near enough to end sooner: within what was asked for, or within a millionth of the dual value.
fn is_near(search: &Search, told: &Told) -> bool {
    let millionth = told.value.unsigned_abs() / 1_000_000;
    told.distance <= search.within || told.distance.unsigned_abs() <= millionth
}

// A unit of 0 to 10 GW that costs 10,000,000 to start and as much again at 10 GW, and a demand of 5
// GW, which it gives.
const DEAREST: &str = "\
{\"time_periods\":1,\"demand\":[5000],\"reserves\":[0],\"thermal_generators\":{\
\"G\":{\"must_run\":0,\"power_output_minimum\":0,\"power_output_maximum\":10000,\
\"ramp_up_limit\":1000000,\"ramp_down_limit\":1000000,\"ramp_startup_limit\":1000000,\
\"ramp_shutdown_limit\":1000000,\"time_up_minimum\":1,\"time_down_minimum\":1,\
\"power_output_t0\":0,\"unit_on_t0\":0,\"time_up_t0\":0,\"time_down_t0\":1,\
\"startup\":[{\"lag\":1,\"cost\":10000000}],\
\"piecewise_production\":[{\"mw\":0,\"cost\":0},{\"mw\":10000,\"cost\":10000000}]}},\
\"renewable_generators\":{}}";

const DEAREST_SCHEDULE: &str = "\
{\"thermal\":{\"G\":{\"on\":[1],\"power\":[5000000],\"reserve\":[0]}},\"renewable\":{}}";

// A unit of 1 kW that costs 10,000,000, and a demand of 1 kW.
const BEYOND_PRICES: &str = "\
{\"time_periods\":1,\"demand\":[0.001],\"reserves\":[0],\"thermal_generators\":{\
\"G\":{\"must_run\":0,\"power_output_minimum\":0.001,\"power_output_maximum\":0.001,\
\"ramp_up_limit\":1,\"ramp_down_limit\":1,\"ramp_startup_limit\":1,\"ramp_shutdown_limit\":1,\
\"time_up_minimum\":1,\"time_down_minimum\":1,\"power_output_t0\":0,\"unit_on_t0\":0,\
\"time_up_t0\":0,\"time_down_t0\":1,\"startup\":[],\
\"piecewise_production\":[{\"mw\":0.001,\"cost\":10000000}]}},\"renewable_generators\":{}}";

const BEYOND_PRICES_SCHEDULE: &str = "\
{\"thermal\":{\"G\":{\"on\":[1],\"power\":[1],\"reserve\":[0]}},\"renewable\":{}}";

// The greatest dual value of the usual case is that at 100.50 for energy and 0.50 for reserve: G1
// gains nothing by being on then, and W1 gives 3 MW. That of the smallest is 0. At costs at their
// limits it is half of what the whole unit costs with its start. What costs more than any price
// gives stays off, and its demand is worth the greatest price.
const SEARCHES: [Search; 5] = [
    Search {
        words: &CONVEX,
        texts: USUAL_PLANNED,
        cost: 850_000_000,
        greatest: 704_500_000,
        within: 1_000_000,
        rounds: 150,
        head: "hull-convex 1\nperiods 1\nunits 2\ncost 850000000\nwithin 1000000\nrounds 150\nmade ",
    },
    Search {
        words: &[
            "convex",
            "--rounds=1",
            "--case=c",
            "--within=0",
            "--schedule=s",
        ],
        texts: USUAL_PLANNED,
        cost: 850_000_000,
        greatest: 704_500_000,
        within: 0,
        rounds: 1,
        head: "hull-convex 1\nperiods 1\nunits 2\ncost 850000000\nwithin 0\nrounds 1\nmade ",
    },
    Search {
        words: &CONVEX,
        texts: (SMALLEST, SMALLEST_SCHEDULE, b""),
        cost: 0,
        greatest: 0,
        within: 1_000_000,
        rounds: 150,
        head: "hull-convex 1\nperiods 1\nunits 1\ncost 0\nwithin 1000000\nrounds 150\nmade ",
    },
    Search {
        words: &CONVEX,
        texts: (DEAREST, DEAREST_SCHEDULE, b""),
        cost: 15_000_000_000_000,
        greatest: 10_000_000_000_000,
        within: 1_000_000,
        rounds: 150,
        head: "hull-convex 1\nperiods 1\nunits 1\ncost 15000000000000\nwithin 1000000\nrounds 150\nmade ",
    },
    Search {
        words: &CONVEX,
        texts: (BEYOND_PRICES, BEYOND_PRICES_SCHEDULE, b""),
        cost: 10_000_000_000_000,
        greatest: 10_000_000,
        within: 1_000_000,
        rounds: 150,
        head: "hull-convex 1\nperiods 1\nunits 1\ncost 10000000000000\nwithin 1000000\nrounds 150\nmade ",
    },
];

fn search_holds<R: Threads + Wait + Sync + Abort>(
    rt: &R,
    alloc: Global,
    search: &Search,
) -> Result<(), AllocError> {
    let (status, bytes) = run(rt, &NoGate, alloc, search.words, search.texts, SHORT)?;
    same_of(rt, &search.words, status, 0);
    let Ok(text) = str::from_utf8(bytes.as_slice()) else {
        same(rt, "bytes", "a text");
        return Ok(());
    };
    same_of(rt, &search.words, text.starts_with(search.head), true);
    let Some(told) = told_in(text) else {
        same(rt, text, "a search");
        return Ok(());
    };
    same_of(rt, &text, holds(search, &told), true);
    Ok(())
}

#[test]
fn searches_hold(rt: HostRuntime) -> Result<(), Fail> {
    for search in &SEARCHES {
        search_holds(&rt, rt.alloc(), search)?;
    }
    Ok(())
}

// A JSON list of numbers between which a space stands, each with this behind it.
fn listed(alloc: Global, numbers: &str, behind: &str) -> Result<String, AllocError> {
    let mut list = String::from_str(alloc, "[")?;
    for number in numbers.split(' ') {
        if list.len() > 1 {
            list.push_str(",")?;
        }
        list.push_str(number)?;
        list.push_str(behind)?;
    }
    list.push_str("]")?;
    Ok(list)
}

// The prices of a text, as a file of them: a price of 1 is a thousandth.
fn prices_in(alloc: Global, text: &str) -> Result<String, AllocError> {
    let energy = listed(alloc, rest_of(text, "energy "), "e-3")?;
    let reserve = listed(alloc, rest_of(text, "reserve "), "e-3")?;
    format!(in alloc; "{{\"energy\":{energy},\"reserve\":{reserve}}}")
}

// What an entry's line says of it: the last of its lines is that of its reserve.
fn entry_part(alloc: Global, line: &str) -> Result<String, AllocError> {
    if let Some(weight) = line.strip_prefix("share ") {
        return format!(in alloc; "{{\"weight\":{weight}");
    }
    if let Some(on) = line.strip_prefix("on ") {
        let on = listed(alloc, on, "")?;
        return format!(in alloc; ",\"on\":{on}");
    }
    if let Some(power) = line.strip_prefix("power ") {
        let power = listed(alloc, power, "")?;
        return format!(in alloc; ",\"power\":{power}");
    }
    let reserve = listed(alloc, rest_of(line, "reserve "), "")?;
    format!(in alloc; ",\"reserve\":{reserve}}}")
}

// The entries of G1 in the lines of a text, as a file of a mixture.
fn mixture_in(alloc: Global, weight: &str, entries: &str) -> Result<String, AllocError> {
    let mut list = String::new(alloc);
    for line in entries.split('\n') {
        if line.starts_with("share ") && !list.is_empty() {
            list.push_str(",")?;
        }
        let part = entry_part(alloc, line)?;
        list.push_str(part.as_str())?;
    }
    format!(in alloc; "{{\"weight\":{weight},\"thermal\":{{\"G1\":[{list}]}}}}")
}

// What stands in a text between two others.
fn between<'a>(text: &'a str, before: &str, behind: &str) -> &'a str {
    match text.split_once(before) {
        Some((_, rest)) => match rest.split_once(behind) {
            Some((inside, _)) => inside,
            None => "",
        },
        None => "",
    }
}

// The text of a run on the usual case, with such a file r.
fn text_of<R: Threads + Wait + Sync + Abort>(
    rt: &R,
    alloc: Global,
    words: &[&str],
    file: &[u8],
) -> Result<String, AllocError> {
    let (status, bytes) = run(
        rt,
        &NoGate,
        alloc,
        words,
        (USUAL, USUAL_SCHEDULE, file),
        SHORT,
    )?;
    same_of(rt, &words, status, 0);
    let Ok(text) = str::from_utf8(bytes.as_slice()) else {
        return Ok(String::new(alloc));
    };
    String::from_str(alloc, text)
}

// At 100.50 for energy and 0.50 for reserve G1 earns nothing off, at 12 MW with 8 MW of reserve, and
// at 20 MW. 11, 5 and 4 parts of 20 of these lack nothing and cost 704.50, so no other prices have as
// great a dual value.
#[test]
fn finds_the_prices_of_the_usual_case(rt: HostRuntime) -> Result<(), Fail> {
    let words = ["convex", "--case=c", "--schedule=s", "--within=1000"];
    let found = text_of(&rt, rt.alloc(), &words, b"")?;
    let found = found.as_str();
    same(&rt, rest_of(found, "value "), "704500000");
    same(&rt, rest_of(found, "energy "), "100500");
    same(&rt, rest_of(found, "reserve "), "500");
    Ok(())
}

// `hull settle` says the same of the prices that were found, and `hull certify` of the mixture.
#[test]
fn what_is_found_settles_and_certifies(rt: HostRuntime) -> Result<(), Fail> {
    let alloc = rt.alloc();
    let found = text_of(&rt, alloc, &CONVEX, b"")?;
    let found = found.as_str();
    let prices = prices_in(alloc, found)?;
    let settled = text_of(&rt, alloc, &SETTLE, prices.as_bytes())?;
    let said = between(settled.as_str(), "\nvalue ", "\nend\n");
    same(&rt, said.is_empty(), false);
    same(&rt, between(found, "\nvalue ", "\nweight "), said);
    let weight = between(found, "\nweight ", "\nmixture thermal \"G1\" entries ");
    let entries = between(found, "\nshare ", "\nbound ");
    let entries = format!(in alloc; "share {entries}")?;
    let mixture = mixture_in(alloc, weight, entries.as_str())?;
    let certified = text_of(&rt, alloc, &CERTIFY, mixture.as_bytes())?;
    let bound = between(certified.as_str(), "\nbound ", "\n");
    same(&rt, bound.is_empty(), false);
    same(&rt, between(found, "\nbound ", "\n"), bound);
    Ok(())
}

const REFUSED: &[Run] = &[
    (
        &[
            "convex",
            "--case=c",
            "--schedule=s",
            "--within=1000000000001",
        ],
        USUAL_PLANNED,
        (1, b"fault 1 words 6 4\n"),
    ),
    (
        &["convex", "--case=c", "--schedule=t"],
        USUAL_PLANNED,
        (2, b"fault 2 read schedule\n"),
    ),
    (
        &CONVEX,
        ("{\"time_periods\":1", "{}", b""),
        (3, b"fault 3 case 10 at 17\n"),
    ),
    (
        &CONVEX,
        (USUAL, "[1,]", b""),
        (4, b"fault 4 schedule 10 at 3\n"),
    ),
];

#[test]
fn refusals_come_in_order(rt: HostRuntime) -> Result<(), Fail> {
    Ok(runs_end(&rt, rt.alloc(), REFUSED)?)
}

// `[0,0,..]` over 168 periods.
fn zeros(alloc: Global) -> Result<String, AllocError> {
    let mut text = String::new(alloc);
    text.push_str("[0")?;
    for _ in 1..168 {
        text.push_str(",0")?;
    }
    text.push_str("]")?;
    Ok(text)
}

// Renewable units over 168 periods that give nothing: what is said of each, by its name.
fn each_unit(alloc: Global, units: u32, of_each: &str) -> Result<String, AllocError> {
    let mut text = String::new(alloc);
    text.push_str("{")?;
    for unit in 0..units {
        if unit > 0 {
            text.push_str(",")?;
        }
        let line = format!(in alloc; "\"{unit}\":{of_each}")?;
        text.push_str(line.as_str())?;
    }
    text.push_str("}")?;
    Ok(text)
}

fn idle_case(alloc: Global, units: u32, zeros: &str) -> Result<String, AllocError> {
    let of_each = format!(in alloc;
        "{{\"power_output_minimum\":{zeros},\"power_output_maximum\":{zeros}}}"
    )?;
    let renewable = each_unit(alloc, units, of_each.as_str())?;
    let horizon = format!(in alloc;
        "\"time_periods\":168,\"demand\":{zeros},\"reserves\":{zeros}"
    )?;
    format!(in alloc;
        "{{{horizon},\"thermal_generators\":{{}},\"renewable_generators\":{renewable}}}"
    )
}

fn idle_schedule(alloc: Global, units: u32, zeros: &str) -> Result<String, AllocError> {
    let renewable = each_unit(alloc, units, zeros)?;
    format!(in alloc; "{{\"thermal\":{{}},\"renewable\":{renewable}}}")
}

const LONG: Edges<'static> = Edges {
    gives: WHOLE,
    takes: WHOLE,
    reads: &[],
    writes: &[],
    empty: &[],
};

const MOST_ROUNDS: [&str; 4] = ["convex", "--case=c", "--schedule=s", "--rounds=1000"];

// 298 units over 168 periods are 50,064 in a round. A schedule that isn't one is refused first.
#[test]
fn many_rounds_of_a_large_case_are_refused(rt: HostRuntime) -> Result<(), Fail> {
    let alloc = rt.alloc();
    let zeros = zeros(alloc)?;
    let case = idle_case(alloc, 298, zeros.as_str())?;
    let schedule = idle_schedule(alloc, 298, zeros.as_str())?;
    let texts = (case.as_str(), schedule.as_str(), b"".as_slice());
    let (status, bytes) = run(&rt, &NoGate, alloc, &MOST_ROUNDS, texts, LONG)?;
    let due = b"fault 5 work 1000 298 168\n".as_slice();
    same(&rt, (status, bytes.as_slice()), (5, due));
    let texts = (case.as_str(), "[1,]", b"".as_slice());
    let (status, bytes) = run(&rt, &NoGate, alloc, &MOST_ROUNDS, texts, LONG)?;
    let due = b"fault 4 schedule 10 at 3\n".as_slice();
    same(&rt, (status, bytes.as_slice()), (4, due));
    Ok(())
}
