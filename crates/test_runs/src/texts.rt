//! The cases, schedules and words of the runs, and the texts that are due of them.

// What the files c, s and r hold: a case, its schedule and a report.
pub type Texts<'a> = (&'a str, &'a str, &'a [u8]);

// One wind unit that meets demand alone.
pub const SMALLEST: &str = "\
{\"time_periods\":1,\"demand\":[100],\"reserves\":[0],\"thermal_generators\":{},\
\"renewable_generators\":{\"W\":{\"power_output_minimum\":[0],\"power_output_maximum\":[100]}}}";

pub const SMALLEST_SCHEDULE: &str = "{\"thermal\":{},\"renewable\":{\"W\":[100000]}}";

pub const SMALLEST_REPORT: &[u8] = b"\
hull-report 1\nperiods 1\nunits 1\nbudget 1\nahead 1\ncost 0\nproposals 1\nproposal 1 value 0\n\
energy 0\nreserve 0\nsupplied 0\nreserved 0\nchosen 1 value 0\n\
unit renewable \"W\" earned 0 scheduled 0 payment 0\npower 0\nsurplus 0\npayments 0\ngap 0\nend\n";

// The first prices are 0, since W gives all and costs nothing. No prices have a dual value above
// the cost, and these reach it, so the search ends before a round. There is no thermal unit to mix.
pub const SMALLEST_FOUND: &[u8] = b"\
hull-convex 1\nperiods 1\nunits 1\ncost 0\nwithin 1000000\nrounds 1\nmade 0\nvalue 0\n\
energy 0\nreserve 0\nsupplied 0\nreserved 0\n\
unit renewable \"W\" earned 0 scheduled 0 payment 0\npower 0\nsurplus 0\npayments 0\ngap 0\n\
weight 1000000000000\nbound 0\ndistance 0\nleast 0\nend\n";

// A from 0 to 100 kW at 10 for each, B of exactly 100 kW for 3,000, and a demand of 150 kW.
pub const TWO_UNITS: &str =
    "{\"time_periods\":1,\"demand\":[0.15],\"reserves\":[0],\"thermal_generators\":{\
\"A\":{\"must_run\":0,\"power_output_minimum\":0,\"power_output_maximum\":0.1,\"ramp_up_limit\":1,\
\"ramp_down_limit\":1,\"ramp_startup_limit\":1,\"ramp_shutdown_limit\":1,\"time_up_minimum\":1,\
\"time_down_minimum\":1,\"power_output_t0\":0,\"unit_on_t0\":0,\"time_up_t0\":0,\"time_down_t0\":1,\
\"startup\":[],\"piecewise_production\":[{\"mw\":0,\"cost\":0},{\"mw\":0.1,\"cost\":0.001}]},\
\"B\":{\"must_run\":0,\"power_output_minimum\":0.1,\"power_output_maximum\":0.1,\
\"ramp_up_limit\":1,\"ramp_down_limit\":1,\"ramp_startup_limit\":1,\"ramp_shutdown_limit\":1,\
\"time_up_minimum\":1,\"time_down_minimum\":1,\"power_output_t0\":0,\"unit_on_t0\":0,\
\"time_up_t0\":0,\"time_down_t0\":1,\"startup\":[],\
\"piecewise_production\":[{\"mw\":0.1,\"cost\":0.003}]}},\
\"renewable_generators\":{}}";

pub const TWO_UNITS_SCHEDULE: &str =
    "{\"thermal\":{\"A\":{\"on\":[1],\"power\":[50],\"reserve\":[0]},\
\"B\":{\"on\":[1],\"power\":[100],\"reserve\":[0]}},\"renewable\":{}}";

pub const TWO_UNITS_PLANNED: Texts<'static> = (TWO_UNITS, TWO_UNITS_SCHEDULE, b"");

pub const TWO_UNITS_CHECK: &[u8] =
    b"hull-check 1\nperiods 1 thermal 2 renewable 0\ncost 3500\nfeasible\n";

pub const TWO_UNITS_REPORT: &[u8] = b"\
hull-report 1\nperiods 1\nunits 2\nbudget 1\nahead 1\ncost 3500\nproposals 1\n\
proposal 1 value 2500\nenergy 30\nreserve 0\nsupplied 100\nreserved 0\nchosen 1 value 2500\n\
unit thermal \"A\" earned 2000 scheduled 1000 payment 1000\non 1\npower 100\nreserve 0\n\
unit thermal \"B\" earned 0 scheduled 0 payment 0\non 0\npower 0\nreserve 0\nsurplus 0\n\
payments 1000\ngap 1000\nend\n";

// The first row alone gives 3,000, the mean of both rows 2,500.
pub const TWO_PROPOSALS_BOUND: &[u8] = b"\
hull-bound 1\nproposals 2\nchosen 1 value 2500\nradius 10\ncertificate first 1 last 2\nbound 2500\n\
distance 0\nend\n";

pub const TWO_UNITS_FIXED: &[u8] = b"\
hull-fixed 1\nhull proposals 1 chosen 1 value 2500\nfixed proposals 1 chosen 1 value 2500\n\
hull energy 30\nhull reserve 0\nfixed energy 30\nfixed reserve 0\n\
unit thermal \"A\" hull 1000 fixed 1000\nunit thermal \"B\" hull 0 fixed 0\n\
payments hull 1000 fixed 1000\nsurplus hull 0 fixed 0\ncost 3500\nend\n";

// With both held on, the second price falls to 10. B then loses 2,000 in the schedule, and could
// be off.
pub const TWO_PROPOSALS_FIXED: &[u8] = b"\
hull-fixed 1\nhull proposals 2 chosen 1 value 2500\nfixed proposals 2 chosen 2 value 3500\n\
hull energy 30\nhull reserve 0\nfixed energy 10\nfixed reserve 0\n\
unit thermal \"A\" hull 1000 fixed 0\nunit thermal \"B\" hull 0 fixed 2000\n\
payments hull 1000 fixed 2000\nsurplus hull 0 fixed 0\ncost 3500\nend\n";

pub const TWO_PROPOSALS: &[u8] = b"\
hull-report 1\nperiods 1\nunits 2\nbudget 2\nahead 1\ncost 3500\nproposals 2\n\
proposal 1 value 2500\nenergy 30\nreserve 0\nsupplied 100\nreserved 0\n\
proposal 2 value 1500\nenergy 50\nreserve 0\nsupplied 200\nreserved 0\nchosen 1 value 2500\n\
unit thermal \"A\" earned 2000 scheduled 1000 payment 1000\non 1\npower 100\nreserve 0\n\
unit thermal \"B\" earned 0 scheduled 0 payment 0\non 0\npower 0\nreserve 0\nsurplus 0\n\
payments 1000\ngap 1000\nend\n";

// A unit of 8 to 20 MW with a start cost, and one wind unit.
pub const USUAL: &str = "\
{\"time_periods\":1,\"demand\":[10.0],\"reserves\":[2.0],\"thermal_generators\":{\
\"G1\":{\"must_run\":0,\"power_output_minimum\":8.0,\"power_output_maximum\":20.0,\
\"ramp_up_limit\":20.0,\"ramp_down_limit\":20.0,\"ramp_startup_limit\":20.0,\
\"ramp_shutdown_limit\":20.0,\"time_up_minimum\":1,\"time_down_minimum\":1,\"power_output_t0\":0.0,\
\"unit_on_t0\":0,\"time_up_t0\":0,\"time_down_t0\":8,\"startup\":[{\"lag\":1,\"cost\":50.0}],\
\"piecewise_production\":[{\"mw\":8.0,\"cost\":800.0},{\"mw\":12.0,\"cost\":1160.0},\
{\"mw\":20.0,\"cost\":1960.0}],\"name\":\"G1\"}},\
\"renewable_generators\":{\"W1\":{\"power_output_minimum\":[0.0],\"power_output_maximum\":[3.0],\
\"name\":\"W1\"}}}";

pub const USUAL_SCHEDULE: &str = "\
{\"thermal\":{\"G1\":{\"on\":[1],\"power\":[8000],\"reserve\":[2000]}},\
\"renewable\":{\"W1\":[2000]}}";

pub const USUAL_REPORT: &[u8] = b"\
hull-report 1\nperiods 1\nunits 2\nbudget 1\nahead 1\ncost 850000000\nproposals 1\n\
proposal 1 value 686000000\nenergy 98000\nreserve 0\nsupplied 3000\nreserved 0\n\
chosen 1 value 686000000\nunit thermal \"G1\" earned 0 scheduled -66000000 payment 66000000\non 0\n\
power 0\nreserve 0\nunit renewable \"W1\" earned 294000000 scheduled 196000000 payment 98000000\n\
power 3000\nsurplus 0\npayments 164000000\ngap 164000000\nend\n";

// The prices of the usual case, on every shelf.
pub const USUAL_PRICES: &[u8] = b"{\"energy\":[98]}";

// G1 as in the schedule costs 850, and W1 can give what that lacks, at a price of 0.
pub const USUAL_MIXTURE: &[u8] = b"\
{\"weight\":1,\"thermal\":{\"G1\":[{\"weight\":1,\"on\":[1],\"power\":[8000],\"reserve\":[2000]}]}}";

pub const USUAL_CERTIFIED: &[u8] = b"\
hull-certificate 1\nperiods 1\nunits 2\ncost 850000000\nvalue 686000000\nsurplus 0\n\
payments 164000000\ngap 164000000\nradius 20000000\nbound 850000000\ndistance 164000000\n\
least 0\nend\n";

// Seven times of ten G1 gives 10 MW for 1,030, and three times it is off: 3 MW are lacking in the
// mean, which W1 can give, and 2 MW of reserve.
pub const USUAL_WEIGHED: &[u8] = b"\
{\"thermal\":{\"G1\":[{\"weight\":7.0,\"on\":[1],\"power\":[10000],\"reserve\":[0]},\
{\"reserve\":[0],\"weight\":3,\"on\":[0],\"power\":[0]}]},\"weight\":1e1}";

pub const USUAL_WEIGHED_CERTIFIED: &[u8] = b"\
hull-certificate 1\nperiods 1\nunits 2\ncost 850000000\nvalue 686000000\nsurplus 0\n\
payments 164000000\ngap 164000000\nradius 20000000\nbound 20721000000\ndistance 20035000000\n\
least 0\nend\n";

// At a reserve price of at most 1 the 2 MW cost 2 at most.
pub const USUAL_WEIGHED_NEAR: &[u8] = b"\
hull-certificate 1\nperiods 1\nunits 2\ncost 850000000\nvalue 686000000\nsurplus 0\n\
payments 164000000\ngap 164000000\nradius 1000\nbound 723000000\ndistance 37000000\n\
least 127000000\nend\n";

// At a price of 98 G1 would earn nothing by being on, so it stays off and is owed what it loses.
pub const USUAL_SETTLED: &[u8] = b"\
hull-settlement 1\nperiods 1\nunits 2\ncost 850000000\nvalue 686000000\nenergy 98000\nreserve 0\n\
supplied 3000\nreserved 0\nunit thermal \"G1\" earned 0 scheduled -66000000 payment 66000000\non 0\n\
power 0\nreserve 0\nunit renewable \"W1\" earned 294000000 scheduled 196000000 payment 98000000\n\
power 3000\nsurplus 0\npayments 164000000\ngap 164000000\nend\n";

pub const NO_UNITS: &str =
    "{\"time_periods\":1,\"demand\":[100],\"reserves\":[0],\"thermal_generators\":{},\
\"renewable_generators\":{}}";

pub const TWO_PERIODS: &str =
    "{\"time_periods\":2,\"demand\":[0.1,0.1],\"reserves\":[0,0],\"thermal_generators\":{},\
\"renewable_generators\":{\"W\":{\"power_output_minimum\":[0,0],\
\"power_output_maximum\":[100,100]}}}";

pub const ONE_BID: &str =
    "{\"time_periods\":1,\"demand\":[0],\"reserves\":[0],\"thermal_generators\":{},\
\"renewable_generators\":{\"W\":{\"power_output_minimum\":[0],\"power_output_maximum\":[100]}},\
\"demand_bids\":{\"D\":{\"blocks\":[[{\"mw\":0.1,\"price\":7}]]}}}";

pub const ONE_BID_CHECK: &[u8] =
    b"hull-check 1\nperiods 1 thermal 0 renewable 1 bid 1\ncost -700000\nfeasible\n";

// Two periods, two bids and more blocks than one.
pub const TWO_BIDS: &str = "\
{\"time_periods\":2,\"demand\":[0,-0.000001],\"reserves\":[0,0],\"thermal_generators\":{},\
\"renewable_generators\":{\"W\":{\"power_output_minimum\":[0,0],\
\"power_output_maximum\":[0,0.001]}},\
\"demand_bids\":{\"A\":{\"blocks\":[[{\"mw\":0.000501,\"price\":0.007501}],\
[{\"mw\":0,\"price\":0.004}]]},\
\"B\":{\"blocks\":[[{\"mw\":0.003,\"price\":0}],[{\"mw\":0.003,\"price\":0.014},\
{\"mw\":0,\"price\":0.013501},{\"mw\":0.003,\"price\":0.013},{\"mw\":0.002499,\"price\":0.01025},\
{\"mw\":0.002001,\"price\":0.007999},{\"mw\":0.002,\"price\":0.007},{\"mw\":0.003,\"price\":0.006},\
{\"mw\":0.002499,\"price\":0}]]}}}";

pub const TWO_BIDS_SCHEDULE: &str =
    "{\"thermal\":{},\"renewable\":{\"W\":[0,0]},\"bids\":{\"A\":[0,0],\"B\":[0,0]}}";

pub const TWO_BIDS_REPORT: &[u8] = b"\
hull-report 1\nperiods 2\nunits 3\nbudget 4\nahead 2\ncost 0\nproposals 4\n\
proposal 1 value -157\nenergy 0 0\nreserve 0 0\nsupplied -1 -15\nreserved 0 0\n\
proposal 2 value -157\nenergy 0 0\nreserve 0 0\nsupplied -1 -15\nreserved 0 0\n\
proposal 3 value -39\nenergy 0 10\nreserve 0 0\nsupplied -1 -5\nreserved 0 0\n\
proposal 4 value -39\nenergy 0 10\nreserve 0 0\nsupplied -1 -5\nreserved 0 0\n\
chosen 3 value -39\nunit renewable \"W\" earned 10 scheduled 0 payment 10\npower 0 1\n\
unit bid \"A\" earned 8 scheduled 0 payment 8\npower 1 0\n\
unit bid \"B\" earned 21 scheduled 0 payment 21\npower 0 6\n\
surplus 0\npayments 39\ngap 39\nend\n";

// Four periods; the window of A has it on in the second and off in the third.
pub const WINDOW: &str = "\
{\"time_periods\":4,\"demand\":[0.004,0.003,0.004,0.003],\"reserves\":[0.003,0,0,0.000499],\
\"thermal_generators\":{\
\"A\":{\"must_run\":0,\"power_output_minimum\":0,\"power_output_maximum\":0.005,\
\"ramp_up_limit\":0.002,\"ramp_down_limit\":1000000,\"ramp_startup_limit\":0.005,\
\"ramp_shutdown_limit\":0,\"time_up_minimum\":1000000,\"time_down_minimum\":1000000,\
\"power_output_t0\":0.004,\"unit_on_t0\":1,\"time_up_t0\":1000000,\"time_down_t0\":0,\
\"startup\":[{\"lag\":0,\"cost\":0.000053001}],\
\"piecewise_production\":[{\"mw\":0,\"cost\":0.000012},{\"mw\":0.001001,\"cost\":0.000006},\
{\"mw\":0.004499,\"cost\":0.000006},{\"mw\":0.005,\"cost\":0.000009}],\
\"commitment\":[null,1,0,null]},\
\"B\":{\"must_run\":0,\"power_output_minimum\":0.001,\"power_output_maximum\":0.004499,\
\"ramp_up_limit\":0.005,\"ramp_down_limit\":0.005,\"ramp_startup_limit\":0.004,\
\"ramp_shutdown_limit\":0.004,\"time_up_minimum\":1,\"time_down_minimum\":1,\
\"power_output_t0\":0.004,\"unit_on_t0\":1,\"time_up_t0\":2,\"time_down_t0\":0,\"startup\":[],\
\"piecewise_production\":[{\"mw\":0.001,\"cost\":0.000024},{\"mw\":0.001,\"cost\":0.0000225},\
{\"mw\":0.002,\"cost\":0.00004025},{\"mw\":0.0035,\"cost\":0.000079},\
{\"mw\":0.004,\"cost\":0.0000775}],\"commitment\":[null,null,null,null]}},\
\"renewable_generators\":{}}";

pub const WINDOW_SCHEDULE: &str = "\
{\"thermal\":{\"A\":{\"on\":[1,1,0,0],\"power\":[2,0,0,0],\"reserve\":[3,0,0,0]},\
\"B\":{\"on\":[1,1,1,1],\"power\":[2,3,4,3],\"reserve\":[0,0,0,0]}},\"renewable\":{}}";

pub const WINDOW_REPORT: &[u8] = b"\
hull-report 1\nperiods 4\nunits 2\nbudget 4\nahead 4\ncost 254\nproposals 4\n\
proposal 1 value 38\nenergy 2 2 2 2\nreserve 0 0 0 0\nsupplied 4 0 0 0\nreserved 0 0 0 0\n\
proposal 2 value 38\nenergy 2 2 2 2\nreserve 0 0 0 0\nsupplied 4 0 0 0\nreserved 0 0 0 0\n\
proposal 3 value 38\nenergy 2 2 2 2\nreserve 0 0 0 0\nsupplied 4 0 0 0\nreserved 0 0 0 0\n\
proposal 4 value 38\nenergy 2 2 2 2\nreserve 0 0 0 0\nsupplied 4 0 0 0\nreserved 0 0 0 0\n\
chosen 1 value 38\n\
unit thermal \"A\" earned -10 scheduled -14 payment 4\non 1 1 0 0\npower 4 0 0 0\nreserve 0 0 0 0\n\
unit thermal \"B\" earned 0 scheduled -212 payment 212\non 0 0 0 0\npower 0 0 0 0\n\
reserve 0 0 0 0\nsurplus 0\npayments 216\ngap 216\nend\n";

pub const TRY: &[u8] = b"\
hull-try 1\nnumber 7\nperiods 48 thermal 73 renewable 81\nproposals 12\n\
chosen 1 value 13991626824349\ncost 17876574967200\npayments 3884948142851\nsurplus 0\n\
gap 3884948142851\n";

// The first proposal is the best of those twelve, so a run that stops at it prints the same sums.
pub const TRY_FIRST: &[u8] = b"\
hull-try 1\nnumber 7\nperiods 48 thermal 73 renewable 81\nproposals 1\n\
chosen 1 value 13991626824349\ncost 17876574967200\npayments 3884948142851\nsurplus 0\n\
gap 3884948142851\n";

pub const CHECK: [&str; 5] = ["check", "--case", "c", "--schedule", "s"];

pub const BOUND: [&str; 6] = [
    "bound",
    "--case=c",
    "--schedule=s",
    "--proposals=2",
    "--ahead=1",
    "--radius=10",
];

pub const FIXED: [&str; 5] = [
    "fixed",
    "--case=c",
    "--schedule=s",
    "--proposals=2",
    "--ahead=1",
];

pub const TRY_ONE: [&str; 4] = ["try", "7", "--proposals", "1"];

pub const AUDIT: [&str; 7] = [
    "audit",
    "--case=c",
    "--schedule=s",
    "--report",
    "r",
    "--workers",
    "2",
];

// The prices stand in the file r.
pub const SETTLE: [&str; 4] = ["settle", "--case=c", "--schedule=s", "--prices=r"];

pub const CONVEX_ONCE: [&str; 4] = ["convex", "--case=c", "--schedule=s", "--rounds=1"];

// The mixture stands in the file r, and the prices in the file p.
pub const CERTIFY: [&str; 5] = [
    "certify",
    "--case=c",
    "--schedule=s",
    "--prices=p",
    "--mixture=r",
];

pub const CERTIFY_NEAR: [&str; 6] = [
    "certify",
    "--case=c",
    "--schedule=s",
    "--prices=p",
    "--mixture=r",
    "--radius=1000",
];

pub const PRICE: [&str; 8] = [
    "price",
    "--case",
    "c",
    "--schedule=s",
    "--proposals",
    "1",
    "--ahead",
    "1",
];

pub const TWO_UNITS_REPORTED: Texts<'static> = (TWO_UNITS, TWO_UNITS_SCHEDULE, TWO_UNITS_REPORT);

pub const RIGHT: &[u8] = b"hull-audit 1\nproposals 1\nright\n";
