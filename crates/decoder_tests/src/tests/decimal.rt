//! Tables of tokens and texts, each with its value or its fault.
use ledger_model::{Period, Quarter};
use reading_decimal::{
    DecimalFault, MomentFault, Unit, is_of, moment_of, moment_text, multiplier_ok, mwh_of, quarter,
    quarter_start,
};

const ZEROS_34: &str = "1.0000000000000000000000000000000000";

const ZEROS_35: &str = "1.00000000000000000000000000000000000";

// A token, a power of ten, a unit, and their milliwatt-hours or their fault.
const DECIMALS: [(&str, i8, Unit, Result<u64, DecimalFault>); 9] = [
    ("1.2345678", 0, Unit::KWh, Ok(1_234_567)),
    ("12.5", -1, Unit::Wh, Ok(1_250)),
    ("-0.0", 0, Unit::Wh, Ok(0)),
    ("1e-99", 12, Unit::KWh, Ok(0)),
    ("-0.001", 0, Unit::Wh, Err(DecimalFault::Negative)),
    ("01", 0, Unit::Wh, Err(DecimalFault::NotADecimal)),
    (ZEROS_35, 0, Unit::Wh, Err(DecimalFault::TooLong)),
    (ZEROS_34, 0, Unit::Wh, Ok(1_000)),
    ("1e100", 0, Unit::Wh, Err(DecimalFault::ExponentRange)),
];

// Returns whether a token times a power of ten of a unit is read as these milliwatt-hours or with
// this fault.
fn is_mwh(token: &str, multiplier: i8, unit: Unit, want: Result<u64, DecimalFault>) -> bool {
    multiplier_ok(multiplier) && mwh_of(token, multiplier, unit) == want
}

#[test]
fn decimals(rt: HostRuntime) {
    for (token, multiplier, unit, want) in &DECIMALS {
        assert!(rt; is_mwh(token, *multiplier, *unit, *want), "at {token}");
    }
}

const LIMITS: [(&str, Result<u64, DecimalFault>); 11] = [
    ("1e10", Ok(10_000_000_000_000)),
    ("10000000000.0009", Ok(10_000_000_000_000)),
    ("10000000000.001", Err(DecimalFault::TooLarge)),
    ("1e99", Err(DecimalFault::TooLarge)),
    ("0e99", Ok(0)),
    ("0e100", Err(DecimalFault::ExponentRange)),
    ("1e-100", Err(DecimalFault::ExponentRange)),
    ("-0e5", Ok(0)),
    ("1e000000000000000000000000000000002", Ok(100_000)),
    ("1E+2", Ok(100_000)),
    ("0.0009999", Ok(0)),
];

#[test]
fn decimal_limits(rt: HostRuntime) {
    for (token, want) in &LIMITS {
        assert!(rt; is_mwh(token, 0, Unit::Wh, *want), "at {token}");
    }
}

const LENIENT: [&str; 19] = [
    "", "-", "01", "-01", "00", "+1", ".5", "1.", "1.e2", "1e", "1e+", "1e2.5", " 1", "1 ", "1,5",
    "0x1", "Infinity", "\u{661}", "--1",
];

#[test]
fn lenient_number(rt: HostRuntime) {
    for token in &LENIENT {
        assert!(rt;
            is_mwh(token, 0, Unit::Wh, Err(DecimalFault::NotADecimal)),
            "at {token}"
        );
    }
}

// Each token has two faults or more; the first is reported.
const ORDER: [(&str, DecimalFault); 4] = [
    (
        "01000000000000000000000000000000000000",
        DecimalFault::NotADecimal,
    ),
    (
        "-10000000000000000000000000000000e100",
        DecimalFault::TooLong,
    ),
    ("-1e100", DecimalFault::ExponentRange),
    ("-1e99", DecimalFault::Negative),
];

#[test]
fn order_of_faults(rt: HostRuntime) {
    for (token, want) in &ORDER {
        assert!(rt; is_mwh(token, 0, Unit::Wh, Err(*want)), "at {token}");
    }
}

const MULTIPLIERS: [(i8, bool); 5] = [
    (-13, false),
    (-12, true),
    (0, true),
    (12, true),
    (13, false),
];

#[test]
fn multipliers(rt: HostRuntime) {
    for (multiplier, want) in &MULTIPLIERS {
        assert!(rt; multiplier_ok(*multiplier) == *want, "at {multiplier}");
    }
}

const SECOND: u64 = 1_000_000_000;

// Ten o'clock on the first of March 2026.
const TEN: u64 = 1_772_359_200 * SECOND;

// Returns whether a time is read as this many nanoseconds since 1970, or with this fault.
fn is_moment(text: &str, want: Result<u64, MomentFault>) -> bool {
    match moment_of(text) {
        Ok(moment) => want == Ok(moment.nanos()),
        Err(fault) => want == Err(fault),
    }
}

const MOMENTS: [(&str, Result<u64, MomentFault>); 20] = [
    ("2026-03-01T10:00:00Z", Ok(TEN)),
    ("2026-03-01t10:00:00z", Ok(TEN)),
    ("2026-03-01 10:00:00Z", Ok(TEN)),
    ("2026-03-01T10Z", Ok(TEN)),
    ("20260301T100000Z", Ok(TEN)),
    ("2026-03-01T15:30:00+05:30", Ok(TEN)),
    ("2026-03-01T05:00:00-05:00", Ok(TEN)),
    ("2026-03-01T11:00:00+01:00[Europe/Paris]", Ok(TEN)),
    ("2026-03-01T10:00:00Z[Europe/Paris]", Ok(TEN)),
    ("2026-03-01T10:00:00.000000001Z", Ok(TEN + 1)),
    ("2024-02-29T00:00:00Z", Ok(1_709_164_800 * SECOND)),
    ("2023-02-29T00:00:00Z", Err(MomentFault::NotATime)),
    ("2023-03-01T00:00:00Z", Ok(1_677_628_800 * SECOND)),
    ("2016-12-31T23:59:60Z", Ok(1_483_228_799 * SECOND)),
    ("2026-03-01T10:00:00", Err(MomentFault::NotATime)),
    ("2026-03-01", Err(MomentFault::NotATime)),
    ("2026-03-01T10:00:00Z ", Err(MomentFault::NotATime)),
    ("2026-03-01T24:00:00Z", Err(MomentFault::NotATime)),
    ("yesterday", Err(MomentFault::NotATime)),
    ("", Err(MomentFault::NotATime)),
];

#[test]
fn moments(rt: HostRuntime) {
    for (text, want) in &MOMENTS {
        assert!(rt; is_moment(text, *want), "at {text}");
    }
}

const MOMENT_LIMITS: [(&str, Result<u64, MomentFault>); 9] = [
    ("2000-01-01T00:00:00Z", Ok(946_684_800 * SECOND)),
    ("1999-12-31T23:59:59Z", Err(MomentFault::MomentRange)),
    (
        "1999-12-31T23:59:59.999999999Z",
        Err(MomentFault::MomentRange),
    ),
    ("2000-01-01T00:59:59+01:00", Err(MomentFault::MomentRange)),
    ("1960-01-01T00:00:00Z", Err(MomentFault::MomentRange)),
    (
        "2099-12-31T23:59:59.999999999Z",
        Ok(4_102_444_800 * SECOND - 1),
    ),
    ("2100-01-01T00:00:00Z", Err(MomentFault::MomentRange)),
    ("2100-01-01T00:00:00+00:01", Ok(4_102_444_740 * SECOND)),
    ("9999-12-30T00:00:00Z", Err(MomentFault::MomentRange)),
];

#[test]
fn moment_limits(rt: HostRuntime) {
    for (text, want) in &MOMENT_LIMITS {
        assert!(rt; is_moment(text, *want), "at {text}");
    }
}

// A time, a period's seconds, the number of the period that the time falls into, and that period's
// beginning.
const QUARTERS: [(&str, u16, u32, &str); 15] = [
    (
        "2026-03-01T10:31:00Z",
        300,
        5_907_870,
        "2026-03-01T10:30:00Z",
    ),
    (
        "2026-03-01T10:31:00Z",
        900,
        1_969_290,
        "2026-03-01T10:30:00Z",
    ),
    (
        "2026-03-01T10:31:00Z",
        1_800,
        984_645,
        "2026-03-01T10:30:00Z",
    ),
    (
        "2026-03-01T10:31:00Z",
        3_600,
        492_322,
        "2026-03-01T10:00:00Z",
    ),
    (
        "2026-03-01T10:44:59.999999999Z",
        900,
        1_969_290,
        "2026-03-01T10:30:00Z",
    ),
    (
        "2026-03-01T10:45:00Z",
        900,
        1_969_291,
        "2026-03-01T10:45:00Z",
    ),
    (
        "2026-03-01T10:45:00Z",
        1_800,
        984_645,
        "2026-03-01T10:30:00Z",
    ),
    (
        "2000-01-01T00:00:00Z",
        300,
        3_155_616,
        "2000-01-01T00:00:00Z",
    ),
    (
        "2000-01-01T00:00:00Z",
        900,
        1_051_872,
        "2000-01-01T00:00:00Z",
    ),
    (
        "2000-01-01T00:00:00Z",
        1_800,
        525_936,
        "2000-01-01T00:00:00Z",
    ),
    (
        "2000-01-01T00:00:00Z",
        3_600,
        262_968,
        "2000-01-01T00:00:00Z",
    ),
    (
        "2099-12-31T23:59:59Z",
        300,
        13_674_815,
        "2099-12-31T23:55:00Z",
    ),
    (
        "2099-12-31T23:59:59Z",
        900,
        4_558_271,
        "2099-12-31T23:45:00Z",
    ),
    (
        "2099-12-31T23:59:59Z",
        1_800,
        2_279_135,
        "2099-12-31T23:30:00Z",
    ),
    (
        "2099-12-31T23:59:59Z",
        3_600,
        1_139_567,
        "2099-12-31T23:00:00Z",
    ),
];

// Returns whether a time falls into the period of this number and beginning.
fn is_quarter(text: &str, seconds: u16, number: u32, start: &str) -> Option<bool> {
    let period = Period::new(seconds)?;
    let quarter = quarter(moment_of(text).ok()?, period);
    let begins = moment_text(quarter_start(quarter, period));
    Some(quarter.number() == number && begins.as_str() == start)
}

#[test]
fn quarters(rt: HostRuntime) {
    for (text, seconds, number, start) in &QUARTERS {
        assert!(rt;
            is_quarter(text, *seconds, *number, start) == Some(true),
            "at {text}"
        );
    }
}

// A number, a length in seconds, and whether there is a period of that number and length.
const OWN: [(u32, u16, bool); 10] = [
    (3_155_615, 300, false),
    (3_155_616, 300, true),
    (13_674_815, 300, true),
    (1_051_871, 900, false),
    (4_558_271, 900, true),
    (4_558_272, 900, false),
    (262_968, 3_600, true),
    (1_139_567, 3_600, true),
    (1_139_568, 3_600, false),
    (13_674_815, 3_600, false),
];

// Returns whether there is a period of this number and length.
fn is_own(number: u32, seconds: u16) -> Option<bool> {
    Some(is_of(Quarter::new(number)?, Period::new(seconds)?))
}

#[test]
fn quarters_of_a_period(rt: HostRuntime) {
    for (number, seconds, is) in &OWN {
        assert!(rt;
            is_own(*number, *seconds) == Some(*is),
            "{number} of {seconds}"
        );
    }
}

// A time, and its whole second as it is printed.
const PRINTED: [(&str, &str); 6] = [
    ("2026-03-01T10:00:00Z", "2026-03-01T10:00:00Z"),
    ("2026-03-01T10:00:00.999999999Z", "2026-03-01T10:00:00Z"),
    ("2024-02-29T23:59:59Z", "2024-02-29T23:59:59Z"),
    ("2100-01-01T01:00:00+02:00", "2099-12-31T23:00:00Z"),
    ("2000-12-31T12:34:56Z", "2000-12-31T12:34:56Z"),
    ("2001-01-01T00:00:00Z", "2001-01-01T00:00:00Z"),
];

fn is_printed(text: &str, printed: &str) -> bool {
    match moment_of(text) {
        Ok(moment) => moment_text(moment).as_str() == printed,
        Err(_) => false,
    }
}

#[test]
fn printed_moments(rt: HostRuntime) {
    for (text, printed) in &PRINTED {
        assert!(rt; is_printed(text, printed), "at {text}");
    }
}
