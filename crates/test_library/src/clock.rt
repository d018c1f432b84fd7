//! Tests of the clock and of time packets. Dates are by Python's `datetime`, and ticks are worked by hand.

use crate::shared::bytes;
use ch11_clock::*;
use std::alloc::Global;
use std::test::Fail;
use test_samples::assert_same;

/// Moments, each with the body of its time packet, whose source is internal.
const BODIES: [(i64, &str); 19] = [
    (-6_213_559_680_000, "30020000 0000 0000 0101 0100"),
    (-1_221_929_280_001, "30020000 9959 5923 1410 8215"),
    (-1, "30020000 9959 5923 3112 6919"),
    (0, "30020000 0000 0000 0101 7019"),
    (94_668_479_999, "30020000 9959 5923 3112 9919"),
    (94_668_480_000, "30030000 0000 0000 0101 0020"),
    (95_178_239_999, "30030000 9959 5923 2802 0020"),
    (95_178_240_000, "30030000 0000 0000 2902 0020"),
    (95_186_880_000, "30030000 0000 0000 0103 0020"),
    (148_322_879_999, "30030000 9959 5923 3112 1620"),
    (148_322_880_000, "30020000 0000 0000 0101 1720"),
    (170_920_800_001, "30030000 0100 0012 2902 2420"),
    (176_459_040_026, "30020000 2600 0012 0112 2520"),
    (410_244_479_999, "30020000 9959 5923 3112 9920"),
    (410_244_480_000, "30020000 0000 0000 0101 0021"),
    (410_754_239_999, "30020000 9959 5923 2802 0021"),
    (410_754_240_000, "30020000 0000 0000 0103 0021"),
    (1_357_460_043_040, "30030000 4030 2010 2902 0024"),
    (6_406_058_879_999, "30020000 9959 5923 3112 9939"),
];

/// Moments outside of the years 1 to 3999.
const BEYOND: [i64; 4] = [i64::MIN, -6_213_559_680_001, 6_406_058_880_000, i64::MAX];

#[test]
fn a_time_packet_has_the_bytes_of_its_moment(rt: HostRuntime) -> Result<(), Fail> {
    for &(moment, text) in &BODIES {
        let wanted = Some(bytes(rt.alloc(), text)?);
        assert_same!(rt; time_body(moment, false), wanted, "{moment}");
    }
    Ok(())
}

#[test]
fn an_outside_source_of_time_has_its_bit(rt: HostRuntime) -> Result<(), Fail> {
    let wanted = Some(bytes(rt.alloc(), "31030000 0000 0000 2902 0020")?);
    assert_same!(rt; time_body(95_178_240_000, true), wanted);
    Ok(())
}

#[test]
fn no_time_packet_is_outside_of_the_years_1_to_3999(rt: HostRuntime) {
    for &moment in &BEYOND {
        assert_same!(rt; time_body(moment, false), None, "{moment}");
        assert_same!(rt; civil_time(moment), None, "{moment}");
    }
}

/// Texts of origins, each with its nanoseconds, if it is one.
const ORIGINS: [(&str, Option<i128>); 20] = [
    ("1764590400.250000123", Some(1_764_590_400_250_000_123)),
    ("0", Some(0)),
    ("-0", Some(0)),
    ("007", Some(7_000_000_000)),
    ("-0.25", Some(-250_000_000)),
    ("-1.000000001", Some(-1_000_000_001)),
    ("5.5", Some(5_500_000_000)),
    ("999999999999.999999999", Some(999_999_999_999_999_999_999)),
    (
        "-999999999999.999999999",
        Some(-999_999_999_999_999_999_999),
    ),
    ("", None),
    ("-", None),
    ("5.", None),
    (".5", None),
    ("+5", None),
    ("--5", None),
    ("5.-5", None),
    ("1.2.3", None),
    (" 5", None),
    ("1000000000000", None),
    ("1.0000000001", None),
];

#[test]
fn the_text_of_an_origin_is_its_nanoseconds(rt: HostRuntime) {
    for &(text, nanos) in &ORIGINS {
        assert_same!(rt; read_origin(text.as_bytes()), nanos, "{text}");
    }
}

/// The greatest counter.
const LAST_COUNTER: u64 = (1 << 48) - 1;

/// Origins as they were noted, a counter with each.
type Noted = &'static [(u64, i128)];

/// The clock of a recording with these origins.
fn clock_of(alloc: Global, noted: Noted) -> Result<Clock, Fail> {
    let mut origins = Vec::new(alloc);
    for &(counter, nanos) in noted {
        if let Some(origin) = Origin::new(counter, nanos) {
            origins.push(origin)?;
        }
    }
    if origins.is_empty() {
        return Err(Fail::from("no origin"));
    }
    Ok(Clock::new(alloc, &origins)?)
}

/// Origins, a counter and its time.
const TIMES: [(Noted, u64, i128); 9] = [
    (
        &[(0, 1_764_590_400_250_000_123)],
        0,
        1_764_590_400_250_000_123,
    ),
    (&[(0, -5)], 281_474_976_710_655, 28_147_497_671_065_495),
    (&[(9, 1_000)], 0, 1_000),
    (&[(0, 0), (50, 1_000), (100, 2_000)], 49, 4_900),
    (&[(0, 0), (50, 1_000), (100, 2_000)], 50, 6_000),
    (&[(0, 0), (50, 1_000), (100, 2_000)], 100, 12_000),
    (&[(0, 0), (100, 1_000), (50, 2_000)], 100, 12_000),
    (&[(0, 0), (50, 1_000), (50, 2_000)], 50, 7_000),
    (&[(0, 0), (0, 1_000)], 0, 1_000),
];

#[test]
fn a_counter_has_its_time_by_the_origins(rt: HostRuntime) -> Result<(), Fail> {
    for &(noted, counter, time) in &TIMES {
        let clock = clock_of(rt.alloc(), noted)?;
        // which `Clock::time` requires
        if counter > LAST_COUNTER {
            return Err(Fail::from("a counter of more than 48 bits"));
        }
        assert_same!(rt; clock.time(counter), time, "{noted:?} at {counter}");
    }
    Ok(())
}

/// Origins, a recording's least counter, and its first time packets, four at most: the moment of each, in
/// hundredths of a second since 1970, and its tick of 100 ns.
const WALKS: [(Noted, u64, &[(i64, u64)]); 11] = [
    // counter 0 is 123 ns behind 12:00:00.25, which so has no tick
    (
        &[(0, 1_764_590_400_250_000_123)],
        16,
        &[
            (176_459_040_026, 99_999),
            (176_459_040_100, 7_499_999),
            (176_459_040_200, 17_499_999),
            (176_459_040_300, 27_499_999),
        ],
    ),
    // a moment 50 ns ahead of counter 0 has its tick, and one 100 ns ahead has none
    (
        &[(0, 10_000_050)],
        0,
        &[
            (1, 0),
            (100, 9_900_000),
            (200, 19_900_000),
            (300, 29_900_000),
        ],
    ),
    (
        &[(0, 10_000_100)],
        0,
        &[
            (2, 99_999),
            (100, 9_899_999),
            (200, 19_899_999),
            (300, 29_899_999),
        ],
    ),
    // before 1970
    (
        &[(0, -2_000_000_000_000)],
        1,
        &[
            (-200_000, 0),
            (-199_900, 10_000_000),
            (-199_800, 20_000_000),
            (-199_700, 30_000_000),
        ],
    ),
    // the last counters
    (
        &[(0, 0)],
        281_474_976_710_655,
        &[(2_814_749_767, 281_474_976_700_000)],
    ),
    // the first origin holds from counter 0 on
    (
        &[(7, 1_000_000_000)],
        3,
        &[
            (100, 0),
            (200, 10_000_000),
            (300, 20_000_000),
            (400, 30_000_000),
        ],
    ),
    // set on by an hour at 2 s
    (
        &[(0, 0), (20_000_000, 3_600_000_000_050)],
        15_000_000,
        &[
            (150, 15_000_000),
            (360_201, 20_100_000),
            (360_300, 30_000_000),
            (360_400, 40_000_000),
        ],
    ),
    // set back by 5 s at 2.5 s
    (
        &[(0, 10_000_000_000), (25_000_000, 5_000_000_000)],
        12_000_000,
        &[
            (1_120, 12_000_000),
            (1_200, 20_000_000),
            (750, 25_000_000),
            (800, 30_000_000),
        ],
    ),
    // an origin that a later one ended never holds
    (
        &[
            (0, 0),
            (100_000_000, 7_000_000_000),
            (50_000_000, -3_000_000_000),
        ],
        45_000_000,
        &[
            (450, 45_000_000),
            (200, 50_000_000),
            (300, 60_000_000),
            (400, 70_000_000),
        ],
    ),
    // the second origin holds for a microsecond, which has no moment
    (
        &[(0, 0), (1_000_000, 1), (1_000_010, 2)],
        0,
        &[
            (0, 0),
            (11, 1_100_000),
            (100, 10_000_000),
            (200, 20_000_000),
        ],
    ),
    // the least counter is where an origin begins, 200 ns behind a moment
    (
        &[(0, 0), (10_000_000, 5_000_000_200)],
        10_000_000,
        &[
            (601, 10_099_998),
            (700, 19_999_998),
            (800, 29_999_998),
            (900, 39_999_998),
        ],
    ),
];

#[test]
fn time_packets_stand_at_their_moments(rt: HostRuntime) -> Result<(), Fail> {
    for &(noted, least, wanted) in &WALKS {
        let clock = clock_of(rt.alloc(), noted)?;
        if least > LAST_COUNTER {
            return Err(Fail::from("a counter of more than 48 bits"));
        }
        let mut left = clock.time_points(least);
        for &(moment, tick) in wanted {
            let point = TimePoint { moment, tick };
            assert_same!(rt; left.next(), Some(point), "{noted:?} from {least}");
        }
        if wanted.len() < 4 {
            assert_same!(rt; left.next(), None, "{noted:?} from {least}");
        }
    }
    Ok(())
}
