use super::*;

/// The milliseconds of 2024-03-01T12:00:00Z.
const NOON: u64 = 1_709_294_400_000;

#[test]
fn moments(rt: HostRuntime) {
    for (text, want) in [
        ("2024-03-01T12:00:00Z", Ok(NOON)),
        ("2024-03-01t12:00:00z", Ok(NOON)),
        ("2024-02-29T12:00:00.123456789+01:00", Ok(1_709_204_400_123)),
        ("2024-02-29T12:00:00.9-23:59", Ok(1_709_294_340_900)),
        ("2023-02-29T00:00:00Z", Err(MomentFault::Range)),
        ("1900-02-29T00:00:00Z", Err(MomentFault::Range)),
        ("2024-03-01T12:00:60Z", Err(MomentFault::Range)),
        ("2024-03-01T24:00:00Z", Err(MomentFault::Range)),
        ("2024-03-01T12:00:00+24:00", Err(MomentFault::Range)),
        ("1970-01-01T00:00:00+00:01", Err(MomentFault::Range)),
        ("1970-01-01T00:00:00-00:00", Ok(0)),
        ("9999-12-31T23:59:59.999Z", Ok(LAST)),
        ("9999-12-31T23:59:59.999-00:01", Err(MomentFault::Range)),
        ("2024-03-01 12:00:00Z", Err(MomentFault::Shape)),
        ("2024-03-01T12:00:00.Z", Err(MomentFault::Shape)),
        ("2024-03-01T12:00:00.0123456789Z", Err(MomentFault::Shape)),
        ("2024-03-01T12:00:00", Err(MomentFault::Shape)),
        ("", Err(MomentFault::Shape)),
    ] {
        assert_eq!(rt;
            read_moment(text).map(|moment| moment.ms()),
            want,
            "at {text}"
        );
    }
}

#[test]
fn printed_moments(rt: HostRuntime) {
    for (ms, want) in [
        (0, b"1970-01-01T00:00:00.000Z"),
        (NOON, b"2024-03-01T12:00:00.000Z"),
        (1_709_204_400_123, b"2024-02-29T11:00:00.123Z"),
        (LAST, b"9999-12-31T23:59:59.999Z"),
    ] {
        assert!(rt; print_moment(Moment::at_most_last(ms)) == *want, "at {ms}");
    }
}

/// Where a moment lies in a repeating interval, both as texts.
fn place(interval: &str, moment: &str) -> Option<Place> {
    let interval = read_interval(interval).ok()?;
    Some(interval.index_at(read_moment(moment).ok()?))
}

#[test]
fn month_ends(rt: HostRuntime) {
    let months = "R3/2024-01-31T00:00:00Z/P1M";
    for (moment, want) in [
        ("2024-01-30T00:00:00Z", Place::Before),
        ("2024-01-31T00:00:00Z", Place::Inside(0)),
        ("2024-02-28T23:59:59.999Z", Place::Inside(0)),
        ("2024-02-29T00:00:00Z", Place::Inside(1)),
        ("2024-03-31T00:00:00Z", Place::Inside(2)),
        ("2024-04-30T00:00:00Z", Place::After),
    ] {
        assert_eq!(rt; place(months, moment), Some(want), "at {moment}");
    }
}

#[test]
fn interval_faults(rt: HostRuntime) {
    for (text, want) in [
        ("P1D", Some(IntervalFault::Shape)),
        ("r/2024-01-31T00:00:00Z/P1D", Some(IntervalFault::Shape)),
        ("R/2024-01-31T00:00:00Z/P1D/", Some(IntervalFault::Shape)),
        ("R/2024-01-32T00:00:00Z/P1D", Some(IntervalFault::Start)),
        ("R/2024-01-31T00:00:00Z/P0D", Some(IntervalFault::Duration)),
        ("R/2024-01-31T00:00:00Z/P", Some(IntervalFault::Duration)),
        ("R/2024-01-31T00:00:00Z/P1DT", Some(IntervalFault::Duration)),
        (
            "R/2024-01-31T00:00:00Z/P1D1M",
            Some(IntervalFault::Duration),
        ),
        (
            "R/2024-01-31T00:00:00Z/P1W1D",
            Some(IntervalFault::Duration),
        ),
        (
            "R/2024-01-31T00:00:00Z/P1234567D",
            Some(IntervalFault::Duration),
        ),
        ("R0/2024-01-31T00:00:00Z/P1M", Some(IntervalFault::Count)),
        ("R01/2024-01-31T00:00:00Z/P1M", Some(IntervalFault::Count)),
        (
            "R1000000001/2024-01-31T00:00:00Z/P1M",
            Some(IntervalFault::Count),
        ),
        (
            "R1000000000/2024-01-31T00:00:00Z/P999999Y999999M999999DT999999H999999M999999S",
            None,
        ),
        ("R/2024-01-31T00:00:00Z/P2W", None),
    ] {
        assert_eq!(rt; read_interval(text).err(), want, "at {text}");
    }
}

/// The second of these ends within the time of a test only where earlier intervals are not tried.
#[test]
fn seconds(rt: HostRuntime) {
    let place_of_noon = place("R/2024-03-01T00:00:00Z/PT1S", "2024-03-01T12:00:00Z");
    assert_eq!(rt; place_of_noon, Some(Place::Inside(43_200)));
    let place_of_last = place("R/1970-01-01T00:00:00Z/PT1S", "9999-12-31T23:59:59.999Z");
    assert_eq!(rt; place_of_last, Some(Place::Inside(253_402_300_799)));
    let limited = place("R2/2024-01-31T00:00:00Z/P1M", "2024-03-30T23:59:59.999Z");
    assert_eq!(rt; limited, Some(Place::Inside(1)));
    let past = place("R2/2024-01-31T00:00:00Z/P1M", "2024-03-31T00:00:00Z");
    assert_eq!(rt; past, Some(Place::After));
}
