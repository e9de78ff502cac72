use crate::rows::holds;
use gst_time::{Format, LIMIT, Segment, scale};

#[test]
fn scales(rt: HostRuntime) {
    let rows = [
        (0, u64::MAX, 7, Some(0)),
        (41, 3, 1, Some(123)),
        (3, 1_000_000_000, 44_100, Some(68_027)),
        (LIMIT - 1, 1, 1, Some(LIMIT - 1)),
        (LIMIT, 1, 1, None),
        // products of 127 bits
        (u64::MAX, LIMIT - 1, u64::MAX, Some(LIMIT - 1)),
        (LIMIT, LIMIT, LIMIT + 1, Some(LIMIT - 1)),
        (LIMIT, LIMIT, LIMIT, None),
        (u64::MAX, u64::MAX, 1, None),
    ];
    for (n, num, den, wanted) in rows {
        assert!(rt; den != 0);
        holds(&rt, "a scale", scale(n, num, den) == wanted);
    }
}

#[test]
fn places(rt: HostRuntime) {
    let whole = Segment::new(Format::Time);
    let segment = Segment {
        format: Format::Time,
        start: 10,
        stop: Some(20),
        time: 5,
        base: 100,
        position: 10,
    };
    holds(&rt, "segment.running(9)", segment.running(9) == None);
    holds(&rt, "segment.running(10)", segment.running(10) == Some(100));
    holds(&rt, "segment.running(20)", segment.running(20) == Some(110));
    holds(&rt, "segment.running(21)", segment.running(21) == None);
    holds(&rt, "segment.stream(20)", segment.stream(20) == Some(15));
    holds(
        &rt,
        "segment.clip(0, 15)",
        segment.clip(0, 15) == Some((10, 15)),
    );
    holds(
        &rt,
        "segment.clip(15, 30)",
        segment.clip(15, 30) == Some((15, 20)),
    );
    holds(&rt, "segment.clip(20, 30)", segment.clip(20, 30) == None);
    holds(
        &rt,
        "whole.running(LIMIT - 1)",
        whole.running(LIMIT - 1) == Some(LIMIT - 1),
    );
    holds(&rt, "whole.running(LIMIT)", whole.running(LIMIT) == None);
    let kept = whole.seek(7, None, false, LIMIT - 1);
    holds(&rt, "kept.running(7)", kept.running(7) == Some(LIMIT - 1));
    holds(&rt, "kept.running(8)", kept.running(8) == None);
    holds(
        &rt,
        "whole.seek(7, Some(9), true, 40).running(9)",
        whole.seek(7, Some(9), true, 40).running(9) == Some(2),
    );
}
