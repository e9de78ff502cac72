//! The texts of faults.

use flow_model::*;
use gst_caps::Caps;
use std::test::Fail;

#[test]
fn texts_of_faults(rt: HostRuntime) -> Result<(), Fail> {
    let alloc = rt.alloc();
    let rows = [
        (
            ElementFault::NotNegotiated {
                offered: None,
                wanted: Caps::Any,
            },
            "the caps are not those that are wanted",
        ),
        (
            ElementFault::BadStream {
                place: 3,
                kind: StreamKind::NotRiff,
            },
            "a wrong stream at byte 3: NotRiff",
        ),
        (
            ElementFault::TooLong { a: 5, b: 7 },
            "5 and 7 more pass the limit",
        ),
        (ElementFault::OutOfMemory, "out of memory"),
    ];
    for (fault, wanted) in &rows {
        let text = format!(in alloc; "{fault}")?;
        assert_eq!(rt; text.as_str(), *wanted);
    }
    Ok(())
}
