//! Copies of names, and the edges of fractions.
use crate::rows::{holds, same_text};
use gst_value::{One, PadName, Prop, Text, fraction};
use std::alloc::Global;
use std::test::Fail;

fn copied_prop(alloc: Global, name: &str, value: &str) -> Result<Prop, Fail> {
    let prop = Prop {
        name: Text::from_str(alloc, name)?,
        value: Text::from_str(alloc, value)?,
    };
    Ok(prop.copy(alloc)?)
}

fn copied_pad(alloc: Global, element: &str, pad: &str) -> Result<PadName, Fail> {
    let name = PadName {
        element: Text::from_str(alloc, element)?,
        pad: Text::from_str(alloc, pad)?,
    };
    Ok(name.copy(alloc)?)
}

#[test]
fn copies(rt: HostRuntime) -> Result<(), Fail> {
    let prop = copied_prop(rt.alloc(), "blocksize", "16")?;
    same_text(&rt, "a name", prop.name.as_str(), "blocksize");
    same_text(&rt, "a value", prop.value.as_str(), "16");
    let name = copied_pad(rt.alloc(), "identity0", "src")?;
    same_text(&rt, "an element", name.element.as_str(), "identity0");
    same_text(&rt, "a pad", name.pad.as_str(), "src");
    Ok(())
}

/// The numbers of a fraction, where there is one.
fn ratio_of(num: i32, den: i32) -> Option<(i32, i32)> {
    match fraction(num, den) {
        Some(One::Fraction(num, den)) => Some((num, den)),
        _ => None,
    }
}

#[test]
fn fractions(rt: HostRuntime) {
    let rows = [
        (6, -4, Some((-3, 2))),
        (0, -5, Some((0, 1))),
        (i32::MIN, i32::MIN, Some((1, 1))),
        (i32::MIN, 1, Some((i32::MIN, 1))),
        (i32::MIN, -1, None),
        (1, i32::MIN, None),
        (1, 0, None),
    ];
    for (num, den, wanted) in rows {
        holds(&rt, "a fraction", ratio_of(num, den) == wanted);
    }
}
