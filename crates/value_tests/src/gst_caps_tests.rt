//! A table of intersections, and the edges of the limit.
ghost use Rattle.gst_value.specs.Values.{IsOne};

use crate::rows::{check_rows, number_of, parts_of, same_text};
use caps_text::{parse, print, print_fixed};
use gst_caps::{Caps, Structure, Value, choose};
use gst_value::{CapsFault, Fixed, List, One, Text};
use std::alloc::Global;
use std::fmt::Write;
use std::test::Fail;

/// Two caps, their intersection, and its fixation.
const TABLE: &str =
    r#"audio/x-raw, rate=[ 8000, 48000 ], format={ S16LE, U8 } & audio/x-raw, rate={ 44100, 96000 } -> audio/x-raw, format=(string){ S16LE, U8 }, rate=(int)44100 -> audio/x-raw, format=(string)S16LE, rate=(int)44100
audio/x-raw, rate=[ 8000, 48000 ], format={ S16LE, U8 } & audio/x-mulaw -> EMPTY -> none
ANY & ANY -> ANY -> none
ANY & EMPTY -> EMPTY -> none
EMPTY & ANY -> EMPTY -> none
EMPTY & EMPTY -> EMPTY -> none
EMPTY & a/b -> EMPTY -> none
a/b & EMPTY -> EMPTY -> none
ANY & a/b, x=1; c/d -> a/b, x=(int)1; c/d -> a/b, x=(int)1
a/b, x={ 2, 1 }; c/d & ANY -> a/b, x=(int){ 2, 1 }; c/d -> a/b, x=(int)2
a/b & a/b -> a/b -> a/b
a/b & a/c -> EMPTY -> none
a/b & A/b -> EMPTY -> none
a/b, x=1 & a/b -> a/b, x=(int)1 -> a/b, x=(int)1
a/b & a/b, x=1 -> a/b, x=(int)1 -> a/b, x=(int)1
a/b, x=1 & a/b, y=2 -> a/b, x=(int)1, y=(int)2 -> a/b, x=(int)1, y=(int)2
a/b, y=1 & a/b, z=3, x=2 -> a/b, x=(int)2, y=(int)1, z=(int)3 -> a/b, x=(int)2, y=(int)1, z=(int)3
a/b, x=1 & a/b, x=2 -> EMPTY -> none
a/b, x=1, y=1 & a/b, x=1, y=2 -> EMPTY -> none
a/b, x=1 & a/b, x=1 -> a/b, x=(int)1 -> a/b, x=(int)1
a/b, x=1 & a/b, x=(string)1 -> EMPTY -> none
a/b, x=1 & a/b, x=1/1 -> EMPTY -> none
a/b, x=true & a/b, x=(string)true -> EMPTY -> none
a/b, x=[ 1, 10 ] & a/b, x=[ 5, 20 ] -> a/b, x=(int)[ 5, 10 ] -> a/b, x=(int)5
a/b, x=[ 1, 5 ] & a/b, x=[ 5, 9 ] -> a/b, x=(int)5 -> a/b, x=(int)5
a/b, x=[ 1, 4 ] & a/b, x=[ 5, 9 ] -> EMPTY -> none
a/b, x=[ -5, -1 ] & a/b, x=[ -3, 7 ] -> a/b, x=(int)[ -3, -1 ] -> a/b, x=(int)-3
a/b, x=5 & a/b, x=[ 1, 9 ] -> a/b, x=(int)5 -> a/b, x=(int)5
a/b, x=[ 1, 9 ] & a/b, x=5 -> a/b, x=(int)5 -> a/b, x=(int)5
a/b, x=0 & a/b, x=[ 1, 9 ] -> EMPTY -> none
a/b, x={ 3, 1, 2 } & a/b, x={ 1, 2, 3 } -> a/b, x=(int){ 3, 1, 2 } -> a/b, x=(int)3
a/b, x={ 1, 2, 3 } & a/b, x={ 3, 1 } -> a/b, x=(int){ 1, 3 } -> a/b, x=(int)1
a/b, x=[ 1, 10 ] & a/b, x={ 9, 2, 5 } -> a/b, x=(int){ 9, 2, 5 } -> a/b, x=(int)9
a/b, x={ 9, 2, 50 } & a/b, x=[ 1, 10 ] -> a/b, x=(int){ 9, 2 } -> a/b, x=(int)9
a/b, x={ [ 1, 10 ], [ 5, 20 ] } & a/b, x={ 7, 8 } -> a/b, x=(int){ 7, 8 } -> a/b, x=(int)7
a/b, x={ [ 1, 3 ], [ 7, 9 ] } & a/b, x=[ 3, 8 ] -> a/b, x=(int){ 3, [ 7, 8 ] } -> a/b, x=(int)3
a/b, x={ [ 1, 3 ], 3 } & a/b, x=[ 3, 8 ] -> a/b, x=(int)3 -> a/b, x=(int)3
a/b, x={ a, b, c } & a/b, x={ c, b } -> a/b, x=(string){ b, c } -> a/b, x=(string)b
a/b, x={ a, b } & a/b, x={ c, d } -> EMPTY -> none
a/b, x={ 1/2, 30/1 } & a/b, x=60/2 -> a/b, x=(fraction)30/1 -> a/b, x=(fraction)30/1
a/b, x=true & a/b, x={ false, true } -> a/b, x=(boolean)true -> a/b, x=(boolean)true
a/b, x="a b" & a/b, x={ a, "a b" } -> a/b, x=(string)"a b" -> a/b, x=(string)"a b"
a/b, x=1; a/b, x=2 & a/b, y=1; a/b, y=2 -> a/b, x=(int)1, y=(int)1; a/b, x=(int)1, y=(int)2; a/b, x=(int)2, y=(int)1; a/b, x=(int)2, y=(int)2 -> a/b, x=(int)1, y=(int)1
a/b, x=1; c/d & c/d, y=1; a/b, x=[ 0, 9 ] -> a/b, x=(int)1; c/d, y=(int)1 -> a/b, x=(int)1
a/b, x=1 & c/d; a/b, x=2; a/b, x=1 -> a/b, x=(int)1 -> a/b, x=(int)1
a/r, rate=[ 8000, 48000 ], format={ S16LE, U8 } & a/r, rate={ 44100, 96000 } -> a/r, format=(string){ S16LE, U8 }, rate=(int)44100 -> a/r, format=(string)S16LE, rate=(int)44100
a/r, rate=[ 8000, 48000 ], format={ S16LE, U8 } & a/m, rate=[ 8000, 48000 ] -> EMPTY -> none
ANY & ANY -> ANY -> none
ANY & a/r, n=1; a/r, n=2 -> a/r, n=(int)1; a/r, n=(int)2 -> a/r, n=(int)1
a/r, n=[ 8, 9 ], w={ a, b } & ANY -> a/r, n=(int)[ 8, 9 ], w=(string){ a, b } -> a/r, n=(int)8, w=(string)a
EMPTY & ANY -> EMPTY -> none
EMPTY & a/r -> EMPTY -> none
a/r, n=[ 1, 10 ] & a/r, n=[ 5, 20 ] -> a/r, n=(int)[ 5, 10 ] -> a/r, n=(int)5
a/r, n=[ 1, 5 ] & a/r, n=[ 5, 9 ] -> a/r, n=(int)5 -> a/r, n=(int)5
a/r, n=[ 1, 4 ] & a/r, n=[ 5, 9 ] -> EMPTY -> none
a/r, n=[ -5, -1 ] & a/r, n=[ -3, 7 ] -> a/r, n=(int)[ -3, -1 ] -> a/r, n=(int)-3
a/r, n=[ -2147483648, 2147483647 ] & a/r, n=[ -2147483648, 0 ] -> a/r, n=(int)[ -2147483648, 0 ] -> a/r, n=(int)-2147483648
a/r, n=5 & a/r, n=[ 1, 9 ] -> a/r, n=(int)5 -> a/r, n=(int)5
a/r, n={ 3, 1, 2 } & a/r, n={ 1, 2, 3 } -> a/r, n=(int){ 3, 1, 2 } -> a/r, n=(int)3
a/r, n=[ 1, 10 ] & a/r, n={ 9, 2, 5 } -> a/r, n=(int){ 9, 2, 5 } -> a/r, n=(int)9
a/r, n={ [ 1, 10 ], [ 5, 20 ] } & a/r, n={ 7, 8 } -> a/r, n=(int){ 7, 8 } -> a/r, n=(int)7
a/r, w={ a, b, c } & a/r, w={ c, b } -> a/r, w=(string){ b, c } -> a/r, w=(string)b
a/r, f={ 1/2, 30/1 } & a/r, f=60/2 -> a/r, f=(fraction)30/1 -> a/r, f=(fraction)30/1
a/r, b=true & a/r, b={ false, true } -> a/r, b=(boolean)true -> a/r, b=(boolean)true
a/r, n=1 & a/r, n=one -> EMPTY -> none
a/r, b=1 & a/r, c=3, a=2 -> a/r, a=(int)2, b=(int)1, c=(int)3 -> a/r, a=(int)2, b=(int)1, c=(int)3
a/r, n=1; a/r, n=2 & a/r, c=1; a/r, c=2 -> a/r, c=(int)1, n=(int)1; a/r, c=(int)2, n=(int)1; a/r, c=(int)1, n=(int)2; a/r, c=(int)2, n=(int)2 -> a/r, c=(int)1, n=(int)1
a/r, n=1 & a/m; a/r, n=2; a/r, n=1 -> a/r, n=(int)1 -> a/r, n=(int)1"#;

/// The caps of a text of the table.
fn caps_of(alloc: Global, text: &str) -> Result<Caps, Fail> {
    match parse(alloc, text) {
        Ok(caps) => Ok(caps),
        Err(_) => Err("a caps text")?,
    }
}

/// What was chosen of two caps, with a `!` where one of them does not accept it.
fn text_of(alloc: Global, sides: (&Caps, &Caps), fixed: &Fixed) -> Result<Text, Fail> {
    let mut text = print_fixed(alloc, fixed)?;
    if !sides.0.accepts(fixed) || !sides.1.accepts(fixed) {
        text = Text::from_str(alloc, "!")?;
    }
    Ok(text)
}

/// Puts what is chosen of two caps, with a `!` where it is not the fixation of their intersection.
fn put_choice(
    alloc: Global,
    into: &mut String,
    sides: (&Caps, &Caps),
    first: Option<Fixed>,
) -> Result<(), Fail> {
    match (&first, &choose(alloc, sides.0, sides.1)?) {
        (None, None) => into.push_str("none")?,
        (Some(first), Some(chosen)) => put_same(alloc, into, sides, (first, chosen))?,
        _ => into.push('!')?,
    }
    Ok(())
}

fn put_same(
    alloc: Global,
    into: &mut String,
    sides: (&Caps, &Caps),
    (first, chosen): (&Fixed, &Fixed),
) -> Result<(), Fail> {
    let text = text_of(alloc, sides, first)?;
    let other = text_of(alloc, sides, chosen)?;
    into.push_str(text.as_str())?;
    if text.as_str() != other.as_str() {
        into.push('!')?;
    }
    Ok(())
}

/// Puts an intersection, with a `!` where the two do not say right whether they meet.
fn put_both(
    alloc: Global,
    into: &mut String,
    sides: (&Caps, &Caps),
    both: &Caps,
) -> Result<(), Fail> {
    into.push_str(print(alloc, both)?.as_str())?;
    if sides.0.meets(sides.1) == both.is_empty() || sides.1.meets(sides.0) == both.is_empty() {
        into.push('!')?;
    }
    into.push_str(" -> ")?;
    put_choice(alloc, into, sides, both.copy(alloc)?.fixate(alloc)?)
}

/// The intersection of two caps, and what is chosen of them.
fn both_of(alloc: Global, left: &Caps, right: &Caps) -> Result<String, Fail> {
    let both = left.intersect(alloc, right)?;
    let mut text = String::new(alloc);
    put_both(alloc, &mut text, (left, right), &both)?;
    Ok(text)
}

/// That for two texts of caps.
fn told(alloc: Global, sides: &str) -> Result<String, Fail> {
    let (left, right) = parts_of(sides, " & ");
    let left = caps_of(alloc, left)?;
    both_of(alloc, &left, &caps_of(alloc, right)?)
}

#[test]
fn intersections(rt: HostRuntime) -> Result<(), Fail> {
    check_rows(&rt, rt.alloc(), TABLE, told)
}

/// A structure with one field.
fn structure_of(alloc: Global, name: &str, one: One) -> Result<Structure, CapsFault>
    requires { IsOne one }
{
    let mut made = Structure::new(alloc, "a/r")?;
    made.set(alloc, name, Value::One(one))?;
    Ok(made)
}

/// Structures with the numbers from 0 on in a field.
fn numbered(alloc: Global, name: &str, count: i32) -> Result<List<Structure>, CapsFault> {
    let mut made = List::new(alloc);
    for number in 0..count {
        made.push(alloc, structure_of(alloc, name, One::Int(number))?)?;
    }
    Ok(made)
}

/// Caps of a range of one number, which no text gives.
#[test]
fn a_range_of_one(rt: HostRuntime) -> Result<(), Fail> {
    let alloc = rt.alloc();
    let mut left = List::new(alloc);
    left.push(alloc, structure_of(alloc, "n", One::IntRange(5, 5))?)?;
    let text = both_of(alloc, &Caps::Of(left), &caps_of(alloc, "a/r, m=1")?)?;
    same_text(
        &rt,
        "5..5",
        text.as_str(),
        "a/r, m=(int)1, n=(int)[ 5, 5 ] -> a/r, m=(int)1, n=(int)5",
    );
    Ok(())
}

fn put_count(into: &mut String, made: &Result<Caps, CapsFault>) -> Result<(), Fail> {
    match made {
        Ok(Caps::Of(listed)) => write!(into, "{}", listed.as_slice().len())?,
        Ok(Caps::Any) => into.push_str("any")?,
        Err(CapsFault::TooMany { count }) => write!(into, "more {count}")?,
        Err(_) => into.push_str("memory")?,
    }
    Ok(())
}

/// How many structures the intersection of so many has with others, whose field has a name.
fn count_of(alloc: Global, row: &str) -> Result<String, Fail> {
    let (left, rest) = parts_of(row, " ");
    let (name, right) = parts_of(rest, " ");
    let left = Caps::Of(numbered(alloc, "a", number_of(left))?);
    let right = Caps::Of(numbered(alloc, name, number_of(right))?);
    let mut text = String::new(alloc);
    put_count(&mut text, &left.intersect(alloc, &right))?;
    Ok(text)
}

/// Caps behind a push.
fn pushed(alloc: Global, structures: List<Structure>, one: Structure) -> Result<Caps, CapsFault> {
    let mut caps = Caps::Of(structures);
    caps.push(alloc, one)?;
    Ok(caps)
}

#[test]
fn limits(rt: HostRuntime) -> Result<(), Fail> {
    check_rows(
        &rt,
        rt.alloc(),
        "8 b 8 -> 64\n9 b 8 -> more 65\n70 a 8 -> 8",
        count_of,
    )
}

#[test]
fn pushes(rt: HostRuntime) -> Result<(), Fail> {
    let alloc = rt.alloc();
    let caps = pushed(
        alloc,
        List::new(alloc),
        structure_of(alloc, "n", One::Int(1))?,
    )?;
    same_text(
        &rt,
        "pushed",
        print(alloc, &caps)?.as_str(),
        "a/r, n=(int)1",
    );
    let mut text = String::new(alloc);
    let full = numbered(alloc, "n", 64)?;
    put_count(
        &mut text,
        &pushed(alloc, full, Structure::new(alloc, "a/r")?),
    )?;
    same_text(&rt, "pushed to 64", text.as_str(), "more 65");
    Ok(())
}
