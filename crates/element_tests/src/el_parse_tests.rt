//! Rows of calls, with what they answer and put out.
ghost use Rattle.std.specs.Prelude.{◌≡◌, false};
ghost use Rattle.flow_model.specs.Item.{is_flush_stop};

use crate::parse_rows_tests::{item_by, tell_answer, tell_out};
use crate::rows::{holds, same_text};
use audio_info::{Info, Sample};
use el_parse::{RawParse, Split};
use flow_model::ElementFault;
use gst_item::{Event, Flow, Item, Outs};
use gst_value::List;
use item_letters::buffer_of;
use std::alloc::Global;
use std::process::Abort;
use std::test::Fail;

/// Frames of two bytes, 8000 in a second.
const PARSED: &str =
    "start bytes=0 +abc +d eos -> + + + + + : start caps time=0 +ab,0,0,125000 +cd,1,125000,125000 eos
+abc +d -> + + : caps time=0 +ab,0,0,125000 +cd,1,125000,125000
+ +a +bc -> + + + : caps time=0 +ab,0,0,125000
+abcdefg +h -> + + : caps time=0 +abcdef,0,0,375000 +gh,3,375000,125000
bytes=5 +abcd -> + + : caps time=250000 +abcd,2,250000,250000
time=5 +ab -> + + : caps time=0 +ab,0,0,125000
bytes=0 +abc bytes=8 +de -> + + + + : caps time=0 +ab,0,0,125000 caps time=500000 +de,4,500000,125000
+abc bytes=2 +d +e -> + + + + : caps time=0 +ab,0,0,125000 caps time=125000 +de,1,125000,125000
caps tag gap +ab caps -> + + + + + : tag gap caps time=0 +ab,0,0,125000
bytes=0 +abc eos +d flush +ef -> + + + . - + : caps time=0 +ab,0,0,125000 eos caps time=0 +ef,0,0,125000
bytes=8 +abc flush +d -> + + - + : caps time=500000 +ab,4,500000,125000 caps time=0
bytes=0 +abc drain +d -> + + - + : caps time=0 +ab,0,0,125000 +cd,1,125000,125000
bytes=18446744073709551615 +ab -> long:0,9223372036854775808 + : caps time=0 +ab,0,0,125000
bytes=0 +ab bytes=18446744073709551615 +cd -> + + long:125000,9223372036854650808 + : caps time=0 +ab,0,0,125000 +cd,1,125000,125000
bytes=147573952589674 +ab +cd -> + + long:9223372036854750000,25808 : caps time=9223372036854625000 +ab,73786976294837,9223372036854625000,125000
";

/// Frames of two bytes, 8000 in a second, in buffers of four frames.
const SPLIT: &str =
    "start caps time=0 +aa@0 +bb +cc +dd +ee eos -> + + + + + + + + + : start caps time=0 +aabbccdd,0,0,500000 +ee,4,500000,125000 eos
caps +aa +bb +cc drain +dd -> + + + + - + : caps +aabbcc,0,-,375000
caps +aabb +ccddee +ffgghhii -> + + + + : caps +aabbccdd,0,-,500000 +eeffgghh,4,-,500000
caps +aabbccddeeffgghh@7 eos -> + + + : caps +aabbccdd,0,7,500000 +eeffgghh,4,500007,500000 eos
caps time=0 +aa@1000 +bb@7000000 +cc time=9 +dd@50 +ee@60 eos -> + + + + + + + + + : caps time=0 +aabbcc,0,1000,375000 time=9 +ddee,0,50,250000 eos
caps time=0 +aa +bb@9 time=0 + +cc@5 eos -> + + + + + + + + : caps time=0 +aabb,0,-,250000 time=0 +cc,0,-,125000 eos
caps +aabbcc@0 rate=16000 +ddeeff eos -> + + + + + : caps +aabbcc,0,0,375000 caps +ddeeff,3,187500,187500 eos
caps +aabbcc flush +ddee drain eos -> + + - + - + : caps +ddee,0,-,250000 eos
caps +aa eos +bb drain flush +cc eos -> + + + . - - + + : caps +aa,0,-,125000 eos +cc,0,-,125000 eos
caps +aa tag gap +bb eos -> + + + + + + : caps tag gap +aabb,0,-,250000 eos
+aa caps +aa eos -> none + + + : caps +aa,0,-,125000 eos
caps +aa mulaw +bb eos -> + + other + + : caps +aabb,0,-,250000 eos
caps +aa +bbb +bb flush +bbb -> + + bad:5 + - bad:3 : caps
caps +aa@9223372036854775807 eos -> + + + : caps +aa,0,9223372036854775807,125000 eos
caps +aabbccddee@9223372036854775807 eos time=0 -> + + long:9223372036854775807,500000 long:9223372036854775807,500000 : caps +aabbccdd,0,9223372036854775807,500000
caps +aabbccddeeffgghh@9223372036854775807 +aa@3 drain -> + long:9223372036854775807,500000 + - : caps +aa,0,3,125000
";

/// The element of a row.
#[derive(Drop)]
enum Tested {
    Parse(RawParse),
    Split(Split),
}

fn copied(alloc: Global, tested: &Tested) -> Result<Tested, Fail> {
    Ok(match tested {
        Tested::Parse(parser) => Tested::Parse(parser.copy(alloc)?),
        Tested::Split(split) => Tested::Split(split.copy(alloc)?),
    })
}

fn feed(
    alloc: Global,
    tested: &mut Tested,
    item: Item,
    out: &mut Outs,
) -> Result<Flow, ElementFault>
    requires { is_flush_stop item ≡ false }
{
    match tested {
        Tested::Parse(parser) => parser.feed(alloc, 0, item, out),
        Tested::Split(split) => split.feed(alloc, 0, item, out),
    }
}

fn drain(alloc: Global, tested: &mut Tested, out: &mut Outs) -> Result<(), ElementFault> {
    match tested {
        Tested::Parse(parser) => parser.drain(alloc, out),
        Tested::Split(split) => split.drain(alloc, out),
    }
}

fn flush(tested: &mut Tested) {
    match tested {
        Tested::Parse(parser) => parser.flush(),
        Tested::Split(split) => split.flush(),
    }
}

fn call(
    alloc: Global,
    tested: &mut Tested,
    info: &Info,
    word: &str,
    text: &mut String,
    out: &mut Outs,
) -> Result<(), Fail> {
    match word {
        "flush" => {
            flush(tested);
            text.push_str("- ")?;
        }
        "drain" => {
            let drained = drain(alloc, tested, out).is_ok();
            text.push_str(if drained { "- " } else { "! " })?;
        }
        _ => {
            let item = item_by(alloc, info, word)?;
            if !item.is_flush_stop() {
                let answer = feed(alloc, tested, item, out);
                tell_answer(text, &answer)?;
            }
        }
    }
    Ok(())
}

/// Makes the calls, of a copy each time.
fn call_all(
    alloc: Global,
    first: Tested,
    info: &Info,
    calls: &str,
    out: &mut Outs,
) -> Result<String, Fail> {
    let mut tested = first;
    let mut text = String::new(alloc);
    for word in calls.split(' ') {
        tested = copied(alloc, &tested)?;
        call(alloc, &mut tested, info, word, &mut text, out)?;
    }
    Ok(text)
}

fn check_row(
    rt: &impl Abort,
    alloc: Global,
    first: Tested,
    info: &Info,
    line: &str,
) -> Result<(), Fail> {
    let (calls, wanted) = line.split_once(" -> ").unwrap_or((line, ""));
    let mut out = List::new(alloc);
    let mut text = call_all(alloc, first, info, calls, &mut out)?;
    tell_out(&mut text, &out)?;
    same_text(rt, calls, text.as_str(), wanted);
    Ok(())
}

#[test]
fn rows_of_calls(rt: HostRuntime) -> Result<(), Fail> {
    let alloc = rt.alloc();
    let info = Info {
        format: Sample::S16LE,
        rate: 8000,
        channels: 1,
    };
    for line in PARSED.lines() {
        let parser = RawParse::new(info);
        check_row(&rt, alloc, Tested::Parse(parser), &info, line)?;
    }
    for line in SPLIT.lines() {
        let split = Split::new(4);
        check_row(&rt, alloc, Tested::Split(split), &info, line)?;
    }
    Ok(())
}

/// A buffer of 100 frames in buffers of three: 33 of them, and one frame at the drain.
#[test]
fn splits_a_long_buffer(rt: HostRuntime) -> Result<(), Fail> {
    let alloc = rt.alloc();
    let info = Info {
        format: Sample::S16LE,
        rate: 8000,
        channels: 1,
    };
    let caps = info.to_fixed(alloc)?;
    let buffer = buffer_of(alloc, &[0; 200])?;
    let mut split = Split::new(3);
    let mut out = List::new(alloc);
    holds(
        &rt,
        "caps",
        split
            .feed(alloc, 0, Item::Event(Event::Caps(caps)), &mut out)
            .is_ok(),
    );
    holds(
        &rt,
        "a buffer",
        split.feed(alloc, 0, buffer, &mut out).is_ok(),
    );
    holds(&rt, "33 buffers", out.as_slice().len() == 1 + 33);
    holds(&rt, "a drain", split.drain(alloc, &mut out).is_ok());
    holds(&rt, "34 buffers", out.as_slice().len() == 1 + 33 + 1);
    Ok(())
}
