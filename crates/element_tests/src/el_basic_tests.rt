//! Rows of calls. A letter stands for a call, and for what it answers and puts out.
use crate::rows::same_bytes;
use el_basic::*;
use gst_caps::{Caps, Structure};
use gst_item::Outs;
use gst_value::List;
use item_letters::{item_of, letter_of_answer, letters_of};
use std::alloc::Global;
use std::test::Fail;

/// `R` is the filter of raw audio, `M` that of mu-law, `N` that of nothing, and `A` that of all.
fn caps_by(alloc: Global, letter: u8) -> Result<Caps, Fail> {
    if letter == b'A' {
        return Ok(Caps::Any);
    }
    let mut structures = List::new(alloc);
    if letter != b'N' {
        let media = if letter == b'R' {
            "audio/x-raw"
        } else {
            "audio/x-mulaw"
        };
        structures.push(alloc, Structure::new(alloc, media)?)?;
    }
    Ok(Caps::Of(structures))
}

/// The element of a row.
#[derive(Drop)]
enum Tested {
    Identity(Identity),
    Filter(CapsFilter),
}

/// An identity for `I`, and else a filter.
fn tested_by(alloc: Global, letter: u8) -> Result<Tested, Fail> {
    if letter == b'I' {
        return Ok(Tested::Identity(Identity::new().copy(alloc)?));
    }
    let filter = CapsFilter::new(caps_by(alloc, letter)?);
    Ok(Tested::Filter(filter.copy(alloc)?))
}

/// `f` is a flush, `d` a drain, and others set a filter.
fn act(alloc: Global, tested: &mut Tested, letter: u8, out: &mut Outs) -> Result<(), Fail> {
    match tested {
        Tested::Identity(identity) => match letter {
            b'f' => identity.flush(),
            _ => identity.drain(alloc, out)?,
        },
        Tested::Filter(filter) => match letter {
            b'f' => filter.flush(),
            b'd' => filter.drain(alloc, out)?,
            _ => filter.set_caps(caps_by(alloc, letter)?),
        },
    }
    Ok(())
}

/// Makes one call. What is no item is answered by `-`.
fn call(alloc: Global, tested: &mut Tested, letter: u8, out: &mut Outs) -> Result<u8, Fail> {
    if matches!(letter, b'f' | b'd' | b'R' | b'M' | b'N' | b'A') {
        act(alloc, tested, letter, out)?;
        return Ok(b'-');
    }
    let item = item_of(alloc, letter)?;
    if item.is_flush_stop() {
        return Ok(b'?');
    }
    let answer = match tested {
        Tested::Identity(identity) => identity.feed(alloc, 0, item, out),
        Tested::Filter(filter) => filter.feed(alloc, 0, item, out),
    };
    Ok(letter_of_answer(&answer))
}

/// The answers to calls.
fn answers(
    alloc: Global,
    tested: &mut Tested,
    calls: &[u8],
    out: &mut Outs,
) -> Result<Vec<u8>, Fail> {
    let mut trace = Vec::new(alloc);
    for letter in calls {
        trace.push(call(alloc, tested, *letter, out)?)?;
    }
    trace.push(b':')?;
    Ok(trace)
}

/// The answers, a `:`, and what was put out.
fn trace_of(alloc: Global, first: u8, calls: &[u8]) -> Result<Vec<u8>, Fail> {
    let mut tested = tested_by(alloc, first)?;
    let mut out = List::new(alloc);
    let mut trace = answers(alloc, &mut tested, calls, &mut out)?;
    trace.extend_from_slice(letters_of(alloc, &out)?.as_slice())?;
    Ok(trace)
}

#[test]
fn rows_of_calls(rt: HostRuntime) -> Result<(), Fail> {
    let alloc = rt.alloc();
    let rows: [(u8, &'static [u8], &'static [u8]); 17] = [
        (b'R', b"Es", b"0+:s"),
        (b'R', b"srgEe", b"+++++:srgEe"),
        (b'R', b"smE", b"+m0:s"),
        (b'R', b"rmE", b"+m+:rE"),
        (b'R', b"rME", b"+-r:r"),
        (b'R', b"rMAE", b"+--+:rE"),
        (b'R', b"rMmE", b"+-++:rmE"),
        (b'R', b"refE", b"++-+:reE"),
        (b'R', b"reEm", b"++..:re"),
        (b'R', b"rEdtp", b"++-++:rEtp"),
        (b'A', b"EmE", b"+++:EmE"),
        (b'N', b"stgrEpe", b"+++r0++:stgpe"),
        (b'R', b"reMfE", b"++--r:re"),
        (b'I', b"", b":"),
        (b'I', b"srgEtpEe", b"++++++++:srgEtpEe"),
        (b'I', b"seEefgE", b"++..-++:segE"),
        (b'I', b"EdfE", b"+--+:EE"),
    ];
    for (first, calls, wanted) in rows {
        same_bytes(&rt, trace_of(alloc, first, calls)?.as_slice(), wanted);
    }
    Ok(())
}
