//! How many hold a block of bytes, which no call tells. All other tests of the crate stand in value_tests.
use super::*;
use std::alloc::Global;
use std::process::Abort;
use std::test::Fail;

fn body_of(alloc: Global, bytes: &[u8]) -> Result<Body, Fail> {
    Ok(Body::from_vec(alloc, Vec::from_slice(alloc, bytes)?)?)
}

fn check_alone(rt: &impl Abort, body: &Body, wanted: bool) {
    assert!(rt; body.holds_alone() == wanted);
}

/// A body that has its own memory shares it with a second holder.
fn check_share(rt: &impl Abort, alloc: Global, first: Body) -> Result<(), Fail> {
    check_alone(rt, &first, true);
    let second = first.share(alloc)?;
    check_alone(rt, &first, false);
    check_alone(rt, &second, false);
    Ok(())
}

/// A body that has its own memory shares it with a part.
fn check_slice(rt: &impl Abort, alloc: Global, whole: Body) -> Result<(), Fail> {
    check_alone(rt, &whole, true);
    if whole.as_slice().len() < 3 {
        return Err("three bytes")?;
    }
    let part = whole.slice(alloc, 1, 2)?;
    check_alone(rt, &whole, false);
    check_alone(rt, &part, false);
    Ok(())
}

#[test]
fn holders_share_their_memory(rt: HostRuntime) -> Result<(), Fail> {
    let alloc = rt.alloc();
    check_share(&rt, alloc, body_of(alloc, b"abc")?)?;
    check_slice(&rt, alloc, body_of(alloc, b"abc")?)
}

fn buffer_of(alloc: Global, bytes: &[u8]) -> Result<Buffer, Fail> {
    Ok(Buffer {
        body: body_of(alloc, bytes)?,
        pts: None,
        duration: None,
        offset: None,
        discont: false,
    })
}

/// Whether an item is a buffer of which another one holds the bytes too.
fn is_shared(item: &Item) -> bool {
    match item {
        Item::Buffer(buffer) => !buffer.body.holds_alone(),
        Item::Event(_) => false,
    }
}

fn check_shared(rt: &impl Abort, item: &Item, wanted: bool) {
    assert!(rt; is_shared(item) == wanted);
}

#[test]
fn copies_of_an_item_share_its_body(rt: HostRuntime) -> Result<(), Fail> {
    let item = Item::Buffer(buffer_of(rt.alloc(), b"abc")?);
    check_shared(&rt, &item, false);
    let copied = item.copy(rt.alloc())?;
    check_shared(&rt, &item, true);
    check_shared(&rt, &copied, true);
    Ok(())
}
