//! What a way leads to.
ghost use Rattle.std.specs.Prelude.{◌≡◌, ◌<◌, ℕ, All, true, false, IfOk, vec_len};
ghost use Rattle.graph_order.specs.Links.{IsLink, Way};
ghost use Rattle.graph_order.specs.Marks.{is_marked, unmarked, AllReached, IsClosed};
ghost use Rattle.graph_order.specs.declared.link.Link.{Link as LinkOf};
ghost use Rattle.std.specs.Prelude.{List as Items};

use crate::link::Link;
use gst_value::OutOfMemory;
use std::alloc::Global;

/// Marks, of so many elements, those to which a way leads from one of them.
pub(crate) fn reached(
    alloc: Global,
    count: usize,
    links: &[Link],
    from: u32,
) -> Result<Vec<bool>, OutOfMemory>
    requires start { from < count }
    requires from { All (λ link. link.from < count) links.now }
    requires to { All (λ link. link.to < count) links.now }
    ensures size { IfOk result (λ marks. vec_len marks ≡ count) }
    ensures reached { IfOk result (λ marks. AllReached links.now from marks.items) }
    ensures start { IfOk result (λ marks. is_marked marks.items from ≡ true) }
    ensures closed { IfOk result (λ marks. IsClosed links.now marks.items) }
    ensures all { IfOk result (λ marks. (e : ℕ) → Way links.now from e → is_marked marks.items e ≡ true) }
{
    let mut marks = vec![in alloc; false; count]?;
    marks[from as usize] = true;
    while spread(&mut marks, links) {}
    Ok(marks)
}

/// Goes once over the links, and marks what each leads to from a marked element. Whether that is anything new.
fn spread(marks: &mut Vec<bool>, links: &[Link]) -> bool
    requires from { All (λ link. link.from < vec_len marks.old) links.now }
    requires to { All (λ link. link.to < vec_len marks.old) links.now }
    ensures size { vec_len marks.new ≡ vec_len marks.old }
    ensures reached { (a : ℕ) → AllReached links.now a marks.old.items → AllReached links.now a marks.new.items }
    ensures stay { (e : ℕ) → is_marked marks.old.items e ≡ true → is_marked marks.new.items e ≡ true }
    ensures closed { result ≡ false → IsClosed links.now marks.new.items }
    ensures fewer { result ≡ true → unmarked marks.new.items < unmarked marks.old.items }
{
    let mut is_new = false;
    for link in links {
        is_new |= mark(marks, *link);
    }
    is_new
}

/// Marks what a link leads to from a marked element. Whether that is new.
fn mark(marks: &mut Vec<bool>, link: Link) -> bool
    requires from { link.from < vec_len marks.old }
    requires to { link.to < vec_len marks.old }
    ensures size { vec_len marks.new ≡ vec_len marks.old }
    ensures reached { (a : ℕ) (links : Items LinkOf) → IsLink link.from link.to links → AllReached links a marks.old.items
        → AllReached links a marks.new.items }
    ensures stay { (e : ℕ) → is_marked marks.old.items e ≡ true → is_marked marks.new.items e ≡ true }
    ensures same { result ≡ false → marks.new.items ≡ marks.old.items }
    ensures closed { result ≡ false → is_marked marks.old.items link.from ≡ true → is_marked marks.old.items link.to ≡ true }
    ensures fewer { result ≡ true → unmarked marks.new.items < unmarked marks.old.items }
{
    let leads = marks[link.from as usize];
    let stands = marks[link.to as usize];
    if !leads || stands {
        return false;
    }
    marks[link.to as usize] = true;
    true
}
