//! Marks of elements, by their numbers.
ghost use Rattle.std.specs.Prelude.{◌≡◌, ◌<◌, ◌||◌, ℕ, All, IfOk, vec_len};
ghost use Rattle.std.specs.List.{list_any};
ghost use Rattle.graph_order.specs.Marks.{is_marked};
ghost use Rattle.graph_edits.specs.Edited.{touches};

use graph_pads::PadLink;
use gst_value::OutOfMemory;
use std::alloc::Global;

/// Whether an element is marked.
pub(crate) fn is_marked(marks: &[bool], element: u32) -> bool
    ensures { result ≡ is_marked marks.now element }
{
    matches!(marks.get(element as usize), Some(true))
}

/// Marks, of so many elements, those that one of the links touches.
pub(crate) fn touched_by(
    alloc: Global,
    count: usize,
    links: &[PadLink],
) -> Result<Vec<bool>, OutOfMemory>
    requires from { All (λ link. link.source.element < count) links.now }
    requires to { All (λ link. link.sink.element < count) links.now }
    ensures size { IfOk result (λ marks. vec_len marks ≡ count) }
    ensures touched { IfOk result (λ marks. (e : ℕ) → is_marked marks.items e ≡ list_any (touches e) links.now) }
{
    let mut marks = vec![in alloc; false; count]?;
    for link in links {
        touch(&mut marks, *link);
    }
    Ok(marks)
}

/// Marks the two elements of a link.
pub(crate) fn touch(marks: &mut Vec<bool>, link: PadLink)
    requires from { link.source.element < vec_len marks.old }
    requires to { link.sink.element < vec_len marks.old }
    ensures size { vec_len marks.new ≡ vec_len marks.old }
    ensures touched { (e : ℕ) → is_marked marks.new.items e ≡ (is_marked marks.old.items e || touches e link) }
{
    marks[link.source.element as usize] = true;
    marks[link.sink.element as usize] = true;
}
