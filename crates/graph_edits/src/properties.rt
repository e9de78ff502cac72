//! Whether there is an element of a kind with properties of these names.
ghost use Rattle.std.specs.Prelude.{◌≡◌, ◌≤◌, [], ◌∷◌, length, IfOk};
ghost use Rattle.graph_edits.specs.Names.{is_kind_there};

use el_settings::{PropFault, check};
use gst_value::{List, OutOfMemory, Prop};
use std::alloc::Global;

/// Whether the kind is there, and each property is one of its own, whatever its value is.
pub(crate) fn is_kind_there(alloc: Global, kind: &str, props: &[Prop]) -> Result<bool, OutOfMemory>
    ensures { IfOk result (λ there. there ≡ is_kind_there kind.now props.now) }
{
    if !takes(alloc, kind, &List::new(alloc))? {
        return Ok(false);
    }
    for prop in props {
        if !has_property(alloc, kind, prop)? {
            return Ok(false);
        }
    }
    Ok(true)
}

/// Whether the kind is there and the property is one of its own.
fn has_property(alloc: Global, kind: &str, prop: &Prop) -> Result<bool, OutOfMemory>
    ensures { IfOk result (λ there. there ≡ is_kind_there kind.now (prop.now ∷ [])) }
{
    let mut one = List::new(alloc);
    one.push(alloc, prop.copy(alloc)?)?;
    takes(alloc, kind, &one)
}

/// The same for no property or one: where there are more, the fault of one can stand before that of another.
fn takes(alloc: Global, kind: &str, props: &List<Prop>) -> Result<bool, OutOfMemory>
    requires { length props.now ≤ 1 }
    ensures { IfOk result (λ there. there ≡ is_kind_there kind.now props.now) }
{
    match check(alloc, kind, props) {
        Ok(_) => Ok(true),
        Err(PropFault::BadValue { .. }) => Ok(true),
        Err(PropFault::NoSuchKind) => Ok(false),
        Err(PropFault::NoSuchProperty { .. }) => Ok(false),
        Err(PropFault::OutOfMemory) => Err(OutOfMemory),
    }
}
