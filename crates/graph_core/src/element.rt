//! An element of a line.
ghost use Rattle.std.specs.Prelude.{◌≡◌, ◌&&◌, bytes_eq};
ghost use Rattle.std.specs.List.{list_any};
ghost use Rattle.graph_core.specs.Elements.{clash};
ghost use Rattle.graph_core.specs.declared.element.Element.{Element as AnElement};

use el_settings::Settings;
use gst_value::Text;

/// An element of a line.
#[derive(Drop)]
pub(crate) struct Element {
    pub(crate) kind: Text,
    /// Whether its name is made of its kind and a number.
    pub(crate) is_numbered: bool,
    pub(crate) settings: Settings,
}

/// An element that has a place behind others, and its name. It does not stand there yet.
#[derive(Drop)]
pub struct NewElement {
    pub(crate) name: String,
    pub(crate) element: Element,
}

impl NewElement {
    ghost use Rattle.graph_core.specs.Elements.{made_in};

    /// What it is set to.
    pub fn settings(&self) -> &Settings
        ensures { result.now ≡ (made_in self.now).settings }
    {
        &self.element.settings
    }
}

/// Whether the name of an element is made of this kind.
pub(crate) fn is_numbered(element: &Element, kind: &str) -> bool
    ensures { result ≡ (element.now.is_numbered && bytes_eq element.now.kind kind.now) }
{
    element.is_numbered && element.kind.as_str() == kind
}

/// Whether two elements cannot have their files at once: it is one file, which one of them writes.
fn clash(one: &Settings, other: &Settings) -> bool
    ensures { result ≡ clash one.now other.now }
{
    match (one.location(), other.location()) {
        (Some(first), Some(second)) => first == second && (one.is_sink() || other.is_sink()),
        _ => false,
    }
}

/// Whether one of the elements has the file that one of these settings would have.
pub(crate) fn some_clash(elements: &[Element], settings: &Settings) -> bool
    ensures { result ≡ list_any (λ (x : AnElement). clash x.settings settings.now) elements.now }
{
    elements
        .iter()
        .any(|element| clash(&element.settings, settings))
}
