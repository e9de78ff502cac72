//! The pads of one direction that an element has, and those that links take of it.
ghost use Rattle.std.specs.Prelude.{◌≡◌, None, IfOk, IfSome, true, false};
ghost use Rattle.graph_pads.specs.Pads.{pad_count, makes, end_element, links_at, stem, pad_text, takeable, pad_number, own_number};
ghost use Rattle.graph_pads.specs.declared.pad.Direction.{Direction as Directions};

use crate::pad::{Direction, PadLink};
use el_settings::Settings;
use gst_value::{OutOfMemory, Text};
use std::alloc::Global;
use std::fmt::Write;

impl Direction {
    /// How many pads of this direction the element's settings have.
    fn count(self, settings: &Settings) -> u32
        ensures { result ≡ pad_count self settings.now }
    {
        match self {
            Direction::Source => settings.source_pads(),
            Direction::Sink => settings.sink_pads(),
        }
    }

    /// Whether each link makes a pad of this direction.
    fn makes(self, settings: &Settings) -> bool
        ensures { result ≡ makes self settings.now }
    {
        match self {
            Direction::Source => settings.makes_sources(),
            Direction::Sink => settings.makes_sinks(),
        }
    }

    /// The element that a link leaves, or else the one that it comes to.
    fn end_element(self, link: &PadLink) -> u32
        ensures { result ≡ end_element self link.now }
    {
        match self {
            Direction::Source => link.source.element,
            Direction::Sink => link.sink.element,
        }
    }

    /// How many links leave an element, named by its number in the line, or else come to it.
    pub fn links_at(self, links: &[PadLink], element: u32) -> usize
        ensures { result ≡ links_at links.now self element }
    {
        links
            .iter()
            .filter(|link| self.end_element(link) == element)
            .count()
    }

    /// How many pads of this direction of an element, named by its number in the line, a link can take: those that are there, and
    /// the next one that it can make.
    pub fn takeable(self, settings: &Settings, links: &[PadLink], element: u32) -> usize
        ensures { result ≡ takeable links.now self element settings.now }
    {
        if self.makes(settings) {
            self.links_at(links, element) + 1
        } else {
            self.count(settings) as usize
        }
    }

    /// The number of the pad that a link takes by itself, counted from 0 among the pads of this direction: the next one that it
    /// makes, or else the first.
    pub fn own_number(self, settings: &Settings, links: &[PadLink], element: u32) -> usize
        ensures { result ≡ own_number links.now self element settings.now }
    {
        if self.makes(settings) {
            self.links_at(links, element)
        } else {
            0
        }
    }

    /// The name of a pad, but for the number of one that links make.
    fn stem(self) -> &'static str
        ensures { result.now ≡ stem self }
    {
        match self {
            Direction::Source => "src",
            Direction::Sink => "sink",
        }
    }

    /// The name of a pad of this direction, by its number from 0 on.
    pub fn pad_text(
        self,
        alloc: Global,
        settings: &Settings,
        number: usize,
    ) -> Result<Text, OutOfMemory>
        ensures { IfOk result (λ text. text ≡ pad_text self settings.now number) }
    {
        if !self.makes(settings) {
            return Text::from_str(alloc, self.stem());
        }
        let mut name = String::new(alloc);
        name.push_str(self.stem())?;
        name.push_str("_")?;
        write!(name, "{number}")?;
        Text::from_str(alloc, name.as_str())
    }

    /// The number, from 0 on, of the pad of this direction and this name that a link can take, where there is one.
    pub fn pad_number(
        self,
        alloc: Global,
        settings: &Settings,
        links: &[PadLink],
        element: u32,
        name: &str,
    ) -> Result<Option<usize>, OutOfMemory>
        ensures { IfOk result (λ found. found ≡ pad_number links.now self element settings.now name.now) }
    {
        for number in 0..self.takeable(settings, links, element) {
            let text = self.pad_text(alloc, settings, number)?;
            if name == text.as_str() {
                return Ok(Some(number));
            }
        }
        Ok(None)
    }
}

/// The direction of the pads that links make of an element, where they make some.
pub fn made_direction(settings: &Settings) -> Option<Direction>
    ensures makes { IfSome result (λ direction. makes direction settings.now ≡ true) }
    ensures none { result ≡ None → (direction : Directions) → makes direction settings.now ≡ false }
{
    if settings.makes_sources() {
        return Some(Direction::Source);
    }
    if settings.makes_sinks() {
        return Some(Direction::Sink);
    }
    None
}
