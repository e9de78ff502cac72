//! Fixed caps: a media type with fields that have one value each.
ghost use Rattle.std.specs.Prelude.{◌≡◌, ◌<◌, [], length, IfOk, OnOk, OnErr, slice_get};
ghost use Rattle.std.specs.Option.{option_map};

use crate::fault::CapsFault;
use crate::field;
use crate::memory::OutOfMemory;
use crate::one::One;
use crate::text::Text;
use std::alloc::Global;
use std::marker::Model;

/// A media type with fields in the order of their names, each of one value that is no range: what a stream
/// has, as in GStreamer's design document on negotiation.
#[derive(Drop)]
pub struct Fixed {
    media: Text,
    fields: Vec<(Text, One)>,
}

impl Model for Fixed {
    ghost use Rattle.gst_value.specs.Description.{Description, IsFixed};
    ghost use Rattle.gst_value.specs.declared.one.One.{One as FieldValue};

    ghost Value = { Description FieldValue };

    ghost view = { λ x. record { media = x.media; fields = x.fields.items } };

    ghost invariant = { λ x. IsFixed (record { media = x.media; fields = x.fields.items }) };
}

impl Fixed {
    ghost use Rattle.gst_value.specs.Description.{IsFixed};
    ghost use Rattle.gst_value.specs.Limit.{TooManyWhere};
    ghost use Rattle.gst_value.specs.Names.{fields_with};
    ghost use Rattle.gst_value.specs.Values.{IsSingle};

    /// Fixed caps of this media type without fields.
    pub fn new(alloc: Global, media: &str) -> Result<Fixed, OutOfMemory>
        ensures { IfOk result (λ made. made ≡ record { media = media.now; fields = [] }) }
    {
        Ok(Fixed {
            media: Text::from_str(alloc, media)?,
            fields: Vec::new(alloc),
        })
    }

    /// Sets the field of this name, or replaces its value.
    pub fn set(&mut self, alloc: Global, name: &str, value: One) -> Result<(), CapsFault>
        requires { IsSingle value }
        ensures ok { OnOk result (self.new ≡ record self.old { fields = fields_with name.now value self.old.fields }) }
        ensures err { OnErr result (self.new ≡ self.old) }
        ensures too_many { TooManyWhere result (64 < length (fields_with name.now value self.old.fields)) }
    {
        field::set_field(alloc, &mut self.fields, name, value)
    }

    /// The media type.
    pub fn media(&self) -> &str
        ensures { result.now ≡ self.now.media }
    {
        self.media.as_str()
    }

    /// The number of fields.
    pub fn fields(&self) -> u32
        ensures count { result ≡ length self.now.fields }
        ensures well_formed { IsFixed self.now }
    {
        self.fields.len() as u32
    }

    /// The field at this place in the order of names.
    pub fn field(&self, place: u32) -> Option<(&str, &One)>
        ensures { option_map (λ f. (f.0.now, f.1.now)) result ≡ slice_get self.now.fields place }
    {
        match self.fields.get(place as usize) {
            Some(found) => Some((found.0.as_str(), &found.1)),
            None => None,
        }
    }

    /// Fixed caps of these parts.
    pub fn from_parts(media: Text, fields: Vec<(Text, One)>) -> Fixed
        requires { IsFixed (record { media = media; fields = fields.items }) }
        ensures { result ≡ record { media = media; fields = fields.items } }
    {
        Fixed { media, fields }
    }

    /// The fields in the order of their names.
    pub fn entries(&self) -> &[(Text, One)]
        ensures entries { result.now ≡ self.now.fields }
        ensures well_formed { IsFixed self.now }
    {
        self.fields.as_slice()
    }

    /// The same caps once more.
    pub fn copy(&self, alloc: Global) -> Result<Fixed, OutOfMemory>
        ensures { IfOk result (λ made. made ≡ self.now) }
    {
        Ok(Fixed {
            media: self.media.copy(alloc)?,
            fields: copy_fields(alloc, self.fields.as_slice())?,
        })
    }
}

fn copy_fields(alloc: Global, fields: &[(Text, One)]) -> Result<Vec<(Text, One)>, OutOfMemory>
    ensures { IfOk result (λ made. made.items ≡ fields.now) }
{
    let mut made = Vec::new(alloc);
    for (name, value) in fields {
        made.push((name.copy(alloc)?, value.copy(alloc)?))?;
    }
    Ok(made)
}
