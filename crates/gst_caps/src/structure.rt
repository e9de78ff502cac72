//! Structures: a media type with fields.
ghost use Rattle.std.specs.Prelude.{◌≡◌, ◌<◌, ◌&&◌, ◌++◌, true, false, [], length, IfOk, IfErr, OnOk, OnErr, IsTrue, IsFalse, slice_get};
ghost use Rattle.std.specs.List.{filter_map, list_any};
ghost use Rattle.std.specs.Option.{option_map, option_map_or, option_to_list};
ghost use Rattle.gst_value.specs.Limit.{TooManyWhere};
ghost use Rattle.gst_caps.specs.Passes.{fields_pass, structures_pass};

use crate::value::Value;
use crate::{fixate, merge, walk};
use gst_value::field::{self, LIMIT};
use gst_value::{CapsFault, Fixed, List, OutOfMemory, Text};
use std::alloc::Global;
use std::marker::Model;

/// A media type, as `audio/x-raw`, with at most 64 fields in the order of their names.
#[derive(Drop)]
pub struct Structure {
    media: Text,
    fields: Vec<(Text, Value)>,
}

impl Model for Structure {
    ghost use Rattle.gst_value.specs.Description.{Description};
    ghost use Rattle.gst_caps.specs.Description.{IsStructure};
    ghost use Rattle.gst_caps.specs.declared.value.Value.{Value as FieldValue};

    ghost Value = { Description FieldValue };

    ghost view = { λ s. record { media = s.media; fields = s.fields.items } };

    ghost invariant = { λ s. IsStructure (record { media = s.media; fields = s.fields.items }) };
}

impl Structure {
    ghost use Rattle.gst_caps.specs.Accepts.{first_structure, fixed, meet, met, structures_meet, takes};
    ghost use Rattle.gst_value.specs.Description.{Description, IsFixed};
    ghost use Rattle.gst_caps.specs.Description.{IsStructure};
    ghost use Rattle.gst_value.specs.Limit.{IsFaultWhere, TooManyWhere};
    ghost use Rattle.gst_value.specs.Names.{Each, fields_with};
    ghost use Rattle.gst_value.specs.declared.one.One.{One as FieldOne};
    ghost use Rattle.gst_caps.specs.Values.{IsValue};

    /// A structure of this media type without fields.
    pub fn new(alloc: Global, media: &str) -> Result<Structure, OutOfMemory>
        ensures { IfOk result (λ made. made ≡ record { media = media.now; fields = [] }) }
    {
        Ok(Structure {
            media: Text::from_str(alloc, media)?,
            fields: Vec::new(alloc),
        })
    }

    /// Sets the field of this name, or replaces its value.
    pub fn set(&mut self, alloc: Global, name: &str, value: Value) -> Result<(), CapsFault>
        requires { IsValue value }
        ensures ok { OnOk result (self.new ≡ record self.old { fields = fields_with name.now value self.old.fields }) }
        ensures err { OnErr result (self.new ≡ self.old) }
        ensures too_many { TooManyWhere result (64 < length (fields_with name.now value self.old.fields)) }
    {
        field::set_field(alloc, &mut self.fields, name, value)
    }

    /// The media type.
    pub fn media(&self) -> &str
        ensures { result.now ≡ self.now.media }
    {
        self.media.as_str()
    }

    /// The number of fields.
    pub fn fields(&self) -> u32
        ensures count { result ≡ length self.now.fields }
        ensures well_formed { IsStructure self.now }
    {
        self.fields.len() as u32
    }

    /// The field at this place in the order of names.
    pub fn field(&self, place: u32) -> Option<(&str, &Value)>
        ensures { option_map (λ f. (f.0.now, f.1.now)) result ≡ slice_get self.now.fields place }
    {
        match self.fields.get(place as usize) {
            Some(found) => Some((found.0.as_str(), &found.1)),
            None => None,
        }
    }

    /// The fields in the order of their names.
    fn entries(&self) -> &[(Text, Value)]
        ensures entries { result.now ≡ self.now.fields }
        ensures well_formed { IsStructure self.now }
    {
        self.fields.as_slice()
    }

    /// Whether the structure takes these fixed caps: they have its media type, and each of its fields contains
    /// the value that they have there.
    pub(crate) fn takes(&self, fixed: &Fixed) -> bool
        ensures { result ≡ takes self.now fixed.now }
    {
        self.media.as_str() == fixed.media() && walk::all_given(self.entries(), fixed.entries())
    }

    /// Whether the two meet: their media types are equal and each field of both has something in common.
    pub(crate) fn meets(&self, other: &Structure) -> bool
        ensures meet { result ≡ structures_meet self.now other.now }
        ensures well_formed { IsStructure self.now }
        ensures other { IsStructure other.now }
    {
        let fields = self.entries();
        let others = other.entries();
        self.media.as_str() == other.media() && walk::all_agree(fields, others)
    }

    /// The fields of both and their common values, where the two meet.
    pub(crate) fn meet(
        &self,
        alloc: Global,
        other: &Structure,
    ) -> Result<Option<Structure>, CapsFault>
        ensures ok { IfOk result (λ made. made ≡ meet self.now other.now) }
        ensures too_many { TooManyWhere result (option_map_or (λ s. fields_pass s.fields) (meet self.now other.now) false ≡ true) }
        ensures well_formed { IsStructure other.now }
    {
        if !self.meets(other) {
            return Ok(None);
        }
        Ok(Some(Structure {
            media: self.media.copy(alloc)?,
            fields: merge::merged_fields(alloc, self.entries(), other.entries())?,
        }))
    }

    /// Whether one of the others meets this structure.
    pub(crate) fn meets_one(&self, others: &[Structure]) -> bool
        ensures some { IsTrue result → (x : Description FieldOne) × IsFixed x × IsTrue (takes self.now x) × IsTrue (list_any (λ t. takes t x) others.now) }
        ensures none { IsFalse result → (x : Description FieldOne) → IsFalse (takes self.now x && list_any (λ t. takes t x) others.now) }
    {
        for other in others {
            if self.meets(other) {
                return true;
            }
        }
        false
    }

    /// Puts the meets with the others behind the structures that were made.
    pub(crate) fn add_meets(
        &self,
        alloc: Global,
        others: &[Structure],
        made: &mut List<Structure>,
    ) -> Result<(), CapsFault>
        requires { structures_pass made.old ≡ false }
        ensures ok { OnOk result (made.new ≡ made.old ++ filter_map (meet self.now) others.now) }
        ensures within { OnOk result (structures_pass made.new ≡ false) }
        ensures too_many { IfErr result (λ fault. IsFaultWhere fault (structures_pass (made.old ++ filter_map (meet self.now) others.now) ≡ true)) }
        ensures well_formed { OnOk result (IsStructure self.now) }
        ensures others { OnOk result (Each IsStructure others.now) }
    {
        let _ = &self.media;
        for other in others {
            let found = self.meet(alloc, other)?;
            add_found(alloc, made, found)?;
        }
        Ok(())
    }

    /// The first of each list and the least of each range.
    pub(crate) fn fixate(&self, alloc: Global) -> Result<Fixed, OutOfMemory>
        ensures fixed { IfOk result (λ made. made ≡ fixed self.now) }
        ensures member { OnOk result (IsTrue (takes self.now (fixed self.now))) }
    {
        let media = self.media.copy(alloc)?;
        let fields = fixate::fixed_fields(alloc, self.entries())?;
        Ok(Fixed::from_parts(media, fields))
    }

    /// The fixation of the meet with another structure that meets this one. The meet is not made for it.
    fn fixed_meet(&self, alloc: Global, other: &Structure) -> Result<Fixed, OutOfMemory>
        requires { structures_meet self.now other.now ≡ true }
        ensures { IfOk result (λ made. made ≡ fixed (met self.now other.now)) }
    {
        let media = self.media.copy(alloc)?;
        let fields = fixate::fixed_merge(alloc, self.entries(), other.entries())?;
        Ok(Fixed::from_parts(media, fields))
    }

    /// The fixation of the first meet with one of the others.
    pub(crate) fn first_meet(
        &self,
        alloc: Global,
        others: &[Structure],
    ) -> Result<Option<Fixed>, OutOfMemory>
        ensures { IfOk result (λ made. made ≡ option_map fixed (first_structure (filter_map (meet self.now) others.now))) }
    {
        for other in others {
            if self.meets(other) {
                return Ok(Some(self.fixed_meet(alloc, other)?));
            }
        }
        Ok(None)
    }

    /// The same structure once more.
    pub fn copy(&self, alloc: Global) -> Result<Structure, OutOfMemory>
        ensures same { IfOk result (λ made. made ≡ self.now) }
        ensures well_formed { OnOk result (IsStructure self.now) }
    {
        Ok(Structure {
            media: self.media.copy(alloc)?,
            fields: copy_fields(alloc, self.fields.as_slice())?,
        })
    }
}

/// Puts a meet that was found behind the structures that were made.
fn add_found(
    alloc: Global,
    made: &mut List<Structure>,
    found: Option<Structure>,
) -> Result<(), CapsFault>
    requires within { structures_pass made.old ≡ false }
    requires fields { option_map_or (λ s. fields_pass s.fields) found false ≡ false }
    ensures ok { OnOk result (made.new ≡ made.old ++ option_to_list found) }
    ensures kept_within { OnOk result (structures_pass made.new ≡ false) }
    ensures too_many { TooManyWhere result (structures_pass (made.old ++ option_to_list found) ≡ true) }
{
    let Some(one) = found else {
        return Ok(());
    };
    if made.as_slice().len() >= LIMIT {
        return Err(CapsFault::TooMany { count: 65 });
    }
    made.push(alloc, one)?;
    Ok(())
}

fn copy_fields(alloc: Global, fields: &[(Text, Value)]) -> Result<Vec<(Text, Value)>, OutOfMemory>
    ensures { IfOk result (λ made. made.items ≡ fields.now) }
{
    let mut made = Vec::new(alloc);
    for (name, value) in fields {
        made.push((name.copy(alloc)?, value.copy(alloc)?))?;
    }
    Ok(made)
}
