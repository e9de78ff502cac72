//! Elements of a stream, made by what they are set to.
ghost use Rattle.std.specs.Prelude.{◌≡◌, false, IfOk};
ghost use Rattle.el_settings.specs.Asked.{is_filter as filter_test, is_queue as queue_test, makes_sinks as join_test, makes_sources as tee_test};
ghost use Rattle.task_elements.specs.Made.{IsElementFor};

use crate::element::StreamElement;
use crate::filter::StreamFilter;
use crate::join::StreamJoin;
use el_basic::Identity;
use el_set::{filter_of, join_of, sink_of, tee_of};
use el_settings::Settings;
use gst_outside::Sink;
use gst_value::OutOfMemory;
use std::alloc::Global;

/// The element of these settings, which was fed nothing yet; `file` is what it writes, empty at first. None where they are
/// those of a source, or of a sink that writes a file and none is given.
pub fn element_of<K: Sink>(
    alloc: Global,
    settings: &Settings,
    file: Option<K>,
) -> Result<Option<StreamElement<K>>, OutOfMemory>
    ensures { IfOk result (IsElementFor K.bytes settings.now file) }
{
    if settings.is_queue() {
        return Ok(Some(StreamElement::Queue(Identity::new())));
    }
    match filter_of(alloc, settings) {
        Ok(Some(filter)) => Ok(Some(StreamElement::Filter(StreamFilter::new(filter)))),
        Ok(None) => end_or_joint(alloc, settings, file),
        Err(fault) => Err(fault),
    }
}

/// The element of these settings, which are those of no filter and no queue.
fn end_or_joint<K: Sink>(
    alloc: Global,
    settings: &Settings,
    file: Option<K>,
) -> Result<Option<StreamElement<K>>, OutOfMemory>
    requires filter { filter_test settings.now ≡ false }
    requires queue { queue_test settings.now ≡ false }
    ensures { IfOk result (IsElementFor K.bytes settings.now file) }
{
    if let Some(tee) = tee_of(settings) {
        return Ok(Some(StreamElement::Tee(tee)));
    }
    match join_of(alloc, settings) {
        Ok(Some(join)) => Ok(Some(StreamElement::Join(StreamJoin::new(join)))),
        Ok(None) => Ok(sink_element(settings, file)),
        Err(fault) => Err(fault),
    }
}

/// The sink of these settings, which are those of no other element with a sink pad.
fn sink_element<K: Sink>(settings: &Settings, file: Option<K>) -> Option<StreamElement<K>>
    requires filter { filter_test settings.now ≡ false }
    requires queue { queue_test settings.now ≡ false }
    requires tee { tee_test settings.now ≡ false }
    requires join { join_test settings.now ≡ false }
    ensures { IsElementFor K.bytes settings.now file result }
{
    match sink_of(settings, file) {
        Some(sink) => Some(StreamElement::Sink(sink)),
        None => None,
    }
}
