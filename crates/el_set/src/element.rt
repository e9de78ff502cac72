//! The elements, by their role.
use crate::filter::FilterElement;
use crate::join::JoinElement;
use crate::sink::SinkElement;
use crate::source::SourceElement;
use el_basic::Tee;
use el_settings::QueueSettings;

/// An element, by its role in a stream.
#[derive(Drop)]
pub enum Element<S, K> {
    Source(SourceElement<S>),
    Filter(FilterElement),
    /// A queue of these limits, which passes all. Its items stand in its lane.
    Queue(QueueSettings),
    Tee(Tee),
    Join(JoinElement),
    Sink(SinkElement<K>),
}
