//! What a launch line sets an element to, and what its pads take: kinds, properties and their values, caps of pads;
//! nothing of elements.
#![tactic(auto)]

mod checking;
mod domain;
mod fault;
mod kind;
pub mod laws;
mod number;
mod pad_caps;
mod pads;
mod settings;
mod templates;
mod values;

pub use checking::check;
pub use fault::PropFault;
pub use pads::MadePads;
pub use settings::{
    AudioBufferSplitSettings, AudioConvertSettings, CapsFilterSettings, FileSinkSettings,
    FileSrcSettings, QueueSettings, RampTestSrcSettings, Settings, ValveSettings,
};
pub use templates::template;
