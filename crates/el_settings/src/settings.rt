//! What an element is set to.
ghost use Rattle.std.specs.Prelude.{◌≡◌, ◌≤◌, ◌<◌, ◌*◌, ◌/◌, ◌^◌, IfOk};
ghost use Rattle.std.specs.Option.{option_map};

use crate::pads::MadePads;
use audio_info::Info;
use el_law::LawKind;
use el_src::Ramp;
use gst_caps::Caps;
use gst_value::{OutOfMemory, Text};
use std::alloc::Global;

/// What a filesrc is set to.
#[derive(Drop)]
pub struct FileSrcSettings {
    pub location: Text,
    /// How many bytes a block has.
    pub blocksize: u32,
    ghost some: { 1 ≤ blocksize },
    ghost small: { blocksize ≤ 1048576 },
}

/// What a ramptestsrc is set to. The time of the end, in nanoseconds, is below 2^63.
#[derive(Drop)]
pub struct RampTestSrcSettings {
    pub ramp: Ramp,
    ghost few_buffers: { ramp.buffers ≤ 1000000 },
    ghost some_samples: { 1 ≤ ramp.samples },
    ghost few_samples: { ramp.samples ≤ 65536 },
    ghost some_rate: { 1 ≤ ramp.rate },
    ghost rate_in_range: { ramp.rate ≤ 768000 },
    ghost some_channels: { 1 ≤ ramp.channels },
    ghost few_channels: { ramp.channels ≤ 64 },
    ghost few_gaps: { ramp.gap_every ≤ 1000000 },
    ghost times_fit: { ramp.buffers * ramp.samples * 1000000000 / ramp.rate < 2 ^ 63 },
}

/// What a capsfilter is set to.
#[derive(Drop)]
pub struct CapsFilterSettings {
    pub caps: Caps,
}

/// What a valve is set to.
#[derive(Clone, Copy)]
pub struct ValveSettings {
    /// Whether it drops all but EOS.
    pub drops: bool,
}

/// The limits of a queue. 0 stands for none.
#[derive(Clone, Copy)]
pub struct QueueSettings {
    /// How many items it holds.
    pub buffers: u32,
    /// How many bytes it holds.
    pub bytes: u32,
    /// How long what it holds plays, in nanoseconds.
    pub time: u64,
}

/// What an audioconvert is set to.
#[derive(Drop)]
pub struct AudioConvertSettings {
    /// What its source pad may have: the caps that the elements behind it take.
    pub allowed: Caps,
}

/// What an audiobuffersplit is set to.
#[derive(Clone, Copy)]
pub struct AudioBufferSplitSettings {
    /// How many frames a buffer has.
    pub frames: u32,
    ghost some: { 1 ≤ frames },
    ghost few: { frames ≤ 1000000 },
}

/// What a filesink is set to.
#[derive(Drop)]
pub struct FileSinkSettings {
    pub location: Text,
    /// Whether a flush leaves what was written.
    pub keep_flushed: bool,
}

/// What an element is set to, by its kind.
#[derive(Drop)]
pub enum Settings {
    FileSrc(FileSrcSettings),
    RampTestSrc(RampTestSrcSettings),
    Identity,
    CapsFilter(CapsFilterSettings),
    Valve(ValveSettings),
    Queue(QueueSettings),
    /// A tee, with its source pads.
    Tee(MadePads),
    AudioConvert(AudioConvertSettings),
    /// A mulawenc, an alawenc, a mulawdec or an alawdec.
    Law(LawKind),
    /// A rawaudioparse, with the audio that its bytes are.
    RawAudioParse(Info),
    AudioBufferSplit(AudioBufferSplitSettings),
    WavParse,
    WavEnc,
    /// An interleave, with its sink pads.
    Interleave(MadePads),
    /// A concat, with its sink pads.
    Concat(MadePads),
    FileSink(FileSinkSettings),
    FakeSink,
}

impl Settings {
    ghost use Rattle.std.specs.Prelude.{◌==◌, if◌then◌else◌, Some, None};
    ghost use Rattle.el_settings.specs.Asked.{is_sink, is_source, makes_sinks, makes_sources, sink_pads, source_pads, with_pads};
    ghost use Rattle.el_settings.specs.Asked.{is_queue, limits_of, is_filter, may_be_replaced, is_settable};
    ghost use Rattle.el_settings.specs.Asked.{allowed_of, is_converter, with_allowed, hands_on, filter_caps, location_of, reads, writes, title_of};

    /// How many sink pads the element has.
    pub fn sink_pads(&self) -> u32
        ensures { result ≡ sink_pads self.now }
    {
        match self {
            Settings::FileSrc(_) | Settings::RampTestSrc(_) => 0,
            Settings::Identity
            | Settings::CapsFilter(_)
            | Settings::Valve(_)
            | Settings::Queue(_)
            | Settings::Tee(_)
            | Settings::AudioConvert(_)
            | Settings::Law(_)
            | Settings::RawAudioParse(_)
            | Settings::AudioBufferSplit(_)
            | Settings::WavParse
            | Settings::WavEnc
            | Settings::FileSink(_)
            | Settings::FakeSink => 1,
            Settings::Interleave(pads) | Settings::Concat(pads) => pads.count(),
        }
    }

    /// How many source pads the element has.
    pub fn source_pads(&self) -> u32
        ensures { result ≡ source_pads self.now }
    {
        match self {
            Settings::FileSrc(_)
            | Settings::RampTestSrc(_)
            | Settings::Identity
            | Settings::CapsFilter(_)
            | Settings::Valve(_)
            | Settings::Queue(_)
            | Settings::AudioConvert(_)
            | Settings::Law(_)
            | Settings::RawAudioParse(_)
            | Settings::AudioBufferSplit(_)
            | Settings::WavParse
            | Settings::WavEnc
            | Settings::Interleave(_)
            | Settings::Concat(_) => 1,
            Settings::Tee(pads) => pads.count(),
            Settings::FileSink(_) | Settings::FakeSink => 0,
        }
    }

    /// Whether the element gives items by itself.
    pub fn is_source(&self) -> bool
        ensures { result ≡ is_source self.now }
    {
        matches!(self, Settings::FileSrc(_) | Settings::RampTestSrc(_))
    }

    /// Whether items end at the element.
    pub fn is_sink(&self) -> bool
        ensures { result ≡ is_sink self.now }
    {
        matches!(self, Settings::FileSink(_) | Settings::FakeSink)
    }

    /// Whether each link that leaves the element makes a source pad of it.
    pub fn makes_sources(&self) -> bool
        ensures { result ≡ makes_sources self.now }
    {
        matches!(self, Settings::Tee(_))
    }

    /// Whether each link to the element makes a sink pad of it. Such a link is a lane, and the element the head of a task.
    pub fn makes_sinks(&self) -> bool
        ensures { result ≡ makes_sinks self.now }
    {
        matches!(self, Settings::Interleave(_) | Settings::Concat(_))
    }

    /// From now on an element that makes pads has so many of them. All other settings stay.
    pub fn set_pads(&mut self, pads: MadePads)
        ensures { self.new ≡ with_pads pads self.old }
    {
        match self {
            Settings::Tee(own) => *own = pads,
            Settings::Interleave(own) => *own = pads,
            Settings::Concat(own) => *own = pads,
            _ => {}
        }
    }

    /// Whether a link to the element is a lane, and the element the head of a task.
    pub fn is_queue(&self) -> bool
        ensures { result ≡ is_queue self.now }
    {
        matches!(self, Settings::Queue(_))
    }

    /// The limits of a queue.
    pub fn limits(&self) -> Option<QueueSettings>
        ensures { result ≡ limits_of self.now }
    {
        match self {
            Settings::Queue(settings) => Some(*settings),
            _ => None,
        }
    }

    /// Whether the element stands between one sink pad and one source pad, and is no queue.
    pub fn is_filter(&self) -> bool
        ensures { result ≡ is_filter self.now }
    {
        matches!(
            self,
            Settings::Identity
                | Settings::CapsFilter(_)
                | Settings::Valve(_)
                | Settings::AudioConvert(_)
                | Settings::Law(_)
                | Settings::RawAudioParse(_)
                | Settings::AudioBufferSplit(_)
                | Settings::WavParse
                | Settings::WavEnc
        )
    }

    /// Whether a running element may be replaced, and stand in place of another.
    pub fn may_be_replaced(&self) -> bool
        ensures { result ≡ may_be_replaced self.now }
    {
        self.is_filter()
    }

    /// Whether the property of this name may be set while the element runs.
    pub fn is_settable(&self, name: &str) -> bool
        ensures { result ≡ is_settable self.now name.now }
    {
        match self {
            Settings::CapsFilter(_) => name == "caps",
            Settings::Valve(_) => name == "drop",
            _ => false,
        }
    }

    /// Whether the element chooses its caps among those that are allowed behind it.
    pub fn is_converter(&self) -> bool
        ensures { result ≡ is_converter self.now }
    {
        matches!(self, Settings::AudioConvert(_))
    }

    /// What a converter's source pad may have.
    pub fn allowed(&self) -> Option<&Caps>
        ensures { option_map (λ caps. caps.now) result ≡ (if is_converter self.now then Some (allowed_of self.now) else None) }
    {
        match self {
            Settings::AudioConvert(settings) => Some(&settings.allowed),
            _ => None,
        }
    }

    /// From now on a converter's source pad may have these caps. All other settings stay.
    pub fn set_allowed(&mut self, caps: Caps)
        ensures { self.new ≡ with_allowed caps self.old }
    {
        if let Settings::AudioConvert(settings) = self {
            settings.allowed = caps;
        }
    }

    /// Whether the element takes what is allowed behind it.
    pub fn hands_on(&self) -> bool
        ensures { result ≡ hands_on self.now }
    {
        matches!(
            self,
            Settings::Identity | Settings::CapsFilter(_) | Settings::Valve(_) | Settings::Queue(_)
        )
    }

    /// The caps that the element lets through, of those that are taken behind it.
    pub fn filter_caps(&self) -> Option<&Caps>
        ensures { option_map (λ caps. caps.now) result ≡ filter_caps self.now }
    {
        match self {
            Settings::CapsFilter(settings) => Some(&settings.caps),
            _ => None,
        }
    }

    /// The location of the file that the element opens.
    pub fn location(&self) -> Option<&str>
        ensures { option_map (λ text. text.now) result ≡ location_of self.now }
    {
        match self {
            Settings::FileSrc(settings) => Some(settings.location.as_str()),
            Settings::FileSink(settings) => Some(settings.location.as_str()),
            _ => None,
        }
    }

    /// Whether the element is a source that reads a file.
    pub fn reads(&self) -> bool
        ensures { result ≡ reads self.now }
    {
        matches!(self, Settings::FileSrc(_))
    }

    /// Whether the element is a sink that writes a file.
    pub fn writes(&self) -> bool
        ensures { result ≡ writes self.now }
    {
        matches!(self, Settings::FileSink(_))
    }

    /// What the element says that its stream is called.
    pub fn title(&self) -> Option<&str>
        ensures { option_map (λ text. text.now) result ≡ title_of self.now }
    {
        match self {
            Settings::RampTestSrc(settings) => text_of(&settings.ramp.title),
            _ => None,
        }
    }

    /// The same settings once more.
    pub fn copy(&self, alloc: Global) -> Result<Settings, OutOfMemory>
        ensures { IfOk result (λ made. made ≡ self.now) }
    {
        match self {
            Settings::FileSrc(settings) => Ok(Settings::FileSrc(FileSrcSettings {
                location: settings.location.copy(alloc)?,
                blocksize: settings.blocksize,
            })),
            Settings::RampTestSrc(settings) => ramp_again(alloc, settings),
            Settings::Identity => Ok(Settings::Identity),
            Settings::CapsFilter(settings) => Ok(Settings::CapsFilter(CapsFilterSettings {
                caps: settings.caps.copy(alloc)?,
            })),
            Settings::Valve(settings) => Ok(Settings::Valve(*settings)),
            Settings::Queue(settings) => Ok(Settings::Queue(*settings)),
            Settings::Tee(pads) => Ok(Settings::Tee(*pads)),
            Settings::AudioConvert(settings) => Ok(Settings::AudioConvert(AudioConvertSettings {
                allowed: settings.allowed.copy(alloc)?,
            })),
            Settings::Law(kind) => Ok(Settings::Law(*kind)),
            Settings::RawAudioParse(info) => Ok(Settings::RawAudioParse(*info)),
            Settings::AudioBufferSplit(settings) => Ok(Settings::AudioBufferSplit(*settings)),
            Settings::WavParse => Ok(Settings::WavParse),
            Settings::WavEnc => Ok(Settings::WavEnc),
            Settings::Interleave(pads) => Ok(Settings::Interleave(*pads)),
            Settings::Concat(pads) => Ok(Settings::Concat(*pads)),
            Settings::FileSink(settings) => Ok(Settings::FileSink(FileSinkSettings {
                location: settings.location.copy(alloc)?,
                keep_flushed: settings.keep_flushed,
            })),
            Settings::FakeSink => Ok(Settings::FakeSink),
        }
    }
}

/// The settings of a ramptestsrc once more.
fn ramp_again(alloc: Global, settings: &RampTestSrcSettings) -> Result<Settings, OutOfMemory>
    ensures { IfOk result (λ made. made ≡ Settings.RampTestSrc settings.now) }
{
    let title = title_again(alloc, &settings.ramp.title)?;
    Ok(Settings::RampTestSrc(RampTestSrcSettings {
        ramp: Ramp {
            buffers: settings.ramp.buffers,
            samples: settings.ramp.samples,
            rate: settings.ramp.rate,
            channels: settings.ramp.channels,
            gap_every: settings.ramp.gap_every,
            title,
        },
    }))
}

/// The characters of a text, where there is one.
fn text_of(text: &Option<Text>) -> Option<&str>
    ensures { option_map (λ text. text.now) result ≡ text.now }
{
    match text {
        Some(text) => Some(text.as_str()),
        None => None,
    }
}

/// A title once more, where there is one.
fn title_again(alloc: Global, title: &Option<Text>) -> Result<Option<Text>, OutOfMemory>
    ensures { IfOk result (λ made. made ≡ title.now) }
{
    match title {
        Some(text) => Ok(Some(text.copy(alloc)?)),
        None => Ok(None),
    }
}
