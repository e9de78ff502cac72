//! The element that mixes channels, as GStreamer's interleave.
ghost use Rattle.std.specs.Prelude.{◌≡◌, ◌<◌, ◌≤◌, ◌+◌, ℕ, List, [], ◌∷◌, true, false, Ok, Err, Some, None, length, map, replicate, slice_get, vec_len, IfOk, IfErr, OnOk, OnErr, IsOk, IfSome};
ghost use Rattle.flow_model.specs.Item.{Item, Ev, FlushStop, is_flush_stop};
ghost use Rattle.flow_model.specs.Call.{Call, Feed};
ghost use Rattle.flow_model.specs.Feeding.{flow_behind, IsFaultOf};
ghost use Rattle.flow_model.specs.SinkPads.{push_calls, calls_at, push_each};
ghost use Rattle.el_mix.specs.Answer.{mix_answer};
ghost use Rattle.el_mix.specs.declared.channel.Channel.{Channel};
ghost use Rattle.el_mix.specs.Taking.{settled, flushed, new_channel};
ghost use Rattle.el_mix.specs.Calls.{Takes};
ghost use Rattle.el_mix.specs.Standing.{known, lower_known as lower_known_of};
ghost use Rattle.el_mix.specs.Wanted.{lowest, is_short as short, is_unstarted};

use crate::channel::Channel;
use crate::due::put_out;
use crate::judge::judge;
use crate::position::Position;
use flow_model::ElementFault;
use gst_item::{Event, Flow, Item, Outs};
use gst_value::OutOfMemory;
use std::alloc::Global;

/// Puts out one channel for each of its sink pads. Its only source pad has the number 0.
#[derive(Drop)]
pub struct Mix {
    channels: Vec<Channel>,
    at: Position,
    ghost few: { vec_len channels ≤ 64 },
    ghost settled: { map settled channels.items ≡ channels.items },
}

impl Mix {
    ghost use Rattle.el_mix.specs.Reopened.{reopenings};
    ghost use Rattle.el_mix.specs.Lacking.{wanted_of};
    ghost use Rattle.el_mix.specs.Relation.{Mixes, MixPuts, Remembers, sink_pads, section_of, lower_known, wanted};
    ghost use Rattle.flow_model.specs.Inherited.{is_inherited};

    /// An element with this many sink pads that was fed nothing yet.
    pub fn new(alloc: Global, pads: u32) -> Result<Mix, OutOfMemory>
        requires few { pads ≤ 64 }
        ensures pads { IfOk result (λ made. sink_pads made ≡ pads) }
        ensures mixes { IfOk result (λ made. Mixes made (replicate pads []) []) }
    {
        Ok(Mix {
            channels: new_channels(alloc, pads)?,
            at: Position::new(),
        })
    }

    /// Takes an item on a sink pad. Behind the pad's EOS, up to the next flush, the answer is `Flow::Eos` and nothing is put out, and
    /// else it is `Flow::Ok`. Once each pad had SEGMENT or EOS, and one has CAPS, STREAM_START goes out with the least id of the pads,
    /// CAPS with as many channels as pads, and SEGMENT in time from 0. Then come buffers, each from one frame at which a pad's buffer
    /// ended to the next, with a sample of each pad in turn, the times of their frames, and silence for a pad that ended. EOS goes
    /// out behind the last pad's, and where no pad had CAPS, STREAM_START and EOS alone. All else is dropped.
    ///
    /// CAPS outside of the template, raw audio of one channel, and a buffer before any CAPS are `NotNegotiated` with the template as
    /// wanted. CAPS other than those of the lowest pad that has some are `NotNegotiated` with these as wanted. Inherited CAPS are
    /// judged with the pad's first item of the section. A buffer that is not a whole number of frames is a `SplitFrame` at the number
    /// of bytes that came since the last flush, its own among them. Where the time of its end would be `LIMIT` or more, it is
    /// `TooLong`, with the time up to which buffers went out and what is left from there.
    pub fn feed(
        &mut self,
        alloc: Global,
        pad: u32,
        item: Item,
        out: &mut Outs,
    ) -> Result<Flow, ElementFault>
        requires pad { pad < sink_pads self.old }
        requires no_flush { is_flush_stop item ≡ false }
        requires order { lower_known pad self.old ≡ true }
        ensures puts { OnOk result (MixPuts self.old self.new pad item out.old out.new) }
        ensures flow { IfOk result
            (λ flow. (took : List (List Call)) (put : List Item) → Mixes self.old took put → flow ≡ flow_behind (calls_at pad took)) }
        ensures stays { OnErr result ((self.new ≡ self.old) × (out.new ≡ out.old)) }
        ensures fault { IfErr result
            (λ fault. (took : List (List Call)) (put : List Item) → Mixes self.old took put → IsFaultOf (mix_answer took pad item) fault) }
        ensures pads { sink_pads self.new ≡ sink_pads self.old }
    {
        let place = pad as usize;
        if self.channels[place].progress.ended {
            return Ok(Flow::Eos);
        }
        judge(alloc, &self.channels, place, &item, self.at.reached)?;
        take(alloc, &mut self.channels, place, item, &mut self.at, out)?;
        Ok(Flow::Ok)
    }

    /// Takes an event that only the next section has of it: STREAM_START, CAPS or TAG. It counts as the last item that the pad was
    /// given before the next flush.
    pub fn lay(&mut self, pad: u32, event: Event)
        requires pad { pad < sink_pads self.old }
        requires inherited { is_inherited event ≡ true }
        ensures laid { (took : List (List Call)) → Remembers self.old took → Remembers self.new (push_calls pad (Feed (Ev event) ∷ []) took) }
        ensures pads { sink_pads self.new ≡ sink_pads self.old }
    {
        self.channels[pad as usize].lay(event);
    }

    /// Begins a new section, behind a FLUSH_STOP of any number that crosses each sink pad and its source pad.
    pub fn flush(&mut self)
        ensures flushed { (took : List (List Call)) (number : ℕ) → Remembers self.old took
            → Mixes self.new (push_each (Feed (Ev (FlushStop number)) ∷ []) took) [] }
        ensures pads { sink_pads self.new ≡ sink_pads self.old }
    {
        flush_all(&mut self.channels);
        self.at = Position::new();
    }

    /// Puts out what it holds back, which is nothing: what waits, waits for frames of other pads.
    pub fn drain(&mut self, _alloc: Global, _out: &mut Outs) -> Result<(), ElementFault>
        ensures ok { IsOk result }
        ensures same { self.new ≡ self.old }
        ensures out { _out.new ≡ _out.old }
    {
        Ok(())
    }

    /// How many sink pads it has.
    pub fn pad_count(&self) -> u32
        ensures { result ≡ sink_pads self.now }
    {
        self.channels.len() as u32
    }

    /// Whether an item may be fed on a sink pad: each lower one has CAPS, inherited ones counted, or has had EOS since the last flush.
    pub fn is_in_order(&self, pad: u32) -> bool
        ensures { result ≡ lower_known pad self.now }
    {
        all_known(&self.channels, pad as usize)
    }

    /// The sink pad from which it wants its next item: the lowest one without frames that wait and without EOS, and where there is
    /// none, the lowest one that has had neither SEGMENT nor EOS since the last flush.
    pub fn wants(&self) -> Option<u32>
        ensures wanted { result ≡ wanted self.now }
        ensures lists { (took : List (List Call)) (put : List Item) → Mixes self.now took put
            → result ≡ wanted_of (reopenings (section_of took) took) }
        ensures order { IfSome result (λ pad. (took : List (List Call)) (put : List Item) → Mixes self.now took put → lower_known pad self.now ≡ true) }
    {
        match lowest_short(&self.channels) {
            Some(pad) => Some(pad),
            None => lowest_unstarted(&self.channels),
        }
    }
}

/// Takes an item that is not refused. Where there is no memory, nothing is changed.
fn take(
    alloc: Global,
    channels: &mut [Channel],
    place: usize,
    item: Item,
    at: &mut Position,
    out: &mut Outs,
) -> Result<(), OutOfMemory>
    requires pad { place < length channels.old }
    requires few { length channels.old ≤ 64 }
    requires open { (c : Channel) → slice_get channels.old place ≡ Some c → c.progress.ended ≡ false }
    requires settled { map settled channels.old ≡ channels.old }
    ensures takes { OnOk result (Takes at.old channels.old place item at.new channels.new out.old out.new) }
    ensures stays { OnErr result ((at.new ≡ at.old) × (out.new ≡ out.old) × (channels.new ≡ channels.old)) }
    ensures settled { map settled channels.new ≡ channels.new }
    ensures pads { length channels.new ≡ length channels.old }
{
    let undo = channels[place].take(item)?;
    match put_out(alloc, channels, at, out) {
        Ok(()) => Ok(()),
        Err(fault) => {
            channels[place].put_back(undo);
            Err(fault)
        }
    }
}

/// So many channels that were fed nothing yet.
fn new_channels(alloc: Global, pads: u32) -> Result<Vec<Channel>, OutOfMemory>
    ensures { IfOk result (λ made. made.items ≡ replicate pads new_channel) }
{
    let mut channels = Vec::with_capacity(alloc, pads as usize)?;
    let mut pad = 0;
    while pad < pads {
        channels.push(Channel::new(alloc))?;
        pad += 1;
    }
    Ok(channels)
}

/// Begins a new section of each channel.
fn flush_all(channels: &mut [Channel])
    ensures { channels.new ≡ map flushed channels.old }
{
    for channel in channels.iter_mut() {
        channel.flush();
    }
}

/// Whether each channel below a place has CAPS or had EOS.
fn all_known(channels: &[Channel], place: usize) -> bool
    ensures { result ≡ lower_known_of place channels.now }
{
    for below in 0..channels.len() {
        if below == place {
            return true;
        }
        if !is_known(&channels[below]) {
            return false;
        }
    }
    true
}

fn is_known(channel: &Channel) -> bool
    ensures { result ≡ known channel.now }
{
    channel.progress.ended || channel.stream.is_some()
}

/// The lowest channel without bodies that wait and without EOS.
fn lowest_short(channels: &[Channel]) -> Option<u32>
    requires few { length channels.now ≤ 64 }
    ensures { result ≡ lowest short 0 channels.now }
{
    for place in 0..channels.len() {
        if is_short(&channels[place]) {
            return Some(place as u32);
        }
    }
    None
}

fn is_short(channel: &Channel) -> bool
    ensures { result ≡ short channel.now }
{
    !channel.progress.ended && channel.waiting.is_empty()
}

/// The lowest channel without SEGMENT and EOS since the last flush.
fn lowest_unstarted(channels: &[Channel]) -> Option<u32>
    requires few { length channels.now ≤ 64 }
    ensures { result ≡ lowest is_unstarted 0 channels.now }
{
    for place in 0..channels.len() {
        if !channels[place].progress.started {
            return Some(place as u32);
        }
    }
    None
}
