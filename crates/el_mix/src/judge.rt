//! Why items are refused.
ghost use Rattle.std.specs.Prelude.{◌≡◌, ◌<◌, ◌+◌, ◌^◌, Some, None, length, map, slice_get, OnOk, IfErr, option_copied};
ghost use Rattle.flow_model.specs.Item.{body_of};
ghost use Rattle.el_mix.specs.Agreed.{caps_refusal};
ghost use Rattle.el_mix.specs.Due.{IsDue};
ghost use Rattle.el_mix.specs.Taking.{hears, IsHeard};
ghost use Rattle.el_mix.specs.Judging.{lowest_to, inherited_refusal, own_refusal, verdict, IsFine};
ghost use Rattle.el_mix.specs.declared.channel.Channel.{Channel};

use crate::channel::Channel;
use crate::template::mono_template;
use audio_info::exactly;
use flow_model::ElementFault;
use gst_caps::same_caps;
use gst_item::{Event, Item};
use gst_value::Fixed;
use std::alloc::Global;

/// Why an item is refused, where buffers up to the time `reached` were put out: first the inherited CAPS of its pad, with the first
/// item of the section, and then the item.
pub(crate) fn judge(
    alloc: Global,
    channels: &[Channel],
    place: usize,
    item: &Item,
    reached: u64,
) -> Result<(), ElementFault>
    requires pad { place < length channels.now }
    ensures ok { OnOk result ((c : Channel) → slice_get channels.now place ≡ Some c → IsFine c
        → verdict reached (lowest_to place (map hears channels.now)) c item.now ≡ None) }
    ensures small { OnOk result ((c : Channel) → slice_get channels.now place ≡ Some c → IsFine c
        → c.progress.got + length (body_of item.now) < 2 ^ 62) }
    ensures fault { IfErr result (λ fault. (c : Channel) → slice_get channels.now place ≡ Some c → IsFine c
        → IsDue (verdict reached (lowest_to place (map hears channels.now)) c item.now) fault) }
{
    let lowest = lowest_caps(channels, place);
    judge_by(alloc, lowest, &channels[place], item, reached)
}

/// The CAPS of the lowest pad up to one that has some.
fn lowest_caps(channels: &[Channel], place: usize) -> Option<&Fixed>
    requires pad { place < length channels.now }
    ensures { option_copied result ≡ lowest_to place (map hears channels.now) }
{
    for below in 0..place {
        if let Some(stream) = &channels[below].stream {
            return Some(&stream.caps);
        }
    }
    caps_of(&channels[place])
}

fn caps_of(channel: &Channel) -> Option<&Fixed>
    ensures { option_copied result ≡ hears channel.now }
{
    match &channel.stream {
        Some(stream) => Some(&stream.caps),
        None => None,
    }
}

fn judge_by(
    alloc: Global,
    lowest: Option<&Fixed>,
    channel: &Channel,
    item: &Item,
    reached: u64,
) -> Result<(), ElementFault>
    ensures ok { OnOk result (IsFine channel.now → verdict reached (option_copied lowest.entry) channel.now item.now ≡ None) }
    ensures small { OnOk result (IsFine channel.now → channel.now.progress.got + length (body_of item.now) < 2 ^ 62) }
    ensures fault { IfErr result (λ fault. IsFine channel.now → IsDue (verdict reached (option_copied lowest.entry) channel.now item.now) fault) }
{
    if channel.progress.begun {
        return judge_item(alloc, lowest, channel, item, reached);
    }
    judge_inherited(alloc, lowest, channel)?;
    judge_item(alloc, lowest, channel, item, reached)
}

/// Why an item is refused, where the CAPS of its pad are not.
fn judge_item(
    alloc: Global,
    lowest: Option<&Fixed>,
    channel: &Channel,
    item: &Item,
    reached: u64,
) -> Result<(), ElementFault>
    ensures ok { OnOk result (IsHeard (hears channel.now) → channel.now.progress.got < 2 ^ 62
        → own_refusal reached (option_copied lowest.entry) (hears channel.now) channel.now.progress.got item.now ≡ None) }
    ensures small { OnOk result (channel.now.progress.got < 2 ^ 62 → channel.now.progress.got + length (body_of item.now) < 2 ^ 62) }
    ensures fault { IfErr result (λ fault. IsHeard (hears channel.now) → channel.now.progress.got < 2 ^ 62
        → IsDue (own_refusal reached (option_copied lowest.entry) (hears channel.now) channel.now.progress.got item.now) fault) }
{
    match item {
        Item::Buffer(buffer) => channel.judge_body(alloc, &buffer.body, reached),
        Item::Event(Event::Caps(caps)) => judge_caps(alloc, lowest, caps),
        Item::Event(_) => Ok(()),
    }
}

fn judge_inherited(
    alloc: Global,
    lowest: Option<&Fixed>,
    channel: &Channel,
) -> Result<(), ElementFault>
    ensures ok { OnOk result (inherited_refusal (option_copied lowest.entry) (hears channel.now) ≡ None) }
    ensures fault { IfErr result (λ fault. IsDue (inherited_refusal (option_copied lowest.entry) (hears channel.now)) fault) }
{
    match &channel.stream {
        Some(stream) => judge_caps(alloc, lowest, &stream.caps),
        None => Ok(()),
    }
}

/// Why CAPS are refused, by those of the lowest pad that has some.
fn judge_caps(alloc: Global, lowest: Option<&Fixed>, caps: &Fixed) -> Result<(), ElementFault>
    ensures ok { OnOk result (caps_refusal (option_copied lowest.entry) caps.now ≡ None) }
    ensures fault { IfErr result (λ fault. IsDue (caps_refusal (option_copied lowest.entry) caps.now) fault) }
{
    match lowest {
        Some(lowest) => judge_same(alloc, lowest, caps),
        None => judge_first(alloc, caps),
    }
}

fn judge_same(alloc: Global, lowest: &Fixed, caps: &Fixed) -> Result<(), ElementFault>
    ensures ok { OnOk result (caps_refusal (Some lowest.now) caps.now ≡ None) }
    ensures fault { IfErr result (λ fault. IsDue (caps_refusal (Some lowest.now) caps.now) fault) }
{
    if same_caps(lowest, caps) {
        return judge_first(alloc, caps);
    }
    Err(ElementFault::NotNegotiated {
        offered: Some(caps.copy(alloc)?),
        wanted: exactly(alloc, lowest)?,
    })
}

fn judge_first(alloc: Global, caps: &Fixed) -> Result<(), ElementFault>
    ensures ok { OnOk result (caps_refusal None caps.now ≡ None) }
    ensures fault { IfErr result (λ fault. IsDue (caps_refusal None caps.now) fault) }
{
    let wanted = mono_template(alloc)?;
    if wanted.accepts(caps) {
        return Ok(());
    }
    Err(ElementFault::NotNegotiated {
        offered: Some(caps.copy(alloc)?),
        wanted,
    })
}
