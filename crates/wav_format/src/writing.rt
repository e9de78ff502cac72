//! Writing the head of a WAV file.
ghost use Rattle.std.specs.Prelude.{◌≡◌, ◌≢◌, ◌≤◌, [], Some, ◌+◌, ◌*◌, ◌/◌, ◌%◌, ◌++◌, length, codes, IsSomeAnd};
ghost use Rattle.std.specs.Option.{ForSome};
ghost use Rattle.byteorder.specs.Endian.{little_bytes};
ghost use Rattle.wav_format.specs.Chunks.{HeadThen, longest_head};
ghost use Rattle.wav_format.specs.Format.{IsKnown};
ghost use Rattle.wav_format.specs.Written.{block_align, format_chunk, written};

use crate::head::Head;
use byteorder::{ByteOrder, LittleEndian};

fn write_riff(into: &mut [u8], size: u32)
    requires room { length into.old ≡ 12 }
    requires fits { size ≤ 4294967258 }
    ensures { into.new ≡ codes "RIFF" ++ little_bytes 4 (36 + size + size % 2) ++ codes "WAVE" }
{
    into[..4].copy_from_slice(b"RIFF");
    LittleEndian::write_u32(&mut into[4..8], 36 + size + size % 2);
    into[8..].copy_from_slice(b"WAVE");
}

fn write_format(into: &mut [u8], head: &Head)
    requires room { length into.old ≡ 24 }
    requires channels { head.now.channels ≤ 64 }
    requires rate { head.now.rate ≤ 768000 }
    requires known { IsKnown head.now.tag head.now.bits }
    ensures { into.new ≡ format_chunk head.now }
{
    let block_align = head.channels * head.bits / 8;
    into[..4].copy_from_slice(b"fmt ");
    LittleEndian::write_u32(&mut into[4..8], 16);
    LittleEndian::write_u16(&mut into[8..10], head.tag);
    LittleEndian::write_u16(&mut into[10..12], head.channels);
    LittleEndian::write_u32(&mut into[12..16], head.rate);
    LittleEndian::write_u32(&mut into[16..20], head.rate * block_align as u32);
    LittleEndian::write_u16(&mut into[20..22], block_align);
    LittleEndian::write_u16(&mut into[22..], head.bits);
}

fn write_data(into: &mut [u8], size: u32)
    requires { length into.old ≡ 8 }
    ensures { into.new ≡ codes "data" ++ little_bytes 4 size }
{
    into[..4].copy_from_slice(b"data");
    LittleEndian::write_u32(&mut into[4..], size);
}

/// Writes the head of a WAV file whose data of `head.size` bytes stands right behind it, in the plain form of
/// 44 bytes. `head.start` is not read. The RIFF size counts the byte that follows data of an odd size.
pub fn write_head(head: &Head, into: &mut [u8; 44])
    requires size { IsSomeAnd head.now.size (λ size. size ≤ 4294967258) }
    requires some_channel { 1 ≤ head.now.channels }
    requires few_channels { head.now.channels ≤ 64 }
    requires some_rate { 1 ≤ head.now.rate }
    requires low_rate { head.now.rate ≤ 768000 }
    requires known { IsKnown head.now.tag head.now.bits }
    ensures written { ForSome head.now.size (λ size. into.new ≡ written head.now size) }

    // What is written is the head itself, where its start is right and its size can be told.
    ensures again { head.now.start ≡ 44 → head.now.size ≢ Some 0 → HeadThen longest_head into.new head.now [] }
{
    if let Some(size) = head.size {
        write_riff(&mut into[..12], size as u32);
        write_format(&mut into[12..36], head);
        write_data(&mut into[36..], size as u32);
    }
}
