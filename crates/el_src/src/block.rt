//! Blocks of what is read.
ghost use Rattle.std.specs.Prelude.{◌≡◌, ◌≤◌, ◌+◌, ◌^◌, ◌<◌, length, take, drop, IfOk, OnOk, OnErr, IfErr};
ghost use Rattle.std.specs.Option.{ForSome};
ghost use Rattle.gst_outside.specs.Causes.{Rose};
ghost use Rattle.el_src.specs.Cause.{IsSrcCause};

use crate::fault::SrcFault;
use gst_outside::{Failed, Source};
use std::alloc::Global;

/// Reads the bytes from `place` on until `into` is full or a read gives none, and tells how many it read.
fn fill<S: Source>(source: &mut S, place: u64, into: &mut [u8]) -> Result<usize, Failed>
    requires { place + length into.old < 2 ^ 64 }
    ensures content_stays { S.content source.new ≡ S.content source.old }
    ensures location_stays { S.location source.new ≡ S.location source.old }
    ensures never_falls { S.faults source.old ≤ S.faults source.new }
    ensures failed { OnErr result (Rose (S.faults source.old) (S.faults source.new)) }
    ensures faults_stay { OnOk result (S.faults source.new ≡ S.faults source.old) }
    ensures room { IfOk result (λ n. n ≤ length into.old) }
    ensures bytes { IfOk result (λ n. ForSome (S.content source.old) (λ c. take n into.new ≡ take (length into.old) (drop place c))) }
{
    let mut got = 0;
    while got < into.len() {
        let more = source.read_at(place + got as u64, &mut into[got..])?;
        if more == 0 {
            return Ok(got);
        }
        got += more;
    }
    Ok(got)
}

/// Reads the block of a size, in bytes, at a place. It is shorter only where the input ends in it.
pub(crate) fn read_block<S: Source>(
    alloc: Global,
    source: &mut S,
    place: u64,
    size: u32,
) -> Result<Vec<u8>, SrcFault>
    requires { place + size < 2 ^ 64 }
    ensures content_stays { S.content source.new ≡ S.content source.old }
    ensures location_stays { S.location source.new ≡ S.location source.old }
    ensures never_falls { S.faults source.old ≤ S.faults source.new }
    ensures cause { IfErr result (λ fault. IsSrcCause fault (S.faults source.old) (S.faults source.new)) }
    ensures faults_stay { OnOk result (S.faults source.new ≡ S.faults source.old) }
    ensures small { IfOk result (λ bytes. length bytes.items ≤ size) }
    ensures bytes { IfOk result (λ bytes. ForSome (S.content source.old) (λ c. bytes.items ≡ take size (drop place c))) }
{
    let before = source.faults();
    let mut bytes = vec![in alloc; 0; size as usize]?;
    let got = match fill(source, place, bytes.as_mut_slice()) {
        Ok(got) => got,
        Err(Failed) => {
            return Err(SrcFault::ReadFault {
                before,
                after: source.faults(),
            });
        }
    };
    bytes.truncate(got);
    Ok(bytes)
}
