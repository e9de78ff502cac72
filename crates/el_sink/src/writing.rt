//! Bodies, written by their place.
ghost use Rattle.std.specs.Prelude.{◌≡◌, ◌≤◌, ◌<◌, ◌+◌, ◌^◌, ℕ, List, length, take, option_map};
ghost use Rattle.gst_outside.specs.Bytes.{written};
ghost use Rattle.gst_outside.specs.Causes.{Rose};

use gst_outside::{Failed, Sink};

/// Writes a body at a place, and tells how many of its bytes were written: fewer than there are only where a
/// write failed.
#[tactic(auto, using(crate::proofs::Pieces::nothing_written))]
pub(crate) fn write_body<K: Sink>(sink: &mut K, place: u64, body: &[u8]) -> usize
    ensures location_stays { K.location sink.new ≡ K.location sink.old }
    ensures never_falls { K.faults sink.old ≤ K.faults sink.new }
    ensures part { result ≤ length body.now }
    ensures failed { result < length body.now → Rose (K.faults sink.old) (K.faults sink.new) }
    ensures reach { 0 < result → place + length body.now ≤ 2 ^ 63 }
    ensures wrote { K.bytes sink.new ≡ option_map (λ b. written b place (take result body.now)) (K.bytes sink.old) }
{
    let mut done = 0;
    while done < body.len() {
        match sink.write_at(place + done as u64, &body[done..]) {
            Ok(more) => done += more,
            Err(Failed) => return done,
        }
    }
    done
}

/// The length of a file, in bytes, once so many were written at a place.
pub(crate) fn length_behind(len: u64, place: u64, count: usize) -> u64
    requires { 0 < count → place + count < 2 ^ 64 }
    ensures { (bytes piece : List ℕ) → len ≡ length bytes → length piece ≡ count → result ≡ length (written bytes place piece) }
{
    if count == 0 {
        len
    } else {
        len.max(place + count as u64)
    }
}
