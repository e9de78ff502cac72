//! Reads the bytes of a source, up to one more than a script may have.
ghost use Rattle.std.specs.Prelude.{◌≡◌, ◌≤◌, ◌<◌, ◌+◌, ◌++◌, length, take, drop, IfOk, IfErr, OnOk};
ghost use Rattle.std.specs.Option.{ForSome};
ghost use Rattle.script_file.specs.Faults.{IsUnread};
ghost use Rattle.script_file.specs.Fronts.{IsFront};

use crate::fault::Unread;
use gst_outside::{Failed, Source};
use std::alloc::Global;

/// The longest script, in bytes.
const LONGEST: usize = 1_048_576;

/// How many bytes are read at a time.
const BLOCK: usize = 65_536;

/// Reads behind the bytes that were read, by way of a block, and tells how many bytes came. With 0 there are no more.
fn read_more<S: Source>(
    source: &mut S,
    block: &mut [u8],
    bytes: &mut Vec<u8>,
) -> Result<usize, Unread>
    requires { 0 < length block.old }
    ensures content_stays { S.content source.new ≡ S.content source.old }
    ensures location_stays { S.location source.new ≡ S.location source.old }
    ensures cause { IfErr result (IsUnread (S.faults source.old) (S.faults source.new)) }
    ensures faults_stay { OnOk result (S.faults source.new ≡ S.faults source.old) }
    ensures count { IfOk result (λ n. length bytes.new.items ≡ length bytes.old.items + n) }
    ensures added { IfOk result (λ n. ForSome (S.content source.old)
        (λ c. bytes.new.items ≡ bytes.old.items ++ take n (drop (length bytes.old.items) c))) }
    ensures end { IfOk result (λ n. n ≡ 0 → ForSome (S.content source.old) (λ c. length c ≤ length bytes.old.items)) }
{
    let before = source.faults();
    match source.read_at(bytes.len() as u64, block) {
        Ok(more) => match bytes.extend_from_slice(&block[..more]) {
            Ok(()) => Ok(more),
            Err(_) => Err(Unread::OutOfMemory),
        },
        Err(Failed) => Err(Unread::Failed {
            before,
            after: source.faults(),
        }),
    }
}

/// The bytes of a source from its first on, all of them where it has no more than a script may have.
pub(crate) fn read_all<S: Source>(alloc: Global, source: &mut S) -> Result<Vec<u8>, Unread>
    ensures content_stays { S.content source.new ≡ S.content source.old }
    ensures location_stays { S.location source.new ≡ S.location source.old }
    ensures cause { IfErr result (IsUnread (S.faults source.old) (S.faults source.new)) }
    ensures front { IfOk result (λ bytes. ForSome (S.content source.old) (IsFront bytes.items)) }
{
    let Ok(mut block) = vec![in alloc; 0; BLOCK] else {
        return Err(Unread::OutOfMemory);
    };
    let mut bytes = Vec::new(alloc);
    while bytes.len() <= LONGEST {
        match read_more(source, block.as_mut_slice(), &mut bytes) {
            Ok(0) => return Ok(bytes),
            Ok(_) => {}
            Err(why) => return Err(why),
        }
    }
    Ok(bytes)
}
