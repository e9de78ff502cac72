//! Reads the script of a file.
ghost use Rattle.std.specs.Prelude.{◌≡◌, ◌≤◌, ◌<◌, ◌^◌, ℕ, List, IfOk, IfErr};
ghost use Rattle.std.specs.Option.{ForSome};
ghost use Rattle.script_text.specs.Scripts.{IsScript};
ghost use Rattle.script_file.specs.Faults.{IsFileFault};
ghost use Rattle.script_file.specs.Fronts.{IsFront, IsReadAs};

use crate::fault::{FileFault, opening_fault, reading_fault, text_fault};
use crate::reading::read_all;
use gst_outside::Files;
use gst_value::List as Items;
use script_text::{Acts, Command, read};
use std::alloc::Global;

/// The bytes of the file at a location, all of them where it has no more than a script may have.
fn read_bytes<F: Files>(alloc: Global, files: &mut F, location: &str) -> Result<Vec<u8>, FileFault>
    ensures front { IfOk result (λ bytes. ForSome ((F.seen files.old).input location.now) (IsFront bytes.items)) }
    ensures fault { (acts : Acts) → IfErr result (IsFileFault acts location.now (F.seen files.old) (F.seen files.new)) }
    ensures given_back { (F.seen files.old).ends < 2 ^ 63 → (F.seen files.new).ends ≡ (F.seen files.old).ends }
    ensures inputs { (l : List ℕ) → (F.seen files.new).input l ≡ (F.seen files.old).input l }
    ensures outputs { (l : List ℕ) → (F.seen files.new).output l ≡ (F.seen files.old).output l }
    ensures never_falls { (F.seen files.old).faults ≤ (F.seen files.new).faults }
    ensures opened_stays { (l : List ℕ) → F.opened files.old l → F.opened files.new l }
{
    let mut source = match files.open_read(alloc, location) {
        Ok(source) => source,
        Err(why) => return Err(opening_fault(why)),
    };
    let answer = read_all(alloc, &mut source);
    files.close_read(source);
    match answer {
        Ok(bytes) => Ok(bytes),
        Err(why) => Err(reading_fault(why)),
    }
}

/// The commands of the script in the file at a location, of these acts.
///
/// The file is read by 65,536 bytes at a time, to its end or until more than 1,048,576 bytes were read, and closed.
/// A script that is longer is refused at line 0 as `TooLong`, whatever stands behind what was read.
pub fn read_file<F: Files>(
    alloc: Global,
    acts: Acts,
    files: &mut F,
    location: &str,
) -> Result<Items<Command>, FileFault>
    ensures script { IfOk result (λ commands. IsReadAs ((F.seen files.old).input location.now) (λ text. IsScript acts text commands)) }
    ensures fault { IfErr result (IsFileFault acts location.now (F.seen files.old) (F.seen files.new)) }
    ensures given_back { (F.seen files.old).ends < 2 ^ 63 → (F.seen files.new).ends ≡ (F.seen files.old).ends }
    ensures inputs { (l : List ℕ) → (F.seen files.new).input l ≡ (F.seen files.old).input l }
    ensures outputs { (l : List ℕ) → (F.seen files.new).output l ≡ (F.seen files.old).output l }
    ensures never_falls { (F.seen files.old).faults ≤ (F.seen files.new).faults }
    ensures opened_stays { (l : List ℕ) → F.opened files.old l → F.opened files.new l }
{
    let bytes = match read_bytes(alloc, files, location) {
        Ok(bytes) => bytes,
        Err(fault) => return Err(fault),
    };
    match read(alloc, acts, bytes.as_slice()) {
        Ok(commands) => Ok(commands),
        Err(why) => Err(text_fault(why)),
    }
}
