//! The table of files in memory.
ghost use Rattle.std.specs.Prelude.{◌≡◌, ◌<◌, Some, IsTrue, IfOk, OnOk, length, option_copied, slice_index_or};
ghost use Rattle.std.specs.List.{find, position};
ghost use Rattle.gst_outside.specs.Table.{Changes, SameFiles, file_at, has_file, is_of, new_file, with_faults, with_input, with_output, with_refusal, with_sinks};

use crate::mem_file::MemFile;
use gst_value::{List as Members, OutOfMemory};
use std::alloc::Global;

/// The index of the entry for a location.
pub(crate) fn index_of(files: &[MemFile], location: &str) -> Option<usize>
    ensures { result ≡ position (is_of location.now) files.now }
{
    files
        .iter()
        .position(|file| file.location.as_str() == location)
}

/// The entry for a location.
pub(crate) fn file_of<'a>(files: &'a [MemFile], location: &str) -> Option<&'a MemFile>
    ensures { option_copied result ≡ find (is_of location.now) files.now }
{
    files.iter().find(|file| file.location.as_str() == location)
}

/// Puts an entry for a location into the table where there is none, and gives its index.
pub(crate) fn entry(
    files: &mut Vec<MemFile>,
    alloc: Global,
    location: &str,
) -> Result<usize, OutOfMemory>
    ensures index { IfOk result (λ i. i < length files.new.items) }
    ensures found { IfOk result (λ i. slice_index_or files.new.items i (new_file location.now) ≡ file_at files.new.items location.now) }
    ensures there { OnOk result (IsTrue (has_file files.new.items location.now)) }
    ensures stays { SameFiles files.old.items files.new.items }
{
    if let Some(index) = index_of(files.as_slice(), location) {
        return Ok(index);
    }
    let index = files.len();
    files.push(MemFile::new(alloc, location)?)?;
    Ok(index)
}

/// The index of the entry for a location that has one.
fn known_index(files: &[MemFile], location: &str) -> usize
    requires { IsTrue (has_file files.now location.now) }
    ensures found { position (is_of location.now) files.now ≡ Some result }
    ensures index { result < length files.now }
{
    match index_of(files, location) {
        Some(index) => index,
        None => unreachable!(),
    }
}

/// One more refused opening of a location.
pub(crate) fn add_refusal(files: &mut Vec<MemFile>, location: &str)
    requires { IsTrue (has_file files.old.items location.now) }
    ensures { Changes with_refusal location.now files.old.items files.new.items }
{
    let index = known_index(files.as_slice(), location);
    let file = &mut files[index];
    file.refused = file.refused.saturating_add(1);
}

/// More failures of the ends that were closed at a location.
pub(crate) fn add_faults(files: &mut Vec<MemFile>, location: &str, faults: u64)
    requires { IsTrue (has_file files.old.items location.now) }
    ensures { Changes (with_faults faults) location.now files.old.items files.new.items }
{
    let index = known_index(files.as_slice(), location);
    let file = &mut files[index];
    file.faults = file.faults.saturating_add(faults);
}

/// What a sink left at a location.
pub(crate) fn set_output(files: &mut Vec<MemFile>, location: &str, output: Members<u8>)
    requires { IsTrue (has_file files.old.items location.now) }
    ensures { Changes (with_output output) location.now files.old.items files.new.items }
{
    let index = known_index(files.as_slice(), location);
    let file = &mut files[index];
    file.output = output;
}

/// What sources read at a location, and the calls on them that are to fail.
pub(crate) fn set_input(
    files: &mut Vec<MemFile>,
    location: &str,
    input: Members<u8>,
    reads: Members<u64>,
    sizes: Members<u64>,
)
    requires { IsTrue (has_file files.old.items location.now) }
    ensures { Changes (with_input input reads sizes) location.now files.old.items files.new.items }
{
    let index = known_index(files.as_slice(), location);
    let file = &mut files[index];
    file.input = input;
    file.reads = reads;
    file.sizes = sizes;
}

/// The room of the sinks at a location, and the calls on them that are to fail.
pub(crate) fn set_sinks(
    files: &mut Vec<MemFile>,
    location: &str,
    room: usize,
    writes: Members<u64>,
    cuts: Members<u64>,
)
    requires { IsTrue (has_file files.old.items location.now) }
    ensures { Changes (with_sinks room writes cuts) location.now files.old.items files.new.items }
{
    let index = known_index(files.as_slice(), location);
    let file = &mut files[index];
    file.room = room;
    file.writes = writes;
    file.cuts = cuts;
}
