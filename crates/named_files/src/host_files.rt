//! The files of the machine, and standard input.

ghost use Rattle.std.specs.Prelude.{◌≡◌, IfOk, OnOk};
ghost use Rattle.std.specs.Io.KnownBytes.{IsAtEnd};
ghost use Rattle.command_output.specs.Reading.{Gives};
ghost use Rattle.named_files.specs.Deeds.{of_reads};

use crate::fault::FileFault;
use crate::files::{Clash, NamedFiles};
use command_output::{ReadFault, read_all};
use std::alloc::Global;
use std::fs::{Metadata, OpenFile, OpenOptions};
use std::io::{Read, Write};
use std::os::unix::fs::MetadataExt;
use std::rt::Files;
use std::{fs, io};

/// The name that stands for standard input.
pub const STANDARD_INPUT: &str = "-";

/// The name by which the system has the file to which standard output goes.
const STANDARD_OUTPUT: &str = "/dev/stdout";

/// The files of the machine; the name `-` is standard input.
#[derive(Drop)]
pub struct HostFiles<'a, R> {
    rt: &'a R,
}

impl<'a, R> HostFiles<'a, R> {
    pub fn new(rt: &'a R) -> Self {
        HostFiles { rt }
    }
}

impl<R: Files + Input + AllocGlobal> NamedFiles for HostFiles<'_, R> {
    fn read(&mut self, name: &str) -> Result<Vec<u8>, FileFault> {
        read_file(self.rt, name)
    }

    fn clash(&mut self, name: &str, others: &[&str]) -> Option<Clash> {
        let rt = self.rt;
        if others.iter().any(|other| is_same(rt, name, other)) {
            return Some(Clash::Read);
        }
        is_output(rt, name).then_some(Clash::Output)
    }

    fn replace(&mut self, name: &str, bytes: &[u8]) -> io::Result<()> {
        replace_file(self.rt, name, bytes)
    }
}

/// All bytes of a file, or of standard input where that is named.
fn read_file<R: Files + Input + AllocGlobal>(rt: &R, name: &str) -> Result<Vec<u8>, FileFault> {
    if name == STANDARD_INPUT {
        return read_from(rt.alloc(), &mut rt.reader());
    }
    match fs::open(rt, name) {
        Ok(mut file) => read_from(rt.alloc(), &mut file),
        Err(error) => Err(FileFault::Opening(error)),
    }
}

/// All bytes that a reader has left.
fn read_from<R: Read>(alloc: Global, reader: &mut R) -> Result<Vec<u8>, FileFault>
    ensures all { IfOk result (λ bytes. Gives (R.remaining reader.old) bytes.items) }
    ensures end { OnOk result (IsAtEnd (R.remaining reader.new)) }
{
    let read = read_all(alloc, reader);
    had(read)
}

/// What a read of an opened file comes to.
fn had(read: Result<Vec<u8>, ReadFault>) -> Result<Vec<u8>, FileFault>
    ensures { result ≡ of_reads read }
{
    match read {
        Ok(bytes) => Ok(bytes),
        Err(fault) => Err(FileFault::of_read(fault)),
    }
}

/// Whether two names are of one plain file. Where that can't be told they aren't.
fn is_same<R: Files + AllocGlobal>(rt: &R, name: &str, other: &str) -> bool {
    match (fs::canonicalize(rt, name), fs::canonicalize(rt, other)) {
        (Ok(path), Ok(found)) => path == found && path.is_file(rt),
        _ => false,
    }
}

/// Whether standard output goes to the plain file of this name. Where that can't be told it
/// doesn't.
fn is_output<R: Files>(rt: &R, name: &str) -> bool {
    match (fs::metadata(rt, STANDARD_OUTPUT), fs::metadata(rt, name)) {
        (Ok(output), Ok(found)) => output.is_file() && is_one(&output, &found),
        _ => false,
    }
}

/// Whether these are of one file, whose number on its device tells.
fn is_one(file: &Metadata, other: &Metadata) -> bool {
    file.dev() == other.dev() && file.ino() == other.ino()
}

/// Whether this is the name of a plain file, or of nothing yet.
fn is_plain<R: Files>(rt: &R, name: &str) -> bool {
    match fs::symlink_metadata(rt, name) {
        Ok(found) => found.is_file(),
        Err(error) => error.kind() == io::ErrorKind::NotFound,
    }
}

/// How many names are tried for a file beside another one.
const MOST_NAMES: u32 = 100;

/// How many bytes the name of a file has at most, behind those of its folders.
const MOST_BYTES: usize = 255;

/// How many bytes are added to a name at most, by `.part99`.
const ADDED: usize = 7;

/// A new file, and its name. Where a file of that name is there already, there is none.
fn new_file<R: Files>(rt: &R, name: String) -> io::Result<(R::File, String)> {
    let file = OpenOptions::new()
        .write(true)
        .create_new(true)
        .open(rt, name.as_str())?;
    Ok((file, name))
}

/// Where the name of a file begins behind those of its folders.
fn behind_folders(name: &str) -> usize {
    name.rfind('/').map_or(0, |slash| slash.saturating_add(1))
}

/// The name of a file, or as much of it from its beginning that `.part99` still fits behind it.
fn beginning(name: &str) -> &str {
    let most = behind_folders(name).saturating_add(MOST_BYTES - ADDED);
    name.get(..name.floor_char_boundary(most)).unwrap_or(name)
}

/// A new file beside the one of this name, and its name: with `.part` behind it, or, where such a
/// file is there already, with `.part1`, `.part2` and so on. What is there stays as it is. Of a
/// name that is too long for that the end is left out.
///
/// # Errors
///
/// That files of all these names are there already, or the system's.
fn new_beside<R: Files + AllocGlobal>(rt: &R, name: &str) -> io::Result<(R::File, String)> {
    let beginning = beginning(name);
    let mut made = new_file(rt, format!(in rt.alloc(); "{beginning}.part")?);
    for number in 1..MOST_NAMES {
        match &made {
            Err(error) if error.kind() == io::ErrorKind::AlreadyExists => {}
            _ => break,
        }
        made = new_file(rt, format!(in rt.alloc(); "{beginning}.part{number}")?);
    }
    match made {
        Err(error) if error.kind() == io::ErrorKind::AlreadyExists => {
            Err(in_the_way(rt.alloc(), beginning)?)
        }
        made => made,
    }
}

/// That files of all names are there already that are tried for one beside another. It names them
/// without their folder, as the message of an error has little room.
fn in_the_way(alloc: Global, beginning: &str) -> io::Result<io::Error> {
    let last = MOST_NAMES - 1;
    let name = beginning
        .get(behind_folders(beginning)..)
        .unwrap_or(beginning);
    let words = format!(in alloc; "{name}.part to {name}.part{last} are in the way")?;
    Ok(io::Error::new(io::ErrorKind::AlreadyExists, words.as_str()))
}

/// Writes all bytes to a file, sees that they are on the disk, and closes it.
fn write_down<F: OpenFile + Write + Drop>(mut file: F, bytes: &[u8]) -> io::Result<()> {
    file.write_all(bytes)?;
    file.sync_all()
}

/// Gives the file of this name these bytes. A plain file has all of them or what it had: they are
/// written to a new file beside it, which then takes its place. To anything else, as a device or a
/// pipe, they are written as they are.
fn replace_file<R: Files + AllocGlobal>(rt: &R, name: &str, bytes: &[u8]) -> io::Result<()> {
    if !is_plain(rt, name) {
        return fs::write(rt, name, bytes);
    }
    let (file, beside) = new_beside(rt, name)?;
    let mut put = write_down(file, bytes);
    if put.is_ok() {
        put = fs::rename(rt, beside.as_str(), name);
    }
    if put.is_err() {
        let _ = fs::remove_file(rt, beside.as_str());
    }
    put
}
