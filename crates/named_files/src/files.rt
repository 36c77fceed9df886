//! The files that the program reads and writes, by their names.

ghost use Rattle.std.specs.Prelude.{◌≡◌, List, Option, None, map, option_map};
ghost use Rattle.named_files.specs.Deeds.{Compares, Deed, HasGiven, HasRead, Reads, Replaces};
ghost use Rattle.named_files.specs.Deeds.{got, noted};
ghost use Rattle.named_files.specs.Deeds.{unput, unread};

use crate::fault::FileFault;
use command_output::Texts;
use std::io;

/// Why a file may not be written.
#[derive(Clone, Copy)]
pub enum Clash {
    /// It is read too.
    Read,
    /// It is the file to which standard output goes.
    Output,
}

/// Files, by their names.
pub trait NamedFiles {
    // What has been done with them, one thing after another, where it is known.
    ghost done: { Self → Option (List Deed) } = { λ _. None };

    /// All bytes of a file.
    fn read(&mut self, name: &str) -> Result<Vec<u8>, FileFault>
        ensures { done self.new ≡ noted (done self.old) (Reads name.now (got result)) };

    /// Why the file of this name may not be written where these others are read: it is one of them,
    /// by whatever path, or standard output goes to it. Only a plain file clashes; where it can't
    /// be told it doesn't.
    fn clash(&mut self, name: &str, others: &[&str]) -> Option<Clash>
        ensures { done self.new ≡ noted (done self.old)
            (Compares name.now (map (λ other. other.now) others.now) result) };

    /// Gives the file of this name these bytes. A plain file has all of them, or at an error what
    /// it had.
    fn replace(&mut self, name: &str, bytes: &[u8]) -> io::Result<()>
        ensures { done self.new ≡ noted (done self.old)
            (Replaces name.now bytes.now (unput result)) };
}

/// A file whose bytes couldn't be had.
#[derive(Drop)]
pub struct Unread<'a> {
    pub name: &'a str,
    pub fault: FileFault,
}

/// What was read of a file, with its name where that failed.
fn named<'a>(name: &'a str, read: Result<Vec<u8>, FileFault>) -> Result<Vec<u8>, Unread<'a>>
    ensures { unread result ≡ got read }
{
    match read {
        Ok(bytes) => Ok(bytes),
        Err(fault) => Err(Unread { name, fault }),
    }
}

/// All bytes of a file of this name.
fn read_named<'a, F: NamedFiles>(files: &mut F, name: &'a str) -> Result<Vec<u8>, Unread<'a>>
    ensures { F.done files.new ≡ noted (F.done files.old) (Reads name.now (unread result)) }
{
    let read = files.read(name);
    named(name, read)
}

/// The bytes of a source's file, and those of an input's, of which there are none where no file is
/// named.
#[derive(Drop)]
pub struct Given {
    pub source: Vec<u8>,
    pub input: Vec<u8>,
}

/// All bytes of a source's file, and then of an input's, if one is named.
///
/// # Errors
///
/// The name of the first file whose bytes can't be had, and why.
pub fn read_given<'a, F: NamedFiles>(
    files: &mut F,
    source: &'a str,
    input: Option<&'a str>,
) -> Result<Given, Unread<'a>>
    ensures { HasGiven source.now (option_map (λ i. i.now) input.entry)
        (F.done files.old) (F.done files.new) result }
{
    let source = read_named(files, source)?;
    let input = match input {
        Some(input) => read_named(files, input)?,
        None => Vec::new(*source.allocator()),
    };
    Ok(Given { source, input })
}

/// All bytes of the files that a replay takes, read in this order, each only where those before
/// it were had.
///
/// # Errors
///
/// The name of the first file whose bytes can't be had, and why.
pub fn read_texts<'a, F: NamedFiles>(
    files: &mut F,
    source: &'a str,
    input: &'a str,
    schedule: &'a str,
) -> Result<Texts, Unread<'a>>
    ensures { HasRead source.now input.now schedule.now
        (F.done files.old) (F.done files.new) result }
{
    let source = read_named(files, source)?;
    let input = read_named(files, input)?;
    let schedule = read_named(files, schedule)?;
    Ok(Texts {
        source,
        input,
        schedule,
    })
}
