//! Files of the current folder that are written under a name of their own, and take the file's name once they are whole.

ghost use Rattle.std.specs.Prelude.{◌≡◌, ◌⊎◌, Err};
ghost use Rattle.outside_io.specs.declared.bands.BandsAnswer.TheVariants.{Failed, NoMemory, Refused};

use crate::bands::{Bands, BandsAnswer};
use std::alloc::Global;
use std::fs::{File, Files};
use std::io::{ErrorKind, Write};
use std::{fs, io};

/// How many names are tried at most for the new file of a file. Others are those of other runs that write it, and of runs
/// that were ended.
const MAX_NAMES: u32 = 64;

/// A file that is written, and the name that it has until it is whole. No script has such a name, which begins with a dot.
#[derive(Drop)]
struct NewFile<F> {
    file: F,
    name: String,
}

impl<F: Write + Drop> NewFile<F> {
    /// Makes the new file of a file. No other run has it, since it is made and not opened.
    fn create<R: Files<File = F> + AllocGlobal>(rt: &R, name: &str) -> io::Result<NewFile<F>> {
        check_replaceable(rt, name)?;
        for number in 0..MAX_NAMES {
            let name = new_name(rt.alloc(), name, number)?;
            match File::create_new(rt, name.as_str()) {
                Ok(file) => return Ok(NewFile { file, name }),
                Err(error) if error.kind() == ErrorKind::AlreadyExists => {}
                Err(error) => return Err(error),
            }
        }
        Err(io::Error::from(ErrorKind::AlreadyExists))
    }

    /// Gives the file its name. What had that name before has none then, or where this fails the new file.
    fn take_name<R: Files>(self, rt: &R, name: &str) -> io::Result<()> {
        let taken = fs::rename(rt, self.name.as_str(), name);
        if taken.is_err() {
            self.remove(rt);
        }
        taken
    }

    /// Removes the file. Where even that fails it is left under the name that it has.
    fn remove<R: Files>(self, rt: &R) {
        let _ = fs::remove_file(rt, self.name.as_str());
    }
}

/// Makes a file of the current folder hold these bytes. Where that fails it is as it was. A link of its name is replaced,
/// and not followed.
pub(crate) fn write_whole<R: Files + AllocGlobal>(
    rt: &R,
    name: &str,
    bytes: &[u8],
) -> io::Result<()> {
    let mut new = NewFile::create(rt, name)?;
    if let Err(error) = new.file.write_all(bytes) {
        new.remove(rt);
        return Err(error);
    }
    new.take_name(rt, name)
}

/// Makes a file of the current folder hold the bytes of the bands that are left, as [`write_whole`] does.
pub(crate) fn write_each_whole<R: Files + AllocGlobal, B: Bands>(
    rt: &R,
    name: &str,
    bands: &mut B,
) -> Result<(), BandsAnswer<B::Refused>>
    ensures { (why : B.Refused) → result ≡ Err (Refused why) → B.refuses bands.new why }
{
    let mut new = match NewFile::create(rt, name) {
        Ok(new) => new,
        Err(error) => return Err(answer_of(error)),
    };
    if let Err(answer) = write_each(&mut new.file, bands) {
        new.remove(rt);
        return Err(answer);
    }
    match new.take_name(rt, name) {
        Ok(()) => Ok(()),
        Err(error) => Err(answer_of(error)),
    }
}

/// Writes the bands that are left.
fn write_each<F: Write, B: Bands>(
    file: &mut F,
    bands: &mut B,
) -> Result<(), BandsAnswer<B::Refused>>
    ensures { (why : B.Refused) → result ≡ Err (Refused why) → B.refuses bands.new why }
{
    while bands.next().map_err(BandsAnswer::Refused)? {
        if let Err(error) = file.write_all(bands.band()) {
            return Err(answer_of(error));
        }
    }
    Ok(())
}

/// Returns what a shelf answers to bands where a file gave this error.
fn answer_of<E>(error: io::Error) -> BandsAnswer<E>
    ensures { (result ≡ Failed) ⊎ (result ≡ NoMemory) }
{
    match error.kind() {
        ErrorKind::OutOfMemory => BandsAnswer::NoMemory,
        _ => BandsAnswer::Failed,
    }
}

/// Returns the name of a new file of a file, of which there may be several.
fn new_name(alloc: Global, name: &str, number: u32) -> io::Result<String> {
    Ok(format!(in alloc; ".{name}.part-{number}")?)
}

/// Refuses the name of a pipe, a folder or a device, which no file replaces.
fn check_replaceable<R: Files>(rt: &R, name: &str) -> io::Result<()> {
    match fs::symlink_metadata(rt, name) {
        Ok(found) if found.is_file() || found.is_symlink() => Ok(()),
        Ok(_) => Err(io::Error::from(ErrorKind::InvalidInput)),
        Err(error) if error.kind() == ErrorKind::NotFound => Ok(()),
        Err(error) => Err(error),
    }
}
