//! Finding the transcripts of a folder.
ghost use Rattle.std.specs.Prelude.{◌≡◌};

use crate::transcript::TranscriptFault;
use command_reasons::TellingDesk;
use command_runs::DeskFault;
use std::alloc::Global;

/// What the name of a transcript in a folder ends with.
const ENDING: &str = ".txt";

/// How many folders are looked into at most, so that links that lead back don't go on for ever.
const MAX_FOLDERS: u32 = 65_536;

/// A file or a folder in a folder, by a name that can be read from where the program is.
#[derive(Debug, Drop)]
pub enum FolderEntry {
    File(String),
    Folder(String),
}

/// A desk that can list the files of a folder.
pub trait FolderDesk: TellingDesk {
    /// The files and folders of a folder, in any order; none if it's no folder.
    fn entries(&mut self, alloc: Global, name: &str) -> Result<Vec<FolderEntry>, DeskFault>
        ensures { Self.written self.new ≡ Self.written self.old };

    /// Whether the name is that of a folder.
    fn is_folder(&self, name: &str) -> bool;
}

/// The files that may be transcripts, by their names in order: those of a folder and of the folders
/// in it, or the file itself.
pub(crate) fn candidates<D: FolderDesk>(
    alloc: Global,
    desk: &mut D,
    name: &str,
) -> Result<Vec<String>, TranscriptFault>
    ensures written { D.written desk.new ≡ D.written desk.old }
{
    let mut found = Vec::new(alloc);
    let mut pending = Vec::new(alloc);
    pending.push(String::from_str(alloc, name)?)?;
    for _ in 0..MAX_FOLDERS {
        let Some(folder) = pending.pop() else {
            break;
        };
        let entries = entries_of(alloc, desk, folder.as_str())?;
        add_entries(entries, &mut found, &mut pending)?;
    }
    found.sort_unstable();
    Ok(found)
}

fn entries_of<D: FolderDesk>(
    alloc: Global,
    desk: &mut D,
    folder: &str,
) -> Result<Vec<FolderEntry>, TranscriptFault>
    ensures written { D.written desk.new ≡ D.written desk.old }
{
    match desk.entries(alloc, folder) {
        Ok(entries) => Ok(entries),
        Err(DeskFault::Failed) => Ok(Vec::new(alloc)),
        Err(DeskFault::NoMemory) => Err(TranscriptFault::NoMemory),
    }
}

fn add_entries(
    entries: Vec<FolderEntry>,
    found: &mut Vec<String>,
    pending: &mut Vec<String>,
) -> Result<(), TranscriptFault> {
    for entry in entries {
        match entry {
            FolderEntry::Folder(name) => pending.push(name)?,
            FolderEntry::File(name) => {
                if name.as_str().ends_with(ENDING) {
                    found.push(name)?;
                }
            }
        }
    }
    Ok(())
}
