//! A file of the operating system. It tells no content: what it stands for is trusted.
ghost use Rattle.std.specs.Prelude.{◌≡◌, ◌≤◌, [], false, length, IfOk};

use crate::{FileHandle, HandleDisk, MOST_LENGTH};
use std::fs::{File, Files, metadata};
use std::io;
use std::os::unix::fs::FileExt;
use std::path::Path;

/// What a disk over a file is for.
#[derive(Clone, Copy, Debug, PartialEq, Eq)]
pub enum Access {
    /// The file is opened to be read and written, and made where it is missing. While it is open it is
    /// locked, so that another run can see that: the lock keeps nobody out.
    Writes,
    /// The file is opened for reading alone. One that is missing is not made, and has no bytes.
    Looks,
}

/// A file at a path, which is opened at the first call. Where that is refused the call fails, and a
/// later one tries again.
#[derive(Drop)]
pub struct PathFile<R: Files<File = File> + Drop> {
    rt: R,
    path: String,
    access: Access,
    file: Option<File>,
    /// There was no file when it was last to be opened.
    is_missing: bool,
    /// What the system said when it last refused a call.
    cause: Option<io::ErrorKind>,
}

/// A disk over a file at a path.
pub type FileDisk<R> = HandleDisk<PathFile<R>>;

impl<R: Files<File = File> + Drop> HandleDisk<PathFile<R>> {
    /// The disk over the file at this path, to be read and written. No call reaches the file system
    /// yet.
    pub fn new(rt: R, path: String) -> FileDisk<R>
        ensures moment { result.moment ≡ 0 }
        ensures faults { result.faults ≡ 0 }
        ensures path { result.file.path ≡ path }
    {
        HandleDisk::at(rt, path, Access::Writes)
    }

    /// The disk over the file at this path. No call reaches the file system yet.
    pub fn at(rt: R, path: String, access: Access) -> FileDisk<R>
        ensures moment { result.moment ≡ 0 }
        ensures faults { result.faults ≡ 0 }
        ensures path { result.file.path ≡ path }
    {
        HandleDisk::over(PathFile {
            rt,
            path,
            access,
            file: None,
            is_missing: false,
            cause: None,
        })
    }
}

impl<R: Files<File = File> + Drop> PathFile<R> {
    /// There was no file when it was last to be opened, and none was made.
    pub fn is_missing(&self) -> bool
        ensures field { result ≡ self.now.is_missing }
    {
        self.is_missing
    }

    /// What the system said when it last refused a call.
    pub fn cause(&self) -> Option<io::ErrorKind>
        ensures field { result ≡ self.now.cause }
    {
        self.cause
    }

    /// Opens the file to be read and written, and makes it where it is missing.
    fn open_to_write(&self) -> io::Result<File> {
        let file = File::options()
            .read(true)
            .write(true)
            .create(true)
            .open(&self.rt, self.path.as_str())?;
        // Where another run holds the lock, this one goes on too.
        let _ = file.try_lock();
        Ok(file)
    }

    /// Opens the file for reading alone; none where there is none, but a folder for one. What is no
    /// file, such as a folder or a terminal, is opened as if it were to be written.
    fn open_to_look(&self) -> io::Result<Option<File>> {
        let path = self.path.as_str();
        match metadata(&self.rt, path) {
            Ok(found) if found.is_file() => Ok(Some(
                File::options().read(true).open(&self.rt, path)?,
            )),
            Ok(_) => Ok(Some(self.open_to_write()?)),
            Err(error) if error.kind() == io::ErrorKind::NotFound && names_file(path) => {
                folder_of(&self.rt, path)?;
                Ok(None)
            }
            Err(error) => Err(error),
        }
    }

    /// Opens the file for what the disk is for; none where it is missing and is not made.
    fn open_for_access(&self) -> io::Result<Option<File>> {
        match self.access {
            Access::Looks => self.open_to_look(),
            Access::Writes => Ok(Some(self.open_to_write()?)),
        }
    }

    /// Opens the file, which is not open. Where that is refused, the answer is what the system said.
    fn open(&mut self) -> Result<(), io::ErrorKind> {
        match self.open_for_access() {
            Ok(file) => {
                self.is_missing = file.is_none();
                self.file = file;
                Ok(())
            }
            Err(error) => Err(error.kind()),
        }
    }

    /// The file, where it is open.
    fn opened(&self) -> io::Result<&File> {
        match &self.file {
            Some(file) => Ok(file),
            None => Err(io::Error::from(io::ErrorKind::NotFound)),
        }
    }

    /// Keeps the cause where a call was refused.
    fn noted<T: Drop>(&mut self, answer: io::Result<T>) -> io::Result<T>
        ensures { result ≡ answer }
    {
        if let Err(error) = &answer {
            self.cause = Some(error.kind());
        }
        answer
    }

    /// How many bytes it has.
    fn measured(&mut self) -> io::Result<u64> {
        if self.file.is_none() {
            self.open()?;
        }
        if self.is_missing {
            return Ok(0);
        }
        Ok(self.opened()?.metadata()?.len())
    }

    /// Reads from this place on, as `read_at` does.
    fn read_from(&mut self, at: u64, into: &mut [u8]) -> io::Result<usize>
        ensures { IfOk result (λ n. n ≤ length into.old) }
    {
        if self.file.is_none() {
            self.open()?;
        }
        if self.is_missing || at > MOST_LENGTH {
            return Ok(0);
        }
        self.opened()?.read_at(into, at)
    }

    /// Writes from this place on, as `write_at` does.
    fn write_from(&mut self, at: u64, from: &[u8]) -> io::Result<usize>
        ensures { IfOk result (λ n. n ≤ length from.now) }
    {
        if self.file.is_none() {
            self.open()?;
        }
        self.opened()?.write_at(from, at)
    }

    /// Syncs its bytes.
    fn synced(&mut self) -> io::Result<()> {
        if self.file.is_none() {
            self.open()?;
        }
        self.opened()?.sync_all()
    }

    /// Syncs its folder.
    fn folder_synced(&mut self) -> io::Result<()> {
        if self.file.is_none() {
            self.open()?;
        }
        folder_of(&self.rt, self.path.as_str())?.sync_all()
    }
}

/// The path may be a file's: it does not end as a folder's.
fn names_file(path: &str) -> bool {
    !path.is_empty() && !path.ends_with("/")
}

/// The folder that a file stands in.
fn folder_of<R: Files<File = File>>(rt: &R, path: &str) -> io::Result<File> {
    let folder = match Path::new(path).parent() {
        Some(folder) if !folder.as_str().is_empty() => folder,
        _ => Path::new("."),
    };
    File::open(rt, folder)
}

impl<R: Files<File = File> + Drop> FileHandle for PathFile<R> {
    const TELLS: bool = false;

    ghost TELLS = { false };

    // It tells nothing, so that these say nothing.
    ghost reads = { λ _. [] };

    ghost images = { λ _ _. Unit {0} };

    ghost images_since = { λ _ _ _. Unit {0} };

    ghost moment = { λ _. 0 };

    ghost is_entered = { λ _. false };

    ghost reads_is_image = { λ _ _. tt };

    ghost now_counts = { λ _ _ _ _ _ _. tt };

    ghost earlier_counts = { λ _ _ _ _ _ _ _. tt };

    ghost only_now = { λ _ _ _ _. tt };

    fn len(&mut self) -> io::Result<u64> {
        let answer = self.measured();
        self.noted(answer)
    }

    fn read_at(&mut self, at: u64, into: &mut [u8]) -> io::Result<usize> {
        let answer = self.read_from(at, into);
        self.noted(answer)
    }

    fn write_at(&mut self, at: u64, from: &[u8]) -> io::Result<usize> {
        let answer = self.write_from(at, from);
        self.noted(answer)
    }

    fn sync(&mut self) -> io::Result<()> {
        let answer = self.synced();
        self.noted(answer)
    }

    fn sync_folder(&mut self) -> io::Result<()> {
        let answer = self.folder_synced();
        self.noted(answer)
    }

    fn pause(&mut self) {}
}
