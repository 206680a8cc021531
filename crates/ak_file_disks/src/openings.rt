use std::fs::{self, File, OpenOptions};
use std::io::{self, Error, ErrorKind};
use std::os::unix::fs::FileExt;

/// With these bytes each database of SQLite begins.
const DATABASE: [u8; 15] = *b"SQLite format 3";

/// The file at this path, locked for this program, and made if it is not there. It writes nothing. It refuses a file that
/// another program has locked, and a database of SQLite.
pub fn open_locked(rt: &HostRuntime, path: &str) -> io::Result<File> {
    let mut how = OpenOptions::new();
    let how = how.read(true).write(true).create(true);
    let file = how.open(rt, path)?;
    file.try_lock()?;
    if file.metadata()?.len() == 0 {
        // Only if its folder is on the disk, a file that was made just now is found after a crash.
        sync_folder(rt, path)?;
        return Ok(file);
    }
    if is_database(&file)? {
        return Err(Error::from(ErrorKind::InvalidData));
    }
    Ok(file)
}

/// Brings the folder in which the file stands to the disk.
fn sync_folder(rt: &HostRuntime, path: &str) -> io::Result<()> {
    let whole = fs::canonicalize(rt, path)?;
    match whole.parent() {
        Some(folder) => {
            let folder = File::open(rt, folder)?;
            folder.sync_all()
        }
        None => Ok(()),
    }
}

/// Whether the file begins as a database of SQLite.
fn is_database(file: &File) -> io::Result<bool> {
    let mut first = [0u8; 15];
    match file.read_exact_at(&mut first, 0) {
        Ok(()) => Ok(first == DATABASE),
        Err(error) => match error.kind() {
            ErrorKind::UnexpectedEof => Ok(false),
            _ => Err(error),
        },
    }
}
