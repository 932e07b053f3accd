// One of the two files of a disk over the system.
ghost use Rattle.std.specs.Prelude.{◌≤◌, length, IfOk};

use std::fs::{File, OpenFile, OpenOptions};
use std::io;
use std::io::ErrorKind;
use std::os::unix::fs::{FileExt, MetadataExt};
use std::path::Path;
use std::rt::Files;

/// How often a read that a signal cut short is made again.
const TRIES: usize = 64;

/// The device and the inode of a file, by which it is told from another one.
pub(crate) type Node = (u64, u64);

/// A file that is open, and that this process has locked.
#[derive(Drop)]
struct Opened {
    file: File,
    node: Node,
    /// At most the length that the file has.
    len: u64,
    /// Whether its length may have changed since the last sync.
    is_resized: bool,
}

/// A file by its path. It is opened at its first use.
#[derive(Drop)]
pub(crate) struct AreaFile {
    path: String,
    opened: Option<Opened>,
    /// Whether its folder was brought to the device.
    is_placed: bool,
}

impl AreaFile {
    pub(crate) fn at(path: String) -> AreaFile {
        AreaFile {
            path,
            opened: None,
            is_placed: false,
        }
    }

    /// Which file it is, once it is open.
    pub(crate) fn node(&self) -> Option<Node> {
        match &self.opened {
            Some(opened) => Some(opened.node),
            None => None,
        }
    }

    /// The open file. It is made where it is missing. It can't be had where it is the other area's, or where somebody
    /// else has locked it.
    fn ready(
        &mut self,
        rt: &impl Files<File = File>,
        other: Option<Node>,
    ) -> io::Result<&mut Opened> {
        if self.opened.is_none() {
            self.opened = Some(open(rt, self.path.as_str(), other)?);
        }
        match &mut self.opened {
            Some(opened) => Ok(opened),
            None => Err(io::Error::from(ErrorKind::NotFound)),
        }
    }

    pub(crate) fn len(
        &mut self,
        rt: &impl Files<File = File>,
        other: Option<Node>,
    ) -> io::Result<u64> {
        Ok(self.ready(rt, other)?.file.metadata()?.len())
    }

    pub(crate) fn read(
        &mut self,
        rt: &impl Files<File = File>,
        other: Option<Node>,
        at: u64,
        buf: &mut [u8],
    ) -> io::Result<usize>
        ensures { IfOk result (λ n. n ≤ length buf.old) }
    {
        read_whole(&self.ready(rt, other)?.file, at, buf)
    }

    pub(crate) fn write(
        &mut self,
        rt: &impl Files<File = File>,
        other: Option<Node>,
        at: u64,
        piece: &[u8],
    ) -> io::Result<()> {
        self.ready(rt, other)?.write(at, piece)
    }

    pub(crate) fn cut(
        &mut self,
        rt: &impl Files<File = File>,
        other: Option<Node>,
        len: u64,
    ) -> io::Result<()> {
        self.ready(rt, other)?.cut(len)
    }

    /// Brings the file to the device, and, until that was done once, the folder that has it.
    pub(crate) fn sync(
        &mut self,
        rt: &impl Files<File = File>,
        other: Option<Node>,
    ) -> io::Result<()> {
        self.ready(rt, other)?.sync()?;
        if !self.is_placed {
            sync_folder(rt, Path::new(self.path.as_str()))?;
            self.is_placed = true;
        }
        Ok(())
    }
}

impl Opened {
    fn write(&mut self, at: u64, piece: &[u8]) -> io::Result<()> {
        let end = at.saturating_add(piece.len() as u64);
        if end > self.len {
            self.is_resized = true;
        }
        self.file.write_all_at(piece, at)
    }

    fn cut(&mut self, len: u64) -> io::Result<()> {
        self.is_resized = true;
        self.len = self.len.min(len);
        self.file.set_len(len)
    }

    fn sync(&mut self) -> io::Result<()> {
        if !self.is_resized {
            return self.file.sync_data();
        }
        self.file.sync_all()?;
        self.len = self.file.metadata()?.len();
        self.is_resized = false;
        Ok(())
    }
}

fn open(rt: &impl Files<File = File>, path: &str, other: Option<Node>) -> io::Result<Opened> {
    let file = OpenOptions::new()
        .read(true)
        .write(true)
        .create(true)
        .open(rt, path)?;
    let about = file.metadata()?;
    let node = (about.dev(), about.ino());
    if other == Some(node) {
        return Err(io::Error::from(ErrorKind::InvalidInput));
    }
    file.try_lock()?;
    Ok(Opened {
        file,
        node,
        len: 0,
        is_resized: true,
    })
}

fn sync_folder(rt: &impl Files<File = File>, path: Path<'_>) -> io::Result<()> {
    let folder = match path.parent() {
        Some(folder) if !folder.as_str().is_empty() => folder,
        _ => Path::new("."),
    };
    File::open(rt, folder)?.sync_all()
}

/// Reads until the buffer is full or the file ends.
fn read_whole(file: &File, at: u64, buf: &mut [u8]) -> io::Result<usize>
    ensures { IfOk result (λ n. n ≤ length buf.old) }
{
    let mut count = 0;
    for _ in 0..buf.len().saturating_add(TRIES) {
        if count == buf.len() {
            return Ok(count);
        }
        match file.read_at(&mut buf[count..], at.saturating_add(count as u64)) {
            Ok(0) => return Ok(count),
            Ok(more) => count += more,
            Err(error) if error.kind() == ErrorKind::Interrupted => {}
            Err(error) => return Err(error),
        }
    }
    Err(io::Error::from(ErrorKind::Interrupted))
}
