// Two files of the system as one disk. What they hold is the system's, so contracts see the count of faults alone.
ghost use Rattle.std.specs.Prelude.{◌≡◌, None, IfOk};
ghost use Rattle.ws_outside.specs.Disk.{picked};
ghost use Rattle.ws_outside.specs.Faults.{HasCause};

use crate::area_file::{AreaFile, Node};
use crate::faults::one_more;
use crate::{Disk, Failed, Which};
use std::fs::File;
use std::io;
use std::marker::Model;
use std::rt::Files;

/// A disk over two files. Each is opened at its first use, made where it is missing, and locked until the disk is let go.
/// A call fails where the system refuses it, and also where both paths name one file, which is told by its device and
/// inode, or where a process, this one too, has locked the file already.
///
/// A sync brings a file to the device. The first one of each area that answers Ok has also brought the folder there that
/// has the file, whoever made it. It tells nothing of their content. Contracts see the count of faults.
#[derive(Drop)]
pub struct FileDisk<R: Files<File = File> + Drop> {
    rt: R,
    left: AreaFile,
    right: AreaFile,
    faults: u64,
}

impl<R: Files<File = File> + Drop> Model for FileDisk<R> {
    ghost use Rattle.std.specs.Prelude.{ℕ};

    ghost Value = { ℕ };

    ghost view = { λ d. d.faults };
}

impl<R: Files<File = File> + Drop> FileDisk<R> {
    /// The disk over these two files, none of which is touched yet.
    pub fn new(rt: R, left: String, right: String) -> FileDisk<R>
        ensures { result ≡ 0 }
    {
        FileDisk {
            rt,
            left: AreaFile::at(left),
            right: AreaFile::at(right),
            faults: 0,
        }
    }

    /// How many calls failed.
    pub fn faults(&self) -> u64
        ensures { result ≡ self.now }
    {
        self.faults
    }
}

/// The answer of a call on a file, with a fault counted.
fn counted<T>(faults: &mut u64, answer: io::Result<T>) -> Result<T, Failed>
    ensures value { IfOk result (λ value. answer ≡ Ok value) }
    ensures cause { HasCause faults.old faults.new result }
{
    match answer {
        Ok(value) => Ok(value),
        Err(_) => {
            *faults = one_more(*faults);
            Err(Failed)
        }
    }
}

impl<R: Files<File = File> + Drop> Disk for FileDisk<R> {
    ghost seen = { λ _. None };

    ghost may_leave = { λ _ _. ⊥ };

    ghost moment = { λ _. 0 };

    ghost left_since = { λ _ _ _. ⊥ };

    ghost faults = { λ d. d };

    ghost reads_itself = { λ _. tt };

    ghost counts_now = { λ _ _ _ _ now. now };

    ghost only_now = { λ _ _ left. left };

    fn len(&mut self, area: Which) -> Result<u64, Failed> {
        let other = other_of(&self.left, &self.right, area);
        let file = file_of(&mut self.left, &mut self.right, area);
        let answer = file.len(&self.rt, other);
        counted(&mut self.faults, answer)
    }

    fn read(&mut self, area: Which, at: u64, buf: &mut [u8]) -> Result<usize, Failed> {
        let other = other_of(&self.left, &self.right, area);
        let file = file_of(&mut self.left, &mut self.right, area);
        let answer = file.read(&self.rt, other, at, buf);
        counted(&mut self.faults, answer)
    }

    fn write_at(&mut self, area: Which, at: u64, piece: &[u8]) -> Result<(), Failed> {
        let other = other_of(&self.left, &self.right, area);
        let file = file_of(&mut self.left, &mut self.right, area);
        let answer = file.write(&self.rt, other, at, piece);
        counted(&mut self.faults, answer)
    }

    fn cut(&mut self, area: Which, len: u64) -> Result<(), Failed> {
        let other = other_of(&self.left, &self.right, area);
        let file = file_of(&mut self.left, &mut self.right, area);
        let answer = file.cut(&self.rt, other, len);
        counted(&mut self.faults, answer)
    }

    fn sync(&mut self, area: Which) -> Result<(), Failed> {
        let other = other_of(&self.left, &self.right, area);
        let file = file_of(&mut self.left, &mut self.right, area);
        let answer = file.sync(&self.rt, other);
        counted(&mut self.faults, answer)
    }
}

fn file_of<'a>(left: &'a mut AreaFile, right: &'a mut AreaFile, area: Which) -> &'a mut AreaFile
    ensures { result.now ≡ picked area left.old right.old }
{
    match area {
        Which::Left => left,
        Which::Right => right,
    }
}

/// Which file the other area is, where that is open.
fn other_of(left: &AreaFile, right: &AreaFile, area: Which) -> Option<Node> {
    match area {
        Which::Left => right.node(),
        Which::Right => left.node(),
    }
}
