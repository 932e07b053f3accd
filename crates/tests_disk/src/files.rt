//! A disk over two files of the system.
use crate::areas::{AREA, word_of};
use crate::asserting::{holds, must, same_at};
use crate::disks::made;
use crate::rows::{number, word};
use disk_area::{AreaFault, head};
use std::fs::{self, File};
use std::process::Abort;
use std::str::SplitWhitespace;
use std::{env, process};
use ws_outside::{Failed, FileDisk, Which};

/// A row begins with `1` or `2`, one of two disks, or with what is done to the files beside them.
///
/// A disk is opened over a left and a right file, and let go at `end`. Else the area comes and the call on it, and what
/// this tells: a count, or `!` where it failed; `n` tells how often a call failed, and `h` the head of the left area.
///
/// - What was written is read back by a second disk, and files that exist are opened.
/// - One file for both areas is a fault, and so is one that is held elsewhere or can't be made.
/// - The folder that is taken away can't be brought to the device by the first sync, nor by the next, until it is there.
/// - An area of one byte more than the most isn't read.
const ROWS: &str = "\
put right right
1 open left right
1 L s 0
1 L w0abcd 0
1 L w2XYZ 0
1 L c4 0
1 L s 0
1 R s 0
1 L g1bXY 3
1 R l 5
1 n 0
1 end
is left abXY
1 open left right
1 L g1bXY 3
1 R l 5
1 L w1Q 0
1 L s 0
1 L s 0
1 L g1QXY 3
1 n 0
1 end
put left x
link left link
1 open left left
1 L l 1
1 R l !
1 R w1y !
1 L l 1
1 n 2
1 end
1 open left ./left
1 L l 1
1 R l !
1 n 1
1 end
1 open left link
1 L l 1
1 R c0 !
1 n 1
1 end
1 open left right
1 L w0abc 0
2 open left other
2 L l !
2 L c0 !
2 R l 0
2 n 2
1 end
2 L l 3
2 open /dev/null/left right
2 L l !
2 n 1
2 end
make folder
1 open folder/left right
1 L w0abc 0
lose folder
1 L s !
1 R s 0
1 L w0d 0
1 L s !
1 n 2
make folder
1 L s 0
lose folder
1 L s 0
1 n 2
1 end
put left AREA
size left 1073741824
1 open left right
1 h open
1 end
size left 1073741825
1 open left right
1 h large
";

/// A fresh folder of this process.
fn fresh_folder(rt: &impl Abort, host: &HostRuntime) -> String {
    let above = must(rt, env::temp_dir(host));
    let id = process::id(host.process());
    let folder = must(
        rt,
        format!(in host.alloc(); "{}/tests_disk-{id}", above.as_str()),
    );
    let _ = fs::remove_dir_all(host, folder.as_str());
    must(rt, fs::create_dir(host, folder.as_str()));
    folder
}

/// The path of a file of the folder; of one that has a path of its own, that.
fn path_of(rt: &impl Abort, host: &HostRuntime, folder: &str, name: &str) -> String {
    if name.starts_with('/') {
        must(rt, String::from_str(host.alloc(), name))
    } else {
        must(rt, format!(in host.alloc(); "{folder}/{name}"))
    }
}

/// Two disks over files of one folder, where they are open.
#[derive(Drop)]
struct Desk {
    first: Option<FileDisk<HostRuntime>>,
    second: Option<FileDisk<HostRuntime>>,
}

/// What is done to the files themselves.
fn on_files(
    rt: &impl Abort,
    host: &HostRuntime,
    folder: &str,
    what: &str,
    words: &mut SplitWhitespace<'_>,
) {
    let path = path_of(rt, host, folder, word(words));
    let more = word(words);
    match what {
        "put" if more == "AREA" => must(rt, fs::write(host, path.as_str(), AREA)),
        "put" => must(rt, fs::write(host, path.as_str(), more)),
        "is" => holds(
            rt,
            must(rt, fs::read(host, path.as_str())).as_slice() == more.as_bytes(),
        ),
        "link" => {
            let link = path_of(rt, host, folder, more);
            must(rt, fs::hard_link(host, path.as_str(), link.as_str()));
        }
        "make" => must(rt, fs::create_dir(host, path.as_str())),
        "lose" => must(rt, fs::remove_dir_all(host, path.as_str())),
        _ => resize(rt, host, path.as_str(), number(more)),
    }
}

fn resize(rt: &impl Abort, host: &HostRuntime, path: &str, len: u64) {
    let file = must(rt, File::options().write(true).open(host, path));
    must(rt, file.set_len(len));
}

/// What the head of the left area is told as.
fn head_of(disk: &mut FileDisk<HostRuntime>) -> &'static str {
    match head(disk, Which::Left) {
        Ok(Some(_)) => "open",
        Ok(None) => "closed",
        Err(AreaFault::Damaged(damage)) => word_of(damage.cause),
        Err(AreaFault::Disk | AreaFault::Memory) => "fault",
    }
}

fn is_told(rt: &impl Abort, row: &str, told: Result<u64, Failed>, wanted: &str) {
    match told {
        Ok(count) => same_at(rt, row, count, number(wanted)),
        Err(Failed) => same_at(rt, row, wanted, "!"),
    }
}

/// A call on a disk, and what it tells.
fn on_disk(
    rt: &impl Abort,
    disk: &mut FileDisk<HostRuntime>,
    row: &str,
    what: &str,
    words: &mut SplitWhitespace<'_>,
) {
    let call = word(words);
    match what {
        "n" => same_at(rt, row, disk.faults(), number(call)),
        "h" => same_at(rt, row, head_of(disk), call),
        "L" => is_told(rt, row, made(disk, Which::Left, 9, call), word(words)),
        _ => is_told(rt, row, made(disk, Which::Right, 9, call), word(words)),
    }
}

fn opened(
    rt: &impl Abort,
    host: &HostRuntime,
    folder: &str,
    words: &mut SplitWhitespace<'_>,
) -> FileDisk<HostRuntime> {
    let left = path_of(rt, host, folder, word(words));
    let right = path_of(rt, host, folder, word(words));
    FileDisk::new(must(rt, HostRuntime::clone(host)), left, right)
}

/// What is done with the place of a disk.
fn at_place(
    rt: &impl Abort,
    host: &HostRuntime,
    folder: &str,
    place: &mut Option<FileDisk<HostRuntime>>,
    row: &str,
    words: &mut SplitWhitespace<'_>,
) {
    match word(words) {
        "open" => *place = Some(opened(rt, host, folder, words)),
        "end" => *place = None,
        what => match place {
            Some(disk) => on_disk(rt, disk, row, what, words),
            None => holds(rt, false),
        },
    }
}

fn is_shown(rt: &impl Abort, host: &HostRuntime, folder: &str, desk: &mut Desk, row: &str) {
    let mut words = row.split_whitespace();
    match word(&mut words) {
        "1" => at_place(rt, host, folder, &mut desk.first, row, &mut words),
        "2" => at_place(rt, host, folder, &mut desk.second, row, &mut words),
        what => on_files(rt, host, folder, what, &mut words),
    }
}

#[test]
fn two_files_are_a_disk(rt: HostRuntime) {
    let folder = fresh_folder(&rt, &rt);
    let mut desk = Desk {
        first: None,
        second: None,
    };
    for row in ROWS.lines() {
        is_shown(&rt, &rt, &folder, &mut desk, row);
    }
    must(&rt, fs::remove_dir_all(&rt, folder.as_str()));
}
