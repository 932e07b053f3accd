//! A store over two files of the system.
use crate::asserting::{holds, must, same};
use crate::opened::open_on;
use std::process::Abort;
use std::{env, fs, process};
use ws_outside::FileDisk;

/// A fresh folder of this process.
fn fresh_folder(rt: &impl Abort, host: &HostRuntime) -> String {
    let above = must(rt, env::temp_dir(host));
    let id = process::id(host.process());
    let folder = must(
        rt,
        format!(in host.alloc(); "{}/tests_store-{id}", above.as_str()),
    );
    let _ = fs::remove_dir_all(host, folder.as_str());
    must(rt, fs::create_dir(host, folder.as_str()));
    folder
}

fn disk_in(rt: &impl Abort, host: &HostRuntime, folder: &str) -> FileDisk<HostRuntime> {
    let left = must(rt, format!(in host.alloc(); "{folder}/left"));
    let right = must(rt, format!(in host.alloc(); "{folder}/right"));
    FileDisk::new(must(rt, HostRuntime::clone(host)), left, right)
}

/// What the files are opened to; then an image is saved, and a record of one byte behind it.
fn save_in(
    rt: &impl Abort,
    host: &HostRuntime,
    folder: &str,
    wanted: &str,
    image: &[u8],
    body: &[u8; 1],
) {
    let (store, text) = open_on(rt, host.alloc(), disk_in(rt, host, folder));
    same(rt, text.as_str(), wanted);
    match store {
        Some(mut store) => {
            holds(rt, store.full(image).is_ok());
            match store.room() {
                Some(room) if 1 <= room => holds(rt, store.snapshot(body).is_ok()),
                _ => holds(rt, false),
            }
        }
        None => holds(rt, false),
    }
}

#[test]
fn what_is_saved_in_files_is_opened_again(rt: HostRuntime) {
    let folder = fresh_folder(&rt, &rt);
    save_in(&rt, &rt, folder.as_str(), "none", b"one", b"a");
    save_in(&rt, &rt, folder.as_str(), "|one|a", b"two", b"b");
    save_in(&rt, &rt, folder.as_str(), "|two|b", b"three", b"c");
    let _ = fs::remove_dir_all(&rt, folder.as_str());
}
