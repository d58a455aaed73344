//! What keeps two programs from one image: a lock on its file, which the system lets go when the program
//! ends. Only `xscrub` asks for it.

use crate::mounts::is_mounted;
use command_line::{Job, parse};
use std::alloc::Global;
use std::fs;
use std::fs::{File, OpenOptions, TryLockError};
use std::os::unix::fs::{FileTypeExt, MetadataExt};

// The image of a drill.
const SCRATCH: &str = "xscrub.scratch";

// Whether others may read the image meanwhile.
#[derive(Clone, Copy)]
enum Lock {
    Shared,
    Alone,
}

/// Whether an image is this program's alone, or a check's among others, until the hold is dropped.
#[derive(Drop)]
pub enum Hold {
    /// The words name no image that is there, or its file system has no locks.
    Free,
    Held(File),
    /// Another program changes it, or checks what this one is to change; or it is mounted.
    Busy,
}

// The image that is asked for, and how it is locked.
fn image_in<'a>(alloc: Global, words: &'a [String]) -> Option<(&'a str, Lock)> {
    let Ok(Some(request)) = parse(alloc, words) else {
        return None;
    };
    match request.job {
        Job::Check => Some((request.target, Lock::Shared)),
        Job::Repair | Job::Run | Job::Make => Some((request.target, Lock::Alone)),
        Job::Drill => Some((SCRATCH, Lock::Alone)),
    }
}

// Opens the image, if it is a file or a block device: to open a pipe would wait for who writes it.
fn open_image(rt: &HostRuntime, name: &str) -> Option<File> {
    let kind = fs::metadata(rt, name).ok()?.file_type();
    if !kind.is_file() && !kind.is_block_device() {
        return None;
    }
    OpenOptions::new().read(true).open(rt, name).ok()
}

// Whether this is a block device that is mounted, and would be changed.
fn is_in_use(rt: &HostRuntime, file: &File, how: Lock) -> bool {
    match (how, file.metadata()) {
        (Lock::Alone, Ok(found)) => {
            found.file_type().is_block_device() && is_mounted(rt, found.rdev())
        }
        _ => false,
    }
}

// Locks the image, or says that the system or another program has it.
fn lock_image(rt: &HostRuntime, name: &str, how: Lock) -> Hold {
    let Some(file) = open_image(rt, name) else {
        return Hold::Free;
    };
    if is_in_use(rt, &file, how) {
        let _ = eprintln!(rt; "{name}: it is mounted: unmount it first");
        return Hold::Busy;
    }
    let locked = match how {
        Lock::Shared => file.try_lock_shared(),
        Lock::Alone => file.try_lock(),
    };
    match locked {
        Ok(()) => Hold::Held(file),
        Err(TryLockError::WouldBlock) => {
            let _ = eprintln!(rt; "{name}: another xscrub is at work on it");
            Hold::Busy
        }
        Err(TryLockError::Error(_)) => Hold::Free,
    }
}

/// Locks the image that these words ask for: shared for a check, and else alone.
pub fn hold_image(alloc: Global, rt: &HostRuntime, words: &[String]) -> Hold {
    match image_in(alloc, words) {
        Some((name, how)) => lock_image(rt, name, how),
        None => Hold::Free,
    }
}
