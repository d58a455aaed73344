//! Files of a test, in the folder that it runs in.
use std::fs;
use std::fs::{File, Files};
use std::process::Abort;

/// A file with no bytes, to be read and written.
pub(crate) fn empty_file<R: Files + Abort>(rt: &R, name: &str) -> R::File {
    // What a run that failed left there.
    is_removed(rt, name);
    match File::create_new(rt, name) {
        Ok(file) => file,
        Err(_) => panic!(rt; "no new file {name}"),
    }
}

/// Removes the file, and says whether it was there.
pub(crate) fn is_removed<R: Files>(files: &R, name: &str) -> bool {
    fs::remove_file(files, name).is_ok()
}
