//! Runs of the whole program over a host in memory.
use image_hosts::{MemHost, MemImage};
use std::alloc::{AllocError, Global};
use std::collections::BTreeMap;
use xscrub::{RunEnd, fsck_main};

/// What a check of one group shows before its free space, where its inodes and its reverse mappings
/// are good.
pub const SOUND: &str = "0 inode good\n0 rmap good\n";

/// And what it shows where all is good.
pub const ALL_GOOD: &str = "0 inode good\n0 rmap good\n0 free good\n0 refc good\n";

/// And after reverse mappings that aren't good.
pub const SKIPPED: &str = "0 free skipped 0 rmap\n0 refc skipped 0 rmap\n";

/// Words as a program is handed them.
pub fn words_of(alloc: Global, words: &[&str]) -> Result<Vec<String>, AllocError> {
    let mut texts = Vec::new(alloc);
    for word in words {
        texts.push(String::from_str(alloc, word)?)?;
    }
    Ok(texts)
}

/// Runs the words over a host whose one image has the name `a.img`, and of whose calls of `put`
/// those of these numbers fail.
pub fn run_words(
    alloc: Global,
    words: &[&str],
    image: MemImage,
    failing_puts: Vec<u64>,
) -> Result<(RunEnd, MemHost), AllocError> {
    let texts = words_of(alloc, words)?;
    let mut images = BTreeMap::new(alloc);
    images.insert(String::from_str(alloc, "a.img")?, image)?;
    let mut host = MemHost::new(alloc, images, failing_puts);
    let end = fsck_main(alloc, &mut host, texts.as_slice());
    Ok((end, host))
}
