//! What a person is told beside the report, on standard error: which file failed and why, and what
//! a refusal means. No contract speaks of it.
ghost use Rattle.std.specs.Prelude.{◌≡◌};

use std::fs::{Metadata, OpenFile};
use std::io;
use std::io::{ErrorKind, Read, Seek, SeekFrom, Write};
use std::rt::Files;

// What each job takes, for words that aren't right.
static JOBS: [&str; 7] = [
    "xscrub check IMAGE [--redo FILE] [--turns N]",
    "xscrub repair IMAGE --redo FILE [--rebuild] [--turns N]",
    "xscrub run IMAGE --redo FILE --script FILE [--rebuild] [--turns N]",
    "xscrub drill NUMBER",
    "xscrub make IMAGE",
    "For example: xscrub check disk.img",
    "A name that begins with a dash goes behind --, as in: xscrub check -- -disk.img",
];

// What the evidence means for which a unit is given up, and what to do.
static EVIDENCE: [&str; 9] = [
    "A unit was given up: what it is judged by contradicts itself, or it had no room or no turn. Its line says why:",
    "  overlap BLOCK FIRST SECOND: two owners claim the block, and one of them is wrong.",
    "  badfork INODE ..: what the inode says of its own blocks can't be right.",
    "  badchunk BLOCK ..: an inode in the block is damaged, where both btrees list it.",
    "  badtree rmap BLOCK: neither of the two btrees that list inodes can be read.",
    "  later KIND BLOCK: the btree has a form that isn't supported yet.",
    "  space RESERVE NEED: the group has too few free blocks for a new btree.",
    "  turns N: the unit waited for so many turns.",
    "Look with xfs_repair -n, and make a backup before anything is repaired.",
];

// What to do after a repair that found something which it couldn't mend.
static REPAIRS: [&str; 5] = [
    "What was rebuilt stays rebuilt; a unit that was given up or skipped was not.",
    "Run the same repair again: it goes on from what is there now. Keep the copy of the image until it is good.",
    "If the log wasn't clean, mount and unmount the file system first, and repair after it.",
    "Files that claim the same blocks, and damaged inodes, are for xfs_repair, which works on the whole file system.",
    "A redo file belongs to one image: keep it with that image, and use it for no other.",
];

// What to do after a repair whose device failed.
static BROKEN: [&str; 2] = [
    "A change may wait in the redo file: the image isn't whole without it, so keep both, and don't mount the image.",
    "Once the device answers again, the same repair finishes the change and goes on. Copy a failing disk first.",
];

// What a line of a refused image means, and what to do.
static REFUSALS: [(&str, &str); 18] = [
    (
        "image magic\n",
        "There is no XFS file system: is it the right file or partition?",
    ),
    (
        "image version\n",
        "The file system isn't of version 5: make it anew with mkfs.xfs -m crc=1,rmapbt=1.",
    ),
    (
        "image sizes\n",
        "Blocks of 4096 bytes, sectors and inodes of 512 are wanted: mkfs.xfs -b size=4096 -s size=512 -i size=512.",
    ),
    (
        "image feature 0\n",
        "The btree of free inodes is off: make the file system with mkfs.xfs -m finobt=1.",
    ),
    (
        "image feature 1\n",
        "Reverse mappings are off: make the file system with mkfs.xfs -m rmapbt=1.",
    ),
    (
        "image feature 2\n",
        "Reference counts are off: make the file system with mkfs.xfs -m reflink=1.",
    ),
    (
        "image feature 33\n",
        "Sparse inodes are off: make the file system with mkfs.xfs -i sparse=1.",
    ),
    (
        "image feature 36\n",
        "The file system is marked for repair: run xfs_repair first.",
    ),
    (
        "image realtime\n",
        "File systems with a realtime device aren't supported.",
    ),
    (
        "image checksum\n",
        "The superblock is damaged: xfs_repair -n says more.",
    ),
    (
        "image counts\n",
        "The superblock's groups and blocks don't fit together: xfs_repair -n says more.",
    ),
    (
        "image deviceshort\n",
        "The file is shorter than the file system in it: was it cut off?",
    ),
    (
        "script failed\n",
        "The script couldn't be read: a script is a file of at most 4 MiB.",
    ),
    (
        "redo short\n",
        "The redo file has fewer than 162 blocks of 4096 bytes: is it the right file?",
    ),
    (
        "redo waiting\n",
        "A change of the image was cut short and waits in the redo file: xscrub repair finishes it.",
    ),
    (
        "redo count\n",
        "What waits in the redo file is no change that xscrub left there: is it the right file?",
    ),
    (
        "redo size\n",
        "The change that waits in the redo file is one of an image of another size: is it the right file?",
    ),
    (
        "redo place\n",
        "The change that waits in the redo file has a block outside of the image: is it the right file?",
    ),
];

// What a line means and what to do, where a person needs to be told.
fn meaning_of(line: &str) -> Option<&'static str> {
    for (refusal, meaning) in REFUSALS.iter() {
        if line == *refusal {
            return Some(*meaning);
        }
    }
    if line.starts_with("image feature ") {
        return Some(
            "The file system has a feature that isn't supported: xfs_info shows its features.",
        );
    }
    if line.starts_with("script line ") {
        return Some(
            "That line of the script is wrong, or lacks its line feed: docs/FORMATS.md has the words of a line.",
        );
    }
    if line.starts_with("group ") {
        return Some(
            "A head of this group is damaged, and no group was checked: xfs_repair -n says more.",
        );
    }
    None
}

/// Says what a line of the report means that refuses words or image.
pub fn explain<R: Eprint>(rt: &R, line: &[u8]) {
    let Ok(line) = str::from_utf8(line) else {
        return;
    };
    if line.starts_with("usage: ") {
        tell_lines(rt, &JOBS);
    }
    if let Some(meaning) = meaning_of(line) {
        let _ = rt.eprintln(meaning);
    }
}

/// Says which file failed, and the system's reason. A call that was interrupted is made again, and
/// is no failure.
pub fn tell_failure<R: Eprint>(rt: &R, name: &str, fault: &io::Error) {
    if fault.kind() != ErrorKind::Interrupted {
        let _ = eprintln!(rt; "{name}: {fault}");
    }
}

fn tell_lines<R: Eprint>(rt: &R, lines: &[&str]) {
    for line in lines.iter() {
        let _ = rt.eprintln(*line);
    }
}

/// Says what to do where a device failed that was being changed.
pub fn explain_change<R: Eprint>(rt: &R, line: &[u8]) {
    if line == "device failed\n".as_bytes() {
        tell_lines(rt, &BROKEN);
    }
}

/// Says at the end of a check or a repair that found something what wasn't looked at, where a unit was
/// given up what its evidence means, and after a repair what to do next.
pub fn tell_status<R: Eprint>(rt: &R, status: u8, is_repair: bool) {
    if status == 6 {
        tell_lines(rt, &EVIDENCE);
    }
    if status != 1 && status != 6 {
        return;
    }
    let _ = rt.eprintln(
        "Not looked at: directories, superblock counters, later superblocks, the log. \
        An image that wasn't unmounted gives false faults: mount and unmount it first.",
    );
    if is_repair {
        tell_lines(rt, &REPAIRS);
    }
}

/// An open file whose failing calls are told.
#[derive(Drop)]
pub struct NamedFile<'a, R: Files + Eprint> {
    rt: &'a R,
    name: String,
    file: R::File,
}

impl<'a, R: Files + Eprint> NamedFile<'a, R> {
    /// A file that was opened under this name.
    pub fn new(rt: &'a R, name: String, file: R::File) -> Self {
        NamedFile { rt, name, file }
    }

    // Hands an answer on, and tells its failure.
    fn told<T>(&self, answer: io::Result<T>) -> io::Result<T>
        ensures { result ≡ answer }
    {
        if let Err(fault) = &answer {
            tell_failure(self.rt, self.name.as_str(), fault);
        }
        answer
    }
}

impl<R: Files + Eprint> Read for NamedFile<'_, R> {
    fn read(&mut self, buf: &mut [u8]) -> io::Result<usize> {
        let answer = self.file.read(buf);
        self.told(answer)
    }
}

impl<R: Files + Eprint> Write for NamedFile<'_, R> {
    fn write(&mut self, buf: &[u8]) -> io::Result<usize> {
        let answer = self.file.write(buf);
        self.told(answer)
    }

    fn flush(&mut self) -> io::Result<()> {
        let answer = self.file.flush();
        self.told(answer)
    }
}

impl<R: Files + Eprint> Seek for NamedFile<'_, R> {
    fn seek(&mut self, to: SeekFrom) -> io::Result<u64> {
        let answer = self.file.seek(to);
        self.told(answer)
    }
}

impl<R: Files + Eprint> OpenFile for NamedFile<'_, R> {
    fn metadata(&self) -> io::Result<Metadata> {
        self.told(self.file.metadata())
    }

    fn set_len(&self, size: u64) -> io::Result<()> {
        self.told(self.file.set_len(size))
    }

    fn sync_all(&self) -> io::Result<()> {
        self.told(self.file.sync_all())
    }

    fn sync_data(&self) -> io::Result<()> {
        self.told(self.file.sync_data())
    }
}
