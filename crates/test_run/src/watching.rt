//! What is heard of a check while it goes on.
use super::same::same;
use crate::runs::two_group_device;
use check_watch::{Phase, Watch};
use small_images::judge;
use std::alloc::Global;

// Each word that was heard: the phase, how much of it was done then, and of how much.
#[derive(Drop)]
struct Heard {
    words: Vec<(Phase, u64, u64)>,
}

impl Heard {
    fn new(alloc: Global) -> Self {
        Heard {
            words: Vec::new(alloc),
        }
    }
}

impl Watch for Heard {
    fn begin(&mut self, phase: Phase, of: u64) {
        let _ = self.words.push((phase, 0, of));
    }

    fn pass(&mut self, more: u64) {
        if let Some((phase, done, of)) = self.words.last() {
            let word = (*phase, done.saturating_add(more), *of);
            let _ = self.words.push(word);
        }
    }
}

#[test]
fn each_phase_is_heard_from_its_begin_to_its_end(rt: HostRuntime) {
    let alloc = rt.alloc();
    let mut dev = two_group_device(&rt, alloc);
    let mut heard = Heard::new(alloc);
    assert!(rt; judge(alloc, &mut dev, &mut heard).is_ok());
    // The one chunk, of 64 inodes, is in the first group.
    let words = [
        (Phase::Inodes, 0, 2),
        (Phase::Inodes, 1, 2),
        (Phase::Inodes, 2, 2),
        (Phase::Forks, 0, 64),
        (Phase::Forks, 64, 64),
        (Phase::Mappings, 0, 2),
        (Phase::Mappings, 1, 2),
        (Phase::Mappings, 2, 2),
        (Phase::Space, 0, 2),
        (Phase::Space, 1, 2),
        (Phase::Space, 2, 2),
    ];
    same(&rt, heard.words.as_slice(), words.as_slice());
}
