ghost use Rattle.std.specs.Prelude.{◌≡◌, ℕ, List, is_some};
ghost use Rattle.xscrub.specs.Ending.{EndsSound, Finds, IsOfImage, IsWorded, IsAsked, IsShort, IsUnopened, FindsBy, LeavesRedos, LeavesStored, decided_by, stored_outcome};
ghost use Rattle.xscrub.specs.Alone.{StaysAlone};
ghost use Rattle.xscrub.specs.Command.{check_of, job_of};
ghost use Rattle.xscrub.specs.Doors.{EndsAtDoor};
ghost use Rattle.xscrub.specs.Outcome.{outcome_of};
ghost use Rattle.xscrub.specs.Repairs.{IsClean};
ghost use Rattle.xscrub.specs.Run.{RunsFor, seen};
ghost use Rattle.image_hosts.specs.Stored.{name_of, redo_asked};

use crate::command::{Command, command_of};
use crate::ending::Finding;
use crate::judging::{JudgeFault, Judgement};
use crate::last_lines::LastLine;
use crate::making::make;
use crate::redo::judge_device;
use crate::repairing::repair;
use crate::telling::tell;
use fs_model::Entry;
use image_hosts::{Host, OpenFault, Purpose, Watched};
use std::alloc::Global;

/// How a run ended: the status of the process, the journal, and the journal's lengths at which
/// its sessions began. A check has one session; those that never begin have the final length.
#[derive(Debug, PartialEq, Eq, Drop)]
pub struct RunEnd {
    pub status: u8,
    pub journal: Vec<Entry>,
    pub starts: [u64; 3],
}

// What is found of the named image, and of the redo file beside it where one is given. The device that is
// opened for them is always given back.
fn check<H: Host>(alloc: Global, host: &mut H, image: &str, redo: Option<&str>) -> Finding
    ensures found { Finds H.Host.own (stored_outcome (is_some redo.entry) (H.stored host.old image.now) (redo_asked (H.redo_files host.old) redo.entry))
        host.old host.new result }
    ensures image { IsOfImage (is_some redo.entry) result }
    ensures device { FindsBy H.Dev.Device (check_of image.now (name_of redo.entry))
        (H.stored host.old) (H.redo_files host.old) (H.stored host.new) (H.redo_files host.new)
        (H.loans host.old) (H.loans host.new) result }
    ensures stored { LeavesStored (check_of image.now (name_of redo.entry)) (H.tells host.old)
        (result ≡ Finding.Made) (IsUnopened result) (H.stored host.old) (H.stored host.new) }
    ensures redo { (n : List ℕ) → H.redo_files host.new n ≡ H.redo_files host.old n }
    ensures asked { IsAsked (check_of image.now (name_of redo.entry)) (IsShort result)
        (H.asked host.old) (H.asked host.new) }
    ensures report { H.taken host.new ≡ H.taken host.old }
    ensures sink { H.sink_faults host.new ≡ H.sink_faults host.old }
{
    let mut dev = match host.device(image, redo, Purpose::Check) {
        Ok(dev) => dev,
        Err(OpenFault::Failed) => return Finding::HostFailed,
        Err(OpenFault::Memory) => return Finding::Memory(Vec::new(alloc)),
    };
    let watch = host.watch();
    let found = judge_device(alloc, &mut dev, redo.is_some(), watch);
    host.put_back(image, dev);
    match found {
        Ok(Judgement::Judged(journal)) => Finding::Judged(journal),
        Ok(Judgement::Full(journal)) => Finding::Full(journal),
        Ok(Judgement::Refused(line)) => Finding::Refused(line),
        Err(JudgeFault::Device(journal)) => Finding::DeviceFailed(journal),
        Err(JudgeFault::Memory(journal)) => Finding::Memory(journal),
    }
}

// What the words ask for, as it is found.
fn find<H: Host>(alloc: Global, host: &mut H, words: &[String]) -> Finding
    ensures found { Finds H.Host.own (decided_by (job_of words.now) (H.stored host.old) (H.redo_files host.old)) host.old host.new result }
    ensures words { IsWorded (job_of words.now) result }
    ensures device { FindsBy H.Dev.Device (job_of words.now) (H.stored host.old) (H.redo_files host.old)
        (H.stored host.new) (H.redo_files host.new) (H.loans host.old) (H.loans host.new) result }
    ensures stored { LeavesStored (job_of words.now) (H.tells host.old)
        (result ≡ Finding.Made) (IsUnopened result) (H.stored host.old) (H.stored host.new) }
    ensures redo { LeavesRedos (job_of words.now) (H.redo_files host.old) (H.redo_files host.new) }
    ensures refused { EndsAtDoor (job_of words.now) (H.stored host.old) (H.redo_files host.old)
        (H.stored host.new) (outcome_of result) }
    ensures alone { StaysAlone (job_of words.now) (H.stored host.old) (H.redo_files host.old)
        (H.stored host.new) (outcome_of result) }
    ensures sound { EndsSound (job_of words.now) (IsClean result)
        (H.stored host.new) (H.redo_files host.new) }
    ensures asked { IsAsked (job_of words.now) (IsShort result) (H.asked host.old) (H.asked host.new) }
    ensures report { H.taken host.new ≡ H.taken host.old }
    ensures sink { H.sink_faults host.new ≡ H.sink_faults host.old }
{
    let Ok(command) = command_of(alloc, words) else {
        return Finding::Memory(Vec::new(alloc));
    };
    match command {
        Command::Check(image, redo) => check(alloc, host, image, redo),
        Command::Repair(image, redo, plan, turns) => repair(alloc, host, image, redo, plan, turns),
        Command::Make(image) => make(alloc, host, image),
        Command::Unbuilt => Finding::Refused(LastLine::Unbuilt),
        Command::Usage => Finding::Usage,
    }
}

/// Runs the words, without the program's name, and tells the host's sink what was found, in pieces of
/// whole lines: where a device fails or memory is short, the journal so far, and then the line that says so.
/// A check changes no image and no redo file, the making of an image that image alone, and a repair its
/// image and redo file, of which a check ends with 0 where the repair does. An image of which a check finds
/// every unit good is then as it was, unless all is rebuilt. Each device that the host hands out is given back.
pub fn fsck_main<H: Host>(alloc: Global, host: &mut H, words: &[String]) -> RunEnd
    ensures run { RunsFor H.Dev.Device (job_of words.now)
        (seen H.Host.own H.Sink host.old) (seen H.Host.own H.Sink host.new) result }
{
    let finding = find(alloc, host, words);
    let told = tell(alloc, host, finding);
    let end = told.journal.len() as u64;
    RunEnd {
        status: told.status.code(),
        journal: told.journal,
        starts: [0, end, end],
    }
}
