// Checks that end before a group is judged.
ghost use Rattle.std.specs.Prelude.{◌≡◌};

use super::same::same;
use ag_headers::HeadFault;
use blk_device::{Device, MemDevice, Region};
use byte_fields::Steps;
use check_watch::NoWatch;
use fs_model::{Entry, Head};
use geom::Geometry;
use image_check::check_image;
use space_check::{CheckStop, Halt};
use std::alloc::{AllocError, Global};
use std::collections::BTreeMap;
use std::marker::Brand;
use std::process::Abort;
use std::sync::ledger::{Blank, Ledger};

fn two_groups() -> Geometry
    ensures group { result.agcount ≡ 2 }
    ensures blocks { result.dblocks ≡ 128 }
{
    Geometry {
        agblocks: 64,
        agcount: 2,
        dblocks: 128,
        agblklog: 6,
        uuid: [7; 16],
        log: None,
        kept: [192, 193, 194, 0, 0, 0],
        inobtcount: true,
    }
}

// The check of a device of two groups.
fn checked<L: Ledger>(
    alloc: Global,
    device: MemDevice,
    blank: Blank,
) -> Result<Vec<Entry>, CheckStop>
    requires name { blank.name ≡ L.name }
    requires parts { blank.parts ≡ L.parts }
    requires three { blank.parts ≡ 3 }
{
    let geo = two_groups();
    let mut device = device;
    if device.size(Region::Image) < 128 {
        return Err(CheckStop {
            cause: Halt::Memory,
            journal: Vec::new(alloc),
        });
    }
    let mut steps = Steps::<L>::new(blank);
    check_image(alloc, &mut device, &geo, &mut steps, &mut NoWatch)
}

// The same, for a caller that counts no steps, of a device without a written block on which the
// calls of these numbers fail.
fn check_blank(alloc: Global, failing: Vec<u64>) -> Result<Option<CheckStop>, AllocError> {
    let device = MemDevice::with_image(alloc, 128, 1, BTreeMap::new(alloc), failing)?;
    let blank = Blank::new(3);
    Ok(checked::<Brand>(alloc, device, blank).err())
}

// Ends the test where the check of that device doesn't end for this cause, with nothing judged before.
fn expect_stop(rt: &impl Abort, alloc: Global, failing: Vec<u64>, cause: Halt) {
    let stop = check_blank(alloc, failing).expect(rt, "memory is there");
    let journal = Vec::new(alloc);
    same(rt, stop, Some(CheckStop { cause, journal }));
}

#[test]
fn a_head_that_is_refused_ends_the_check(rt: HostRuntime) {
    let alloc = rt.alloc();
    let cause = Halt::Head {
        group: 0,
        head: Head::Agf,
        fault: HeadFault::Magic,
    };
    expect_stop(&rt, alloc, Vec::new(alloc), cause);
}

#[test]
fn a_device_that_fails_ends_the_check(rt: HostRuntime) {
    let alloc = rt.alloc();
    let failing = [0].to_vec(alloc).expect(&rt, "memory is there");
    expect_stop(&rt, alloc, failing, Halt::Failed);
}
