// The drill.
use crate::runs::{MEMORY, expect_run};
use live_jobs::NoGate;
use small_images::small_image;
use std::alloc::Global;

#[test]
fn drill_seven(rt: HostRuntime) {
    let alloc: Global = rt.alloc();
    let report = "drill 7\nrepaired 2\naccepted 148\nmapped 400\nshared 64\nrebuilt 12\nfaults 0\n";
    for _ in 0..2 {
        let image = small_image(alloc).expect(&rt, MEMORY);
        let _host = expect_run(&rt, alloc, (image, "", &["drill", "7"]), &NoGate, 0, report);
    }
}
