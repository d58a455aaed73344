// Runs of one writer, and words and scripts that are refused.
use crate::runs::{MEMORY, expect_run};
use live_jobs::NoGate;
use small_images::small_image;
use std::alloc::Global;

const WORDS: [&str; 6] = ["run", "a.img", "--redo", "r", "--script", "s"];

#[test]
fn a_file_is_made_and_removed(rt: HostRuntime) {
    let alloc: Global = rt.alloc();
    let image = small_image(alloc).expect(&rt, MEMORY);
    let script =
        "writer 1\ncreate a 1000\nmap a 0 4\nconvert a 0 4\nshare a 0 2 a 8\nunmap a 8 1\nremove a\n";
    let report =
        "0 inode good\n0 rmap good\n0 free good\n0 refc good\n1 2 0 0\n1 3 0 4\n1 4 0 4\n1 5 0 2\n1 6 0 1\n1 7 0 5\n";
    let _host = expect_run(&rt, alloc, (image, script, &WORDS), &NoGate, 0, report);
}

#[test]
fn refusals_have_codes(rt: HostRuntime) {
    let alloc: Global = rt.alloc();
    let image = small_image(alloc).expect(&rt, MEMORY);
    let script = "writer 1\ncreate a 0\nmap a 0 2\nmap a 1 2\nunmap a 5 1\nmap b 0 1\n";
    let report =
        "0 inode good\n0 rmap good\n0 free good\n0 refc good\n1 2 0 0\n1 3 0 2\n1 4 2 0\n1 5 3 0\n1 6 1 0\n";
    let _host = expect_run(&rt, alloc, (image, script, &WORDS), &NoGate, 0, report);
}

#[test]
fn a_wrong_line_is_named(rt: HostRuntime) {
    let alloc: Global = rt.alloc();
    let image = small_image(alloc).expect(&rt, MEMORY);
    let script = "writer 1\nmap a 0 0\n";
    let _host = expect_run(
        &rt,
        alloc,
        (image, script, &WORDS),
        &NoGate,
        3,
        "script line 2\n",
    );
}

#[test]
fn no_script_is_a_fault_of_the_host(rt: HostRuntime) {
    let alloc: Global = rt.alloc();
    let image = small_image(alloc).expect(&rt, MEMORY);
    let words = ["run", "a.img", "--redo", "r", "--script", "t"];
    let _host = expect_run(&rt, alloc, (image, "", &words), &NoGate, 5, "host failed\n");
}

#[test]
fn a_section_may_be_empty(rt: HostRuntime) {
    let alloc: Global = rt.alloc();
    let image = small_image(alloc).expect(&rt, MEMORY);
    let report = "0 inode good\n0 rmap good\n0 free good\n0 refc good\n";
    let _host = expect_run(
        &rt,
        alloc,
        (image, "writer 16\n", &WORDS),
        &NoGate,
        0,
        report,
    );
}

#[test]
fn other_words_go_on(rt: HostRuntime) {
    let alloc: Global = rt.alloc();
    let image = small_image(alloc).expect(&rt, MEMORY);
    let report = "0 inode good\n0 rmap good\n0 free good\n0 refc good\n";
    let _host = expect_run(
        &rt,
        alloc,
        (image, "", &["check", "a.img"]),
        &NoGate,
        0,
        report,
    );
}
