use super::same::same;
use crate::runs::MEMORY;
use ag_headers::HeadFault;
use fs_model::Head;
use geom::ImageFault;
use small_images::{Command, LastLine, command_of, fixed_line, last_line};
use std::alloc::Global;
use std::process::Abort;

// Asserts the text of a last line.
fn expect_text(rt: &impl Abort, alloc: Global, line: LastLine, text: &str) {
    let shown = last_line(alloc, &line).expect(rt, MEMORY);
    same(rt, shown.as_str(), text);
}

// The last line of an image whose first group has a head with this fault.
fn line_of(head: Head, fault: HeadFault) -> LastLine {
    LastLine::Head {
        group: 0,
        head,
        fault,
    }
}

#[test]
fn last_lines_name_the_cause(rt: HostRuntime) {
    let alloc = rt.alloc();
    let feature = LastLine::Image(ImageFault::Feature(40));
    expect_text(&rt, alloc, feature, "image feature 40\n");
    same(&rt, fixed_line(&feature), None);
    let agf = line_of(Head::Agf, HeadFault::Seqno);
    expect_text(&rt, alloc, agf, "group 0 agf seqno\n");
    let agfl = line_of(Head::Agfl, HeadFault::FreeList(3));
    expect_text(&rt, alloc, agfl, "group 0 agfl freelist 3\n");
    let short = LastLine::Image(ImageFault::DeviceShort);
    expect_text(&rt, alloc, short, "image deviceshort\n");
    same(&rt, fixed_line(&LastLine::Memory), Some("memory\n"));
    let full = fixed_line(&LastLine::JournalFull);
    same(&rt, full, Some("journal full\n"));
}

#[test]
fn only_check_and_a_name_ask_for_a_check(rt: HostRuntime) {
    let alloc = rt.alloc();
    let check = String::from_str(alloc, "check").expect(&rt, MEMORY);
    let name = String::from_str(alloc, "a.img").expect(&rt, MEMORY);
    let words = [check, name];
    let both = command_of(alloc, &words).expect(&rt, MEMORY);
    same(&rt, both, Command::Check("a.img", None));
    let first = command_of(alloc, &words[..1]).expect(&rt, MEMORY);
    same(&rt, first, Command::Usage);
}
