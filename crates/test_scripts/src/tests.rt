use blk_device::{MemSource, Source};
use script_defs::{Name, Op, Script};
use script_read::{ScriptFault, read_script};
use std::alloc::{AllocError, Global};
use std::test::Fail;

// A header, and each operation but `open` once.
const SIX_LINES: &str =
    "writer 1\ncreate a 1000\nmap a 0 4\nconvert a 0 4\nshare a 0 2 a 8\nunmap a 8 1\nremove a\n";

// Sections whose writers don't rise; the second one has no line.
const OUT_OF_ORDER: &str = "writer 16\nopen b 18446744073709551615\nwriter 2\n";

// A text and the number of its first wrong line.
static WRONG: [(&str, u32); 22] = [
    ("", 1),
    ("writer 1", 1),
    ("map a 0 1\n", 1),
    ("writer 0\n", 1),
    ("writer 01\n", 1),
    ("writer 17\n", 1),
    ("\n", 1),
    ("writer 1\nwriter 1\n", 2),
    ("writer 1\nwriter 2\nwriter 1\n", 3),
    ("writer 1\nmap a 0 0\n", 2),
    ("writer 1\nopen a 1", 2),
    ("writer 1\nopen  a 1\n", 2),
    ("writer 1\nopen a 1 \n", 2),
    ("writer 1\n\n", 2),
    ("writer 1\nopen a 01\n", 2),
    ("writer 1\nopen a 18446744073709551616\n", 2),
    ("writer 1\ncreate a 4294967296\n", 2),
    ("writer 1\nmap a 18014398509481983 2\n", 2),
    ("writer 1\nremove abcdefghijklmnopq\n", 2),
    ("writer 1\nremove A\n", 2),
    ("writer 1\nremove a\r\n", 2),
    ("writer 1\nshare a 0 2 b 18014398509481983\n", 2),
];

fn bytes_of(alloc: Global, text: &str) -> Result<Vec<u8>, AllocError> {
    let mut bytes = Vec::new(alloc);
    for byte in text.as_bytes() {
        bytes.push(*byte)?;
    }
    Ok(bytes)
}

fn read(alloc: Global, text: &str) -> Result<Result<Script, ScriptFault>, AllocError> {
    let mut src = MemSource::new(bytes_of(alloc, text)?, Vec::new(alloc));
    Ok(read_script(alloc, &mut src))
}

fn name(letter: u8) -> Name {
    let mut bytes = [0; 16];
    bytes[0] = letter;
    Name { bytes, length: 1 }
}

fn is_wrong(read: &Result<Script, ScriptFault>, line: u32) -> bool {
    match read {
        Ok(_) => false,
        Err(fault) => *fault == ScriptFault::Wrong(line),
    }
}

#[test]
fn first_wrong_lines(rt: HostRuntime) -> Result<(), Fail> {
    for (text, line) in WRONG.iter() {
        let found = read(rt.alloc(), text)?;
        assert!(rt; is_wrong(&found, *line));
    }
    Ok(())
}

#[test]
fn operations_of_one_writer(rt: HostRuntime) -> Result<(), Fail> {
    let a = name(b'a');
    let Ok(script) = read(rt.alloc(), SIX_LINES)? else {
        panic!(rt; "the text is a script");
    };
    assert!(rt; script.sections.len() == 1);
    assert!(rt; script.sections[0].writer == 1);
    let wanted = [
        Op::Create { name: a, uid: 1000 },
        Op::Map {
            name: a,
            offset: 0,
            count: 4,
        },
        Op::Convert {
            name: a,
            offset: 0,
            count: 4,
        },
        Op::Share {
            name: a,
            offset: 0,
            count: 2,
            to: a,
            to_offset: 8,
        },
        Op::Unmap {
            name: a,
            offset: 8,
            count: 1,
        },
        Op::Remove { name: a },
    ];
    let mut number = 2;
    for (line, op) in script.sections[0].lines.iter().zip(wanted.iter()) {
        assert!(rt; line.number == number && line.op == *op);
        number = line.number.saturating_add(1);
    }
    assert!(rt; script.sections[0].lines.len() == 6);
    Ok(())
}

#[test]
fn sections_by_writer(rt: HostRuntime) -> Result<(), Fail> {
    let Ok(script) = read(rt.alloc(), OUT_OF_ORDER)? else {
        panic!(rt; "the text is a script");
    };
    assert!(rt; script.sections.len() == 2);
    assert!(rt; script.sections[0].writer == 2 && script.sections[0].lines.is_empty());
    assert!(rt; script.sections[1].writer == 16 && script.sections[1].lines.len() == 1);
    Ok(())
}

// A header, and so many times an operation.
fn long_text(alloc: Global, lines: u32) -> Result<Vec<u8>, AllocError> {
    let mut bytes = bytes_of(alloc, "writer 1\n")?;
    for _ in 0..lines {
        for byte in b"open a 1\n" {
            bytes.push(*byte)?;
        }
    }
    Ok(bytes)
}

#[test]
fn most_lines_are_read(rt: HostRuntime) -> Result<(), Fail> {
    let mut src = MemSource::new(long_text(rt.alloc(), 65_535)?, Vec::new(rt.alloc()));
    let Ok(script) = read_script(rt.alloc(), &mut src) else {
        panic!(rt; "65,536 lines are a script");
    };
    assert!(rt; script.sections.len() == 1);
    assert!(rt; script.sections[0].lines.len() == 65_535);
    Ok(())
}

#[test]
fn one_line_more_is_wrong(rt: HostRuntime) -> Result<(), Fail> {
    let mut src = MemSource::new(long_text(rt.alloc(), 65_536)?, Vec::new(rt.alloc()));
    assert!(rt; is_wrong(&read_script(rt.alloc(), &mut src), 65_537));
    Ok(())
}

#[test]
fn bytes_without_a_feed_are_wrong(rt: HostRuntime) -> Result<(), Fail> {
    let bytes = Vec::from_elem(rt.alloc(), b'a', 4_194_305)?;
    let mut src = MemSource::new(bytes, Vec::new(rt.alloc()));
    assert!(rt; is_wrong(&read_script(rt.alloc(), &mut src), 1));
    Ok(())
}

#[test]
fn a_failed_source_is_told(rt: HostRuntime) -> Result<(), Fail> {
    let mut failing = Vec::new(rt.alloc());
    failing.push(1)?;
    let mut src = MemSource::new(bytes_of(rt.alloc(), SIX_LINES)?, failing);
    let found = read_script(rt.alloc(), &mut src);
    assert!(rt; src.fault_count() == 1);
    assert!(rt; matches!(found, Err(ScriptFault::Failed)));
    Ok(())
}
