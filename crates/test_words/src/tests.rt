use command_line::parse;
use std::alloc::{AllocError, Global};
use std::test::Fail;

// The words, with one space between two, and what they ask for: job, target, redo file, script,
// whether all is rebuilt, turns. None where the words aren't right.
static ROWS: [(&str, Option<&str>); 113] = [
    ("check a", Some("Check a None None false 1000000")),
    (
        "check a --redo r",
        Some("Check a Some(\"r\") None false 1000000"),
    ),
    (
        "check --redo r a",
        Some("Check a Some(\"r\") None false 1000000"),
    ),
    (
        "--redo r check a",
        Some("Check a Some(\"r\") None false 1000000"),
    ),
    (
        "check a --redo=r",
        Some("Check a Some(\"r\") None false 1000000"),
    ),
    ("check a --turns 5", Some("Check a None None false 5")),
    ("--turns=5 check a", Some("Check a None None false 5")),
    (
        "check a --turns 4294967295",
        Some("Check a None None false 4294967295"),
    ),
    ("check a --turns 4294967296", None),
    ("check a --turns 0", None),
    ("check a --turns 05", None),
    ("check a --turns +5", None),
    ("check a --turns x", None),
    ("check a --turns 5x", None),
    ("check a --turns ", None),
    ("check a --turns", None),
    ("check a --rebuild", None),
    ("check a --script s", None),
    ("check a --redo", None),
    ("check a --redo r --redo s", None),
    ("check a b", None),
    ("check", None),
    ("check ", Some("Check  None None false 1000000")),
    ("check -a", None),
    ("check -- -a", Some("Check -a None None false 1000000")),
    ("check a --other", None),
    ("check a -r", None),
    ("check --help", None),
    ("--help", None),
    ("-h", None),
    ("help", None),
    ("--version", None),
    ("repair a", None),
    (
        "repair a --redo r",
        Some("Repair a Some(\"r\") None false 1000000"),
    ),
    (
        "repair a --redo r --rebuild",
        Some("Repair a Some(\"r\") None true 1000000"),
    ),
    (
        "repair --rebuild a --turns 7 --redo r",
        Some("Repair a Some(\"r\") None true 7"),
    ),
    ("repair a --redo r --rebuild --rebuild", None),
    ("repair a --redo r --script s", None),
    ("run a --redo r", None),
    ("run a --script s", None),
    (
        "run a --redo r --script s",
        Some("Run a Some(\"r\") Some(\"s\") false 1000000"),
    ),
    (
        "run a --script s --redo r --rebuild --turns 1",
        Some("Run a Some(\"r\") Some(\"s\") true 1"),
    ),
    ("drill 7", Some("Drill 7 None None false 1000000")),
    ("drill 0", Some("Drill 0 None None false 1000000")),
    (
        "drill 4294967295",
        Some("Drill 4294967295 None None false 1000000"),
    ),
    ("drill 4294967296", None),
    ("drill 07", None),
    ("drill x", None),
    ("drill 7 --redo r", None),
    ("drill 7 --turns 1", None),
    ("make a", Some("Make a None None false 1000000")),
    ("make a --redo r", None),
    ("make a --rebuild", None),
    ("make a --turns 1", None),
    ("list a", None),
    ("check a --turns 5 --turns 6", None),
    ("check a --turns=5 --turns=5", None),
    (
        "check --turns 5 a --redo=r",
        Some("Check a Some(\"r\") None false 5"),
    ),
    (
        "--turns=5 --redo=r -- check -a",
        Some("Check -a Some(\"r\") None false 5"),
    ),
    ("check a --redo=r --redo=r", None),
    ("check a --redo -r", None),
    ("check a --redo --turns 5", None),
    ("check a --red r", None),
    ("check --rebuild a", None),
    ("--rebuild check a", None),
    ("check a --rebuild=true", None),
    ("check --script s a", None),
    ("--script=s check a", None),
    ("check -- a --redo r", None),
    ("-- check a", Some("Check a None None false 1000000")),
    ("check a --", Some("Check a None None false 1000000")),
    (" a", None),
    ("check  a", None),
    ("Check a", None),
    (
        "--redo r repair a",
        Some("Repair a Some(\"r\") None false 1000000"),
    ),
    (
        "repair --redo=r --turns=4294967295 a --rebuild",
        Some("Repair a Some(\"r\") None true 4294967295"),
    ),
    (
        "--rebuild repair --redo r -- -a",
        Some("Repair -a Some(\"r\") None true 1000000"),
    ),
    ("repair a --redo r --turns 4294967296", None),
    ("repair a --redo r --turns 0", None),
    ("repair a --redo r --turns 01", None),
    ("repair a --redo r --turns 1 --turns 1", None),
    ("repair a --redo r --redo r", None),
    ("repair a --script=s --redo r", None),
    ("repair a b --redo r", None),
    ("repair --redo r", None),
    (
        "--script s --redo r run a",
        Some("Run a Some(\"r\") Some(\"s\") false 1000000"),
    ),
    (
        "run --rebuild --turns 7 a --redo=r --script=s",
        Some("Run a Some(\"r\") Some(\"s\") true 7"),
    ),
    ("run a --script s --script s --redo r", None),
    ("run a --script s --redo r --redo r", None),
    ("run a --script s --redo r --rebuild --rebuild", None),
    ("run a --script s --redo r --turns 4294967296", None),
    ("run a --script s --redo r --turns 00", None),
    ("run a b --script s --redo r", None),
    ("run a --script --redo r", None),
    ("run a", None),
    ("drill -- 7", Some("Drill 7 None None false 1000000")),
    ("drill ", None),
    ("drill", None),
    ("drill 00", None),
    ("drill -- -7", None),
    ("drill 7 8", None),
    ("drill 7 --script s", None),
    ("drill 7 --rebuild", None),
    ("--turns 1 drill 7", None),
    ("--redo=r drill 7", None),
    ("make -- -a", Some("Make -a None None false 1000000")),
    ("make ", Some("Make  None None false 1000000")),
    ("make", None),
    ("make a b", None),
    ("make a --script s", None),
    ("--rebuild make a", None),
    ("--turns=1 make a", None),
    ("--redo r make a", None),
];

// The words of a line, and what they ask for as text.
fn asked(alloc: Global, line: &str) -> Result<Option<String>, AllocError> {
    let words: Vec<String> = words_of(alloc, line)?;
    match parse(alloc, words.as_slice())? {
        None => Ok(None),
        Some(asked) => Ok(Some(format!(in alloc;
            "{:?} {} {:?} {:?} {} {}",
            asked.job, asked.target, asked.redo, asked.script, asked.is_rebuild, asked.turns
        )?)),
    }
}

fn words_of(alloc: Global, line: &str) -> Result<Vec<String>, AllocError> {
    let mut words = Vec::new(alloc);
    for word in line.split(' ') {
        words.push(String::from_str(alloc, word)?)?;
    }
    Ok(words)
}

#[test]
fn words_ask_for_what_the_table_has(rt: HostRuntime) -> Result<(), Fail> {
    for (line, wanted) in ROWS.iter() {
        let found = asked(rt.alloc(), line)?;
        assert!(rt; found.as_deref() == *wanted);
    }
    Ok(())
}

#[test]
fn no_words_ask_for_nothing(rt: HostRuntime) -> Result<(), Fail> {
    assert!(rt; parse(rt.alloc(), &[])? == None);
    Ok(())
}
