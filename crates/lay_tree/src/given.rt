// What the words and the lines say.
use anyhow::Result;
use byte_fields::put_u64;
use sblock::Bounds;
use std::io::{BufRead, BufReader};
use tree_defs::Site;

/// The five numbers that a line has at most; 0 for each that it doesn't have.
pub type Row = [u64; 5];

/// A group, and what is to be laid out in it.
#[derive(Drop)]
pub struct Given {
    pub site: Site,
    pub lsn: u64,
    pub claimed: Vec<u32>,
    pub rows: Vec<Row>,
}

/// A number that is too large for 32 bits is the greatest one.
pub fn narrow(number: u64) -> u32 {
    u32::try_from(number).unwrap_or(u32::MAX)
}

fn row_of(line: &str) -> Row {
    let mut row = [0; 5];
    for (number, word) in row.iter_mut().zip(line.split_whitespace()) {
        *number = word.parse::<u64>().unwrap_or(u64::MAX);
    }
    row
}

fn uuid_of(high: u64, low: u64) -> [u8; 16] {
    let mut uuid = [0; 16];
    put_u64(&mut uuid, 0, high);
    put_u64(&mut uuid, 8, low);
    uuid
}

// The group that the words after the first one say.
fn site_of(numbers: &[u64; 12]) -> Site {
    Site {
        group: narrow(numbers[1]),
        first: numbers[2],
        bounds: Bounds {
            length: narrow(numbers[3]),
            agblocks: narrow(numbers[4]),
            agcount: narrow(numbers[5]),
            last: narrow(numbers[6]),
            agblklog: u8::try_from(numbers[7]).unwrap_or(0),
        },
        uuid: uuid_of(numbers[9], numbers[10]),
    }
}

/// Reads the lines: as many blocks as the first word says, and then records.
pub fn read_given<R: Input + AllocGlobal>(rt: &R, numbers: [u64; 12]) -> Result<Given> {
    let alloc = rt.alloc();
    let mut claimed = Vec::new(alloc);
    let mut rows = Vec::new(alloc);
    let mut left = numbers[0];
    for line in BufReader::new(alloc, rt.reader())?.lines(alloc) {
        let line = line?;
        let row = row_of(line.as_str());
        if left > 0 {
            claimed.push(narrow(row[0]))?;
            left -= 1;
        } else {
            rows.push(row)?;
        }
    }
    Ok(Given {
        site: site_of(&numbers),
        lsn: numbers[8],
        claimed,
        rows,
    })
}
