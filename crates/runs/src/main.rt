// Runs of the meter, one for each file that an argument names: the name, the listing of the file's
// records, and the page that they leave, an area to a line.
#![tactic(auto)]

use std::env::{Env, FillError};
use std::io::Read;
use std::rt::Files;
use std::{fs, io, str};

fn print(rt: &impl Print, text: &[u8]) -> io::Result<()> {
    rt.write_all(text)
}

fn end_line(rt: &impl Print) -> io::Result<()> {
    print(rt, b"\n")
}

fn print_byte(rt: &impl Print, byte: u8) -> io::Result<()> {
    print!(rt; "{byte:02x}")
}

// Writes the bytes of an area as one line of hexadecimal digits.
fn print_area(rt: &impl Print, area: &[u8]) -> io::Result<()> {
    for byte in area {
        print_byte(rt, *byte)?;
    }
    end_line(rt)
}

// The directory, and the nine areas.
fn print_page(rt: &impl Print, page: [u8; 599]) -> io::Result<()> {
    print_area(rt, &page[0..36])?;
    print_area(rt, &page[36..42])?;
    print_area(rt, &page[42..59])?;
    print_area(rt, &page[59..63])?;
    print_area(rt, &page[63..72])?;
    print_area(rt, &page[72..80])?;
    print_area(rt, &page[80..241])?;
    print_area(rt, &page[241..402])?;
    print_area(rt, &page[402..563])?;
    print_area(rt, &page[563..599])
}

// The page of the whole file, or that there is none. A file that does not fit the buffer counts as cut:
// 65,536 is no multiple of a record's 21 bytes.
fn print_last_page(rt: &impl Print, file: &mut impl Read) -> io::Result<()> {
    let mut records = [0u8; 65536];
    let mut page = [0u8; 599];
    let got = listing::reading::read_part(file, &mut records).count;
    let table = tables::built_in();
    let replayed = replay::replay(&table, &records[..got], &mut page);
    if replayed.is_err() {
        return print(rt, b"no page\n");
    }
    print_page(rt, page)
}

// Opens a file for reading. std opens none whose name is not UTF-8: it counts as missing.
fn open<R: Files>(rt: &R, name: &[u8]) -> Option<R::File> {
    let path = str::from_utf8(name).ok()?;
    fs::open(rt, path).ok()
}

// The file is opened twice: the listing reads it block by block, the replay as a whole.
fn print_run<R: Files + Print>(rt: &R, name: &[u8]) -> io::Result<()> {
    print(rt, name)?;
    end_line(rt)?;
    let Some(mut file) = open(rt, name) else {
        return print(rt, b"missing\n");
    };
    listing::print_listing(&mut file, &mut io::writer(rt));
    let Some(mut again) = open(rt, name) else {
        return print(rt, b"no page\n");
    };
    print_last_page(rt, &mut again)
}

// Prints the run of an argument, and answers whether there is such an argument. One that does not fit
// the buffer is no file's name, and stands for an empty one.
fn print_argument<R: Env + Files + Print>(rt: &R, i: usize) -> io::Result<bool> {
    let mut name = [0u8; 4096];
    let length = match rt.arg(i, &mut name) {
        Ok(length) => length,
        Err(FillError::TooLong) => 0,
        Err(FillError::NotPresent) => return Ok(false),
    };
    print_run(rt, &name[..length])?;
    Ok(true)
}

fn main(rt: HostRuntime) -> io::Result<()> {
    for i in 1..usize::MAX {
        if !print_argument(&rt, i)? {
            break;
        }
    }
    Ok(())
}
