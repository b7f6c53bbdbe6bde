// Prints the program's answer to each file that its arguments name, one after the other.
#![tactic(auto)]

use answering::answer_stream;
use std::env::{Env, FillError};
use std::fs::File;
use std::io::{Error, ErrorKind};
use std::{io, str};
use streams::write_full;

// The longest name of a file, in bytes.
const LONGEST_NAME: usize = 4096;

// A name that is no text names no file here.
fn open_read(rt: &HostRuntime, name: &[u8]) -> io::Result<File> {
    let path = str::from_utf8(name).map_err(|_| Error::from(ErrorKind::InvalidInput))?;
    File::open(rt, path)
}

// The system's words for an error, without the number that std puts after them.
fn words_of(text: &str) -> &str {
    text.rsplit_once(" (os error ")
        .map_or(text, |(words, _)| words)
}

// A line to standard error: the file that was not opened, and why.
fn fail(rt: &HostRuntime, name: &[u8], error: &Error) {
    let mut stderr = rt.stderr();
    write_full(&mut stderr, name);
    write_full(&mut stderr, b": ");
    if let Ok(text) = format!(in rt.alloc(); "{error}") {
        write_full(&mut stderr, words_of(text.as_str()).as_bytes());
    }
    write_full(&mut stderr, b"\n");
}

// The file's name on a line, and the answer.
fn answer_file(rt: &HostRuntime, name: &[u8]) -> io::Result<()> {
    let mut file = open_read(rt, name)?;
    let mut stdout = rt.stdout();
    write_full(&mut stdout, name);
    write_full(&mut stdout, b"\n");
    let mut store = [0u32; 8192];
    answer_stream(&mut file, &mut stdout, &mut store);
    Ok(())
}

// The name that an argument has, where there is one. One that is too long is as none at all, which names no file.
fn name_at<'a>(rt: &HostRuntime, i: usize, space: &'a mut [u8]) -> Option<&'a [u8]> {
    match rt.arg(i, space) {
        Ok(n) => Some(&space[..n]),
        Err(FillError::TooLong) => Some(&[]),
        Err(FillError::NotPresent) => None,
    }
}

fn main(rt: HostRuntime) {
    // By number: `env::args` does not serve, since at an argument that is no text it fails before the first file is answered.
    for i in 1..usize::MAX {
        let mut space = [0u8; LONGEST_NAME];
        let Some(name) = name_at(&rt, i, &mut space) else {
            break;
        };
        if let Err(error) = answer_file(&rt, name) {
            fail(&rt, name, &error);
        }
    }
}
