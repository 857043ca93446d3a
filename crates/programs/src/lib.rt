// What the programs share: the words that they are started with, the file that one of them names, buffers, and what is said of a failure.
#![tactic(auto)]

ghost use Rattle.std.specs.Prelude.{◌≡◌, ◌≤◌, length};

use std::env::FillError;
use std::fmt::Display;
use std::io;
use std::io::{Cursor, Write};
use std::rt::Env;

// ---- buffers

// 4,096 zeros, which hold any path. Each `ensures` gives the length, which lending the array as a slice needs.
pub fn buffer() -> [u8; 4096]
    ensures { 4096 ≡ length result }
{
    [0; 4096]
}

// 65,536 zeros, for a loop that moves much data.
pub fn large_buffer() -> [u8; 65536]
    ensures { 65536 ≡ length result }
{
    [0; 65536]
}

// ---- standard error

// Prints on standard error. Where even that fails there is nothing to report it on.
pub fn say<D: Display + Drop>(rt: &impl Eprint, value: D) {
    let _ = rt.eprint(value);
}

// The system's text of an error, without its number, which `Display` writes behind it.
fn without_number(text: &str) -> &str {
    match text.rsplit_once(" (os error ") {
        Some((words, _)) => words,
        None => text,
    }
}

// Writes a line to standard error: what failed, a colon and the text of the error.
pub fn fail(rt: &impl Eprint, what: &str, error: &io::Error) {
    // an error's text has at most 256 bytes, and its number 22 more
    let mut cursor = Cursor::new([0u8; 320]);
    let _ = write!(cursor, "{error}");
    let end = cursor.position();
    let text = cursor.into_inner();
    if end <= 320 {
        let words = str::from_utf8(&text[..end as usize]).unwrap_or("");
        say(rt, format_args!("{what}: {}\n", without_number(words)));
    }
}

// ---- the words of the command

// Puts word `i` of the command at the start of the buffer, and returns its length: 0 if it is missing or doesn't fit.
pub fn word(rt: &impl Env, i: usize, buf: &mut [u8]) -> usize
    ensures { result ≤ length buf.new }
{
    rt.arg(i, buf).unwrap_or(0)
}

// Where a program's input comes from.
pub enum Source<'a> {
    StandardInput,
    File(&'a str),
    // a word that is no path, which was reported
    NoPath,
}

// The error of a word that is too long for a path, and of one that is not UTF-8: ENAMETOOLONG and EILSEQ.
const TOO_LONG: i32 = 36;

const NOT_TEXT: i32 = 84;

// Where the input comes from by word `i`: from the file that it names, or from standard input if it is missing. The buffer is for the word.
pub fn source_of<'a>(rt: &(impl Env + Eprint), i: usize, buf: &'a mut [u8]) -> Source<'a> {
    match rt.arg(i, buf) {
        Err(FillError::NotPresent) => Source::StandardInput,
        Err(FillError::TooLong) => {
            fail(rt, "path", &io::Error::from_raw_os_error(TOO_LONG));
            Source::NoPath
        }
        Ok(n) => match str::from_utf8(&buf[..n]) {
            Ok(path) => Source::File(path),
            Err(_) => {
                fail(rt, "path", &io::Error::from_raw_os_error(NOT_TEXT));
                Source::NoPath
            }
        },
    }
}

// ---- tests

#[test]
fn text_of_an_error_without_its_number(rt: HostRuntime) {
    assert!(rt; without_number("Is a directory (os error 21)") == "Is a directory");
    assert!(rt; without_number("failed to write whole buffer") == "failed to write whole buffer");
}
