// The program read: reads declarations of up to 65,536 bytes from the file that its argument names and a formula's text of up to 1,048,576 bytes on standard
// input, and writes the job to standard output. What is refused gets lines on standard error that say why and where, and nothing on standard output.
#![tactic(auto)]

use bundle::Bundle;
use std::env::FillError;
use std::fmt::InlineText;
use std::fs::File;
use std::io::Error;
use std::os::fd::AsRawFd;
use std::rt::{Env, Files};

// The longest text; an area of one byte more shows whether a text is longer.
const LONGEST: usize = 1048576;

fn read_text(declarations: &[u8], text: &[u8]) {
    let mut out = [0u8; Bundle::BYTES];
    let mut words = [0u32; Bundle::WORDS];
    let mut sets = [0u64; Bundle::SET_WORDS * Bundle::TERMS];
    match reader::read(declarations, text, &mut out, &mut words, &mut sets) {
        Ok(length) => text_refusals::write_start(1, &out, length),
        Err(failure) => text_refusals::refusal(declarations, text, failure),
    }
}

// An area for a text, and one byte more.
fn room() -> [u8; LONGEST + 1] {
    [0u8; LONGEST + 1]
}

fn read_input(declarations: &[u8]) {
    let mut text = room();
    let n = io::read_full(0, &mut text);
    if n > LONGEST {
        io::write_all(
            2,
            b"read: the text is longer than 1,048,576 bytes, which this program cannot read\n",
        );
        return;
    }
    read_text(declarations, &text[..n]);
}

// A line on standard error: what cannot be read, and why.
fn complain(what: &[u8], why: &str) {
    io::write_all(2, what);
    io::write_all(2, b": ");
    io::write_all(2, why.as_bytes());
    io::write_all(2, b"\n");
}

// The system's own words for an error, to which std adds its number.
fn complain_of(what: &[u8], error: Error) {
    let said = InlineText::<128>::of(error);
    let text = said.as_str();
    match text.split_once(" (os error ") {
        Some((words, _)) => complain(what, words),
        None => complain(what, text),
    }
}

// The file is closed before the text is read.
fn read_declarations(file: File) {
    let mut declarations = io::large_buffer();
    let n = io::read_full(file.as_raw_fd(), &mut declarations);
    drop(file);
    read_input(&declarations[..n]);
}

fn read_named(rt: &impl Files<File = File>, name: &[u8]) {
    let Ok(text) = str::from_utf8(name) else {
        complain(name, "the name is not UTF-8");
        return;
    };
    match File::open(rt, text) {
        Ok(file) => read_declarations(file),
        Err(error) => complain_of(name, error),
    }
}

// What is missing where there is no argument.
const NAME: &[u8] = b"read: the name of the file with the declarations";

fn main(rt: HostRuntime) {
    let mut name = io::buffer();
    match rt.arg(1, &mut name) {
        Ok(length) => read_named(&rt, &name[..length]),
        Err(FillError::NotPresent) => complain(NAME, "Invalid argument"),
        Err(FillError::TooLong) => complain(NAME, "File name too long"),
    }
}
