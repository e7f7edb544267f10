// What std's formats make of values, on standard output or standard error, with no heap.
#![tactic(auto)]

use std::fmt::{self, Display, Write};

// A file descriptor that formats write to. What cannot be written is passed over: a program has nowhere else to say so.
#[derive(Drop)]
struct Output {
    file: i32,
}

impl Write for Output {
    fn write_str(&mut self, text: &str) -> fmt::Result {
        io::write_all(self.file, text.as_bytes());
        Ok(())
    }
}

// As `print(1, format_args!("t{t}"))`. No contract can say what a file descriptor takes.
pub fn print<D: Display + Drop>(file: i32, text: D) {
    let _ = Output { file }.write(text);
}
