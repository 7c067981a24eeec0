//! Files of data, words and input, as the machine gives them.
use crate::Printer;
use std::io::Read;
use std::process::ExitCode;
use std::rt::{Env, Files};
use std::{env, fs};

/// The bytes of a file. There are none where it is not there or cannot be read.
pub fn file<R: Files + AllocGlobal>(rt: &R, name: &str) -> Option<Vec<u8>> {
    match fs::read(rt, name) {
        Ok(bytes) => Some(bytes),
        Err(_) => None,
    }
}

/// The standard input.
pub fn input<R: Input + AllocGlobal>(rt: &R) -> Option<Vec<u8>> {
    let mut bytes = Vec::new(rt.alloc());
    match rt.reader().read_to_end(&mut bytes) {
        Ok(_) => Some(bytes),
        Err(_) => None,
    }
}

/// The one word behind the program's name, where there is no other.
pub fn sole_word<R: Env + AllocGlobal>(rt: &R) -> Option<String> {
    let mut words = env::args(rt).ok()?;
    words.next();
    let word = words.next()?;
    match words.next() {
        Some(_) => None,
        None => Some(word),
    }
}

/// Prints what this puts of the standard input.
pub fn print_of_input<R: Input + Print + AllocGlobal, F: FnOnce(&[u8], &mut Printer)>(
    rt: &R,
    put: F,
) -> ExitCode
    requires { F.IsAlwaysCallable put }
{
    let mut answer = Printer::new(rt.alloc());
    let bytes = input(rt);
    if bytes.is_none() {
        answer.lose();
    }
    put(bytes.as_deref().unwrap_or_default(), &mut answer);
    print(rt, &answer, 0)
}

/// Prints a text. Answers how the process ends: with 2 where there was no memory for the text, or where it cannot be printed.
pub fn print<R: Print>(rt: &R, text: &Printer, status: u8) -> ExitCode {
    let whole = text.text();
    if text.is_whole() && print!(rt; "{whole}").is_ok() {
        ExitCode::from(status)
    } else {
        ExitCode::from(2)
    }
}
