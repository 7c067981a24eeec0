//! Many packets, one after another, through one program.
ghost use Rattle.p4_run.specs.Frames.{Fits};
ghost use Rattle.p4_run.specs.Running.{program_in};

use crate::printed::program;
use crate::visits::{load, put_next};
use case_files::{Printer, number};
use p4_run::{Frame, Loaded, Next};

/// The bytes of the next packet, and a number that all results so far have made.
#[derive(Clone, Copy, Drop)]
struct Course {
    bytes: u64,
    digest: u64,
}

impl Course {
    /// The bytes of the next packet are those of a linear congruence.
    fn go_on(&mut self) {
        self.bytes = self
            .bytes
            .wrapping_mul(6364136223846793005)
            .wrapping_add(1442695040888963407);
    }

    fn add(&mut self, number: u64) {
        self.digest = self.digest.wrapping_mul(31).wrapping_add(number);
    }

    fn add_result(&mut self, next: Next, headers: &[u8]) {
        match next {
            Next::Drop => self.add(65536),
            Next::Port(port) => {
                self.add(u64::from(port));
                for byte in headers {
                    self.add(u64::from(*byte));
                }
            }
            Next::Copies(group) => self.add(65537 + u64::from(group)),
        }
    }
}

/// Runs ingress for so many packets, and puts the number that their results make.
fn put_digest(loaded: &Loaded, frame: &mut Frame, count: u64, given: &mut Printer)
    requires { Fits (program_in loaded.now) frame.old }
{
    let mut course = Course {
        bytes: 1,
        digest: 0,
    };
    for _done in 0..count {
        course.go_on();
        let next = loaded.ingress(frame, 1, &course.bytes.to_be_bytes());
        course.add_result(next, frame.headers());
    }
    given.put_number(course.digest);
    given.put("\n");
}

/// Runs ingress for so many packets, and puts each result in a line.
fn put_each(loaded: &Loaded, frame: &mut Frame, count: u64, given: &mut Printer)
    requires { Fits (program_in loaded.now) frame.old }
{
    let mut course = Course {
        bytes: 1,
        digest: 0,
    };
    for _done in 0..count {
        course.go_on();
        let next = loaded.ingress(frame, 1, &course.bytes.to_be_bytes());
        put_next(loaded, next, frame.headers(), given);
        given.put("\n");
    }
}

/// Runs as many packets as the first line says, through the program of the second with the rows of the third. Puts each
/// result, or a number that all make.
pub fn put_many(rt: &HostRuntime, input: &str, each: bool, given: &mut Printer) {
    let (count, rest) = input.split_once('\n').unwrap_or_default();
    let (words, rows) = rest.split_once('\n').unwrap_or_default();
    let Some(loaded) = load(rt, program(rt, "", words), rows, given) else {
        return;
    };
    match (Frame::new(rt.alloc(), &loaded), number(count)) {
        (Ok(mut frame), Some(count)) if each => put_each(&loaded, &mut frame, count, given),
        (Ok(mut frame), Some(count)) => put_digest(&loaded, &mut frame, count, given),
        _ => given.lose(),
    }
}
