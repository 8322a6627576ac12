//! How a run of a program ends.
use std::alloc::{AllocError, Global};
use std::fmt::Display;
use std::io;
use std::process::ExitCode;

/// What a program writes, and its exit status.
#[derive(Debug, Drop)]
pub struct Ended {
    /// The bytes for the standard output.
    pub output: Vec<u8>,
    /// The text for the standard error, with its line feed; empty where there is nothing to say.
    pub message: String,
    /// 0 where all went well, 1 where the input or memory stood in the way, and 2 for a command
    /// line that the program does not know.
    pub status: u8,
}

impl Ended {
    /// All went well, with this output and nothing to say.
    pub fn well(heap: Global, output: Vec<u8>) -> Ended {
        Ended {
            output,
            message: String::new(heap),
            status: 0,
        }
    }

    /// No output, a sentence that says why, and status 1.
    pub fn failed(heap: Global, why: impl Display + Drop) -> Result<Ended, AllocError> {
        Ok(Ended {
            output: Vec::new(heap),
            message: format!(in heap; "{why}\n")?,
            status: 1,
        })
    }

    /// The answer to a command line that asks for the help or the version, or that has a mistake.
    pub fn by_clap(heap: Global, error: clap::Error) -> Result<Ended, AllocError> {
        let text = format!(in heap; "{error}")?;
        let nothing = String::new(heap);
        let status = error.exit_code() as u8;
        let (output, message) = if error.use_stderr() {
            (nothing, text)
        } else {
            (text, nothing)
        };
        Ok(Ended {
            output: output.into_bytes(),
            message,
            status,
        })
    }

    // Writes the output and then the message.
    fn write<R: Print + Eprint>(self, rt: &R) -> io::Result<ExitCode> {
        if let Err(e) = rt.write_all(self.output.as_slice()) {
            eprintln!(rt; "the output cannot be written: {e}")?;
            return Ok(ExitCode::FAILURE);
        }
        rt.eprint(self.message)?;
        Ok(ExitCode::from(self.status))
    }
}

/// Writes how a program ended, and answers its exit status. A message that cannot be written is
/// left out, and the status is then 1.
pub fn finish<R: Print + Eprint>(rt: &R, ended: io::Result<Ended>) -> ExitCode {
    let written = match ended {
        Ok(ended) => ended.write(rt),
        Err(e) => {
            let told = eprintln!(rt; "the program cannot run: {e}");
            told.map(|_| ExitCode::FAILURE)
        }
    };
    written.unwrap_or(ExitCode::FAILURE)
}
