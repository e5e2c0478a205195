//! The program `orc`: the real files and streams around the library orc_run.
#![tactic(auto)]

use orc_rules::limits::LONGEST_JOURNAL;
use orc_run::{Failure, Files, ReadFault, STANDARD_INPUT, Unread, command};
use std::alloc::{AllocError, Global};
use std::io::{ErrorKind, IsTerminal, Read, Stdin};
use std::process::ExitCode;
use std::{env, fs, io, rt};

/// How many bytes of a file are read at most: one more than the longest text that any command takes, which shows that a file is too long.
const MOST: u64 = LONGEST_JOURNAL as u64 + 1;

/// The environment variable for explanations: `1` turns them on, anything else turns them off.
const EXPLAIN: &str = "ORC_EXPLAIN";

/// The option that asks for explanations.
const OPTION: &str = "--explain";

/// The commands that take the option `--explain`.
const EXPLAINING: [&str; 6] = ["run", "outcomes", "check", "draw", "print", "test"];

/// The command that explains on standard output, too.
const TESTING: &str = "test";

/// A file of the system, or standard input. `F` is the type of the system's open files.
#[derive(Drop)]
enum Input<F> {
    File(F),
    Standard(Stdin),
}

impl<F: Read> Read for Input<F> {
    // Reads bytes into the front of `room`, and gives how many; 0 at the end of the file or of standard input.
    fn read(&mut self, room: &mut [u8]) -> io::Result<usize> {
        match self {
            Input::File(file) => file.read(room),
            Input::Standard(stdin) => stdin.read(room),
        }
    }
}

/// The files of the system, and standard input or why it can't be read.
#[derive(Drop)]
struct SystemFiles<'a, R> {
    /// The runtime, which opens files and gives memory.
    rt: &'a R,
    stdin: Result<Stdin, ReadFault>,
}

// Why a file can't be read. A folder can be opened too, and only its read tells what it is.
fn fault_of(error: io::Error) -> ReadFault {
    match error.kind() {
        ErrorKind::OutOfMemory => ReadFault::Memory,
        ErrorKind::NotFound | ErrorKind::NotADirectory | ErrorKind::InvalidFilename => {
            ReadFault::Failed(Unread::Missing)
        }
        ErrorKind::IsADirectory => ReadFault::Failed(Unread::Folder),
        ErrorKind::PermissionDenied => ReadFault::Failed(Unread::Forbidden),
        // Anything else, such as a device that fails.
        _ => ReadFault::Failed(Unread::Other),
    }
}

// Standard input, if it can be read, which an empty read shows; that takes no byte of it. If it is closed, the system gives its file descriptor to
// the next file that is opened, which would then be read in its place. So this is called before any file is opened.
fn standard_input(mut stdin: Stdin) -> Result<Stdin, ReadFault> {
    match stdin.read(&mut []) {
        Ok(_) => Ok(stdin),
        Err(error) => Err(fault_of(error)),
    }
}

impl<R: rt::Files + AllocGlobal> SystemFiles<'_, R> {
    // The file of a path, or standard input for `-`. The error is why it can't be opened; of a folder only its read tells that.
    fn open_input(&self, path: &str) -> Result<Input<R::File>, ReadFault> {
        if path == STANDARD_INPUT {
            return match self.stdin {
                Ok(stdin) => Ok(Input::Standard(stdin)),
                Err(fault) => Err(fault),
            };
        }
        match fs::open(self.rt, path) {
            Ok(file) => Ok(Input::File(file)),
            Err(error) => Err(fault_of(error)),
        }
    }
}

impl<R: rt::Files + AllocGlobal> Files for SystemFiles<'_, R> {
    // What `open` gives: an open file or standard input.
    type Reader = Input<R::File>;

    // The first bytes of the file of a path, or of standard input for `-`, `MOST` at most: a device may have no end. A text of `MOST` bytes is over
    // each command's limit, and the command reports that. The error is why the file can't be opened or read.
    fn read(&mut self, path: &str) -> Result<Vec<u8>, ReadFault> {
        let mut bytes = Vec::new(self.rt.alloc());
        let mut front = self.open_input(path)?.take(MOST);
        match front.read_to_end(&mut bytes) {
            Ok(_) => Ok(bytes),
            Err(error) => Err(fault_of(error)),
        }
    }

    // The file of a path, or standard input for `-`, which the caller then reads. The error is why it can't be opened.
    fn open(&mut self, path: &str) -> Result<Input<R::File>, ReadFault> {
        self.open_input(path)
    }
}

// Writes a line on standard error, and gives the exit with this status. If the line can't be written, nobody can be told.
fn failed(rt: &impl Eprint, line: &str, status: u8) -> ExitCode {
    let _ = eprintln!(rt; "{line}");
    ExitCode::from(status)
}

// Writes that memory was refused, and gives the exit for that, before any command has begun. The line and the status are those that a command would
// give. That line names no file, so the empty name isn't seen.
fn refused(rt: &impl Eprint) -> ExitCode {
    let failure = Failure::Unread("", ReadFault::Memory);
    let _ = eprintln!(rt; "{failure}");
    ExitCode::from(failure.status())
}

// Whether the command is `test`, the one that explains on standard output, too. `words` is the command line, which begins with the program's name, so
// the command is word 1.
fn is_test(words: &[String]) -> bool {
    match words.get(1) {
        Some(word) => word.as_str() == TESTING,
        // There is no command.
        None => false,
    }
}

// Whether mistakes are explained though the command line has no `--explain`: as the environment variable says, or, if it isn't set, if standard error
// is a terminal. For `orc test` standard output has to be one too, so that a table that goes to a file doesn't depend on where standard error goes.
fn explains(rt: &HostRuntime, words: &[String]) -> bool {
    match env::var(rt, EXPLAIN) {
        // The variable is set.
        Ok(word) => word.as_str() == "1",
        Err(_) => rt.stderr().is_terminal() && (!is_test(words) || rt.stdout().is_terminal()),
    }
}

// Puts the option `--explain` behind the command, if the command takes that option and it isn't among the words of the command line yet. The error is
// refused memory.
fn ask_for_explanations(alloc: Global, words: &mut Vec<String>) -> Result<(), AllocError> {
    let takes_it = match words.get(1) {
        Some(word) => EXPLAINING.iter().any(|command| word.as_str() == *command),
        // There is no command.
        None => false,
    };
    if takes_it && !words.iter().any(|word| word.as_str() == OPTION) {
        // The words begin with the program's name and the command.
        words.insert(2, String::from_str(alloc, OPTION)?)?;
    }
    Ok(())
}

// Has the library `orc_run` do the command line, and ends with its status. Whatever goes wrong before that is refused memory or an argument that
// isn't UTF-8.
fn main(rt: HostRuntime) -> ExitCode {
    let alloc = rt.alloc();
    let args = match env::args(&rt) {
        Ok(args) => args,
        Err(error) if error.kind() == ErrorKind::OutOfMemory => return refused(&rt),
        // Any other error is an argument that isn't text: a mistake in the command line (status 2).
        Err(_) => return failed(&rt, "error: an argument is not UTF-8", 2),
    };
    // The words of the command line, the program's name first. The only error is refused memory.
    let Ok(mut words) = args.collect::<Vec<String>>(alloc) else {
        return refused(&rt);
    };
    // Puts `--explain` among the words where mistakes are to be explained without it.
    if explains(&rt, words.as_slice()) && ask_for_explanations(alloc, &mut words).is_err() {
        return refused(&rt);
    }
    // Standard input is looked at here, before any file is opened: `standard_input` asks for that.
    let mut files = SystemFiles {
        rt: &rt,
        stdin: standard_input(rt.stdin()),
    };
    let mut out = rt.stdout();
    let mut err = rt.stderr();
    // `command` gives the exit status.
    ExitCode::from(command(&rt, alloc, words.as_slice(), &mut files, &mut out, &mut err))
}
