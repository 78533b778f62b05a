// The start of a program.
use crate::command_line::Words;
use crate::running::{Program, run};
use crate::statuses::{NO_MEMORY, status_text};
use crate::stdio::{LoggingHost, StandardInput, StandardOutput};
use crate::threaded::serve_threaded;
use crate::words::{Asked, asked_by};
use analysis_host::Analysis;
use inline_host::InlineHost;
use log::Log;
use plain::{Items, Text};
use std::alloc::AllocError;
use std::env;
use std::io::{self, ErrorKind};
use std::process::ExitCode;
use std::rt::Env;
use std::sync::{Arc, Wait};
use std::thread::Threads;
use task_pool::StartsWorkers;

/// The words after the program's name.
fn read_words<R: Env + AllocGlobal>(rt: &R) -> Result<Words, AllocError> {
    let args = match env::args(rt) {
        Ok(args) => args,
        Err(e) if e.kind() == ErrorKind::InvalidData => return Ok(Words::NotText),
        Err(_) => return Err(AllocError),
    };
    let mut texts = Items::new(rt.alloc());
    for word in args.skip(1) {
        texts.push(Text::from_string(word))?;
    }
    Ok(Words::Texts(texts))
}

/// Runs a program on these words, over standard input and output, on a host with one thread, and answers the status.
fn run_on_one_thread<R: Input + Print + AllocGlobal + Log, A: Analysis>(
    rt: &R,
    program: &Program<'_>,
    words: &Words,
    analysis: &A,
) -> io::Result<u8> {
    let alloc = rt.alloc();
    let keeps = program.keeps_record && asked_by(words.texts()) == Asked::Session;
    let input = StandardInput::new(alloc, rt.reader())?;
    let mut host = LoggingHost::new(rt, InlineHost::new(alloc, input, analysis, keeps));
    let mut output = StandardOutput::new(io::writer(rt));
    let status = run(alloc, program, words, &mut host, &mut output, analysis);
    // Dropped by a call, a host is not spelled out here.
    drop(host);
    Ok(status)
}

/// Serves an editor over standard input and output, on a host with threads, and answers the status.
fn run_on_threads<R, A: StartsWorkers<R>>(rt: R, analysis: A) -> io::Result<u8>
where
    R: Input + Print + AllocGlobal + Log,
    R: Threads + Wait + Copy + Drop + 'static,
    R::Reader: Send + 'static,
{
    let alloc = rt.alloc();
    let input = StandardInput::new(alloc, rt.reader())?;
    let analysis = Arc::new(alloc, analysis)?;
    let mut output = StandardOutput::new(io::writer(&rt));
    let served = serve_threaded(rt, alloc, &rt, false, input, &mut output, &analysis)?;
    Ok(served.status)
}

/// Says on standard error why a program ends where not all is well, and answers its status.
fn end<R: Eprint>(rt: &R, status: u8) -> ExitCode {
    let text = status_text(status);
    if !text.is_empty() {
        // Where standard error is closed, nobody is left to tell.
        let _ = eprintln!(rt; "{text}");
    }
    ExitCode::from(status)
}

/// The whole of a `main`: runs a program on the words, the input and the output that the system hands in, says on
/// standard error why it ends where not all is well, and answers the status. An editor, by `lsp`, is served on a host
/// with threads; all else is done on one thread.
pub fn start<R, A: StartsWorkers<R>>(rt: R, program: &Program<'_>, analysis: A) -> ExitCode
where
    R: Env + Input + Print + Eprint + AllocGlobal + Log,
    R: Threads + Wait + Copy + Drop + 'static,
    R::Reader: Send + 'static,
{
    let status = match read_words(&rt) {
        Ok(words) if asked_by(words.texts()) == Asked::Lsp => {
            run_on_threads(rt, analysis).unwrap_or(NO_MEMORY)
        }
        Ok(words) => run_on_one_thread(&rt, program, &words, &analysis).unwrap_or(NO_MEMORY),
        Err(_) => NO_MEMORY,
    };
    end(&rt, status)
}

/// The same, without threads: an editor, too, is served on one thread, each job between two messages.
pub fn start_on_one_thread<R: Env + Input + Print + Eprint + AllocGlobal + Log, A: Analysis>(
    rt: &R,
    program: &Program<'_>,
    analysis: &A,
) -> ExitCode {
    let status = match read_words(rt) {
        Ok(words) => run_on_one_thread(rt, program, &words, analysis).unwrap_or(NO_MEMORY),
        Err(_) => NO_MEMORY,
    };
    end(rt, status)
}
