//! The program: it makes the real files, line, clock and sink, and calls the server.
#![tactic(auto)]

ghost use Rattle.std.specs.Prelude.{◌<◌, ◌^◌};

use std::alloc::Global;
use std::env;
use std::io::ErrorKind;
use std::process::ExitCode;
use wd_http::{Clock, Files, Line, Sink, VirtualClock};
use wd_json::{Memory, WdText};
use webdriverd::{
    NoScripts, PipeLine, RuntimeFiles, SkipClock, StdFiles, StreamSink, TcpLine, milliseconds,
    webdriverd,
};

/// The words of the command line, without the program's name; none where one of them is no text.
fn words_of(rt: &HostRuntime) -> Result<Vec<WdText>, Memory> {
    let alloc = rt.alloc();
    let mut words = Vec::new(alloc);
    let args = match env::args(rt) {
        Ok(args) => args,
        Err(error) if error.kind() == ErrorKind::OutOfMemory => return Err(Memory),
        Err(_) => return Ok(words),
    };
    for word in args.skip(1) {
        words.push(WdText::of(alloc, word.as_str())?)?;
    }
    Ok(words)
}

/// Runs the server with these files, this line, this clock and this sink.
fn run<F: Files, L: Line, C: Clock, K: Sink>(
    alloc: Global,
    words: &[WdText],
    number: u64,
    files: &mut F,
    line: &mut L,
    clock: &mut C,
    out: &mut K,
) -> ExitCode
    requires { number < 2 ^ 48 }
{
    let ended = webdriverd(
        alloc,
        words,
        number,
        files,
        line,
        clock,
        &mut NoScripts,
        out,
    );
    ExitCode::from(ended.status)
}

/// Serves standard input and output.
fn serve_pipe(rt: &HostRuntime, words: &[WdText]) -> ExitCode {
    let system = RuntimeFiles::new(rt);
    run(
        rt.alloc(),
        words,
        1,
        &mut StdFiles::new(rt.alloc(), &system),
        &mut PipeLine::new(rt.stdin(), rt.stdout()),
        &mut VirtualClock::new(),
        &mut StreamSink::new(rt.stderr()),
    )
}

/// Serves a port, or says on standard output that the words aren't a stated form. The run is numbered by the machine's
/// time.
fn serve_port(rt: &HostRuntime, words: &[WdText]) -> ExitCode {
    let system = RuntimeFiles::new(rt);
    run(
        rt.alloc(),
        words,
        milliseconds(rt).unwrap_or(0) % (1 << 48),
        &mut StdFiles::new(rt.alloc(), &system),
        &mut TcpLine::new(rt),
        &mut SkipClock::new(rt),
        &mut StreamSink::new(rt.stdout()),
    )
}

fn main(rt: HostRuntime) -> ExitCode {
    let Ok(words) = words_of(&rt) else {
        return ExitCode::from(6);
    };
    match words.first() {
        Some(word) if word.as_str() == "pipe" => serve_pipe(&rt, &words),
        _ => serve_port(&rt, &words),
    }
}
