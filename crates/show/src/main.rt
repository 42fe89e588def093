// show FILE [BODY SCHEME [CLOCK] [gaps]]: reads a product file and its unpacked symbology body, and prints what the sweep reading
// answers, the one with gaps where the word is given. With FILE alone it prints the head, which needs no scheme.
//
// An accepted sweep goes to standard output as text, a refusal as one line that begins `refused:`. What keeps the program from
// asking, as a wrong argument or a file that can't be read, goes to standard error. The exit status is 0 for a sweep or a head, 1 for
// a refusal, 2 for anything else.
#![tactic(auto)]

ghost use Rattle.std.specs.Prelude.{◌≡◌};
ghost use Rattle.show.specs.Endings.{status_of};

use scale::physical::Scheme;

mod answer;
mod dates;
mod files;
mod floats;
mod picture;
mod refusals;
mod rooms;
mod text;
mod words;

use answer::{Asked, Ending};
use refusals::Refusal;
use std::alloc::Global;
use std::fmt::Display;
use std::fs::Files;
use std::io;
use std::io::Write;
use std::process::ExitCode;
use std::rt::Clock;
use text::Text;
use words::NoClock;

const USAGE: &str = "usage: show FILE [BODY SCHEME [CLOCK] [gaps]]
  FILE    the product file; its first 4096 bytes are read
          without BODY and SCHEME its head alone is printed
  BODY    the unpacked symbology body, at most 1400000 bytes
  SCHEME  halfword, float, precipitation:FACTOR, legacy:POSTSCALE or class
          FACTOR and POSTSCALE are numbers such as 1, 25.4 or 0.01: at most
          7 digits beside leading zeros, at most 10 after the point
  CLOCK   the time now in seconds since 1970; without it the system's clock
  gaps    a radial whose data make no row is drawn as a gap, not refused
";

// What can't be written to standard error is lost.
fn warn<T: Display + Drop>(rt: &impl Eprint, what: T) {
    let _ = eprintln!(rt; "show: {what}");
}

fn print_usage(rt: &impl Eprint) {
    let _ = rt.eprint(USAGE);
}

// The file's first bytes, the body, and the answer.
fn run<R: Files + Eprint>(
    rt: &R,
    alloc: Global,
    out: &mut Text,
    file_name: &str,
    body_name: &str,
    asked: Asked,
) -> io::Result<Ending> {
    let Some(file) = files::load_front(rt, alloc, file_name, rooms::FILE) else {
        return Ok(Ending::Failed);
    };
    // One byte more shows that the body is longer.
    let Some(body) = files::load(rt, alloc, body_name, rooms::BODY + 1) else {
        return Ok(Ending::Failed);
    };
    if rooms::BODY < body.len() {
        let room = rooms::BODY;
        warn(
            rt,
            format_args!(
                "the body has more than {room} bytes, for which this program has no room; the library reads bodies of any length"
            ),
        );
        return Ok(Ending::Failed);
    }
    if words::starts_with(&body, b"BZh") {
        warn(
            rt,
            "BODY begins with BZh: it is still packed; unpack the bzip2 stream first, as bunzip2 -c BODY does",
        );
        return Ok(Ending::Failed);
    }
    answer::show(out, alloc, asked, &file, body)
}

// The file's first bytes, and its head by the system's clock; class has no scale fields, so that no scheme has a say.
fn run_head<R: Files + Clock + Eprint>(
    rt: &R,
    alloc: Global,
    out: &mut Text,
    file_name: &str,
) -> io::Result<Ending> {
    let Some(clock) = words::system_clock(rt) else {
        warn(rt, "the system has no time; give BODY, SCHEME and CLOCK");
        return Ok(Ending::Failed);
    };
    let Some(file) = files::load_front(rt, alloc, file_name, rooms::FILE) else {
        return Ok(Ending::Failed);
    };
    match sweep::plan::read_head(Scheme::Class, &file, clock) {
        Err(e) => {
            writeln!(out, "refused: {}", Refusal(e))?;
            Ok(Ending::Refused)
        }
        Ok(h) => {
            picture::print_head(out, h, &file)?;
            Ok(Ending::Shown)
        }
    }
}

// How the words SCHEME, CLOCK and gaps say that a body is to be read. Where they don't, standard error says why.
fn asked<R: Clock + Eprint>(
    rt: &R,
    scheme: &str,
    clock: Option<&str>,
    gaps: bool,
) -> Option<Asked> {
    let scheme = match words::scheme_argument(scheme) {
        Ok(scheme) => scheme,
        Err(e) => {
            warn(rt, e);
            print_usage(rt);
            return None;
        }
    };
    match words::clock_argument(rt, clock) {
        Ok(clock) => Some(Asked {
            scheme,
            clock,
            gaps,
        }),
        Err(e) => {
            warn(rt, e);
            if let NoClock::Bad = e {
                print_usage(rt);
            }
            None
        }
    }
}

// What the arguments ask for; the first is the program's name.
fn run_words<R: Files + Clock + Eprint>(
    rt: &R,
    alloc: Global,
    out: &mut Text,
    all: &[String],
) -> io::Result<Ending> {
    // The words without gaps; SCHEME is never taken for it.
    let (words, gaps) = match all {
        [words @ .., last] if 3 < words.len() && words::is_gaps(last.as_bytes()) => (words, true),
        _ => (all, false),
    };
    let (file, body, scheme, clock) = match words {
        [_, file] => return run_head(rt, alloc, out, file.as_str()),
        [_, file, body, scheme] => (file, body, scheme, None),
        [_, file, body, scheme, clock] => (file, body, scheme, Some(clock.as_str())),
        _ => {
            print_usage(rt);
            return Ok(Ending::Failed);
        }
    };
    match asked(rt, scheme.as_str(), clock, gaps) {
        Some(asked) => run(rt, alloc, out, file.as_str(), body.as_str(), asked),
        None => Ok(Ending::Failed),
    }
}

fn arguments(rt: &HostRuntime) -> io::Result<Vec<String>> {
    Ok(std::env::args(rt)?.collect(rt.alloc())?)
}

// The exit status.
fn status(ending: Ending) -> u8
    ensures { result ≡ status_of ending }
{
    match ending {
        Ending::Shown => 0,
        Ending::Refused => 1,
        Ending::Failed => 2,
    }
}

// The answer is written at the end, all at once.
fn answer_words(rt: &HostRuntime, words: &[String]) -> io::Result<Ending> {
    let mut out = Text::new(rt.alloc());
    let ending = run_words(rt, rt.alloc(), &mut out, words)?;
    out.write(rt)?;
    Ok(ending)
}

fn fail(rt: &HostRuntime, what: &str, error: io::Error) -> ExitCode {
    warn(rt, format_args!("{what}: {error}"));
    ExitCode::from(status(Ending::Failed))
}

fn main(rt: HostRuntime) -> ExitCode {
    let words = match arguments(&rt) {
        Ok(words) => words,
        Err(e) => return fail(&rt, "the arguments", e),
    };
    match answer_words(&rt, &words) {
        Ok(ending) => ExitCode::from(status(ending)),
        Err(e) => fail(&rt, "the output could not be written", e),
    }
}
