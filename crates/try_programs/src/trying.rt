// The cases of a file, one after another, and a case with each call failing and with each length of a sink.
use crate::case::ProgramCase;
use crate::running::{Program, Ran, RunLimits, front, reads_back};
use crate::texts::Texts;
use kc_word::NoMemory;
use std::alloc::AllocError;
use std::{fs, io, str};

fn read_cases(rt: &HostRuntime, name: &str) -> io::Result<String> {
    let file = format!(in rt.alloc(); "{name}.cases")?;
    fs::read_to_string(rt, file.as_str())
}

fn run(
    rt: &HostRuntime,
    case: &ProgramCase,
    program: Program,
    limits: RunLimits,
) -> io::Result<Ran> {
    match case.run(rt.alloc(), program, limits) {
        Ok(ran) => Ok(ran),
        Err(NoMemory) => Err(io::Error::from(AllocError)),
    }
}

// Prints a case that ended otherwise, with what came in its place.
fn print_other(
    rt: &HostRuntime,
    name: &str,
    number: usize,
    lines: &str,
    ran: &Ran,
) -> io::Result<()> {
    let out = str::from_utf8(&ran.ended.out).unwrap_or("not a text");
    let err = str::from_utf8(&ran.ended.err).unwrap_or("not a text");
    println!(rt;
        "{name}: case {number} ends with {}\n{out}{err}",
        ran.ended.status
    )?;
    for call in ran.calls.iter().chain(&ran.puts) {
        println!(rt; "call {}", call.as_str())?;
    }
    println!(rt; "and not as\n{lines}")
}

/// Tries each case of a file.
pub fn try_each(rt: &HostRuntime, texts: &Texts, name: &str, program: Program) -> io::Result<()> {
    let text = read_cases(rt, name)?;
    let mut count: usize = 0;
    for lines in text.as_str().split("\n\n") {
        if lines.starts_with('#') {
            continue;
        }
        count = count.saturating_add(1);
        let case = ProgramCase::read(rt.alloc(), lines, texts)?;
        let ran = run(rt, &case, program, case.limits())?;
        let report = lines.starts_with("words check") && ran.ended.status < 2;
        if !case.is_met(&ran) || report && !reads_back(rt.alloc(), &ran.ended.out) {
            print_other(rt, name, count, lines, &ran)?;
        }
    }
    println!(rt; "{name} {count}")
}

// Whether standard output has what it may have where a call failed: nothing, but of a search, which writes words as it finds them, a
// first part of its text.
fn is_early(case: &ProgramCase, part: &[u8], whole: &[u8]) -> bool {
    let searches = case.words.iter().any(|word| word.as_str() == "refs");
    part.is_empty() || searches && part == front(whole, part.len())
}

/// Tries a file's one case with each call of the store failing in turn: the program ends with that call.
pub fn try_calls(rt: &HostRuntime, texts: &Texts, name: &str, program: Program) -> io::Result<()> {
    let text = read_cases(rt, name)?;
    let case = ProgramCase::read(rt.alloc(), text.as_str(), texts)?;
    let whole = run(rt, &case, program, case.limits())?;
    for call in 1..=whole.calls.len() as u64 {
        let ran = run(
            rt,
            &case,
            program,
            RunLimits {
                fails: call,
                ..case.limits()
            },
        )?;
        let told = ran.ended.status == 3
            && is_early(&case, &ran.ended.out, &whole.ended.out)
            && &ran.ended.err[..] == b"store failed\n".as_slice();
        if !told || ran.calls.len() as u64 != call {
            print_other(rt, "each failing call", call as usize, text.as_str(), &ran)?;
        }
    }
    println!(rt; "each failing call of {name} {}", whole.calls.len())
}

/// Tries a file's one case with a standard output that takes each number of bytes below the text's length: it takes its front.
pub fn try_lengths(
    rt: &HostRuntime,
    texts: &Texts,
    name: &str,
    program: Program,
) -> io::Result<()> {
    let text = read_cases(rt, name)?;
    let case = ProgramCase::read(rt.alloc(), text.as_str(), texts)?;
    let whole = run(rt, &case, program, case.limits())?;
    for out in 0..whole.ended.out.len() {
        let ran = run(
            rt,
            &case,
            program,
            RunLimits {
                out,
                ..case.limits()
            },
        )?;
        let told = ran.ended.status == 4 && &ran.ended.err[..] == b"sink failed\n".as_slice();
        if !told || &ran.ended.out[..] != front(&whole.ended.out, out) {
            print_other(rt, "each length", out, text.as_str(), &ran)?;
        }
    }
    println!(rt;
        "each length of a sink for {name} {}",
        whole.ended.out.len()
    )
}
