// A case that is run, and what came of it.
use crate::case::{Ended, ProgramCase};
use crate::noting::{Noting, NotingSink};
use kc_app::kaudit;
use kc_files::kfiles;
use kc_match::kmatch;
use kc_outside::MemSink;
use kc_report::{read_report, text};
use kc_why::kwhy;
use kc_word::NoMemory;
use std::alloc::Global;

/// Which program a case runs.
#[derive(Clone, Copy, Debug, PartialEq, Eq)]
pub enum Program {
    Kaudit,
    Kmatch,
    Kwhy,
    Kfiles,
}

/// How a run ended, and the calls that it made.
#[derive(Drop)]
pub struct Ran {
    /// How it ended.
    pub ended: Ended,
    /// A line for each call of the store.
    pub calls: Vec<String>,
    /// A line for each call of standard output, and then of standard error.
    pub puts: Vec<String>,
}

/// What is changed of a case before it runs.
#[derive(Clone, Copy)]
pub struct RunLimits {
    /// The number of the call that fails, or 0.
    pub fails: u64,
    /// How many bytes standard output takes.
    pub out: usize,
}

impl ProgramCase {
    /// Its own limits.
    pub fn limits(&self) -> RunLimits {
        RunLimits {
            fails: self.fails,
            out: self.out_limit,
        }
    }

    /// Runs the case.
    ///
    /// # Errors
    ///
    /// No memory was left for its files, or for what came of it.
    pub fn run(&self, alloc: Global, program: Program, limits: RunLimits) -> Result<Ran, NoMemory> {
        let mut store = Noting::new(alloc, self.files.store(alloc, limits.fails)?);
        let mut out = NotingSink::new(alloc, "out", MemSink::new(alloc, limits.out)?);
        let mut err = NotingSink::new(alloc, "err", MemSink::new(alloc, self.err_limit)?);
        let status = match program {
            Program::Kaudit => {
                u8::from(kaudit(alloc, &self.words, &mut store, &mut out, &mut err))
            }
            Program::Kmatch => {
                u8::from(kmatch(alloc, &self.words, &mut store, &mut out, &mut err))
            }
            Program::Kwhy => { u8::from(kwhy(alloc, &self.words, &mut store, &mut out, &mut err)) }
            Program::Kfiles => {
                u8::from(kfiles(alloc, &self.words, &mut store, &mut out, &mut err))
            }
        };
        let (out, mut puts) = out.parts();
        let (err, lines) = err.parts();
        for line in lines {
            puts.push(line)?;
        }
        Ok(Ran {
            ended: Ended {
                status,
                out: out.bytes().to_vec(alloc)?,
                err: err.bytes().to_vec(alloc)?,
            },
            calls: store.lines,
            puts,
        })
    }

    /// Whether a run is as the case has it.
    pub fn is_met(&self, ran: &Ran) -> bool {
        let wanted = &self.wanted;
        ran.ended.status == wanted.status
            && &ran.ended.out[..] == front(&wanted.out, self.out_limit)
            && &ran.ended.err[..] == front(&wanted.err, self.err_limit)
            && (self.calls.is_empty() || are_equal(&self.calls, &ran.calls, &ran.puts))
    }
}

fn are_equal(wanted: &[String], calls: &[String], puts: &[String]) -> bool {
    wanted.len() == calls.len().saturating_add(puts.len())
        && wanted
            .iter()
            .zip(calls.iter().chain(puts))
            .all(|(one, other)| one.as_str() == other.as_str())
}

/// What a sink of this limit takes of a text.
pub fn front(text: &[u8], limit: usize) -> &[u8] {
    &text[..text.len().min(limit)]
}

/// Whether bytes are a report's text, which is that of the report that they are read as.
pub fn reads_back(alloc: Global, bytes: &[u8]) -> bool {
    match read_report(alloc, bytes) {
        Ok(report) => match text(alloc, &report) {
            Ok(again) => &again[..] == bytes,
            Err(NoMemory) => false,
        },
        Err(_) => false,
    }
}
