// Trials of the cases of files.
use crate::case_file::CaseFile;
use anyhow::Result;
use std::alloc::Global;
use std::fs;
use std::rt::Files;

/// What a case gives.
#[derive(Drop)]
pub struct Case<'c> {
    /// The file in which it stands.
    pub file: &'c CaseFile,
    /// Its text, of a line without what it wants.
    pub given: &'c str,
}

/// What the cases of a file are about.
pub trait Subject {
    /// What comes of what a case gives, as a text: of a line what it should want, of a paragraph the paragraph as it should be.
    ///
    /// # Errors
    ///
    /// The case doesn't make sense; out of memory.
    fn answer(&self, alloc: Global, case: &Case<'_>) -> Result<String>;
}

/// Tries the cases of the file `NAME.cases`, and prints its name and how many they are; before that each case that differs,
/// with its number, and what came in place of what it wants.
///
/// # Errors
///
/// The file can't be read or has no cases; a line can't be printed; out of memory.
pub fn try_file<S: Subject>(
    rt: &(impl Files + Print + AllocGlobal),
    name: &str,
    subject: &S,
) -> Result<()> {
    let alloc = rt.alloc();
    let path = format!(in alloc; "{name}.cases")?;
    let file = CaseFile::new(fs::read_to_string(rt, path.as_str())?);
    let mut count: usize = 0;
    for case in file.cases(alloc)? {
        count = count.saturating_add(1);
        if let Some(told) = difference(alloc, &file, subject, case)? {
            println!(rt; "{name}, case {count}: {case}\n  has: {told}")?;
        }
    }
    println!(rt; "{name} {count}")?;
    Ok(())
}

// What comes of a case, where it isn't what is wanted.
fn difference<S: Subject>(
    alloc: Global,
    file: &CaseFile,
    subject: &S,
    case: &str,
) -> Result<Option<String>> {
    let (given, wanted) = parts(case);
    let wanted = file.wanted(alloc, wanted)?;
    let told = match subject.answer(alloc, &Case { file, given }) {
        Ok(told) => told,
        Err(error) => format!(in alloc; "{error}")?,
    };
    if told.as_str() == wanted.as_str() {
        Ok(None)
    } else {
        Ok(Some(told))
    }
}

// What a case gives, and what it wants: the parts of a line; of a paragraph the whole, which has its answers in it.
fn parts(case: &str) -> (&str, &str) {
    if case.contains('\n') {
        (case, case)
    } else {
        case.rsplit_once(" : ").unwrap_or((case, ""))
    }
}
