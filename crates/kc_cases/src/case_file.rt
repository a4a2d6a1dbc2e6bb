// Files of cases.
use crate::memory::space_of;
use crate::names::{spelled, value_of};
use anyhow::{Context, Result};
use kc_found::ListSpace;
use std::alloc::{AllocError, Global};

/// A file of cases. What stands before its first section says what it has. A section begins with a line `== NAME`. The last
/// one is `== cases`, where each line is a case: what is given, ` : ` and what is wanted; empty lines and lines that begin
/// with `#` are the reader's. Or it is `== paragraphs`, where each paragraph is a case of several lines.
#[derive(Drop)]
pub struct CaseFile {
    text: String,
}

impl CaseFile {
    /// The file of a text.
    pub fn new(text: String) -> CaseFile {
        CaseFile { text }
    }

    /// The text of a section.
    ///
    /// # Errors
    ///
    /// The file has no section of this name.
    pub fn section(&self, name: &str) -> Result<&str> {
        self.find(name).context("a section isn't there")
    }

    fn find(&self, name: &str) -> Option<&str> {
        for part in self.text.split("\n== ") {
            if let Some((head, text)) = part.split_once('\n')
                && head == name
            {
                return Some(text);
            }
        }
        None
    }

    /// The cases: lines, or paragraphs.
    ///
    /// # Errors
    ///
    /// The file has no section of cases; out of memory.
    pub fn cases(&self, alloc: Global) -> Result<Vec<&str>> {
        match self.find("paragraphs") {
            Some(text) => Ok(paragraphs(alloc, text)?),
            None => Ok(lines(alloc, self.section("cases")?)?),
        }
    }

    /// What follows a name on its line of a section.
    ///
    /// # Errors
    ///
    /// The section isn't there, or has no such line.
    pub fn line(&self, section: &str, name: &str) -> Result<&str> {
        for line in self.section(section)?.lines() {
            if let Some((known, rest)) = line.split_once(' ')
                && known == name
            {
                return Ok(rest);
            }
        }
        None.context("a line isn't there")
    }

    // The names of addresses, if the file has any.
    fn names(&self) -> &str {
        self.find("names").unwrap_or("")
    }

    /// The number that a word is, as the file's section `names` has it.
    ///
    /// # Errors
    ///
    /// It is neither a number nor a name.
    pub fn number(&self, word: &str) -> Result<u64> {
        value_of(self.names(), word).context("a word without a number")
    }

    /// The memory of the words of these texts, of which the first with an address counts.
    ///
    /// # Errors
    ///
    /// A word has an address or a value that is neither a number nor a name; out of memory.
    pub fn memory(&self, alloc: Global, changed: &str, words: &str) -> Result<ListSpace> {
        Ok(space_of(alloc, self.names(), changed, words)?)
    }

    /// A wanted answer: where the file has names, each of these as its address in hex, and each number in hex.
    pub fn wanted(&self, alloc: Global, text: &str) -> Result<String, AllocError> {
        match self.find("names") {
            Some(names) => spelled(alloc, names, text),
            None => String::from_str(alloc, text),
        }
    }
}

// The paragraphs of a text.
fn paragraphs(alloc: Global, text: &str) -> Result<Vec<&str>, AllocError> {
    let mut cases = Vec::new(alloc);
    for paragraph in text.split("\n\n") {
        cases.push(paragraph.trim())?;
    }
    Ok(cases)
}

// The lines of a text that aren't the reader's.
fn lines(alloc: Global, text: &str) -> Result<Vec<&str>, AllocError> {
    let mut cases = Vec::new(alloc);
    for line in text.lines() {
        if !line.is_empty() && !line.starts_with('#') {
            cases.push(line)?;
        }
    }
    Ok(cases)
}
