use crate::case::Case;
use crate::case_file::CaseFile;
use crate::case_link::CaseLink;
use crate::ending::Ending;
use crate::failing::{Failing, failing_call};
use crate::read_fault::ReadFault;
use crate::sent::Sent;
use game_io::FailingCall;
use std::alloc::Global;

/// Reads the cases of a file one by one. Each is a line `case NAME`, and then lines
///
/// - `word WORD`, an argument;
/// - `file LENGTH NAME` and so many bytes, a file that is there before;
/// - `written LENGTH NAME` and so many bytes, a file that must be there after;
/// - `gone NAME`, a file that must not be there after;
/// - `link LENGTH` and so many bytes, what the next link gives;
/// - `console LENGTH` and so many bytes, what the console gives;
/// - `fails PART CALL REMAINS`, a call that is to fail, by its number from 0 among those of
///   `files`, `output`, `net`, `console`, or of the last link the `takes` or the `puts`; REMAINS,
///   `old`, `nothing` or a number of bytes, says what remains of what it was to write;
/// - `status N`, with which a way begins in which the case may end;
/// - `text LENGTH` and so many bytes, what must then be printed;
/// - `sent LENGTH` and so many bytes, what must then have been written to the next link;
/// - `columns LENGTH` and so many bytes, the same of a server, one column after another;
/// - `beside-reports LENGTH` and so many bytes, the same of a player, without its reports;
/// - `world LENGTH` and so many bytes, the world that the server of a drill must be left in.
///
/// A line feed ends each line and follows all bytes.
#[derive(Drop)]
pub struct CaseReader<'a> {
    rest: &'a [u8],
}

impl<'a> CaseReader<'a> {
    /// A reader of all cases in these bytes.
    pub fn new(bytes: &'a [u8]) -> Self {
        CaseReader { rest: bytes }
    }

    /// Whether no case is left.
    pub fn is_done(&self) -> bool {
        self.rest.is_empty()
    }

    /// The next case.
    pub fn next_case(&mut self, alloc: Global) -> Result<Case<'a>, ReadFault> {
        let Some(("case", name)) = self.field() else {
            return Err(ReadFault::NoCase);
        };
        let mut words = Vec::new(alloc);
        words.push(String::from_str(alloc, "lockstep")?)?;
        let mut case = Case {
            name,
            words,
            files: Vec::new(alloc),
            written: Vec::new(alloc),
            gone: Vec::new(alloc),
            links: Vec::new(alloc),
            console: &[],
            failing: Failing::none(alloc),
            endings: Vec::new(alloc),
            world: None,
        };
        for _ in 0..self.rest.len() {
            if self.rest.is_empty() || self.rest.starts_with(b"case ") {
                break;
            }
            self.read_field(alloc, &mut case)?;
        }
        Ok(case)
    }

    /// Reads one field of a case.
    fn read_field(&mut self, alloc: Global, case: &mut Case<'a>) -> Result<(), ReadFault> {
        let Some((kind, of)) = self.field() else {
            return Err(ReadFault::NoCase);
        };
        match kind {
            "word" => case.words.push(String::from_str(alloc, of)?)?,
            "file" => case.files.push(self.file(of)?)?,
            "written" => case.written.push(self.file(of)?)?,
            "gone" => case.gone.push(of)?,
            "link" => case.links.push(first_link(alloc, self.bytes(of)?))?,
            "fails" => add_failing(case, of)?,
            "console" => case.console = self.bytes(of)?,
            "status" => case.endings.push(first_ending(alloc, of)?)?,
            "world" => case.world = Some(self.bytes(of)?),
            _ => {
                let bytes = self.bytes(of)?;
                add_to_ending(case, kind, bytes)?;
            }
        }
        Ok(())
    }

    /// The next line as its first word and the rest.
    fn field(&mut self) -> Option<(&'a str, &'a str)> {
        let end = self.rest.iter().position(|byte| *byte == b'\n')?;
        let (line, rest) = self.rest.split_at_checked(end)?;
        self.rest = rest.get(1..)?;
        let line = std::str::from_utf8(line).ok()?;
        line.split_once(' ')
    }

    /// The file with this length and name.
    fn file(&mut self, of: &'a str) -> Result<CaseFile<'a>, ReadFault> {
        let Some((length, name)) = of.split_once(' ') else {
            return Err(ReadFault::NoCase);
        };
        let bytes = self.bytes(length)?;
        Ok(CaseFile { name, bytes })
    }

    /// So many bytes, and the line feed after them.
    fn bytes(&mut self, length: &str) -> Result<&'a [u8], ReadFault> {
        let Ok(length) = length.parse::<usize>() else {
            return Err(ReadFault::NoCase);
        };
        match self.rest.split_at_checked(length) {
            Some((bytes, [b'\n', rest @ ..])) => {
                self.rest = rest;
                Ok(bytes)
            }
            _ => Err(ReadFault::NoCase),
        }
    }
}

/// A link that gives these bytes, of which no call is to fail.
fn first_link<'a>(alloc: Global, bytes: &'a [u8]) -> CaseLink<'a> {
    CaseLink {
        bytes,
        takes: Vec::new(alloc),
        puts: Vec::new(alloc),
    }
}

/// Adds a call that is to fail to those of a case.
fn add_failing<'a>(case: &mut Case<'a>, of: &str) -> Result<(), ReadFault> {
    let Some((part, text)) = of.split_once(' ') else {
        return Err(ReadFault::NoCase);
    };
    let Some(call) = failing_call(text) else {
        return Err(ReadFault::NoCase);
    };
    match part {
        "files" => case.failing.files.push(call)?,
        "output" => case.failing.output.push(call)?,
        "net" => case.failing.net.push(call)?,
        "console" => case.failing.console.push(call)?,
        _ => add_to_link(case, part, call)?,
    }
    Ok(())
}

/// Adds a call that is to fail to those of the last link of a case.
fn add_to_link<'a>(case: &mut Case<'a>, part: &str, call: FailingCall) -> Result<(), ReadFault> {
    let Some(link) = case.links.last_mut() else {
        return Err(ReadFault::NoCase);
    };
    match part {
        "takes" => link.takes.push(call)?,
        "puts" => link.puts.push(call)?,
        _ => return Err(ReadFault::NoCase),
    }
    Ok(())
}

/// An ending with this status, in which nothing is printed or sent.
fn first_ending<'a>(alloc: Global, number: &str) -> Result<Ending<'a>, ReadFault> {
    match number.parse::<u8>() {
        Ok(status) => Ok(Ending {
            status,
            text: &[],
            sent: Vec::new(alloc),
        }),
        Err(_) => Err(ReadFault::NoCase),
    }
}

/// Adds a field of this kind to the last ending of a case.
fn add_to_ending<'a>(case: &mut Case<'a>, kind: &str, bytes: &'a [u8]) -> Result<(), ReadFault> {
    let Some(ending) = case.endings.last_mut() else {
        return Err(ReadFault::NoCase);
    };
    match kind {
        "text" => ending.text = bytes,
        "sent" => ending.sent.push(Sent::Whole(bytes))?,
        "columns" => ending.sent.push(Sent::ByColumns(bytes))?,
        "beside-reports" => ending.sent.push(Sent::BesideReports(bytes))?,
        _ => return Err(ReadFault::NoCase),
    }
    Ok(())
}
