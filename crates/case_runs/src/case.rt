ghost use Rattle.std.specs.Prelude.{◌≡◌, IfOk, []};

use crate::case_file::CaseFile;
use crate::case_link::CaseLink;
use crate::ending::Ending;
use crate::failing::Failing;
use base::NoMemory;
use game_io::{MemDisk, MemNet, MemSink, MemSource};
use std::alloc::Global;

/// A recorded command line over some files and links, and what it must answer.
#[derive(Drop)]
pub struct Case<'a> {
    /// What the case is called.
    pub name: &'a str,
    /// The words of the command line; the first is the program's name.
    pub words: Vec<String>,
    /// The files that are there before.
    pub files: Vec<CaseFile<'a>>,
    /// The files that must have been written. All others stay as they are.
    pub written: Vec<CaseFile<'a>>,
    /// The names of files that must not be there after the run.
    pub gone: Vec<&'a str>,
    /// The links, in the order in which the net gives them.
    pub links: Vec<CaseLink<'a>>,
    /// The bytes that the console gives.
    pub console: &'a [u8],
    /// The calls that are to fail.
    pub failing: Failing,
    /// The ways in which it may end.
    pub endings: Vec<Ending<'a>>,
    /// The world that the server of a drill must be left in, field by field, if the case has it.
    pub world: Option<&'a [u8]>,
}

impl Case<'_> {
    /// A disk in memory with the files that are there before.
    pub fn disk(&self, alloc: Global) -> Result<MemDisk, NoMemory> {
        let failing = Vec::from_slice(alloc, self.failing.files.as_slice())?;
        let mut disk = MemDisk::new(alloc, failing);
        for file in &self.files {
            disk.add(alloc, file.name, file.bytes)?;
        }
        Ok(disk)
    }

    /// A net in memory with the links, of which it has given none.
    pub fn net(&self, alloc: Global) -> Result<MemNet, NoMemory>
        ensures { IfOk result (λ net. net.given ≡ []) }
    {
        let failing = Vec::from_slice(alloc, self.failing.net.as_slice())?;
        let mut net = MemNet::new(alloc, failing);
        for link in &self.links {
            add_link(alloc, &mut net, link)?;
        }
        Ok(net)
    }

    /// A console in memory.
    pub fn console(&self, alloc: Global) -> Result<MemSource, NoMemory> {
        let bytes = Vec::from_slice(alloc, self.console)?;
        let failing = Vec::from_slice(alloc, self.failing.console.as_slice())?;
        Ok(MemSource::new(bytes, failing))
    }

    /// An output in memory.
    pub fn output(&self, alloc: Global) -> Result<MemSink, NoMemory> {
        let failing = Vec::from_slice(alloc, self.failing.output.as_slice())?;
        Ok(MemSink::new(alloc, failing))
    }
}

/// Adds a link to those that are to come.
fn add_link(alloc: Global, net: &mut MemNet, link: &CaseLink<'_>) -> Result<(), NoMemory>
    ensures { net.new.given ≡ net.old.given }
{
    let bytes = Vec::from_slice(alloc, link.bytes)?;
    let takes = Vec::from_slice(alloc, link.takes.as_slice())?;
    let puts = Vec::from_slice(alloc, link.puts.as_slice())?;
    net.add(bytes, takes, puts)
}
