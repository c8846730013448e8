ghost use Rattle.store_io.specs.Real.{read_count, write_count};
ghost use Rattle.std.specs.Prelude.{◌≡◌, None, ◌≤◌, IfOk, length};

use crate::store::{Failed, Store};
use std::alloc::Global;
use std::fs::OpenOptions;
use std::io::{Read, Seek, SeekFrom, Write};
use std::rt::Files;
use std::{fs, io};

/// A file that is read: the next byte is the one at that place.
#[derive(Drop)]
struct Reading<F: Drop> {
    name: String,
    file: F,
    at: u64,
}

/// A file that is written at its end.
#[derive(Drop)]
struct Writing<F: Drop> {
    name: String,
    file: F,
}

/// The files of the system. It tells nothing, and counts its faults.
///
/// The file that was loaded last stays open, and so does the one that was written last: a load at the place that was
/// reached reads on in that file, and what is appended goes to the file that was created, whatever became of their
/// names.
#[derive(Drop)]
pub struct RealStore<R: Files + Drop> {
    rt: R,
    alloc: Global,
    reading: Option<Reading<R::File>>,
    writing: Option<Writing<R::File>>,
    read_faults: u64,
    write_faults: u64,
}

impl<R: Files + Drop> RealStore<R> {
    /// A store over the runtime's files, without a counted fault. The memory is for the names of the open files.
    pub fn new(alloc: Global, rt: R) -> RealStore<R>
        ensures reads { read_count result ≡ 0 }
        ensures writes { write_count result ≡ 0 }
    {
        RealStore {
            rt,
            alloc,
            reading: None,
            writing: None,
            read_faults: 0,
            write_faults: 0,
        }
    }
}

/// Opens a file to read it from that place on. Place 0 is where it opens, so that a pipe is read too.
fn open_at<R: Files>(alloc: Global, rt: &R, name: &str, at: u64) -> io::Result<Reading<R::File>> {
    let kept = String::from_str(alloc, name)?;
    let mut file = fs::open(rt, name)?;
    if at > 0 {
        file.seek(SeekFrom::Start(at))?;
    }
    Ok(Reading {
        name: kept,
        file,
        at,
    })
}

/// Makes a file, empty, to write it.
fn make_empty<R: Files>(alloc: Global, rt: &R, name: &str) -> io::Result<Writing<R::File>> {
    let kept = String::from_str(alloc, name)?;
    let file = fs::create(rt, name)?;
    Ok(Writing { name: kept, file })
}

/// Opens a file to write at its end.
fn open_end<R: Files>(alloc: Global, rt: &R, name: &str) -> io::Result<Writing<R::File>> {
    let kept = String::from_str(alloc, name)?;
    let mut options = OpenOptions::new();
    options.append(true);
    options.create(true);
    let file = options.open(rt, name)?;
    Ok(Writing { name: kept, file })
}

/// Reads on from the open file, or opens the file that is asked for. After an error no file is open.
fn read_on<R: Files>(
    alloc: Global,
    rt: &R,
    reading: &mut Option<Reading<R::File>>,
    name: &str,
    at: u64,
    piece: &mut [u8],
) -> io::Result<usize>
    ensures { IfOk result (λ n. n ≤ length piece.new) }
{
    let mut open = match reading.take() {
        Some(open) if open.name.as_str() == name && open.at == at => open,
        _ => open_at(alloc, rt, name, at)?,
    };
    let count = open.file.read(piece)?;
    open.at = open.at.saturating_add(count as u64);
    *reading = Some(open);
    Ok(count)
}

/// Writes to the open file, or opens the file that is asked for. After an error no file is open.
fn write_on<R: Files>(
    alloc: Global,
    rt: &R,
    writing: &mut Option<Writing<R::File>>,
    name: &str,
    piece: &[u8],
) -> io::Result<usize>
    ensures { IfOk result (λ n. n ≤ length piece.now) }
{
    let mut open = match writing.take() {
        Some(open) if open.name.as_str() == name => open,
        _ => open_end(alloc, rt, name)?,
    };
    let count = open.file.write(piece)?;
    *writing = Some(open);
    Ok(count)
}

impl<R: Files + Drop> Store for RealStore<R> {
    ghost told = { λ s.
        record { files = None; rooms = None; read_faults = s.read_faults; write_faults = s.write_faults } };

    ghost rooms_with_files = { λ s told. told };

    fn load(&mut self, name: &str, at: u64, piece: &mut [u8]) -> Result<usize, Failed> {
        match read_on(self.alloc, &self.rt, &mut self.reading, name, at, piece) {
            Ok(count) => Ok(count),
            Err(_) => {
                self.read_faults = self.read_faults.saturating_add(1);
                Err(Failed)
            }
        }
    }

    fn create(&mut self, name: &str) -> Result<(), Failed> {
        match make_empty(self.alloc, &self.rt, name) {
            Ok(open) => {
                self.writing = Some(open);
                Ok(())
            }
            Err(_) => {
                self.writing = None;
                self.write_faults = self.write_faults.saturating_add(1);
                Err(Failed)
            }
        }
    }

    fn append(&mut self, name: &str, piece: &[u8]) -> Result<usize, Failed> {
        match write_on(self.alloc, &self.rt, &mut self.writing, name, piece) {
            Ok(count) if count > 0 || piece.is_empty() => Ok(count),
            _ => {
                self.write_faults = self.write_faults.saturating_add(1);
                Err(Failed)
            }
        }
    }
}
