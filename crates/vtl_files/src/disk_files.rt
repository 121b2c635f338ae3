// A `finish` that fails leaves the file unfinished: closing gives no answer in Rust, so `DiskFiles` flushes first.
//
// A file that could not be written is closed at once, though it is still being created: where standard output is closed,
// such a file has its number, and what is then said would be written into it.
ghost use Rattle.std.specs.Prelude.{◌≡◌, false, None, is_some, [], string_bytes};

use crate::count::Count;
use crate::failed::Failed;
use crate::files::Files;
use std::alloc::Global;
use std::io::{ErrorKind, Read, Write};
use std::{fs, rt};

/// The files of the system, under their paths. They reveal nothing of what files hold.
///
/// An error of the system is a fault. Only a path where nothing is found is an absence.
#[derive(Drop)]
pub struct DiskFiles<'a, R: rt::Files> {
    rt: &'a R,
    reading: Option<R::File>,
    writing: Option<R::File>,
    creating: bool,
    faults: Count,
    absences: Count,
    misuses: Count,
    place: String,
    mark: Count,
}

impl<'a, R: rt::Files> DiskFiles<'a, R> {
    /// Files of the system that `rt` stands for. Nothing is opened or created yet.
    pub fn new(alloc: Global, rt: &'a R) -> DiskFiles<'a, R>
        ensures faults { ⟦<DiskFiles<'a, R> as Files>⟧.faults result ≡ 0 }
        ensures absences { ⟦<DiskFiles<'a, R> as Files>⟧.absences result ≡ 0 }
        ensures misuses { ⟦<DiskFiles<'a, R> as Files>⟧.misuses result ≡ 0 }
        ensures creating { ⟦<DiskFiles<'a, R> as Files>⟧.creating result ≡ false }
        ensures place { ⟦<DiskFiles<'a, R> as Files>⟧.place result ≡ [] }
        ensures mark { ⟦<DiskFiles<'a, R> as Files>⟧.mark result ≡ 0 }
        ensures opened { ⟦<DiskFiles<'a, R> as Files>⟧.opened result ≡ false }
    {
        DiskFiles {
            rt,
            reading: None,
            writing: None,
            creating: false,
            faults: Count::new(),
            absences: Count::new(),
            misuses: Count::new(),
            place: String::new(alloc),
            mark: Count::new(),
        }
    }
}

impl<'a, R: rt::Files> Files for DiskFiles<'a, R> {
    ghost held = { λ _. None };

    ghost written = { λ _. None };

    ghost faults = { λ files. files.faults };

    ghost absences = { λ files. files.absences };

    ghost misuses = { λ files. files.misuses };

    ghost creating = { λ files. files.creating };

    ghost place = { λ files. string_bytes files.place };

    ghost mark = { λ files. files.mark };

    ghost opened = { λ files. is_some files.reading };

    ghost left = { λ _. None };

    fn open(&mut self, name: String) -> Result<bool, Failed> {
        self.place = name;
        self.mark = self.faults;
        self.reading = None;
        match fs::File::open(self.rt, self.place.as_str()) {
            Ok(file) => {
                self.reading = Some(file);
                Ok(true)
            }
            Err(error) if error.kind() == ErrorKind::NotFound => {
                self.absences.rise();
                Ok(false)
            }
            Err(_) => {
                self.faults.rise();
                Err(Failed)
            }
        }
    }

    fn read(&mut self, buf: &mut [u8]) -> Result<usize, Failed> {
        let Some(file) = &mut self.reading else {
            return Ok(0);
        };
        match file.read(buf) {
            Ok(count) => Ok(count),
            Err(_) => {
                self.faults.rise();
                Err(Failed)
            }
        }
    }

    fn create(&mut self, name: String) -> Result<(), Failed> {
        self.place = name;
        self.mark = self.faults;
        self.reading = None;
        if self.creating {
            self.misuses.rise();
            self.faults.rise();
            return Err(Failed);
        }
        match fs::File::create(self.rt, self.place.as_str()) {
            Ok(file) => {
                self.writing = Some(file);
                self.creating = true;
                Ok(())
            }
            Err(_) => {
                self.faults.rise();
                Err(Failed)
            }
        }
    }

    fn write(&mut self, piece: &[u8]) -> Result<usize, Failed> {
        if !self.creating {
            self.misuses.rise();
            self.faults.rise();
            return Err(Failed);
        }
        if let Some(file) = &mut self.writing {
            match file.write(piece) {
                Ok(count) if count != 0 || piece.is_empty() => return Ok(count),
                _ => {}
            }
        }
        self.writing = None;
        self.faults.rise();
        Err(Failed)
    }

    fn finish(&mut self) -> Result<(), Failed> {
        if !self.creating {
            self.misuses.rise();
            self.faults.rise();
            return Err(Failed);
        }
        if let Some(file) = &mut self.writing {
            if file.flush().is_ok() {
                self.writing = None;
                self.creating = false;
                return Ok(());
            }
        }
        self.writing = None;
        self.faults.rise();
        Err(Failed)
    }
}
