ghost use Rattle.std.specs.Prelude.{◌≡◌, ◌<◌, ◌≤◌, ◌+◌, ◌-◌, ◌^◌, ◌++◌, ◌∷◌, OnOk, OnErr, Some, false, min, length, is_some, [], string_bytes, Contains, IsTrue};
ghost use Rattle.vtl_files.specs.Mem.{calls_of, counted, one_more};

use crate::count::Count;
use crate::failed::Failed;
use crate::files::Files;
use crate::mem::{MemFile, append_to_last, place_of};
use crate::plan::{FailAt, Method};
use std::alloc::{AllocError, Global};

// Where reading is: a place among the held files, and a position in that file.
#[derive(Clone, Copy)]
struct Opened {
    place: usize,
    position: usize,
}

// How often each method was called.
#[derive(Clone, Copy)]
struct Calls {
    open: Count,
    read: Count,
    create: Count,
    write: Count,
    finish: Count,
}

impl Calls {
    // Counts a call, and gives its number.
    fn count(&mut self, method: Method) -> u64
        ensures counted { self.new ≡ counted method self.old }
        ensures number { result ≡ one_more (calls_of method self.old) }
    {
        match method {
            Method::Open => self.open.next(),
            Method::Read => self.read.next(),
            Method::Create => self.create.next(),
            Method::Write => self.write.next(),
            Method::Finish => self.finish.next(),
        }
    }
}

/// Files in memory. They reveal all that they hold and all that was written.
///
/// A call that cannot get memory fails, as one that is planned to fail does.
#[derive(Drop)]
pub struct MemFiles {
    held: Vec<MemFile>,
    written: Vec<MemFile>,
    chunk: usize,
    fail: Vec<FailAt>,
    calls: Calls,
    faults: Count,
    absences: Count,
    misuses: Count,
    creating: bool,
    place: String,
    mark: Count,
    opened: Option<Opened>,

    ghost moves_some: { 0 < chunk },
}

impl MemFiles {
    ghost use Rattle.vtl_files.specs.Mem.{left_of};

    /// Files that hold these, of which the first with a name counts. A call reads or writes at most `chunk`
    /// bytes, and the calls that `fail` lists fail.
    pub fn new(alloc: Global, held: Vec<MemFile>, chunk: usize, fail: Vec<FailAt>) -> MemFiles
        requires { 1 ≤ chunk }
        ensures held { ⟦<MemFiles as Files>⟧.held result ≡ Some held.items }
        ensures written { ⟦<MemFiles as Files>⟧.written result ≡ Some [] }
        ensures faults { ⟦<MemFiles as Files>⟧.faults result ≡ 0 }
        ensures absences { ⟦<MemFiles as Files>⟧.absences result ≡ 0 }
        ensures misuses { ⟦<MemFiles as Files>⟧.misuses result ≡ 0 }
        ensures creating { ⟦<MemFiles as Files>⟧.creating result ≡ false }
        ensures place { ⟦<MemFiles as Files>⟧.place result ≡ [] }
        ensures mark { ⟦<MemFiles as Files>⟧.mark result ≡ 0 }
        ensures opened { ⟦<MemFiles as Files>⟧.opened result ≡ false }
        ensures left { ⟦<MemFiles as Files>⟧.left result ≡ Some [] }
        ensures plan { ⟦<MemFiles as Files>⟧.plan result
            ≡ Some (record { chunk = chunk; fail = fail.items; calls = record { «open» = 0; read = 0; create = 0; write = 0; finish = 0 } }) }
    {
        MemFiles {
            held,
            written: Vec::new(alloc),
            chunk,
            fail,
            calls: Calls {
                open: Count::new(),
                read: Count::new(),
                create: Count::new(),
                write: Count::new(),
                finish: Count::new(),
            },
            faults: Count::new(),
            absences: Count::new(),
            misuses: Count::new(),
            creating: false,
            place: String::new(alloc),
            mark: Count::new(),
            opened: None,
        }
    }

    /// The files that were created, in order of creating.
    pub fn written(&self) -> &[MemFile]
        ensures { ⟦<MemFiles as Files>⟧.written self.now ≡ Some result.now }
    {
        &self.written
    }

    // Counts a call, and says whether it is to fail.
    fn is_to_fail(&mut self, method: Method) -> bool
        ensures counted { self.new ≡ record self.old { calls = counted method self.old.calls } }
        ensures listed { Contains self.old.fail.items (record { method = method; number = one_more (calls_of method self.old.calls) }) → IsTrue result }
    {
        let number = self.calls.count(method);
        self.fail.contains(&FailAt { method, number })
    }

    // Adds an empty file with the name that was given.
    fn add_file(&mut self) -> Result<(), AllocError>
        ensures same { let written = self.new.written in self.new ≡ record self.old { written = written } }
        ensures ok { OnOk result
            (self.new.written.items ≡ self.old.written.items ++ (string_bytes self.old.place, []) ∷ []) }
        ensures err { OnErr result (self.new.written.items ≡ self.old.written.items) }
    {
        let name = self.place.clone()?;
        let bytes = Vec::new(*self.written.allocator());
        self.written.push(MemFile { name, bytes })?;
        Ok(())
    }

    // What is left of the opened file.
    fn rest_of(&self, opened: Opened) -> &[u8]
        ensures rest { result.now ≡ left_of self.now.held.items (Some opened) }
        ensures bound { opened.position + length result.now < 2 ^ 64 }
    {
        match self.held.get(opened.place) {
            Some(file) => file.bytes.get(opened.position..).unwrap_or(&[]),
            None => &[],
        }
    }
}

impl Files for MemFiles {
    ghost use Rattle.vtl_files.specs.Mem.{left_of};

    ghost held = { λ files. Some files.held.items };

    ghost written = { λ files. Some files.written.items };

    ghost faults = { λ files. files.faults };

    ghost absences = { λ files. files.absences };

    ghost misuses = { λ files. files.misuses };

    ghost creating = { λ files. files.creating };

    ghost place = { λ files. string_bytes files.place };

    ghost mark = { λ files. files.mark };

    ghost opened = { λ files. is_some files.opened };

    ghost left = { λ files. Some (left_of files.held.items files.opened) };

    ghost plan = { λ files. Some (record { chunk = files.chunk; fail = files.fail.items; calls = files.calls }) };

    fn open(&mut self, name: String) -> Result<bool, Failed> {
        self.place = name;
        self.mark = self.faults;
        self.opened = None;
        if self.is_to_fail(Method::Open) {
            self.faults.rise();
            return Err(Failed);
        }
        match place_of(&self.held, self.place.as_str()) {
            Some(place) => {
                self.opened = Some(Opened { place, position: 0 });
                Ok(true)
            }
            None => {
                self.absences.rise();
                Ok(false)
            }
        }
    }

    fn read(&mut self, buf: &mut [u8]) -> Result<usize, Failed> {
        let Some(opened) = self.opened else {
            return Ok(0);
        };
        if self.is_to_fail(Method::Read) {
            self.faults.rise();
            return Err(Failed);
        }
        let rest = self.rest_of(opened);
        let count = rest.len().min(buf.len()).min(self.chunk);
        buf[..count].copy_from_slice(&rest[..count]);
        self.opened = Some(Opened {
            place: opened.place,
            position: opened.position + count,
        });
        Ok(count)
    }

    fn create(&mut self, name: String) -> Result<(), Failed> {
        self.place = name;
        self.mark = self.faults;
        self.opened = None;
        let fails = self.is_to_fail(Method::Create);
        if self.creating {
            self.misuses.rise();
            self.faults.rise();
            return Err(Failed);
        }
        if fails || self.add_file().is_err() {
            self.faults.rise();
            return Err(Failed);
        }
        self.creating = true;
        Ok(())
    }

    fn write(&mut self, piece: &[u8]) -> Result<usize, Failed> {
        let fails = self.is_to_fail(Method::Write);
        if !self.creating {
            self.misuses.rise();
            self.faults.rise();
            return Err(Failed);
        }
        let count = piece.len().min(self.chunk);
        if fails || append_to_last(&mut self.written, &piece[..count]).is_err() {
            self.faults.rise();
            return Err(Failed);
        }
        Ok(count)
    }

    fn finish(&mut self) -> Result<(), Failed> {
        let fails = self.is_to_fail(Method::Finish);
        if !self.creating {
            self.misuses.rise();
            self.faults.rise();
            return Err(Failed);
        }
        if fails {
            self.faults.rise();
            return Err(Failed);
        }
        self.creating = false;
        Ok(())
    }
}
