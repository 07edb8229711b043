//! The files and the sinks of the machine.

ghost use Rattle.std.specs.Prelude.{◌≡◌, None, is_some};
ghost use Rattle.surf_base.specs.Outside.{Unobserved};

use crate::outside::{Failed, Files, Sink};
use std::{fs, io, rt};

/// The files of the machine. Their content is not observed, and each failure is counted.
#[derive(Drop)]
pub struct RealFiles<'a, R: rt::Files> {
    rt: &'a R,
    file: Option<R::File>,
    taken: u64,
    faults: u64,
}

impl<'a, R: rt::Files> RealFiles<'a, R> {
    /// Files over this runtime, none of them opened.
    pub fn new(rt: &'a R) -> Self
        ensures closed { result.file ≡ None }
        ensures faults { result.faults ≡ 0 }
        ensures taken { result.taken ≡ 0 }
    {
        RealFiles {
            rt,
            file: None,
            taken: 0,
            faults: 0,
        }
    }
}

impl<'a, R: rt::Files> Files for RealFiles<'a, R> {
    ghost held = { λ _ _. Unobserved };

    ghost opened = { λ files. is_some files.file };

    ghost left = { λ _. None };

    ghost taken = { λ files. files.taken };

    ghost faults = { λ files. files.faults };

    fn open_name(&mut self, name: &str) -> Result<(), Failed> {
        self.taken = 0;
        match fs::open(self.rt, name) {
            Ok(file) => {
                self.file = Some(file);
                Ok(())
            }
            Err(_) => {
                self.file = None;
                self.faults = self.faults.saturating_add(1);
                Err(Failed)
            }
        }
    }

    fn read(&mut self, buf: &mut [u8]) -> Result<usize, Failed> {
        let Some(file) = &mut self.file else {
            unreachable!()
        };
        match io::Read::read(file, buf) {
            Ok(count) => {
                self.taken += count as u64;
                Ok(count)
            }
            Err(_) => {
                self.faults = self.faults.saturating_add(1);
                Err(Failed)
            }
        }
    }
}

/// A sink over a writer, as standard output. Its bytes are not observed, and each failure is counted.
#[derive(Drop)]
pub struct RealSink<W: io::Write + Drop> {
    writer: W,
    faults: u64,
}

impl<W: io::Write + Drop> RealSink<W> {
    /// A sink over this writer.
    pub fn new(writer: W) -> Self
        ensures { result.faults ≡ 0 }
    {
        RealSink { writer, faults: 0 }
    }
}

impl<W: io::Write + Drop> Sink for RealSink<W> {
    ghost written = { λ _. None };

    ghost faults = { λ sink. sink.faults };

    /// A write of 0 bytes counts as a fault, since it would never end.
    fn write(&mut self, piece: &[u8]) -> Result<usize, Failed> {
        match self.writer.write(piece) {
            Ok(count) if 0 < count => Ok(count),
            _ => {
                self.faults = self.faults.saturating_add(1);
                Err(Failed)
            }
        }
    }
}
