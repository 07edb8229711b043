//! The files that a command names, read in order.

ghost use Rattle.std.specs.Prelude.{◌≡◌, [], map, IsOk, IfOk, IfErr};
ghost use Rattle.surf_cli.specs.Contents.{nothing};
ghost use Rattle.surf_cli.specs.Spoken.{named, listed, gathered};
ghost use Rattle.surf_cli.specs.Reading.{GotFile, NotGot, GotFiles, GotNone};

use crate::contents::Contents;
use crate::files::{NamedFile, NamedFiles};
use std::alloc::Global;
use surf_base::{Files, TakeFault, read_whole};

/// What a file holds.
fn read_file<F: Files>(
    alloc: Global,
    files: &mut F,
    file: NamedFile<'_>,
) -> Result<Vec<u8>, TakeFault>
    ensures ok { IfOk result (λ v. GotFile (named file.entry)
        (F.held files.old) (F.held files.new)
        (F.faults files.old) (F.faults files.new) (F.taken files.new) v.items) }
    ensures err { IfErr result (λ fault. NotGot (named file.entry)
        (F.held files.old) (F.held files.new)
        (F.faults files.old) (F.faults files.new) (F.taken files.new) fault) }
{
    read_whole(alloc, files, file.name, file.kind.limit())
}

/// These contents, and what the files hold, in order.
fn read_more<F: Files>(
    alloc: Global,
    files: &mut F,
    list: &[NamedFile<'_>],
    contents: Contents,
) -> Result<Contents, TakeFault>
    ensures ok { IfOk result (λ more. GotFiles (map named list.now)
        (F.held files.old) (F.held files.new)
        (F.faults files.old) (F.faults files.new) (F.taken files.new) (gathered contents) (gathered more)) }
    ensures none { list.now ≡ [] → (files.new ≡ files.old) × IsOk result }
    ensures err { IfErr result (λ fault. GotNone (map named list.now)
        (F.held files.old) (F.held files.new)
        (F.faults files.old) (F.faults files.new) (F.taken files.new) fault) }
{
    let (first, rest) = match list.split_first() {
        Some(parts) => parts,
        None => return Ok(contents),
    };
    match read_file(alloc, files, *first) {
        Ok(bytes) => read_more(alloc, files, rest, contents.with(first.kind, bytes)),
        Err(fault) => Err(fault),
    }
}

/// What the files of a command hold. A command without files leaves `files` as they are.
pub(crate) fn read_files<F: Files>(
    alloc: Global,
    files: &mut F,
    names: NamedFiles<'_>,
) -> Result<Contents, TakeFault>
    ensures ok { IfOk result (λ contents. GotFiles (listed names.entry)
        (F.held files.old) (F.held files.new)
        (F.faults files.old) (F.faults files.new) (F.taken files.new) nothing (gathered contents)) }
    ensures none { listed names.entry ≡ [] → (files.new ≡ files.old) × IsOk result }
    ensures err { IfErr result (λ fault. GotNone (listed names.entry)
        (F.held files.old) (F.held files.new)
        (F.faults files.old) (F.faults files.new) (F.taken files.new) fault) }
{
    let contents = Contents::new(alloc);
    match names {
        NamedFiles::Zero => Ok(contents),
        NamedFiles::One(first) => read_more(alloc, files, &[first], contents),
        NamedFiles::Two(first, second) => read_more(alloc, files, &[first, second], contents),
        NamedFiles::Three(first, second, third) => {
            read_more(alloc, files, &[first, second, third], contents)
        }
    }
}
