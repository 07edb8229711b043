//! Worked descriptions: their drafts, their first faults, and drafts that are written.

ghost use Rattle.std.specs.Prelude.{IfOk};
ghost use Rattle.noc_desc.specs.Document.{AreTexts};

use super::{
    Bytes, DescFault, Draft, DraftDomains, DraftRange, DraftRanges, DraftTiles, Names, Nums,
    read_draft, write_draft,
};
use std::alloc::{AllocError, Global};
use std::test::Fail;

const HEAD: &str = "version = 1\nshape = \"mesh\"\ndims = [2]\nstages = 1\nbuffer = 2\n";

const DOMAINS: &str = "domain = [{name = \"a\", channels = 1}, {name = \"b\", channels = 3}]\n";

const TILES: &str =
    "[[tile]]\nat = 0\ndomains = [\"a\", \"b\"]\n[[tile]]\nat = 1\ndomains = [\"b\"]\n";

const RANGES: &str = "[[range]]\ntile = 1\nfirst = 0x100\nlast = 0x1ff\n";

#[test]
fn reads_two_tiles(rt: HostRuntime) -> Result<(), Fail> {
    let alloc = rt.alloc();
    let text = format!(in alloc; "{HEAD}{DOMAINS}{TILES}{RANGES}")?;
    let draft = read_draft(alloc, text.as_bytes())?;
    assert_eq!(rt; draft.version, 1);
    assert_eq!(rt; draft.shape.as_slice(), b"mesh".as_slice());
    assert_eq!(rt; draft.dims.as_slice(), [2].as_slice());
    assert_eq!(rt; draft.stages, 1);
    assert_eq!(rt; draft.buffer, 2);
    assert_eq!(rt; draft.domains.len(), 2);
    assert_eq!(rt; draft.domains.at(1).name.as_slice(), b"b".as_slice());
    assert_eq!(rt; draft.domains.at(1).channels, 3);
    assert_eq!(rt; draft.tiles.len(), 2);
    assert_eq!(rt; draft.tiles.at(1).at, 1);
    assert_eq!(rt; draft.tiles.at(1).domains.len(), 1);
    assert_eq!(rt; draft.tiles.at(1).domains.at(0).as_slice(), b"b".as_slice());
    assert_eq!(rt; draft.ranges.len(), 1);
    assert_eq!(rt; draft.ranges.at(0).tile, 1);
    assert_eq!(rt; draft.ranges.at(0).first, 256);
    assert_eq!(rt; draft.ranges.at(0).last, 511);
    assert_eq!(rt; draft.slots.len(), 0);
    Ok(())
}

#[test]
fn reads_weighted_slots(rt: HostRuntime) -> Result<(), Fail> {
    let alloc = rt.alloc();
    let text = "version = 2\nshape = \"torus\"\ndims = [4, 4]\nstages = 1\nbuffer = 2\n\
         domain = []\nslots = [\"a\", \"a\", \"b\"]\n";
    let draft = read_draft(alloc, text.as_bytes())?;
    assert_eq!(rt; draft.version, 2);
    assert_eq!(rt; draft.dims.len(), 2);
    assert_eq!(rt; *draft.dims.at(1), 4);
    assert_eq!(rt; draft.slots.len(), 3);
    assert_eq!(rt; draft.slots.at(2).as_slice(), b"b".as_slice());
    assert_eq!(rt; draft.tiles.as_slice().len(), 0);
    Ok(())
}

#[test]
fn answers_the_first_fault(rt: HostRuntime) -> Result<(), Fail> {
    let alloc = rt.alloc();
    let head_with = |rest: &str| format!(in alloc; "{HEAD}{rest}");
    let numbers = head_with("domain = [1, {q = 1}]\n")?;
    let absent = head_with("domain = [{name = \"a\", channels = 1}, {name = \"a\"}]\n")?;
    let lone = head_with("domain = []\ntile = 1\n")?;
    let slots = head_with("domain = []\nslots = []\n")?;
    for (text, fault) in [
        ("version = ", "NotToml"),
        ("", "KeyMissing(0, 0, 0)"),
        ("colour = 1\nversion = 1\n", "KeyUnknown(0, 0, 0)"),
        ("version = 2.0\nslots = []\n", "KeyUnknown(0, 0, 0)"),
        (numbers.as_str(), "KeyUnknown(1, 1, 0)"),
        (absent.as_str(), "KeyMissing(1, 1, 1)"),
        (lone.as_str(), "KeyKind(0, 0, 6)"),
        (slots.as_str(), "KeyUnknown(0, 0, 4)"),
    ] {
        let shown = match read_draft(alloc, text.as_bytes()) {
            Ok(_) => format!(in alloc; "draft")?,
            Err(found) => format!(in alloc; "{found:?}")?,
        };
        assert_eq!(rt; shown.as_str(), fault);
    }
    let bytes = [b'#', 0xff];
    assert!(rt; matches!(read_draft(alloc, bytes.as_slice()), Err(DescFault::NotToml)));
    Ok(())
}

/// A draft of two tiles, with a range and no domains.
fn two_tiles(alloc: Global) -> Result<Draft, AllocError>
    ensures { IfOk result AreTexts }
{
    let mut dims = Nums::new(alloc);
    dims.push(2)?;
    let mut ranges = DraftRanges::new(alloc);
    ranges.push(DraftRange {
        tile: 1,
        first: 256,
        last: 511,
    })?;
    Ok(Draft {
        version: 2,
        shape: Bytes::from_slice(alloc, b"mesh")?,
        dims,
        stages: 1,
        buffer: 2,
        domains: DraftDomains::new(alloc),
        tiles: DraftTiles::new(alloc),
        ranges,
        slots: Names::new(alloc),
    })
}

#[test]
fn a_written_draft_reads_back(rt: HostRuntime) -> Result<(), Fail> {
    let alloc = rt.alloc();
    let bytes = write_draft(alloc, &two_tiles(alloc)?)?;
    let draft = read_draft(alloc, bytes.as_slice())?;
    assert_eq!(rt; draft.version, 2);
    assert_eq!(rt; draft.shape.as_slice(), b"mesh".as_slice());
    assert_eq!(rt; draft.dims.as_slice(), [2].as_slice());
    assert_eq!(rt; draft.stages, 1);
    assert_eq!(rt; draft.buffer, 2);
    assert_eq!(rt; draft.domains.len(), 0);
    assert_eq!(rt; draft.tiles.len(), 0);
    assert_eq!(rt; draft.ranges.len(), 1);
    assert_eq!(rt; draft.ranges.at(0).tile, 1);
    assert_eq!(rt; draft.ranges.at(0).first, 256);
    assert_eq!(rt; draft.ranges.at(0).last, 511);
    assert_eq!(rt; draft.slots.len(), 0);
    Ok(())
}
