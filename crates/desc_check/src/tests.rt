//! Worked descriptions: their lines of faults, their plans, and the descriptions that say a plan.

use super::{check, draft_of, fault_line};
use noc_desc::{read_draft, write_draft};
use std::alloc::Global;
use std::test::Fail;

const MESH_OF_ONE: &str = "version = 1\nshape = \"mesh\"\ndims = [1]\n";

const MESH_OF_TWO: &str = "version = 1\nshape = \"mesh\"\ndims = [2]\n";

const WEIGHTED: &str = "version = 2\nshape = \"mesh\"\ndims = [2]\n";

const SIZES: &str = "stages = 1\nbuffer = 2\n";

const ALONE: &str = "domain = [{name = \"a\", channels = 1}]\n";

const BOTH: &str = "domain = [{name = \"a\", channels = 1}, {name = \"b\", channels = 1}]\n";

const ON_BOTH: &str =
    "tile = [{at = 0, domains = [\"a\", \"b\"]}, {at = 1, domains = [\"a\", \"b\"]}]\n";

const RANGES: &str =
    "range = [{tile = 0, first = 0, last = 0xff}, {tile = 1, first = 0x100, last = 0x1ff}]\n";

/// What a description comes to: its line of fault, or what its plan has.
fn judged(alloc: Global, text: &str) -> Result<Vec<u8>, Fail> {
    let plan = match read_draft(alloc, text.as_bytes()) {
        Ok(draft) => check(alloc, draft),
        Err(fault) => Err(fault),
    };
    match plan {
        Ok(plan) => {
            let tiles = plan.tiles();
            let domains = plan.domains();
            let places = plan.places();
            let hop = plan.hop();
            let line = format!(in alloc;
                "accepted tiles {tiles} domains {domains} places {places} hop {hop}\n"
            )?;
            let bytes = Vec::from_slice(alloc, line.as_bytes())?;
            Ok(bytes)
        }
        Err(fault) => {
            let mut buf = [0; 96];
            let length = fault_line(&fault, &mut buf);
            let bytes = Vec::from_slice(alloc, &buf[..length])?;
            Ok(bytes)
        }
    }
}

#[test]
fn answers_the_first_fault(rt: HostRuntime) -> Result<(), Fail> {
    let alloc = rt.alloc();
    for (front, sizes, domains, rest, line) in [
        ("", "", "", "", "fault 3 0 0 0"),
        (
            "colour = 1\nversion = 1\nshape = \"mesh\"\ndims = [1]\n",
            SIZES,
            ALONE,
            "",
            "fault 2 0 0 1",
        ),
        (
            "version = 1\nshape = \"ring\"\ndims = [1]\n",
            "stages = 1\nbuffer = 0\n",
            ALONE,
            "",
            "fault 6",
        ),
        (
            "version = 3\nshape = \"ring\"\ndims = []\n",
            SIZES,
            ALONE,
            "",
            "fault 5",
        ),
        (
            "version = 1\nshape = \"mesh\"\ndims = []\n",
            SIZES,
            ALONE,
            "",
            "fault 7",
        ),
        (
            "version = 1\nshape = \"mesh\"\ndims = [1, 1, 1]\n",
            SIZES,
            ALONE,
            "",
            "fault 7",
        ),
        (
            "version = 2\nshape = \"mesh\"\ndims = [16, 16, 2]\n",
            SIZES,
            ALONE,
            "slots = []\n",
            "fault 7",
        ),
        (
            MESH_OF_ONE,
            "stages = 9223372036854775807\nbuffer = 2\n",
            ALONE,
            "",
            "fault 8",
        ),
        (
            MESH_OF_ONE,
            "stages = 4\nbuffer = 17\n",
            ALONE,
            "",
            "fault 9",
        ),
        (MESH_OF_ONE, SIZES, "domain = []\n", "", "fault 10"),
        (
            MESH_OF_ONE,
            SIZES,
            "domain = [{name = \"\", channels = 1}]\n",
            "",
            "fault 11 0",
        ),
        (
            MESH_OF_TWO,
            SIZES,
            "domain = [{name = \"a\", channels = 1}, {name = \"a\", channels = 5}]\n",
            "",
            "fault 12 0 1",
        ),
        (
            MESH_OF_TWO,
            SIZES,
            "domain = [{name = \"a\", channels = 1}, {name = \"b\", channels = 5}]\n",
            "",
            "fault 13 1",
        ),
        (
            MESH_OF_TWO,
            SIZES,
            BOTH,
            "tile = [{at = 2, domains = [\"a\"]}]\n",
            "fault 14 0",
        ),
        (
            MESH_OF_TWO,
            SIZES,
            BOTH,
            "tile = [{at = 1, domains = [\"x\"]}, {at = 0, domains = []}, {at = 1, domains = []}]\n",
            "fault 15 0 2",
        ),
        (
            MESH_OF_TWO,
            SIZES,
            BOTH,
            "tile = [{at = 0, domains = [\"x\", \"b\"]}]\n\
             range = [{tile = 0, first = 0, last = 0xff}, {tile = 1, first = 0x80, last = 0x1ff}]\n",
            "fault 16 0 0",
        ),
        (
            MESH_OF_TWO,
            SIZES,
            BOTH,
            "tile = [{at = 0, domains = [\"a\", \"b\", \"a\"]}]\n",
            "fault 17 0 2",
        ),
        (
            MESH_OF_TWO,
            SIZES,
            BOTH,
            "range = [{tile = 2, first = 1, last = 0}]\n",
            "fault 18 0",
        ),
        (
            MESH_OF_ONE,
            SIZES,
            ALONE,
            "range = [{tile = 0, first = -1, last = 0x1f}]\n",
            "fault 19 0",
        ),
        (
            MESH_OF_TWO,
            SIZES,
            BOTH,
            "range = [{tile = 0, first = 0, last = 0xff}, {tile = 1, first = 0xff, last = 0x1ff}]\n",
            "fault 20 0 1",
        ),
        (WEIGHTED, SIZES, BOTH, "slots = []\n", "fault 23"),
        (
            WEIGHTED,
            SIZES,
            BOTH,
            "slots = [\"a\", \"b\", \"c\"]\n",
            "fault 24 2",
        ),
        (WEIGHTED, SIZES, BOTH, "slots = [\"a\"]\n", "fault 25 1"),
    ] {
        let text = format!(in alloc; "{front}{sizes}{domains}{rest}")?;
        let expected = format!(in alloc; "surf: description {line}\n")?;
        let found = judged(alloc, text.as_str())?;
        assert_eq!(rt; found.as_slice(), expected.as_bytes());
    }
    Ok(())
}

#[test]
fn accepts_up_to_the_places(rt: HostRuntime) -> Result<(), Fail> {
    let alloc = rt.alloc();
    let four = "domain = [{name = \"d0\", channels = 2}, {name = \"d1\", channels = 2}, \
         {name = \"d2\", channels = 2}, {name = \"d3\", channels = 2}]\n";
    for (front, sizes, domains, line) in [
        (
            MESH_OF_ONE,
            SIZES,
            ALONE,
            "accepted tiles 1 domains 1 places 6 hop 4\n",
        ),
        (
            "version = 2\nslots = [\"a\"]\nshape = \"mesh\"\ndims = [2, 2, 2]\n",
            SIZES,
            ALONE,
            "accepted tiles 8 domains 1 places 112 hop 4\n",
        ),
        (
            "version = 1\nshape = \"torus\"\ndims = [8, 8]\n",
            "stages = 1\nbuffer = 4\n",
            four,
            "accepted tiles 64 domains 4 places 20480 hop 4\n",
        ),
        (
            "version = 1\nshape = \"torus\"\ndims = [8, 8]\n",
            "stages = 1\nbuffer = 5\n",
            four,
            "surf: description fault 21 25600\n",
        ),
    ] {
        let text = format!(in alloc; "{front}{sizes}{domains}")?;
        let found = judged(alloc, text.as_str())?;
        assert_eq!(rt; found.as_slice(), line.as_bytes());
    }
    Ok(())
}

#[test]
fn orders_attachments_and_slots(rt: HostRuntime) -> Result<(), Fail> {
    let alloc = rt.alloc();
    let rest = "slots = [\"b\", \"a\", \"b\"]\n\
         tile = [{at = 1, domains = [\"b\", \"a\"]}, {at = 0, domains = [\"b\"]}]\n\
         range = [{tile = 1, first = 4, last = 4294967295}]\n";
    let text = format!(in alloc; "{WEIGHTED}{SIZES}{BOTH}{rest}")?;
    let plan = check(alloc, read_draft(alloc, text.as_bytes())?)?;
    assert_eq!(rt; plan.attach_count(), 3);
    for (j, tile, domain) in [(0, 0, 1), (1, 1, 0), (2, 1, 1)] {
        let host = plan.attach(j);
        assert_eq!(rt; host.tile, tile);
        assert_eq!(rt; host.domain, domain);
    }
    assert_eq!(rt; plan.slots(), 3);
    for (i, domain) in [(0, 1), (1, 0), (2, 1)] {
        assert_eq!(rt; plan.slot(i), domain);
    }
    assert_eq!(rt; plan.lookup(1, 4_294_967_295), Some(1));
    let listed = format!(in alloc; "{MESH_OF_TWO}{SIZES}{BOTH}{ON_BOTH}")?;
    let own = check(alloc, read_draft(alloc, listed.as_bytes())?)?;
    assert_eq!(rt; own.slots(), 2);
    assert_eq!(rt; own.slot(1), 1);
    Ok(())
}

#[test]
fn counts_ranges_and_attachments(rt: HostRuntime) -> Result<(), Fail> {
    let alloc = rt.alloc();
    let mut ranges = format!(in alloc; "{MESH_OF_ONE}{SIZES}{ALONE}range = [")?;
    for i in 0..1025 {
        let range = format!(in alloc; "{{tile = 0, first = {i}, last = {i}}},")?;
        ranges.push_str(range.as_str())?;
    }
    ranges.push_str("]\n")?;
    let found = judged(alloc, ranges.as_str())?;
    assert_eq!(rt;
        found.as_slice(),
        b"surf: description fault 18 1024\n".as_slice()
    );
    let mut tiles = format!(in alloc;
        "version = 1\nshape = \"mesh\"\ndims = [16, 16]\n{SIZES}{BOTH}tile = ["
    )?;
    for i in 0..256 {
        let names = if i == 0 { "\"a\", \"b\"" } else { "\"b\"" };
        let tile = format!(in alloc; "{{at = {i}, domains = [{names}]}},")?;
        tiles.push_str(tile.as_str())?;
    }
    tiles.push_str("]\n")?;
    let many = judged(alloc, tiles.as_str())?;
    assert_eq!(rt;
        many.as_slice(),
        b"surf: description fault 22 257\n".as_slice()
    );
    Ok(())
}

/// The description of version 2 that `upgrade` writes of an accepted description.
fn upgraded(alloc: Global, text: &[u8]) -> Result<Vec<u8>, Fail> {
    let plan = check(alloc, read_draft(alloc, text)?)?;
    let draft = draft_of(alloc, &plan)?;
    let bytes = write_draft(alloc, &draft)?;
    Ok(bytes)
}

/// Sixteen domains.
fn push_domains(alloc: Global, text: &mut String) -> Result<(), Fail> {
    for d in 0..16u32 {
        let domain = format!(in alloc; "{{name = \"domain-{d}\", channels = 1}},")?;
        text.push_str(domain.as_str())?;
    }
    Ok(())
}

/// Sixty-four slots.
fn push_slots(alloc: Global, text: &mut String) -> Result<(), Fail> {
    for i in 0..64u32 {
        let slot = format!(in alloc; "\"domain-{}\",", 15 - i % 16)?;
        text.push_str(slot.as_str())?;
    }
    Ok(())
}

/// A domain at each of 256 tiles.
fn push_tiles(alloc: Global, text: &mut String) -> Result<(), Fail> {
    for n in 0..256u32 {
        let tile = format!(in alloc; "{{at = {n}, domains = [\"domain-{}\"]}},", n % 16)?;
        text.push_str(tile.as_str())?;
    }
    Ok(())
}

/// 1,024 ranges of 16 addresses.
fn push_ranges(alloc: Global, text: &mut String) -> Result<(), Fail> {
    for i in 0..1024u32 {
        let (tile, first, last) = (i % 256, 16 * i, 16 * i + 15);
        let range = format!(in alloc; "{{tile = {tile}, first = {first}, last = {last}}},")?;
        text.push_str(range.as_str())?;
    }
    Ok(())
}

/// A description of the most domains, attachments, ranges and slots.
fn largest(alloc: Global) -> Result<String, Fail> {
    let mut text = format!(in alloc;
        "version = 2\nshape = \"mesh\"\ndims = [16, 16]\nstages = 4\nbuffer = 1\ndomain = ["
    )?;
    push_domains(alloc, &mut text)?;
    text.push_str("]\nslots = [")?;
    push_slots(alloc, &mut text)?;
    text.push_str("]\ntile = [")?;
    push_tiles(alloc, &mut text)?;
    text.push_str("]\nrange = [")?;
    push_ranges(alloc, &mut text)?;
    text.push_str("]\n")?;
    Ok(text)
}

#[test]
fn what_was_upgraded_is_upgraded_to_itself(rt: HostRuntime) -> Result<(), Fail> {
    let alloc = rt.alloc();
    let two_tiles = format!(in alloc; "{MESH_OF_TWO}{SIZES}{BOTH}{ON_BOTH}{RANGES}")?;
    for text in [two_tiles, largest(alloc)?] {
        let once = upgraded(alloc, text.as_bytes())?;
        let twice = upgraded(alloc, once.as_slice())?;
        assert_eq!(rt; twice.as_slice(), once.as_slice());
    }
    Ok(())
}

#[test]
fn an_upgraded_draft_has_the_plan(rt: HostRuntime) -> Result<(), Fail> {
    let alloc = rt.alloc();
    let text = format!(in alloc; "{MESH_OF_TWO}{SIZES}{BOTH}{ON_BOTH}{RANGES}")?;
    let plan = check(alloc, read_draft(alloc, text.as_bytes())?)?;
    let draft = draft_of(alloc, &plan)?;
    assert_eq!(rt; draft.version, 2);
    assert_eq!(rt; draft.slots.len(), 2);
    let again = check(alloc, draft)?;
    assert_eq!(rt; again.tiles(), 2);
    assert_eq!(rt; again.domains(), 2);
    assert_eq!(rt; again.attach_count(), 4);
    for (i, name) in [(0, b"a".as_slice()), (1, b"b".as_slice())] {
        assert_eq!(rt; again.name(again.slot(i)), name);
    }
    for (address, tile) in [
        (0, Some(0)),
        (255, Some(0)),
        (256, Some(1)),
        (511, Some(1)),
        (512, None),
    ] {
        assert_eq!(rt; again.lookup(0, address), tile);
    }
    Ok(())
}
