//! Worked rows: the words of a run over files in memory, and its status and bytes.

ghost use Rattle.std.specs.Prelude.{◌≡◌, length};

use super::{Status, surf};
use crate::judging::judge;
use crate::text_judging::judge_text;
use aig_design::aig_of;
use aig_out::AigRun;
use std::alloc::{AllocError, Global};
use std::test::Fail;
use surf_base::{MemFiles, MemSink};
use vl_rules::Sound;
use vl_run::Machine;

const TWO_TILES: &str = "version = 1\nshape = \"mesh\"\ndims = [2]\nstages = 2\nbuffer = 2\n\
domain = [{name = \"a\", channels = 1}, {name = \"b\", channels = 1}]\n\
tile = [{at = 0, domains = [\"a\", \"b\"]}, {at = 1, domains = [\"a\", \"b\"]}]\n\
range = [{tile = 0, first = 0x0, last = 0xff}, {tile = 1, first = 0x100, last = 0x1ff}]\n";

const ONE_LINK: &str = "version = 1\nshape = \"mesh\"\ndims = [2]\nstages = 1\nbuffer = 2\n\
domain = [{name = \"a\", channels = 1}, {name = \"b\", channels = 1}]\n\
tile = [{at = 0, domains = [\"a\", \"b\"]}, {at = 1, domains = [\"a\", \"b\"]}]\n\
range = [{tile = 0, first = 0x0, last = 0xff}, {tile = 1, first = 0x100, last = 0x1ff}]\n";

const HALF_A_RING: &str = "version = 1\nshape = \"torus\"\ndims = [4]\nstages = 1\nbuffer = 2\n\
domain = [{name = \"a\", channels = 1}]\n\
tile = [{at = 0, domains = [\"a\"]}, {at = 2, domains = [\"a\"]}]\n\
range = [{tile = 2, first = 0x200, last = 0x2ff}]\n";

const SPLIT_DOMAINS: &str = "version = 1\nshape = \"mesh\"\ndims = [2]\nstages = 1\nbuffer = 2\n\
domain = [{name = \"a\", channels = 1}, {name = \"b\", channels = 1}]\n\
tile = [{at = 0, domains = [\"a\"]}, {at = 1, domains = [\"b\"]}]\n\
range = [{tile = 1, first = 0x100, last = 0x1ff}]\n";

const ROW_OF_THREE: &str = "version = 1\nshape = \"mesh\"\ndims = [3]\nstages = 1\nbuffer = 4\n\
domain = [{name = \"a\", channels = 1}]\n\
tile = [{at = 0, domains = [\"a\"]}, {at = 1, domains = [\"a\"]}, {at = 2, domains = [\"a\"]}]\n\
range = [{tile = 1, first = 0x100, last = 0x1ff}]\n";

const RING_OF_THREE: &str = "version = 1\nshape = \"torus\"\ndims = [3]\nstages = 1\nbuffer = 2\n\
domain = [{name = \"a\", channels = 1}]\n\
tile = [{at = 0, domains = [\"a\"]}, {at = 1, domains = [\"a\"]}, {at = 2, domains = [\"a\"]}]\n\
range = [{tile = 0, first = 0x0, last = 0xff}]\n";

const ROW_OF_FIVE: &str = "version = 1\nshape = \"mesh\"\ndims = [5]\nstages = 4\nbuffer = 2\n\
domain = [{name = \"a\", channels = 1}, {name = \"b\", channels = 1}, {name = \"c\", channels = 1}]\n\
tile = [{at = 0, domains = [\"a\", \"b\", \"c\"]}, {at = 4, domains = [\"a\", \"b\", \"c\"]}]\n\
range = [{tile = 0, first = 0x0, last = 0xff}, {tile = 4, first = 0x400, last = 0x4ff}]\n";

const OVERLAPPING: &str = "version = 1\nshape = \"mesh\"\ndims = [2]\nstages = 1\nbuffer = 2\n\
domain = [{name = \"a\", channels = 1}, {name = \"b\", channels = 1}]\n\
tile = [{at = 0, domains = [\"a\", \"b\"]}, {at = 1, domains = [\"a\", \"b\"]}]\n\
range = [{tile = 0, first = 0x0, last = 0xff}, {tile = 1, first = 0xff, last = 0x1ff}]\n";

const WEIGHTED: &str = "version = 2\nshape = \"mesh\"\ndims = [2]\nstages = 1\nbuffer = 2\n\
domain = [{name = \"a\", channels = 1}, {name = \"b\", channels = 1}]\n\
slots = [\"a\", \"a\", \"b\"]\n\
tile = [{at = 0, domains = [\"a\", \"b\"]}, {at = 1, domains = [\"a\", \"b\"]}]\n\
range = [{tile = 0, first = 0x0, last = 0xff}, {tile = 1, first = 0x100, last = 0x1ff}]\n";

const ONE_TILE: &str = "version = 1\nshape = \"mesh\"\ndims = [1]\nstages = 1\nbuffer = 2\n\
domain = [{name = \"a\", channels = 1}]\n\
tile = [{at = 0, domains = [\"a\"]}]\n\
range = [{tile = 0, first = 0x10, last = 0x1f}]\n";

const DECIMAL_VERSION: &str =
    "version = 1.0\nshape = \"mesh\"\ndims = [2]\nstages = 2\nbuffer = 2\n\
domain = [{name = \"a\", channels = 1}]\n";

const NUMBER_AS_DOMAIN: &str =
    "version = 1\nshape = \"mesh\"\ndims = [2]\nstages = 2\nbuffer = 2\ndomain = [1]\n";

const CUBE: &str = "version = 2\nshape = \"mesh\"\ndims = [2, 2, 2]\nstages = 1\nbuffer = 2\n\
domain = [{name = \"a\", channels = 1}]\nslots = [\"a\"]\n\
tile = [{at = 0, domains = [\"a\"]}, {at = 7, domains = [\"a\"]}]\n\
range = [{tile = 7, first = 0x700, last = 0x7ff}]\n";

const TOO_MANY_TILES: &str =
    "version = 2\nshape = \"mesh\"\ndims = [16, 16, 2]\nstages = 1\nbuffer = 2\n\
domain = [{name = \"a\", channels = 1}]\nslots = [\"a\"]\n";

const THREE_SIDES: &str =
    "version = 1\nshape = \"mesh\"\ndims = [1, 1, 1]\nstages = 1\nbuffer = 2\n\
domain = [{name = \"a\", channels = 1}]\n";

const RING_OF_FOUR: &str = "version = 1\nshape = \"torus\"\ndims = [4]\nstages = 1\nbuffer = 2\n\
domain = [{name = \"a\", channels = 1}]\n";

const ONE_PLACE: &str = "version = 1\nshape = \"mesh\"\ndims = [1]\nstages = 1\nbuffer = 1\n\
domain = [{name = \"a\", channels = 1}]\n\
tile = [{at = 0, domains = [\"a\"]}]\n\
range = [{tile = 0, first = 0x10, last = 0x1f}]\n";

const THREE_PLACES: &str = "version = 1\nshape = \"mesh\"\ndims = [1]\nstages = 1\nbuffer = 3\n\
domain = [{name = \"a\", channels = 1}]\n\
tile = [{at = 0, domains = [\"a\"]}]\n\
range = [{tile = 0, first = 0x10, last = 0x1f}]\n";

/// A link of it has more than 64 counts of credits.
const MANY_CREDITS: &str = "version = 1\nshape = \"torus\"\ndims = [2]\nstages = 1\nbuffer = 1\n\
domain = [{name = \"e0\", channels = 4}, {name = \"e1\", channels = 4}, {name = \"e2\", channels = 4}, {name = \"e3\", channels = 4}, \
{name = \"e4\", channels = 4}, {name = \"e5\", channels = 4}, {name = \"e6\", channels = 4}, {name = \"e7\", channels = 4}, \
{name = \"e8\", channels = 4}, {name = \"e9\", channels = 4}, {name = \"e10\", channels = 4}, {name = \"e11\", channels = 4}, \
{name = \"e12\", channels = 4}, {name = \"e13\", channels = 4}, {name = \"e14\", channels = 4}, {name = \"e15\", channels = 4}]\n";

/// What is told of each of its domains where no word is offered.
const QUIET_REPORTS: &str =
    "domain e0\nend 0 0 0 0\ndomain e1\nend 0 0 0 0\ndomain e2\nend 0 0 0 0\ndomain e3\nend 0 0 0 0\n\
domain e4\nend 0 0 0 0\ndomain e5\nend 0 0 0 0\ndomain e6\nend 0 0 0 0\ndomain e7\nend 0 0 0 0\n\
domain e8\nend 0 0 0 0\ndomain e9\nend 0 0 0 0\ndomain e10\nend 0 0 0 0\ndomain e11\nend 0 0 0 0\n\
domain e12\nend 0 0 0 0\ndomain e13\nend 0 0 0 0\ndomain e14\nend 0 0 0 0\ndomain e15\nend 0 0 0 0\n";

const SHARED_CORNERS: &str =
    "version = 1\nshape = \"mesh\"\ndims = [4, 4]\nstages = 1\nbuffer = 4\n\
domain = [{name = \"d0\", channels = 1}, {name = \"d1\", channels = 1},\n\
{name = \"d2\", channels = 1}, {name = \"d3\", channels = 1}]\n\
tile = [{at = 0, domains = [\"d0\", \"d1\", \"d2\", \"d3\"]}, {at = 1, domains = [\"d1\"]},\n\
{at = 2, domains = [\"d2\"]}, {at = 3, domains = [\"d0\", \"d1\", \"d2\", \"d3\"]},\n\
{at = 4, domains = [\"d0\"]}, {at = 5, domains = [\"d1\"]},\n\
{at = 6, domains = [\"d2\"]}, {at = 7, domains = [\"d3\"]},\n\
{at = 8, domains = [\"d0\"]}, {at = 9, domains = [\"d1\"]},\n\
{at = 10, domains = [\"d2\"]}, {at = 11, domains = [\"d3\"]},\n\
{at = 12, domains = [\"d0\", \"d1\", \"d2\", \"d3\"]}, {at = 13, domains = [\"d1\"]},\n\
{at = 14, domains = [\"d2\"]}, {at = 15, domains = [\"d0\", \"d1\", \"d2\", \"d3\"]}]\n\
range = [{tile = 0, first = 0x0, last = 0xfff}, {tile = 1, first = 0x1000, last = 0x1fff},\n\
{tile = 2, first = 0x2000, last = 0x2fff}, {tile = 3, first = 0x3000, last = 0x3fff},\n\
{tile = 4, first = 0x4000, last = 0x4fff}, {tile = 5, first = 0x5000, last = 0x5fff},\n\
{tile = 6, first = 0x6000, last = 0x6fff}, {tile = 7, first = 0x7000, last = 0x7fff},\n\
{tile = 8, first = 0x8000, last = 0x8fff}, {tile = 9, first = 0x9000, last = 0x9fff},\n\
{tile = 10, first = 0xa000, last = 0xafff}, {tile = 11, first = 0xb000, last = 0xbfff},\n\
{tile = 12, first = 0xc000, last = 0xcfff}, {tile = 13, first = 0xd000, last = 0xdfff},\n\
{tile = 14, first = 0xe000, last = 0xefff}, {tile = 15, first = 0xf000, last = 0xffff}]\n";

const MANY_PLACES: &str = "version = 1\nshape = \"torus\"\ndims = [8, 8]\nstages = 1\nbuffer = 4\n\
domain = [{name = \"a\", channels = 2}, {name = \"b\", channels = 2}, {name = \"c\", channels = 2}, \
{name = \"d\", channels = 2}]\n";

/// Runs the words over these files, by name, and answers the status and what is on the output and the error stream.
fn run_over(
    rt: &HostRuntime,
    words: &str,
    held: &[(&str, &[u8])],
    file_fails: &[u64],
    sink_fails: &[u64],
) -> Result<(Status, String, String), Fail> {
    let alloc = rt.alloc();
    let mut files = MemFiles::new(alloc, 4096, file_fails)?;
    for (name, bytes) in held {
        files.put(name, bytes)?;
    }
    let mut out = MemSink::new(alloc, 131072, 8, sink_fails)?;
    let mut err = MemSink::new(alloc, 4096, 64, &[])?;
    let mut list = Vec::new(alloc);
    for word in words.split_whitespace() {
        list.push(String::from_str(alloc, word)?)?;
    }
    let status = surf(alloc, &list, &mut files, &mut out, &mut err);
    let written = String::from_utf8_lossy(alloc, out.bytes())?;
    let said = String::from_utf8_lossy(alloc, err.bytes())?;
    Ok((status, written, said))
}

/// Runs the words over a description `d` and a trace `t`.
fn run(
    rt: &HostRuntime,
    words: &str,
    content: Option<&[u8]>,
    trace: Option<&str>,
    file_fails: &[u64],
    sink_fails: &[u64],
) -> Result<(Status, String, String), Fail> {
    let mut held = Vec::new(rt.alloc());
    if let Some(bytes) = content {
        held.push(("d", bytes))?;
    }
    if let Some(text) = trace {
        held.push(("t", text.as_bytes()))?;
    }
    run_over(rt, words, held.as_slice(), file_fails, sink_fails)
}

#[test]
fn each_command_gives_its_status_and_bytes(rt: HostRuntime) -> Result<(), Fail> {
    let table = "0 0 1 a\n0 1 2 b\n1 0 1 b\n1 1 2 a\n";
    let rows = [
        ("schedule d 2", Some(TWO_TILES), Status::Good, table, ""),
        ("schedule d 0", Some(TWO_TILES), Status::Good, "", ""),
        (
            "schedule d 4097",
            Some(TWO_TILES),
            Status::Usage,
            "",
            "surf: usage\n",
        ),
        (
            "schedule d 3",
            Some(WEIGHTED),
            Status::Good,
            "0 0 1 a\n0 1 2 a\n1 0 1 a\n1 1 2 b\n2 0 1 b\n2 1 2 a\n",
            "",
        ),
        (
            "schedule d 2",
            Some(OVERLAPPING),
            Status::Description,
            "",
            "surf: description fault 20 0 1\n",
        ),
        (
            "schedule d 2",
            Some(""),
            Status::Description,
            "",
            "surf: description fault 3 0 0 0\n",
        ),
        (
            "check d",
            Some(ONE_TILE),
            Status::Good,
            "accepted tiles 1 domains 1 places 6 hop 4\n",
            "",
        ),
        (
            "check d",
            Some(CUBE),
            Status::Good,
            "accepted tiles 8 domains 1 places 112 hop 4\n",
            "",
        ),
        (
            "check d",
            Some(SHARED_CORNERS),
            Status::Good,
            "accepted tiles 16 domains 4 places 1280 hop 4\n",
            "",
        ),
        (
            "check d",
            Some("colour = 1\n"),
            Status::Description,
            "",
            "surf: description fault 2 0 0 0\n",
        ),
        (
            "check d",
            Some("version = 1\nversion = 1\n"),
            Status::Description,
            "",
            "surf: description fault 1\n",
        ),
        (
            "check d",
            Some(DECIMAL_VERSION),
            Status::Description,
            "",
            "surf: description fault 4 0 0 0\n",
        ),
        (
            "check d",
            Some(NUMBER_AS_DOMAIN),
            Status::Description,
            "",
            "surf: description fault 4 0 0 5\n",
        ),
        (
            "check d",
            Some(TOO_MANY_TILES),
            Status::Description,
            "",
            "surf: description fault 7\n",
        ),
        (
            "upgrade d",
            Some(THREE_SIDES),
            Status::Description,
            "",
            "surf: description fault 7\n",
        ),
        ("check d", None, Status::Read, "", "surf: read failed\n"),
        (
            "check d 1",
            Some(ONE_TILE),
            Status::Usage,
            "",
            "surf: usage\n",
        ),
        (
            "schedule d 2",
            None,
            Status::Read,
            "",
            "surf: read failed\n",
        ),
        ("", Some(TWO_TILES), Status::Usage, "", "surf: usage\n"),
        (
            "schedule d 00000000002",
            Some(TWO_TILES),
            Status::Usage,
            "",
            "surf: usage\n",
        ),
        ("--help", None, Status::Usage, "", "surf: usage\n"),
        (
            "aiger d",
            Some(MANY_PLACES),
            Status::Size,
            "",
            "surf: too many places\n",
        ),
        (
            "aiger d t",
            Some(ONE_TILE),
            Status::Usage,
            "",
            "surf: usage\n",
        ),
        ("aiger", Some(ONE_TILE), Status::Usage, "", "surf: usage\n"),
    ];
    for (words, content, status, out, err) in rows {
        let got = run(
            &rt,
            words,
            content.map(|text| text.as_bytes()),
            None,
            &[],
            &[],
        )?;
        assert!(rt; got.0 == status, "{words}: {:?}", got.0);
        assert_eq!(rt; got.1.as_str(), out, "{words}");
        assert_eq!(rt; got.2.as_str(), err, "{words}");
    }
    Ok(())
}

#[test]
fn routes_take_the_shorter_way_round(rt: HostRuntime) -> Result<(), Fail> {
    let rows = [
        (RING_OF_FOUR, "0 0 0 0\n0 1 1 0\n0 2 1 0\n0 3 2 1\n"),
        (CUBE, "\n0 7 1 0\n"),
        (CUBE, "\n3 7 5 0\n"),
    ];
    for (content, lines) in rows {
        let (status, out, err) = run(&rt, "routes d", Some(content.as_bytes()), None, &[], &[])?;
        assert!(rt; status == Status::Good);
        assert!(rt; out.as_str().contains(lines), "{lines}");
        assert_eq!(rt; err.as_str(), "");
    }
    Ok(())
}

#[test]
fn an_upgraded_description_says_the_same_plan(rt: HostRuntime) -> Result<(), Fail> {
    let content = Some(TWO_TILES.as_bytes());
    let (status, text, err) = run(&rt, "upgrade d", content, None, &[], &[])?;
    assert!(rt; status == Status::Good);
    assert_eq!(rt; err.as_str(), "");
    let upgraded = Some(text.as_bytes());
    for words in ["check d", "routes d", "schedule d 2"] {
        let (_, before, _) = run(&rt, words, content, None, &[], &[])?;
        let (status, after, _) = run(&rt, words, upgraded, None, &[], &[])?;
        assert!(rt; status == Status::Good);
        assert_eq!(rt; after.as_str(), before.as_str());
    }
    let (_, again, _) = run(&rt, "upgrade d", upgraded, None, &[], &[])?;
    assert_eq!(rt; again.as_str(), text.as_str());
    Ok(())
}

#[test]
fn failing_calls_give_their_status(rt: HostRuntime) -> Result<(), Fail> {
    let content = Some(TWO_TILES.as_bytes());
    let (status, out, err) = run(&rt, "schedule d 2", content, None, &[2], &[])?;
    assert!(rt; status == Status::Read);
    assert_eq!(rt; out.as_str(), "");
    assert_eq!(rt; err.as_str(), "surf: read failed\n");
    let (status, out, err) = run(&rt, "schedule d 2", content, None, &[], &[2])?;
    assert!(rt; status == Status::Write);
    assert_eq!(rt; out.as_str(), "0 0 1 a\n");
    assert_eq!(rt; err.as_str(), "surf: write failed\n");
    let long = vec![in rt.alloc(); 32u8; 1_048_577]?;
    let (status, out, err) = run(&rt, "schedule d 2", Some(long.as_slice()), None, &[], &[])?;
    assert!(rt; status == Status::TooLong);
    assert_eq!(rt; out.as_str(), "");
    assert_eq!(rt; err.as_str(), "surf: file too long\n");
    Ok(())
}

#[test]
fn statuses_have_their_numbers(rt: HostRuntime) {
    let rows = [
        (Status::Good, 0),
        (Status::Leak, 1),
        (Status::Usage, 2),
        (Status::Description, 3),
        (Status::Trace, 4),
        (Status::Text, 5),
        (Status::Read, 6),
        (Status::Write, 7),
        (Status::Memory, 8),
        (Status::TooLong, 9),
        (Status::Domain, 10),
        (Status::Size, 11),
    ];
    for (status, number) in rows {
        assert_eq!(rt; status.number(), number);
    }
}

const ONE_WORD: &str = "0 0 a send 00000010 0000002a\n";

const DEAF: &str = "0 0 a hold 10\n0 0 a send 10 1\n0 0 a send 10 2\n0 0 a send 10 3\n";

#[test]
fn one_tile_gives_its_reports(rt: HostRuntime) -> Result<(), Fail> {
    let rows = [
        (
            "simulate d t 6",
            ONE_TILE,
            ONE_WORD,
            "domain a\n0 0 take 0000002a\n4 0 got 11 0000002a\nend 1 0 0 1\n",
        ),
        (
            "simulate d t 0",
            ONE_TILE,
            ONE_WORD,
            "domain a\nend 0 0 0 0\n",
        ),
        ("simulate d t 9", ONE_TILE, "", "domain a\nend 0 0 0 0\n"),
        (
            "simulate d t 16",
            ONE_PLACE,
            DEAF,
            "domain a\n0 0 take 00000001\n1 0 wait 00000002\n2 0 wait 00000002\n3 0 wait 00000002\n\
4 0 take 00000002\n5 0 wait 00000003\n6 0 wait 00000003\n7 0 wait 00000003\n8 0 wait 00000003\n\
9 0 wait 00000003\n10 0 wait 00000003\n10 0 got 11 00000001\n11 0 take 00000003\n\
11 0 got 11 00000002\n15 0 got 11 00000003\nend 3 9 0 3\n",
        ),
        (
            "report d t 6 a",
            ONE_TILE,
            ONE_WORD,
            "domain a\n0 0 take 0000002a\n4 0 got 11 0000002a\nend 1 0 0 1\n",
        ),
        (
            "simulate d t 4",
            ONE_TILE,
            "0 0 a send 99 1 2\n",
            "domain a\n0 0 take 00000001\n1 0 take 00000002\n1 0 drop\n2 0 drop\nend 2 0 2 0\n",
        ),
    ];
    for (words, content, trace, lines) in rows {
        let content = Some(content.as_bytes());
        let (status, out, err) = run(&rt, words, content, Some(trace), &[], &[])?;
        assert!(rt; status == Status::Good, "{words}");
        assert_eq!(rt; out.as_str(), lines, "{words}");
        assert_eq!(rt; err.as_str(), "", "{words}");
    }
    Ok(())
}

const MEET: &str = "0 0 a send 100 a\n0 0 b send 100 b\n";

const CROWDED: &str = "0 0 a send 100 a\n0 0 b send 100 b\n0 0 b send 100 1 2 3 4 5 6 7 8\n";

const ALONE_IN_A: &str = "domain a\n0 0 take 0000000a\n9 1 got 11 0000000a\nend 1 0 0 1\n";

#[test]
fn many_tiles_give_their_reports(rt: HostRuntime) -> Result<(), Fail> {
    let rows = [
        (
            "simulate d t 12",
            ONE_LINK,
            MEET,
            "domain a\n0 0 take 0000000a\n9 1 got 11 0000000a\nend 1 0 0 1\n\
domain b\n0 0 take 0000000b\n8 1 got 11 0000000b\nend 1 0 0 1\n",
        ),
        (
            "report d t 12 b",
            ONE_LINK,
            MEET,
            "domain b\n0 0 take 0000000b\n8 1 got 11 0000000b\nend 1 0 0 1\n",
        ),
        ("report d t 12 a", ONE_LINK, CROWDED, ALONE_IN_A),
        (
            "simulate d t 4",
            SPLIT_DOMAINS,
            "0 0 a send 100 5\n",
            "domain a\n0 0 take 00000005\n1 0 drop\nend 1 0 1 0\ndomain b\nend 0 0 0 0\n",
        ),
        (
            "simulate d t 10",
            RING_OF_THREE,
            "0 2 a send 0 9\n",
            "domain a\n0 2 take 00000009\n8 0 got 11 00000009\nend 1 0 0 1\n",
        ),
        (
            "simulate d t 14",
            HALF_A_RING,
            "0 0 a send 200 7\n",
            "domain a\n0 0 take 00000007\n12 2 got 11 00000007\nend 1 0 0 1\n",
        ),
        (
            "simulate d t 14",
            ROW_OF_THREE,
            "0 0 a send 100 a1 a2\n0 2 a send 100 b1 b2\n",
            "domain a\n0 0 take 000000a1\n0 2 take 000000b1\n1 0 take 000000a2\n1 2 take 000000b2\n\
8 1 got 10 000000b1\n9 1 got 01 000000b2\n11 1 got 10 000000a1\n12 1 got 01 000000a2\nend 4 0 0 4\n",
        ),
        (
            "simulate d t 36",
            ROW_OF_FIVE,
            "0 0 a send 400 1\n0 4 b send 0 2\n0 0 c send 400 3\n",
            "domain a\n0 0 take 00000001\n32 4 got 11 00000001\nend 1 0 0 1\n\
domain b\n0 4 take 00000002\n32 0 got 11 00000002\nend 1 0 0 1\n\
domain c\n0 0 take 00000003\n34 4 got 11 00000003\nend 1 0 0 1\n",
        ),
        (
            "simulate d t 12",
            WEIGHTED,
            MEET,
            "domain a\n0 0 take 0000000a\n8 1 got 11 0000000a\nend 1 0 0 1\n\
domain b\n0 0 take 0000000b\n10 1 got 11 0000000b\nend 1 0 0 1\n",
        ),
        (
            "simulate d t 20",
            CUBE,
            "0 0 a send 700 5\n",
            "domain a\n0 0 take 00000005\n16 7 got 11 00000005\nend 1 0 0 1\n",
        ),
    ];
    for (words, content, trace, lines) in rows {
        let content = Some(content.as_bytes());
        let (status, out, err) = run(&rt, words, content, Some(trace), &[], &[])?;
        assert!(rt; status == Status::Good, "{words}");
        assert_eq!(rt; out.as_str(), lines, "{words}");
        assert_eq!(rt; err.as_str(), "", "{words}");
    }
    Ok(())
}

#[test]
fn a_busy_domain_changes_no_byte_of_another(rt: HostRuntime) -> Result<(), Fail> {
    let content = Some(ONE_LINK.as_bytes());
    for trace in [MEET, CROWDED] {
        let (status, out, _) = run(&rt, "simulate d t 12", content, Some(trace), &[], &[])?;
        assert!(rt; status == Status::Good);
        assert!(rt; out.as_str().starts_with(ALONE_IN_A));
    }
    Ok(())
}

#[test]
fn refused_simulations_say_why(rt: HostRuntime) -> Result<(), Fail> {
    let rows = [
        (
            "simulate d t 65537",
            ONE_TILE,
            ONE_WORD,
            Status::Usage,
            "surf: usage\n",
        ),
        (
            "simulate d t",
            ONE_TILE,
            ONE_WORD,
            Status::Usage,
            "surf: usage\n",
        ),
        (
            "simulate d u 6",
            ONE_TILE,
            ONE_WORD,
            Status::Read,
            "surf: read failed\n",
        ),
        (
            "simulate d u 6",
            "",
            ONE_WORD,
            Status::Read,
            "surf: read failed\n",
        ),
        (
            "simulate d t 6",
            "",
            "0 0 a send",
            Status::Description,
            "surf: description fault 3 0 0 0\n",
        ),
        (
            "simulate d t 6",
            TWO_TILES,
            "0 0 a send",
            Status::Trace,
            "surf: trace fault 1 line 1\n",
        ),
        (
            "simulate d t 6",
            ONE_TILE,
            "0 0 a send",
            Status::Trace,
            "surf: trace fault 1 line 1\n",
        ),
        (
            "simulate d t 6",
            ONE_TILE,
            "0 9 a send\n\n",
            Status::Trace,
            "surf: trace fault 1 line 1\n",
        ),
        (
            "simulate d t 6",
            ONE_TILE,
            "# a\n0 0 q hold x",
            Status::Trace,
            "surf: trace fault 2 line 2\n",
        ),
        (
            "simulate d t 6",
            ONE_TILE,
            "0 9 q hold 1",
            Status::Trace,
            "surf: trace fault 3 line 1\n",
        ),
        (
            "simulate d t 6",
            ONE_TILE,
            "0 0 q hold 1",
            Status::Trace,
            "surf: trace fault 4 line 1\n",
        ),
        (
            "simulate d t 6",
            SPLIT_DOMAINS,
            "0 1 a hold 1",
            Status::Trace,
            "surf: trace fault 5 line 1\n",
        ),
        (
            "simulate d t 6",
            ONE_TILE,
            "0 0 a send 10",
            Status::Trace,
            "surf: trace fault 6 line 1\n",
        ),
        (
            "report d t 6 z",
            ONE_TILE,
            ONE_WORD,
            Status::Domain,
            "surf: no such domain\n",
        ),
        (
            "report d t 6 z",
            ONE_TILE,
            "0 0 a send 10",
            Status::Domain,
            "surf: no such domain\n",
        ),
        (
            "report d t 6 a",
            ONE_TILE,
            "0 0 a send 10",
            Status::Trace,
            "surf: trace fault 6 line 1\n",
        ),
        (
            "report d t 6 z",
            "",
            ONE_WORD,
            Status::Description,
            "surf: description fault 3 0 0 0\n",
        ),
        (
            "report d t 6 a.b",
            ONE_TILE,
            ONE_WORD,
            Status::Usage,
            "surf: usage\n",
        ),
        (
            "report d t 6 a2345678901234567",
            ONE_TILE,
            ONE_WORD,
            Status::Usage,
            "surf: usage\n",
        ),
        (
            "report d t 6",
            ONE_TILE,
            ONE_WORD,
            Status::Usage,
            "surf: usage\n",
        ),
    ];
    for (words, content, trace, status, line) in rows {
        let content = Some(content.as_bytes());
        let got = run(&rt, words, content, Some(trace), &[], &[])?;
        assert!(rt; got.0 == status, "{words}: {:?}", got.0);
        assert_eq!(rt; got.1.as_str(), "", "{words}");
        assert_eq!(rt; got.2.as_str(), line, "{words}");
    }
    Ok(())
}

#[test]
fn failing_calls_of_a_simulation_give_their_status(rt: HostRuntime) -> Result<(), Fail> {
    let content = Some(ONE_TILE.as_bytes());
    let (status, out, _) = run(&rt, "simulate d t 6", content, Some(ONE_WORD), &[], &[2])?;
    assert!(rt; status == Status::Write);
    assert_eq!(rt; out.as_str(), "domain a");
    let (status, out, err) = run(&rt, "simulate d t 6", content, Some(ONE_WORD), &[5], &[])?;
    assert!(rt; status == Status::Read);
    assert_eq!(rt; out.as_str(), "");
    assert_eq!(rt; err.as_str(), "surf: read failed\n");
    Ok(())
}

// The ports of a tile's only attachment.
const PORTS: &str =
    "(input wire clk, input wire rst, input wire [0:0] ov_0_0, input wire [31:0] oa_0_0,\n\
input wire [31:0] op_0_0, input wire [0:0] ol_0_0, input wire [0:0] hr_0_0, output wire [0:0] rd_0_0,\n\
output wire [0:0] dr_0_0, output wire [0:0] ev_0_0, output wire [0:0] eh_0_0, output wire [0:0] et_0_0,\n\
output wire [31:0] ep_0_0);\n";

const READY: &str = "assign rd_0_0 = 1'd1; ";

const DROPPED: &str = "assign dr_0_0 = s_0; ";

const NOTHING_GOT: &str =
    "assign ev_0_0 = 1'd0; assign eh_0_0 = 1'd0; assign et_0_0 = 1'd0; assign ep_0_0 = 32'd0;\n\
always @(posedge clk) if (rst) s_0 <= 1'd0; else s_0 <= ov_0_0;\nendmodule\nmodule noc ";

const JOINS: &str =
    "router_0 tile_0 (.clk(clk), .rst(rst), .ov_0_0(ov_0_0), .oa_0_0(oa_0_0), .op_0_0(op_0_0),\n\
.ol_0_0(ol_0_0), .hr_0_0(hr_0_0), .rd_0_0(rd_0_0), .dr_0_0(dr_0_0), .ev_0_0(ev_0_0), .eh_0_0(eh_0_0),\n\
.et_0_0(et_0_0), .ep_0_0(ep_0_0)); endmodule\n";

const WRONG_WIDTH: &str =
    "module r_0 (input wire clk, input wire rst, output wire [1:0] q_0);\n  assign q_0 = 3'd0;\nendmodule\n\
module noc (input wire clk, input wire rst);\nendmodule\n";

const ONE_OUTPUT: &str =
    "module r_0 (input wire clk, input wire rst, output wire [0:0] q_0); assign q_0 = ";

/// A text with one tile, whose leaf takes each word and drops it, but for these assigns.
fn one_leaf(alloc: Global, ready: &str, dropped: &str) -> Result<String, AllocError> {
    let mut text = String::from_str(alloc, "module router_0 ")?;
    text.push_str(PORTS)?;
    text.push_str("reg [0:0] s_0; ")?;
    text.push_str(ready)?;
    text.push_str(dropped)?;
    text.push_str(NOTHING_GOT)?;
    text.push_str(PORTS)?;
    text.push_str(JOINS)?;
    Ok(text)
}

/// Replays a text `v` over a description `d` and a trace `t`.
fn replay(
    rt: &HostRuntime,
    words: &str,
    content: &str,
    text: &[u8],
    trace: &str,
) -> Result<(Status, String, String), Fail> {
    let held = [
        ("d", content.as_bytes()),
        ("v", text),
        ("t", trace.as_bytes()),
    ];
    run_over(rt, words, &held, &[], &[])
}

#[test]
fn a_text_gives_its_reports(rt: HostRuntime) -> Result<(), Fail> {
    let text = one_leaf(rt.alloc(), READY, DROPPED)?;
    let rows = [
        (
            "replay d v t 6",
            ONE_WORD,
            "domain a\n0 0 take 0000002a\n1 0 drop\nend 1 0 1 0\n",
        ),
        ("replay d v t 0", ONE_WORD, "domain a\nend 0 0 0 0\n"),
        (
            "replay d v t 3",
            "0 0 a send 10 1 2 3\n",
            "domain a\n0 0 take 00000001\n1 0 take 00000002\n1 0 drop\n2 0 take 00000003\n2 0 drop\n\
end 3 0 2 0\n",
        ),
    ];
    for (words, trace, lines) in rows {
        let (status, out, err) = replay(&rt, words, ONE_TILE, text.as_bytes(), trace)?;
        assert!(rt; status == Status::Good, "{words}");
        assert_eq!(rt; out.as_str(), lines, "{words}");
        assert_eq!(rt; err.as_str(), "", "{words}");
    }
    Ok(())
}

#[test]
fn a_link_of_many_credits_is_accepted(rt: HostRuntime) -> Result<(), Fail> {
    let content = Some(MANY_CREDITS.as_bytes());
    let (status, out, err) = run(&rt, "check d", content, None, &[], &[])?;
    assert!(rt; status == Status::Good);
    assert_eq!(rt;
        out.as_str(),
        "accepted tiles 2 domains 16 places 768 hop 4\n"
    );
    assert_eq!(rt; err.as_str(), "");
    let (status, out, err) = run(&rt, "simulate d t 5", content, Some(""), &[], &[])?;
    assert!(rt; status == Status::Good);
    assert_eq!(rt; out.as_str(), QUIET_REPORTS);
    assert_eq!(rt; err.as_str(), "");
    Ok(())
}

#[test]
fn a_compiled_text_replays_as_the_simulation(rt: HostRuntime) -> Result<(), Fail> {
    let rows = [
        (ONE_TILE, ONE_WORD, "simulate d t 6", "replay d v t 6"),
        (ONE_PLACE, DEAF, "simulate d t 16", "replay d v t 16"),
        (ONE_LINK, MEET, "simulate d t 12", "replay d v t 12"),
        (WEIGHTED, MEET, "simulate d t 12", "replay d v t 12"),
        (
            RING_OF_THREE,
            "0 2 a send 0 9\n",
            "simulate d t 10",
            "replay d v t 10",
        ),
        (
            CUBE,
            "0 0 a send 700 5\n",
            "simulate d t 20",
            "replay d v t 20",
        ),
    ];
    for (content, trace, simulated, replayed) in rows {
        let held = Some(content.as_bytes());
        let (status, text, err) = run(&rt, "compile d", held, None, &[], &[])?;
        assert!(rt; status == Status::Good, "{content}");
        assert_eq!(rt; err.as_str(), "", "{content}");
        let (_, reports, _) = run(&rt, simulated, held, Some(trace), &[], &[])?;
        let (status, out, err) = replay(&rt, replayed, content, text.as_bytes(), trace)?;
        assert!(rt; status == Status::Good, "{content}");
        assert_eq!(rt; out.as_str(), reports.as_str(), "{content}");
        assert_eq!(rt; err.as_str(), "", "{content}");
    }
    Ok(())
}

/// The text of an accepted description.
fn compiled(rt: &HostRuntime, content: &str) -> Result<String, Fail> {
    let (_, text, _) = run(rt, "compile d", Some(content.as_bytes()), None, &[], &[])?;
    Ok(text)
}

#[test]
fn compiled_texts_isolate_their_domains(rt: HostRuntime) -> Result<(), Fail> {
    let rows = [
        (ONE_TILE, "isolated domains 1 phases 1\n"),
        (TWO_TILES, "isolated domains 2 phases 2\n"),
        (WEIGHTED, "isolated domains 2 phases 3\n"),
        (ROW_OF_FIVE, "isolated domains 3 phases 3\n"),
    ];
    for (content, isolated) in rows {
        let text = compiled(&rt, content)?;
        let (status, out, err) = replay(&rt, "audit d v", content, text.as_bytes(), "")?;
        assert!(rt; status == Status::Good, "{content}");
        assert_eq!(rt; out.as_str(), isolated, "{content}");
        assert_eq!(rt; err.as_str(), "", "{content}");
    }
    Ok(())
}

/// The numbers of the input ports of a tile in 16 cycles: words 1 to 3 are offered until they are taken, in the cycles
/// in which `ONE_PLACE` takes them, and the tile hears from cycle 10 on.
const OFFERS: [[u64; 5]; 16] = [
    [1, 16, 1, 1, 0],
    [1, 16, 2, 1, 0],
    [1, 16, 2, 1, 0],
    [1, 16, 2, 1, 0],
    [1, 16, 2, 1, 0],
    [1, 16, 3, 1, 0],
    [1, 16, 3, 1, 0],
    [1, 16, 3, 1, 0],
    [1, 16, 3, 1, 0],
    [1, 16, 3, 1, 0],
    [1, 16, 3, 1, 1],
    [1, 16, 3, 1, 1],
    [0, 0, 0, 0, 1],
    [0, 0, 0, 0, 1],
    [0, 0, 0, 0, 1],
    [0, 0, 0, 0, 1],
];

/// The design of a text for `ONE_PLACE`.
fn one_place(alloc: Global, text: &str) -> Result<Sound, AllocError> {
    let Ok(plan) = judge(alloc, ONE_PLACE.as_bytes()) else {
        return Err(AllocError);
    };
    match judge_text(alloc, &plan, text.as_bytes()) {
        Ok(sound) => Ok(sound),
        Err(_) => Err(AllocError),
    }
}

/// The machine of a text for `ONE_PLACE`.
fn machine(alloc: Global, text: &str) -> Result<Machine, AllocError> {
    Machine::new(alloc, one_place(alloc, text)?)
}

/// The bits that the output ports of a tile show, the first as bit 0.
fn shown(machine: &Machine) -> u64 {
    machine.outputs(5)
        | (machine.outputs(6) << 1)
        | (machine.outputs(7) << 2)
        | (machine.outputs(8) << 3)
        | (machine.outputs(9) << 4)
        | (machine.outputs(10) << 5)
}

#[test]
fn a_buffer_is_a_memory(rt: HostRuntime) -> Result<(), Fail> {
    let rows = [
        (ONE_PLACE, "  reg [37:0] Y14_ [0:1];\n"),
        (THREE_PLACES, "  reg [37:0] Y14_ [0:3];\n"),
    ];
    for (content, line) in rows {
        let text = compiled(&rt, content)?;
        assert!(rt; text.as_str().contains(line), "{content}");
        // There is no other one.
        assert!(rt;
            text.as_str().find("_ [0:") == text.as_str().rfind("_ [0:"),
            "{content}"
        );
    }
    Ok(())
}

#[test]
fn first_words_of_memories_are_not_shown(rt: HostRuntime) -> Result<(), Fail> {
    let text = compiled(&rt, ONE_PLACE)?;
    let mut zeros = machine(rt.alloc(), text.as_str())?;
    let mut ones = machine(rt.alloc(), text.as_str())?;
    // The words of the text's one memory.
    ones.put_mem(0, 0, 0, 0x3f_ffff_ffff);
    ones.put_mem(0, 0, 1, 0x3f_ffff_ffff);
    let mut got: u64 = 0;
    for inputs in OFFERS {
        assert_eq!(rt; shown(&ones), shown(&zeros));
        if ones.outputs(7) & inputs[4] == 1 {
            got = got.wrapping_mul(16).wrapping_add(ones.outputs(10));
        }
        zeros.edge(&inputs);
        ones.edge(&inputs);
    }
    assert_eq!(rt; got, 0x123);
    Ok(())
}

/// The bits of the numbers of a tile's input ports, the first port's first.
fn bits_of(inputs: [u64; 5]) -> [bool; 67] {
    let word = u128::from(inputs[0])
        | (u128::from(inputs[1]) << 1)
        | (u128::from(inputs[2]) << 33)
        | (u128::from(inputs[3]) << 65)
        | (u128::from(inputs[4]) << 66);
    let mut bits = [false; 67];
    for i in 0..67 {
        bits[i] = (word >> i) & 1 == 1;
    }
    bits
}

/// The number of these bits, the first as bit 0.
fn number_of(bits: [bool; 37]) -> u64 {
    let mut number: u64 = 0;
    for i in 0..37 {
        if bits[i] {
            number |= 1 << i;
        }
    }
    number
}

/// Whether a form and a machine show the same in a cycle in which the input ports have these numbers. Both go on.
fn agree(form: &mut AigRun, machine: &mut Machine, inputs: [u64; 5]) -> bool
    requires inputs { form.now.form.inputs ≡ 67 }
    requires outputs { length form.now.form.outputs ≡ 37 }
    ensures { form.new.form ≡ form.old.form }
{
    let mut bits = [false; 37];
    form.step(&bits_of(inputs), &mut bits);
    let same = number_of(bits) == shown(machine);
    machine.edge(&inputs);
    same
}

#[test]
fn a_form_runs_beside_its_text(rt: HostRuntime) -> Result<(), Fail> {
    let alloc = rt.alloc();
    let text = compiled(&rt, ONE_PLACE)?;
    let aig = aig_of(alloc, &one_place(alloc, text.as_str())?)?;
    assert_eq!(rt; aig.inputs, 67);
    assert_eq!(rt; aig.outputs.len(), 37);
    let mut form = AigRun::new(alloc, aig)?;
    let mut machine = machine(alloc, text.as_str())?;
    for inputs in OFFERS {
        assert!(rt; agree(&mut form, &mut machine, inputs));
    }
    Ok(())
}

/// The last five numbers of a text's first line.
fn counts(text: &[u8]) -> [u64; 5] {
    let mut numbers: [u64; 5] = [0; 5];
    for byte in text {
        match *byte {
            b'\n' => return numbers,
            b' ' => numbers = [numbers[1], numbers[2], numbers[3], numbers[4], 0],
            digit => {
                numbers[4] = numbers[4]
                    .wrapping_mul(10)
                    .wrapping_add(u64::from(digit & 15))
            }
        }
    }
    numbers
}

#[test]
fn a_form_has_the_ports_of_the_network(rt: HostRuntime) -> Result<(), Fail> {
    let content = Some(ONE_TILE.as_bytes());
    let (status, text, err) = run(&rt, "aiger d", content, None, &[], &[])?;
    assert!(rt; status == Status::Good);
    assert_eq!(rt; err.as_str(), "");
    let [last, inputs, latches, outputs, gates] = counts(text.as_bytes());
    assert_eq!(rt; inputs, 67);
    assert_eq!(rt; outputs, 37);
    assert_eq!(rt; last, latches.wrapping_add(gates).wrapping_add(67));
    Ok(())
}

#[test]
fn refused_texts_say_why(rt: HostRuntime) -> Result<(), Fail> {
    let alloc = rt.alloc();
    let dropping = one_leaf(alloc, READY, DROPPED)?;
    let driven_twice = one_leaf(
        alloc,
        "assign rd_0_0 = 1'd1; assign rd_0_0 = 1'd1; ",
        DROPPED,
    )?;
    let goes_through = one_leaf(alloc, READY, "assign dr_0_0 = ov_0_0; ")?;
    let mut deep = String::from_str(alloc, ONE_OUTPUT)?;
    for _ in 0..200 {
        deep.push_str("(~")?;
    }
    let mut wide = String::from_str(alloc, ONE_OUTPUT)?;
    wide.push_str("65'd0;")?;
    let mut great = String::from_str(alloc, ONE_OUTPUT)?;
    great.push_str("4'd16;")?;
    let rows: [(&str, &[u8], &str); 15] = [
        (
            ONE_TILE,
            b"module noc (input wire clk, input wire rst);\nendmodul",
            "2 at 45",
        ),
        (ONE_TILE, b"", "3 at 0"),
        (
            ONE_TILE,
            b"module noc (input wire clk, input wire rst);\nendmodule",
            "12 at 0",
        ),
        (ONE_TILE, WRONG_WIDTH.as_bytes(), "6 at 2"),
        (ONE_TILE, driven_twice.as_bytes(), "8 at 6"),
        (ONE_TILE, goes_through.as_bytes(), "9 at 7"),
        (TWO_TILES, dropping.as_bytes(), "12 at 11"),
        (RING_OF_FOUR, dropping.as_bytes(), "12 at 0"),
        (
            ONE_TILE,
            b"module noc (input wire clk, input wire rst); /*",
            "2 at 45",
        ),
        (
            ONE_TILE,
            b"module noc (input wire clk, input wire rst); endmodule // \0",
            "1 at 58",
        ),
        (
            ONE_TILE,
            b"module noc (input wire clk, input wire rst); endmodule x",
            "2 at 55",
        ),
        (
            ONE_TILE,
            b"module noc (input wire clk, input wire rst); endmodule endmodule",
            "3 at 55",
        ),
        (ONE_TILE, deep.as_bytes(), "3 at 479"),
        (ONE_TILE, wide.as_bytes(), "2 at 81"),
        (ONE_TILE, great.as_bytes(), "2 at 81"),
    ];
    for (content, text, fault) in rows {
        for trace in ["", "0 0 a send"] {
            let (status, out, err) = replay(&rt, "replay d v t 0", content, text, trace)?;
            assert!(rt; status == Status::Text, "{fault}");
            assert_eq!(rt; out.as_str(), "", "{fault}");
            assert_eq!(rt;
                err.as_str(),
                format!(in alloc; "surf: text fault {fault}\n")?.as_str()
            );
        }
    }
    Ok(())
}

#[test]
fn refused_replays_say_why(rt: HostRuntime) -> Result<(), Fail> {
    let text = one_leaf(rt.alloc(), READY, DROPPED)?;
    let rows = [
        (
            "replay d v t 65537",
            ONE_TILE,
            ONE_WORD,
            Status::Usage,
            "surf: usage\n",
        ),
        (
            "replay d v t",
            ONE_TILE,
            ONE_WORD,
            Status::Usage,
            "surf: usage\n",
        ),
        (
            "replay d u t 6",
            "",
            ONE_WORD,
            Status::Read,
            "surf: read failed\n",
        ),
        (
            "replay d v t 6",
            "",
            "0 0 a send",
            Status::Description,
            "surf: description fault 3 0 0 0\n",
        ),
        (
            "replay d v t 6",
            ONE_TILE,
            "0 0 a send",
            Status::Trace,
            "surf: trace fault 1 line 1\n",
        ),
    ];
    for (words, content, trace, status, line) in rows {
        let got = replay(&rt, words, content, text.as_bytes(), trace)?;
        assert!(rt; got.0 == status, "{words}: {:?}", got.0);
        assert_eq!(rt; got.1.as_str(), "", "{words}");
        assert_eq!(rt; got.2.as_str(), line, "{words}");
    }
    Ok(())
}

#[test]
fn failing_calls_of_a_replay_give_their_status(rt: HostRuntime) -> Result<(), Fail> {
    let text = one_leaf(rt.alloc(), READY, DROPPED)?;
    let held = [
        ("d", ONE_TILE.as_bytes()),
        ("v", text.as_bytes()),
        ("t", ONE_WORD.as_bytes()),
    ];
    let (status, out, _) = run_over(&rt, "replay d v t 6", &held, &[], &[2])?;
    assert!(rt; status == Status::Write);
    assert_eq!(rt; out.as_str(), "domain a");
    let (status, out, err) = run_over(&rt, "replay d v t 6", &held, &[5], &[])?;
    assert!(rt; status == Status::Read);
    assert_eq!(rt; out.as_str(), "");
    assert_eq!(rt; err.as_str(), "surf: read failed\n");
    Ok(())
}

const TWO_DOMAINS: &str = "version = 1\nshape = \"mesh\"\ndims = [1]\nstages = 1\nbuffer = 2\n\
domain = [{name = \"a\", channels = 1}, {name = \"b\", channels = 1}]\n\
tile = [{at = 0, domains = [\"a\", \"b\"]}]\n\
range = [{tile = 0, first = 0x10, last = 0x1f}]\n";

/// The ports of an attachment, with `@` for its tile and domain, then their joins, then all its outputs but the drop
/// pulse.
const EACH: [&str; 3] = [
    ", input wire [0:0] ov@, input wire [31:0] oa@, input wire [31:0] op@, input wire [0:0] ol@,\n\
input wire [0:0] hr@, output wire [0:0] rd@, output wire [0:0] dr@, output wire [0:0] ev@, output wire [0:0] eh@,\n\
output wire [0:0] et@, output wire [31:0] ep@",
    ", .ov@(ov@), .oa@(oa@), .op@(op@), .ol@(ol@), .hr@(hr@), .rd@(rd@), .dr@(dr@), .ev@(ev@),\n\
.eh@(eh@), .et@(et@), .ep@(ep@)",
    "assign rd@ = 1'd1; assign ev@ = 1'd0; assign eh@ = 1'd0; assign et@ = 1'd0; assign ep@ = 32'd0;\n",
];

/// Adds the text for both attachments of the tile.
fn push_both(text: &mut String, form: &str) -> Result<(), AllocError> {
    for numbers in ["_0_0", "_0_1"] {
        for (i, part) in form.split("@").enumerate() {
            if 0 < i {
                text.push_str(numbers)?;
            }
            text.push_str(part)?;
        }
    }
    Ok(())
}

/// A text with one tile of two domains, which shows the first in its drop pulse what `offered` was in the cycle before.
fn two_domains(alloc: Global, offered: &str) -> Result<String, AllocError> {
    let mut text = String::from_str(alloc, "module router_0 (input wire clk, input wire rst")?;
    push_both(&mut text, EACH[0])?;
    text.push_str(");\nreg [0:0] s_0; always @(posedge clk) if (rst) s_0 <= 1'd0; else s_0 <= ")?;
    text.push_str(offered)?;
    text.push_str("; assign dr_0_0 = s_0; assign dr_0_1 = 1'd0;\n")?;
    push_both(&mut text, EACH[2])?;
    text.push_str("endmodule\nmodule noc (input wire clk, input wire rst")?;
    push_both(&mut text, EACH[0])?;
    text.push_str(");\nrouter_0 tile_0 (.clk(clk), .rst(rst)")?;
    push_both(&mut text, EACH[1])?;
    text.push_str(");\nendmodule\n")?;
    Ok(text)
}

#[test]
fn a_text_isolates_the_domains_or_leaks(rt: HostRuntime) -> Result<(), Fail> {
    let clean = "isolated domains 2 phases 2\n";
    let leak = "surf: leak port 6 phase 0 domain 1\n";
    let rows = [
        ("audit d v", "ov_0_0", Status::Good, clean, ""),
        ("audit d v", "ov_0_1", Status::Leak, "", leak),
        ("audit d", "ov_0_0", Status::Usage, "", "surf: usage\n"),
    ];
    for (words, offered, status, out, err) in rows {
        let text = two_domains(rt.alloc(), offered)?;
        let held = [("d", TWO_DOMAINS.as_bytes()), ("v", text.as_bytes())];
        let got = run_over(&rt, words, &held, &[], &[])?;
        assert!(rt; got.0 == status, "{words}: {:?}", got.0);
        assert_eq!(rt; got.1.as_str(), out, "{words}");
        assert_eq!(rt; got.2.as_str(), err, "{words}");
    }
    Ok(())
}

#[test]
fn a_stress_run_gives_its_counts(rt: HostRuntime) -> Result<(), Fail> {
    let rows = [
        (
            "stress 1 1",
            Status::Good,
            "d0 takes 6 waits 0 drops 0 gots 0 held 6\nd1 takes 8 waits 0 drops 0 gots 0 held 8\n\
d2 takes 8 waits 0 drops 0 gots 0 held 8\nd3 takes 6 waits 0 drops 0 gots 0 held 6\n",
            "",
        ),
        (
            "stress 1 1000",
            Status::Good,
            "d0 takes 937 waits 385 drops 0 gots 921 held 16\nd1 takes 1239 waits 287 drops 0 gots 1214 held 25\n\
d2 takes 1244 waits 295 drops 0 gots 1210 held 34\nd3 takes 925 waits 626 drops 0 gots 900 held 25\n",
            "",
        ),
        ("stress 1 65537", Status::Usage, "", "surf: usage\n"),
        ("stress 4294967296 1", Status::Usage, "", "surf: usage\n"),
        ("stress 1", Status::Usage, "", "surf: usage\n"),
    ];
    for (words, status, lines, line) in rows {
        let (given, out, err) = run_over(&rt, words, &[], &[], &[])?;
        assert!(rt; given == status, "{words}");
        assert_eq!(rt; out.as_str(), lines, "{words}");
        assert_eq!(rt; err.as_str(), line, "{words}");
    }
    Ok(())
}
