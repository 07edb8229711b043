//! Lists, files, sinks, blocks and numbers by worked rows.

use super::*;
use std::fs;
use std::test::Fail;

#[test]
fn bytes_are_a_list(rt: HostRuntime) -> Result<(), Fail> {
    let mut bytes = Bytes::new(rt.alloc());
    assert!(rt; bytes.is_empty());
    bytes.push(7)?;
    bytes.push(9)?;
    let copy = bytes.copy(rt.alloc())?;
    assert_eq!(rt; copy.len(), 2);
    assert_eq!(rt; *copy.at(1), 9);
    let other = Bytes::from_slice(rt.alloc(), b"\x07\x09")?;
    assert_eq!(rt; other.as_slice(), copy.as_slice());
    let mut words: Seq<u32> = Seq::with_capacity(rt.alloc(), 3)?;
    words.push(5)?;
    assert_eq!(rt; words.as_slice(), [5].as_slice());
    Ok(())
}

#[test]
fn write_all_goes_on_after_short_writes(rt: HostRuntime) -> Result<(), Fail> {
    let mut sink = MemSink::new(rt.alloc(), 20, 3, &[])?;
    write_all(&mut sink, b"hello world")?;
    assert_eq!(rt; sink.bytes(), b"hello world".as_slice());
    Ok(())
}

#[test]
fn a_failed_write_leaves_a_prefix(rt: HostRuntime) -> Result<(), Fail> {
    let mut sink = MemSink::new(rt.alloc(), 20, 3, &[3])?;
    assert_eq!(rt; write_all(&mut sink, b"hello world"), Err(Failed));
    assert_eq!(rt; sink.bytes(), b"hello ".as_slice());
    Ok(())
}

#[test]
fn a_full_sink_fails(rt: HostRuntime) -> Result<(), Fail> {
    let mut sink = MemSink::new(rt.alloc(), 4, 3, &[])?;
    assert_eq!(rt; write_all(&mut sink, b"hello"), Err(Failed));
    assert_eq!(rt; sink.bytes(), b"hell".as_slice());
    Ok(())
}

fn two_files(rt: &HostRuntime, fails: &[u64]) -> Result<MemFiles, Fail> {
    let mut files = MemFiles::new(rt.alloc(), 3, fails)?;
    files.put("trace", b"hello world")?;
    files.put("plan", b"old")?;
    files.put("plan", b"")?;
    Ok(files)
}

#[test]
fn read_whole_gives_the_content(rt: HostRuntime) -> Result<(), Fail> {
    let mut files = two_files(&rt, &[])?;
    let trace = read_whole(rt.alloc(), &mut files, "trace", 11)?;
    assert_eq!(rt; trace.as_slice(), b"hello world".as_slice());
    let plan = read_whole(rt.alloc(), &mut files, "plan", 0)?;
    assert_eq!(rt; plan.len(), 0);
    Ok(())
}

#[test]
fn read_whole_refuses(rt: HostRuntime) -> Result<(), Fail> {
    let mut files = two_files(&rt, &[])?;
    let long = read_whole(rt.alloc(), &mut files, "trace", 10).map(|bytes| bytes.len());
    assert_eq!(rt; long, Err(TakeFault::TooLong));
    let absent = read_whole(rt.alloc(), &mut files, "other", 10).map(|bytes| bytes.len());
    assert_eq!(rt; absent, Err(TakeFault::Failed));
    let mut failing = two_files(&rt, &[3])?;
    let failed = read_whole(rt.alloc(), &mut failing, "trace", 11).map(|bytes| bytes.len());
    assert_eq!(rt; failed, Err(TakeFault::Failed));
    Ok(())
}

#[test]
fn decimals(rt: HostRuntime) -> Result<(), Fail> {
    let mut buf = [0u8; 20];
    let count = decimal(18446744073709551615, &mut buf);
    assert_eq!(rt; buf.as_slice(), b"18446744073709551615".as_slice());
    assert_eq!(rt; count, 20);
    assert_eq!(rt; decimal(0, &mut buf), 1);
    assert_eq!(rt; buf[0], b'0');
    Ok(())
}

#[test]
fn decimals_are_read(rt: HostRuntime) -> Result<(), Fail> {
    let rows: [(&[u8], u64, Option<u64>); 7] = [
        (b"0", 4096, Some(0)),
        (b"4096", 4096, Some(4096)),
        (b"4097", 4096, None),
        (b"0000000007", 4096, Some(7)),
        (b"00000000007", 4096, None),
        (b"", 4096, None),
        (b"1x", 4096, None),
    ];
    for (bytes, most, value) in rows {
        assert_eq!(rt; read_decimal(bytes, most), value);
    }
    Ok(())
}

#[test]
fn words_are_written_and_read(rt: HostRuntime) -> Result<(), Fail> {
    let mut buf = [0u8; 8];
    hex8(0x00ab_cdef, &mut buf);
    assert_eq!(rt; buf.as_slice(), b"00abcdef".as_slice());
    let rows: [(&[u8], Option<u32>); 5] = [
        (b"00ABcdef", Some(0x00ab_cdef)),
        (b"f", Some(15)),
        (b"", None),
        (b"000000001", None),
        (b"g", None),
    ];
    for (bytes, value) in rows {
        assert_eq!(rt; read_hex(bytes), value);
    }
    Ok(())
}

#[test]
fn a_block_hands_on_all_pieces(rt: HostRuntime) -> Result<(), Fail> {
    let mut sink = MemSink::new(rt.alloc(), 70000, 70000, &[])?;
    let mut block = Block::new(rt.alloc())?;
    let long = vec![in rt.alloc(); 7u8; 33000]?;
    block.put(&mut sink, b"one ")?;
    block.put(&mut sink, long.as_slice())?;
    block.put(&mut sink, b"two ")?;
    assert_eq!(rt; sink.bytes().len(), 33004);
    block.flush(&mut sink)?;
    assert_eq!(rt; sink.bytes().len(), 33008);
    assert_eq!(rt; &sink.bytes()[33004..], b"two ".as_slice());
    Ok(())
}

#[test]
fn a_block_puts_numbers(rt: HostRuntime) -> Result<(), Fail> {
    let mut sink = MemSink::new(rt.alloc(), 100, 7, &[])?;
    let mut block = Block::new(rt.alloc())?;
    block.put_labelled(&mut sink, b"faults ", 12)?;
    block.put_labelled(&mut sink, b" line ", u64::MAX)?;
    block.put(&mut sink, b"\n")?;
    block.put_number_then(&mut sink, 10, b' ')?;
    block.put_number(&mut sink, 0)?;
    block.flush(&mut sink)?;
    assert_eq!(rt;
        sink.bytes(),
        b"faults 12 line 18446744073709551615\n10 0".as_slice()
    );
    Ok(())
}

#[test]
fn real_files_and_sinks_hand_bytes_on(rt: HostRuntime) -> Result<(), Fail> {
    let name = "surf_base_real_file";
    let file = fs::create(&rt, name)?;
    let mut sink = RealSink::new(file);
    write_all(&mut sink, b"hello world")?;
    let mut files = RealFiles::new(&rt);
    let bytes = read_whole(rt.alloc(), &mut files, name, 11)?;
    assert_eq!(rt; bytes.as_slice(), b"hello world".as_slice());
    fs::remove_file(&rt, name)?;
    assert!(rt; read_whole(rt.alloc(), &mut files, name, 11).is_err());
    Ok(())
}
