// Run files, sound and faulty, against their listings.
use listings::list_file;
use std::process::Abort;
use std::test::Fail;

// The listing of the file is as expected.
fn lists(rt: &(impl Abort + AllocGlobal), file: &[u8], expected: &str) -> Result<(), Fail> {
    let text = list_file(rt.alloc(), file).map_err(|_| Fail::new("out of memory"))?;
    assert!(rt; text.as_str() == expected, "{}", expected);
    Ok(())
}

#[test]
fn header_faults(rt: HostRuntime) -> Result<(), Fail> {
    lists(&rt, b"", "fault 30 byte 0\n")?;
    lists(
        &rt,
        b"\x01\0\0\0\x01\0\0\0\0\0\0\0\x10\0\0",
        "fault 30 byte 15\n",
    )?;
    lists(
        &rt,
        b"\x01\0\0\0\x01\0\0\0\0\0\0\0\x15\0\0\0\x05\0\0\0",
        "fault 31 byte 12\n",
    )?;
    lists(
        &rt,
        b"\0\0\0\0\x01\0\0\0\0\0\0\0\x14\0\0\0\x05\0\0\0",
        "fault 36 byte 0\n",
    )?;
    lists(
        &rt,
        b"\x09\0\0\0\x01\0\0\0\0\0\0\0\x14\0\0\0\x05\0\0\0",
        "fault 36 byte 0\n",
    )?;
    lists(
        &rt,
        b"\x01\0\0\0\0\0\0\0\0\0\0\0\x14\0\0\0\x05\0\0\0",
        "fault 36 byte 4\n",
    )?;
    lists(
        &rt,
        b"\x01\0\0\0\x01\x01\0\0\0\0\0\0\x14\0\0\0\x05\0\0\0",
        "fault 36 byte 4\n",
    )?;
    lists(
        &rt,
        b"\x01\0\0\0\x02\0\0\0\0\0\0\0\x14\0\0\0\x05\0\0\0",
        "fault 32 byte 12\n",
    )?;
    lists(
        &rt,
        b"\x03\0\0\0\x01\0\0\0\0\0\0\0\x14\0\0\0\x05\0\0\0",
        "fault 37 byte 0\n",
    )?;
    lists(&rt, b"\x01\0\0\0\x01\0\0\0\0\0\0\0\x14\0\0\0\x05\0\0\0", "")
}

#[test]
fn a_file_over_the_longest(rt: HostRuntime) -> Result<(), Fail> {
    let file = vec![in rt.alloc(); 1; 65_537]?;
    lists(&rt, file.as_slice(), "fault 31 byte 12\n")
}

#[test]
fn step_faults(rt: HostRuntime) -> Result<(), Fail> {
    lists(
        &rt,
        b"\x01\0\0\0\x01\0\0\0\x01\0\0\0\x14\0\0\0\x05\0\0\0",
        "fault 33 byte 20 step 0\n",
    )?;
    lists(
        &rt,
        b"\x01\0\0\0\x01\0\0\0\x02\0\0\0\x1d\0\0\0\x05\0\0\0\x0b\0\0\0\0\x0b\0\0\0",
        "0 0\nfault 33 byte 25 step 1\n",
    )?;
    lists(
        &rt,
        b"\x01\0\0\0\x01\0\0\0\x01\0\0\0\x19\0\0\0\x05\0\0\0\0\0\0\0\0",
        "fault 34 byte 20 step 0\n",
    )?;
    lists(
        &rt,
        b"\x01\0\0\0\x01\0\0\0\x01\0\0\0\x19\0\0\0\x05\0\0\0\x0f\x01\x01\x01\x01",
        "fault 34 byte 20 step 0\n",
    )?;
    lists(
        &rt,
        b"\x01\0\0\0\x01\0\0\0\x01\0\0\0\x19\0\0\0\x05\0\0\0\x02\0\0\0\0",
        "fault 34 byte 20 step 0\n",
    )?;
    lists(
        &rt,
        b"\x01\0\0\0\x01\0\0\0\x01\0\0\0\x19\0\0\0\x05\0\0\0\x0b\x01\0\x01\x01",
        "fault 35 byte 21 step 0\n",
    )?;
    lists(
        &rt,
        b"\x01\0\0\0\x01\0\0\0\x01\0\0\0\x19\0\0\0\x05\0\0\0\x0c\0\0\x01\x01",
        "fault 35 byte 23 step 0\n",
    )?;
    lists(
        &rt,
        b"\x01\0\0\0\x01\0\0\0\x01\0\0\0\x19\0\0\0\x05\0\0\0\x0d\0\0\0\x01",
        "fault 35 byte 24 step 0\n",
    )?;
    lists(
        &rt,
        b"\x01\0\0\0\x01\0\0\0\x01\0\0\0\x1a\0\0\0\x05\0\0\0\x0e\x01\0\x01\0\0",
        "fault 35 byte 21 step 0\n",
    )?;
    lists(
        &rt,
        b"\x01\0\0\0\x01\0\0\0\x01\0\0\0\x1b\0\0\0\x05\0\0\0\x0e\0\0\x01\x01\0\0",
        "fault 35 byte 24 step 0\n",
    )?;
    lists(
        &rt,
        b"\x01\0\0\0\x01\0\0\0\x01\0\0\0\x1a\0\0\0\x05\0\0\0\x0e\0\0\x02\0\0",
        "fault 33 byte 20 step 0\n",
    )?;
    lists(
        &rt,
        b"\x01\0\0\0\x01\0\0\0\x04\0\0\0\x29\0\0\0\x05\0\0\0\x0e\0\0\x01\0\0\x0b\0\0\0\0\x63\0\0\0\0\x0c\0\0\0\0",
        "0 0 5\n1 0\nfault 34 byte 31 step 2\n",
    )?;
    lists(
        &rt,
        b"\x01\0\0\0\x01\0\0\0\x01\0\0\0\x1c\0\0\0\x05\0\0\0\x0e\0\0\x01\0\0\xff\xff",
        "0 0 5\n",
    )?;
    Ok(())
}

// Lists of 0, 1, 8 and 9 objects, a repeated object, an object that is not there, a machine that is not there.
#[test]
fn object_lists(rt: HostRuntime) -> Result<(), Fail> {
    lists(
        &rt,
        b"\x02\0\0\0\x09\0\0\0\x07\0\0\0\x6d\0\0\0\x0a\0\0\0\x0b\0\0\0\x0c\0\0\0\x0d\0\0\0\x0e\0\0\0\x0f\0\0\0\x10\0\0\0\x11\0\0\0\x12\0\0\0\x0e\0\x01\0\0\x0e\0\x01\x01\0\x08\x0e\0\x01\x08\0\0\x01\x02\x03\x04\x05\x06\x07\x0e\0\x01\x09\0\0\x01\x02\x03\x04\x05\x06\x07\x08\x0e\0\x01\x02\0\x03\x03\x0e\0\x01\x02\0\0\x09\x0e\0\x02\0\0",
        "0 2\n1 0 18\n2 0 10 11 12 13 14 15 16 17\n3 2\n4 4\n5 3\n6 1\n",
    )
}
