//! Each form is made and each of its calls is made once, with what it answers.
ghost use Rattle.adc_ports.specs.States.{OnlyReads};

use adc_ports::*;
use std::process::Abort;
use std::{fs, io};

/// Fetches to the front of some bytes, and compares how many came, and what the bytes are then.
fn expect_fetched<H: Shelf>(
    rt: &impl Abort,
    shelf: &mut H,
    name: &str,
    at: u64,
    into: &mut [u8],
    count: usize,
    left: &[u8],
)
    ensures { OnlyReads (H.state shelf.old) (H.state shelf.new) }
{
    assert_eq!(rt; shelf.fetch(name, at, into), Ok(count));
    let found: &[u8] = into;
    assert!(rt; found == left);
}

/// Lists calls of a shelf that are to fail, each after so many bytes.
fn list(rt: &impl Abort, shelf: &mut MemoryShelf, calls: &[(u32, u32)]) {
    for (call, bytes) in calls {
        assert_eq!(rt; shelf.fail(*call, *bytes), Ok(()));
    }
}

#[test]
fn real_files_are_read_at_two_places_and_appended(rt: HostRuntime) -> io::Result<()> {
    let name = "adc_ports_file_shelf_test.bin";
    fs::write(&rt, name, "abcdefgh")?;
    let mut shelf = FileShelf::new(rt.alloc(), &rt);
    let mut three = [0u8; 3];
    assert_eq!(rt; shelf.size(name), Ok(Some(8)));
    expect_fetched(&rt, &mut shelf, name, 5, &mut three, 3, b"fgh");
    expect_fetched(&rt, &mut shelf, name, 1, &mut three, 3, b"bcd");
    assert_eq!(rt; shelf.append(name, b"ijk"), Ok(()));
    expect_fetched(&rt, &mut shelf, name, 9, &mut three, 2, b"jkd");
    assert_eq!(rt; shelf.begin(name), Ok(()));
    assert_eq!(rt; shelf.append(name, b"z"), Ok(()));
    assert_eq!(rt; shelf.size(name), Ok(Some(1)));
    expect_fetched(&rt, &mut shelf, name, 0, &mut three, 1, b"zkd");
    let none = "adc_ports_no_such_file";
    assert_eq!(rt; shelf.size(none), Ok(None));
    expect_fetched(&rt, &mut shelf, none, 0, &mut three, 0, b"zkd");
    fs::remove_file(&rt, name)
}

#[test]
fn real_files_are_read_and_appended_by_turns(rt: HostRuntime) -> io::Result<()> {
    let names = ["adc_ports_turns_a.bin", "adc_ports_turns_b.bin"];
    let mut shelf = FileShelf::new(rt.alloc(), &rt);
    assert_eq!(rt; shelf.append(names[0], b"a"), Ok(()));
    assert_eq!(rt; shelf.append(names[1], b"bb"), Ok(()));
    assert_eq!(rt; shelf.append(names[0], b"cd"), Ok(()));
    assert_eq!(rt; shelf.append(names[1], b"ef"), Ok(()));
    assert_eq!(rt; shelf.end(names[1]), Ok(()));
    for (at, first, second) in [(0, b'a', b'b'), (1, b'c', b'b'), (2, b'd', b'e')] {
        let mut one = [0u8; 1];
        expect_fetched(&rt, &mut shelf, names[0], at, &mut one, 1, &[first]);
        expect_fetched(&rt, &mut shelf, names[1], at, &mut one, 1, &[second]);
    }
    assert_eq!(rt; shelf.size(names[0]), Ok(Some(3)));
    assert_eq!(rt; shelf.size(names[1]), Ok(Some(4)));
    fs::remove_file(&rt, names[0])?;
    fs::remove_file(&rt, names[1])
}

#[test]
fn a_file_that_was_read_is_not_emptied_under_another_name(rt: HostRuntime) -> io::Result<()> {
    let names = ["adc_ports_read.bin", "adc_ports_read_too.bin"];
    fs::write(&rt, names[0], "abc")?;
    fs::hard_link(&rt, names[0], names[1])?;
    let mut shelf = FileShelf::new(rt.alloc(), &rt);
    assert_eq!(rt; shelf.size(names[0]), Ok(Some(3)));
    assert_eq!(rt; shelf.begin(names[1]), Err(Halt::Failed));
    assert_eq!(rt; shelf.begin("./adc_ports_read.bin"), Err(Halt::Failed));
    assert_eq!(rt; shelf.size(names[0]), Ok(Some(3)));
    fs::remove_file(&rt, names[0])?;
    fs::remove_file(&rt, names[1])
}

#[test]
fn a_file_that_became_shorter_fails(rt: HostRuntime) -> io::Result<()> {
    let name = "adc_ports_shorter.bin";
    let mut three = [0u8; 3];
    fs::write(&rt, name, "abcdef")?;
    let mut shelf = FileShelf::new(rt.alloc(), &rt);
    assert_eq!(rt; shelf.size(name), Ok(Some(6)));
    fs::write(&rt, name, "abcd")?;
    assert_eq!(rt; shelf.fetch(name, 3, &mut three), Err(Halt::Failed));
    fs::remove_file(&rt, name)
}

#[test]
fn a_folder_and_a_device_are_no_files_to_read(rt: HostRuntime) {
    let mut shelf = FileShelf::new(rt.alloc(), &rt);
    let mut one = [7u8; 1];
    assert_eq!(rt; shelf.size("."), Err(Halt::Failed));
    assert_eq!(rt; shelf.size("/dev/null"), Err(Halt::Failed));
    assert_eq!(rt; shelf.fetch(".", 0, &mut one), Err(Halt::Failed));
    assert_eq!(rt; shelf.fetch("/dev/null", 0, &mut one), Err(Halt::Failed));
}

#[test]
fn standard_output_takes_text(rt: HostRuntime) {
    let mut sink = StdSink::new(rt.alloc(), io::writer(&rt), false);
    assert_eq!(rt; sink.put(b"standard "), Ok(()));
    assert_eq!(rt; sink.put(b"output\n"), Ok(()));
    assert_eq!(rt; sink.flush(), Ok(()));
}

#[test]
fn reads_fail_where_they_are_listed(rt: HostRuntime) {
    let mut shelf = MemoryShelf::new(rt.alloc());
    let mut two = [0u8; 2];
    assert_eq!(rt; shelf.add("a", b"xyz"), Ok(()));
    list(&rt, &mut shelf, &[(2, 9), (4, 0)]);
    assert_eq!(rt; shelf.size("a"), Ok(Some(3)));
    assert_eq!(rt; shelf.size("a"), Err(Halt::Failed));
    expect_fetched(&rt, &mut shelf, "a", 1, &mut two, 2, b"yz");
    assert_eq!(rt; shelf.fetch("a", 1, &mut two), Err(Halt::Failed));
    assert_eq!(rt; shelf.faults(), (2, 0));
}

#[test]
fn writes_fail_where_they_are_listed(rt: HostRuntime) {
    let mut shelf = MemoryShelf::new(rt.alloc());
    list(&rt, &mut shelf, &[(1, 9), (4, 1), (4, 2), (5, 9)]);
    assert_eq!(rt; shelf.begin("a"), Err(Halt::Failed));
    assert!(rt; shelf.file("a").is_none());
    assert_eq!(rt; shelf.begin("a"), Ok(()));
    assert_eq!(rt; shelf.append("a", b"cd"), Ok(()));
    assert_eq!(rt; shelf.append("a", b"ef"), Err(Halt::Failed));
    assert_eq!(rt; shelf.append("a", b"gh"), Err(Halt::Failed));
    assert!(rt; shelf.file("a") == Some(b"cdegh".as_slice()));
    assert_eq!(rt; shelf.faults(), (0, 3));
}

#[test]
fn a_steady_shelf_keeps_files(rt: HostRuntime) {
    let mut shelf = SteadyShelf::new(rt.alloc());
    let mut two = [0u8; 2];
    assert_eq!(rt; shelf.add("a", b"xyz"), Ok(()));
    assert_eq!(rt; shelf.fetch("a", 2, &mut two), Ok(1));
    assert_eq!(rt; shelf.begin("b"), Ok(()));
    assert_eq!(rt; shelf.append("b", b"cd"), Ok(()));
    assert_eq!(rt; shelf.size("b"), Ok(Some(2)));
    assert!(rt; shelf.file("b") == Some(b"cd".as_slice()));
    assert_eq!(rt; shelf.faults(), (0, 0));
}

#[test]
fn a_sized_shelf_gives_the_length_of_one_name(
    rt: HostRuntime,
) -> Result<(), std::alloc::AllocError> {
    let mut inner = SteadyShelf::new(rt.alloc());
    assert_eq!(rt; inner.add("a", b"xyz"), Ok(()));
    let mut shelf = SizedShelf::new(inner, String::from_str(rt.alloc(), "b")?, 2_147_483_649);
    assert_eq!(rt; shelf.size("a"), Ok(Some(3)));
    assert_eq!(rt; shelf.size("b"), Ok(Some(2_147_483_649)));
    assert_eq!(rt; shelf.append("b", b"cd"), Ok(()));
    let mut two = [0u8; 2];
    assert_eq!(rt; shelf.fetch("b", 1, &mut two), Ok(1));
    assert!(rt; two == [b'd', 0]);
    assert_eq!(rt; shelf.begin("b"), Ok(()));
    assert_eq!(rt; shelf.fetch("b", 0, &mut two), Ok(0));
    Ok(())
}

#[test]
fn text_fails_where_it_is_listed(rt: HostRuntime) {
    let mut sink = MemorySink::new(rt.alloc());
    assert_eq!(rt; sink.fail(2, 1), Ok(()));
    assert_eq!(rt; sink.fail(2, 3), Ok(()));
    assert_eq!(rt; sink.put(b"ab"), Ok(()));
    assert_eq!(rt; sink.put(b"cd"), Err(Halt::Failed));
    assert!(rt; sink.written() == b"abc".as_slice());
    assert_eq!(rt; sink.faults(), 1);
}

#[test]
fn a_steady_sink_keeps_text(rt: HostRuntime) {
    let mut sink = SteadySink::new(rt.alloc());
    assert_eq!(rt; sink.put(b"ab"), Ok(()));
    assert_eq!(rt; sink.put(b"cd"), Ok(()));
    assert!(rt; sink.written() == b"abcd".as_slice());
    assert_eq!(rt; sink.faults(), 0);
}
