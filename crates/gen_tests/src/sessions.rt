use blob_words::{NoMemory, Octets};
use session_gen::generate;
use session_script::{Event, print_event};
use std::alloc::Global;
use std::test::Fail;

// The text of a session, a line for each event.
fn text_of(heap: Global, events: &[Event]) -> Result<Octets, NoMemory> {
    let mut text = Octets::new(heap);
    for event in events {
        print_event(heap, event, &mut text)?;
        text.push(b'\n')?;
    }
    Ok(text)
}

// The line at a place, empty where there is none.
fn line_at(heap: Global, events: &[Event], place: usize) -> Result<Octets, NoMemory> {
    let mut line = Octets::new(heap);
    if let Some(event) = events.get(place) {
        print_event(heap, event, &mut line)?;
    }
    Ok(line)
}

// The FNV-1a hash of 32 bits.
fn hash(bytes: &[u8]) -> u32 {
    let mut hash = 0x811c_9dc5u32;
    for byte in bytes {
        hash = (hash ^ u32::from(*byte)).wrapping_mul(16_777_619);
    }
    hash
}

// Lines of the session of 1 in 20 rounds, by their places from 0.
static LINES: [(usize, &str); 22] = [
    (0, "limits 16384 16777216 16384 256 4096 1024 1024"),
    (1, "spawn 0 https://0.test"),
    (2, "spawn 1 https://1.test"),
    (3, "spawn 2 https://2.test"),
    (4, "spawn 3 https://3.test"),
    (
        5,
        "build 0 00000000-0000-0000-0000-000000000001 746578742f706c61696e n:1024",
    ),
    (
        7,
        "slice 0 00000000-0000-0000-0000-000000000002 \
         00000000-0000-0000-0000-000000000001 251 1052 -",
    ),
    (8, "read 0 0 00000000-0000-0000-0000-000000000002 0 _"),
    (9, "step 0"),
    (10, "step 0"),
    (29, "drop 3 00000000-0000-0000-0000-000000000008"),
    (54, "drop 2 00000000-0000-0000-0000-000000000010"),
    (103, "step 15"),
    (104, "drop 0 00000000-0000-0000-0000-000000000020"),
    (
        105,
        "build 0 00000000-0000-0000-0000-000000000021 746578742f706c61696e n:1024",
    ),
    (106, "disk 0"),
    (127, "disk 3"),
    (
        129,
        "slice 1 00000000-0000-0000-0000-000000000028 \
         00000000-0000-0000-0000-000000000003 441 895 -",
    ),
    (130, "read 1 19 00000000-0000-0000-0000-000000000028 0 _"),
    (132, "step 19"),
    (133, "drop 1 00000000-0000-0000-0000-000000000028"),
    (134, "end"),
];

#[test]
fn a_session_has_the_stated_lines(rt: HostRuntime) -> Result<(), Fail> {
    let heap = rt.alloc();
    let events = generate(heap, 1, 20)?;
    assert_eq!(rt; events.len(), 135);
    for (place, text) in LINES.iter() {
        let line = line_at(heap, events.as_slice(), *place)?;
        assert_eq!(rt; line.as_slice(), text.as_bytes());
    }
    Ok(())
}

// The key stream of ChaCha with 8 rounds, a key of 256 bits whose first byte is 1, and no nonce:
// test case 2 of draft-strombergson-chacha-test-vectors-01. The data of the first round begins
// with it.
#[test]
fn the_first_data_are_the_known_key_stream(rt: HostRuntime) -> Result<(), Fail> {
    let heap = rt.alloc();
    let known = "data 0 00000000-0000-0000-0000-000000000001 0 \
        cf5ee9a0494aa9613e05d5ed725b804b12f4a465ee635acc3a311de8740489ea\
        289d04f43c7518db56eb4433e498a1238cd8464d3763ddbb9222ee3bd8fae3c8";
    let events = generate(heap, 1, 1)?;
    let line = line_at(heap, events.as_slice(), 6)?;
    assert_eq!(rt; line.len(), known.len() + 1920);
    assert!(rt; line.as_slice().starts_with(known.as_bytes()));
    Ok(())
}

// Numbers, rounds, and how long the text is and its hash.
static TEXTS: [(u64, u32, usize, u32); 3] = [
    (1, 20, 46_913, 0x9f7f_0b4b),
    (1, 4_096, 9_639_294, 0x415e_c0e6),
    (0xfedc_ba98_7654_3210, 3, 7_117, 0xea58_3204),
];

#[test]
fn whole_texts_are_those_of_another_program(rt: HostRuntime) -> Result<(), Fail> {
    let heap = rt.alloc();
    for (number, rounds, len, sum) in TEXTS.iter() {
        let (number, rounds) = (*number, *rounds);
        assert!(rt; 0 < rounds && rounds <= 4_096);
        let events = generate(heap, number, rounds)?;
        let text = text_of(heap, events.as_slice())?;
        assert_eq!(rt; text.len(), *len);
        assert_eq!(rt; hash(text.as_slice()), *sum);
    }
    Ok(())
}

#[test]
fn a_number_gives_the_same_session_twice(rt: HostRuntime) -> Result<(), Fail> {
    let heap = rt.alloc();
    let once = text_of(heap, generate(heap, 7, 5)?.as_slice())?;
    let twice = text_of(heap, generate(heap, 7, 5)?.as_slice())?;
    let other = text_of(heap, generate(heap, 8, 5)?.as_slice())?;
    assert_eq!(rt; once.as_slice(), twice.as_slice());
    assert_ne!(rt; once.as_slice(), other.as_slice());
    Ok(())
}
