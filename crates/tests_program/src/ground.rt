use crate::same::same;
use base_types::{
    Blob, BotName, NameFault, NumberList, QueueName, Text, TextFault, put_u16, put_u32, put_u64,
    queue_of, read_u16, read_u32, read_u64,
};
use std::test::Fail;

#[test]
fn texts(rt: HostRuntime) -> Result<(), Fail> {
    let alloc = rt.alloc();
    let text = Text::new(alloc, "größe".as_bytes())?;
    same(&rt, text.as_str(), "größe");
    same(&rt, &text.copy(alloc)?, &text);
    same(&rt, text.bytes().len(), 7);
    let Err(fault) = Text::new(alloc, b"ab\xc3\xa4\xff") else {
        return Err(Fail::from("a text"));
    };
    same(&rt, fault, TextFault::Utf8 { at: 4 });
    Ok(())
}

#[test]
fn blobs(rt: HostRuntime) -> Result<(), Fail> {
    let alloc = rt.alloc();
    let mut blob = Blob::new(alloc, b"\xff\x00")?;
    blob.append(b"z")?;
    same(&rt, blob.bytes(), b"\xff\x00z".as_slice());
    same(&rt, &blob.copy(alloc)?, &blob);
    Ok(())
}

#[test]
fn numbers_with_the_most_significant_byte_first(rt: HostRuntime) -> Result<(), Fail> {
    let alloc = rt.alloc();
    let mut blob = Blob::new(alloc, b"")?;
    put_u16(&mut blob, 0x0102)?;
    put_u32(&mut blob, 0x0304_0506)?;
    put_u64(&mut blob, 0x0708_090a_0b0c_0d0e)?;
    same(
        &rt,
        blob.bytes(),
        b"\x01\x02\x03\x04\x05\x06\x07\x08\x09\x0a\x0b\x0c\x0d\x0e".as_slice(),
    );
    same(&rt, read_u16(blob.bytes(), 0), Some(0x0102));
    same(&rt, read_u32(blob.bytes(), 2), Some(0x0304_0506));
    same(&rt, read_u64(blob.bytes(), 6), Some(0x0708_090a_0b0c_0d0e));
    same(&rt, read_u64(blob.bytes(), 7), None);
    same(&rt, read_u16(blob.bytes(), 13), None);
    same(&rt, read_u32(blob.bytes(), usize::MAX), None);
    Ok(())
}

const NAMES: [(&str, bool); 9] = [
    ("a", true),
    ("Az09-_.", true),
    ("global", false),
    ("Global", true),
    ("", false),
    ("a b", false),
    ("\u{e4}", false),
    (
        "0123456789012345678901234567890123456789012345678901234567890123",
        true,
    ),
    (
        "01234567890123456789012345678901234567890123456789012345678901234",
        false,
    ),
];

#[test]
fn names_of_bots_and_queues(rt: HostRuntime) -> Result<(), Fail> {
    let alloc = rt.alloc();
    for (name, is_name) in &NAMES {
        assert_eq!(rt; BotName::new(name.as_bytes()).is_ok(), *is_name, "{name}");
        let queue = format!(in alloc; "{name}-queue")?;
        assert_eq!(rt;
            QueueName::new(queue.as_bytes()).is_ok(),
            *is_name,
            "{name}"
        );
    }
    let bot = BotName::new(b"parse").map_err(|_| Fail::from("name"))?;
    same(&rt, queue_of(&bot).bytes(), b"parse-queue".as_slice());
    same(&rt, QueueName::new(b"parse-queue"), Ok(queue_of(&bot)));
    same(&rt, QueueName::new(b"parse"), Err(NameFault::Shape));
    same(&rt, QueueName::new(b"parse-Queue"), Err(NameFault::Shape));
    Ok(())
}

#[test]
fn lists(rt: HostRuntime) -> Result<(), Fail> {
    let mut list = NumberList::new(rt.alloc());
    same(&rt, list.pop(), None);
    for n in [5, 6] {
        if list.push(n).is_err() {
            return Err(Fail::from("memory"));
        }
    }
    assert_eq!(rt; list.len(), 2);
    same(&rt, *list.at(1), 6);
    same(&rt, list.as_slice(), [5, 6].as_slice());
    same(&rt, list.pop(), Some(6));
    same(&rt, list.len(), 1);
    Ok(())
}
