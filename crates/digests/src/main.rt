// MD5 and the KeyHash at work: the seven vectors of RFC 1321, A.5; messages whose lengths lie about the edges of a block,
// byte i being i modulo 251; and KeyHashes about the edges of the rule. Each line is a case and its answer. The digests in
// stdout are those of md5sum (GNU coreutils).
#![tactic(auto)]

use key_hash::KeyHashed;
use std::io;

// Every group of cases, in the order above.
fn main(rt: HostRuntime) -> io::Result<()> {
    texts(&rt)?;
    let mut bytes = [0u8; 4097];
    count(&mut bytes);
    lengths(&rt, &bytes)?;
    keys(&rt, &bytes)
}

// The 16 bytes, and the end of the line.
fn hexadecimal(rt: &impl Print, hash: [u8; 16]) -> io::Result<()> {
    println!(rt; "{:032x}", u128::from_be_bytes(hash))
}

// The digest of a text.
fn text(rt: &impl Print, message: &str) -> io::Result<()> {
    print!(rt; "md5 \"{message}\": ")?;
    hexadecimal(rt, md5_digest::md5(message.as_bytes()))
}

// RFC 1321, A.5.
fn texts(rt: &impl Print) -> io::Result<()> {
    let messages = [
        "",
        "a",
        "abc",
        "message digest",
        "abcdefghijklmnopqrstuvwxyz",
        "ABCDEFGHIJKLMNOPQRSTUVWXYZabcdefghijklmnopqrstuvwxyz0123456789",
        "12345678901234567890123456789012345678901234567890123456789012345678901234567890",
    ];
    for message in messages {
        text(rt, message)?;
    }
    Ok(())
}

// Byte i becomes i modulo 251.
fn count(bytes: &mut [u8]) {
    for (i, byte) in bytes.iter_mut().enumerate() {
        *byte = (i % 251) as u8;
    }
}

// The digest of the first n bytes.
fn first(rt: &impl Print, bytes: &[u8], n: usize) -> io::Result<()> {
    print!(rt; "md5 of {n} bytes: ")?;
    match bytes.get(..n) {
        Some(front) => hexadecimal(rt, md5_digest::md5(front)),
        None => Ok(()),
    }
}

// About the edges of one block, of two, and at the largest size that may be stated.
fn lengths(rt: &impl Print, bytes: &[u8]) -> io::Result<()> {
    for n in [0, 1, 55, 56, 57, 63, 64, 65, 119, 120, 128, 4096] {
        first(rt, bytes, n)?;
    }
    Ok(())
}

// The KeyHash of the first n bytes.
fn key(rt: &impl Print, bytes: &[u8], n: usize, largest: u64) -> io::Result<()> {
    print!(rt; "key of {n} bytes, stated {largest}: ")?;
    match bytes.get(..n) {
        Some(front) => answer(rt, key_hash::key_hash(front, largest)),
        None => Ok(()),
    }
}

// The number and the KeyHash.
fn answer(rt: &impl Print, k: KeyHashed) -> io::Result<()> {
    print!(rt; "{} ", k.number)?;
    hexadecimal(rt, k.hash)
}

// Padded up to a stated size of 16, hashed from 17 on; refused as 14 and as 15.
fn keys(rt: &impl Print, bytes: &[u8]) -> io::Result<()> {
    let cases = [
        (0, 0),
        (0, 16),
        (0, 17),
        (3, 16),
        (3, 17),
        (16, 16),
        (16, 17),
        (17, 17),
        (4096, 4096),
        (17, 16),
        (4097, 4096),
        (4097, 4097),
        (0, 4097),
        (0, u64::MAX),
    ];
    for (n, largest) in cases {
        key(rt, bytes, n, largest)?;
    }
    Ok(())
}
