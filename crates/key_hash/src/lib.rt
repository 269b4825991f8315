// The KeyHash of an instance (DDSI-RTPS 2.5, 9.6.4.8): 16 bytes that stand for a serialized key.
//
// Derives from key_hash.rs of ZeroDDS.
// Copyright 2026 ZeroDDS Contributors. SPDX-License-Identifier: Apache-2.0. Changed: written anew in Rattle; a key longer
// than its stated largest size, and a stated size above 4,096, are refused.
#![tactic(auto)]

ghost use Rattle.std.specs.Prelude.{◌≡◌, ◌≤◌, length};
ghost use Rattle.key_hash.specs.KeyHash.{refusal, padded_key, padded_or_hashed, key_hash_of};

#[derive(Clone, Copy)]
pub struct KeyHashed {
    pub number: u8,
    pub hash: [u8; 16],
}

// 15 for a stated size above 4,096, else 14 for a key that is longer than the stated size, else 0.
fn refusal(key: &[u8], largest: u64) -> u8
    ensures { result ≡ refusal key.now largest }
{
    let len = key.len() as u64;
    if 4096 < largest {
        return 15;
    }
    if largest < len {
        return 14;
    }
    0
}

// The key, padded with zeros.
fn padded(key: &[u8]) -> [u8; 16]
    requires { length key.now ≤ 16 }
    ensures { result ≡ padded_key key.now }
{
    let mut hash = [0u8; 16];
    octets::copy(key, 0, &mut hash, 0, key.len());
    hash
}

// The KeyHash of a key that is not longer than the stated size, which decides: a type's keys are all padded or all hashed.
fn padded_or_hashed(key: &[u8], largest: u64) -> [u8; 16]
    requires { length key.now ≤ largest }
    ensures { result ≡ padded_or_hashed key.now largest }
{
    if largest <= 16 {
        return padded(key);
    }
    md5_digest::md5(key)
}

// The KeyHash of a serialized key, whose type's largest size is stated.
pub fn key_hash(key: &[u8], largest: u64) -> KeyHashed
    ensures { result ≡ key_hash_of key.now largest }
{
    let number = refusal(key, largest);
    if number != 0 {
        return KeyHashed {
            number: number,
            hash: [0u8; 16],
        };
    }
    let hash = padded_or_hashed(key, largest);
    KeyHashed {
        number: 0,
        hash: hash,
    }
}
