//! Bytes that are taken, and bytes that are refused, in the order of Part 2. The codes are HASH 0083, VALUE 0084,
//! MODE 0089, SIZE 0095, SYMMETRIC 0096, INSUFFICIENT 009A and RESERVED_BITS 00A1.

use crate::tests::types_checks::row;
use std::test::*;
use tpm_types::{
    Alg, Auth, AuthReply, AuthSession, AuthValue, ClockInfo, Digest, DigestValues, Digests,
    EncryptedSalt, HashedDigest, KeyBits, Name, Nonce, NvAttrs, NvIndex, NvPublic, OrDigests,
    PcrIndex, PolicyHandle, QuoteInfo, Selection, Selections, SessionAttrs, SessionHandle,
    SessionType, StartupType, SymDef,
};

// Whether the bytes that follow the name of a type are those of a row of it.
fn of_type(name: &str, line: &str) -> bool {
    match name {
        "Alg" => row::<Alg>(line),
        "StartupType" => row::<StartupType>(line),
        "SessionType" => row::<SessionType>(line),
        "KeyBits" => row::<KeyBits>(line),
        "EncryptedSalt" => row::<EncryptedSalt>(line),
        "SessionAttrs" => row::<SessionAttrs>(line),
        "NvAttrs" => row::<NvAttrs>(line),
        "PcrIndex" => row::<PcrIndex>(line),
        "NvIndex" => row::<NvIndex>(line),
        "SessionHandle" => row::<SessionHandle>(line),
        "PolicyHandle" => row::<PolicyHandle>(line),
        "AuthSession" => row::<AuthSession>(line),
        "Digest" => row::<Digest>(line),
        "Name" => row::<Name>(line),
        "Nonce" => row::<Nonce>(line),
        "AuthValue" => row::<AuthValue>(line),
        "Selection" => row::<Selection>(line),
        "SymDef" => row::<SymDef>(line),
        "Auth" => row::<Auth>(line),
        "AuthReply" => row::<AuthReply>(line),
        "ClockInfo" => row::<ClockInfo>(line),
        "QuoteInfo" => row::<QuoteInfo>(line),
        "NvPublic" => row::<NvPublic>(line),
        "Selections" => row::<Selections>(line),
        "Digests" => row::<Digests>(line),
        "OrDigests" => row::<OrDigests>(line),
        "HashedDigest" => row::<HashedDigest>(line),
        "DigestValues" => row::<DigestValues>(line),
        _ => false,
    }
}

// A line is the name of a type and a row of its bytes. One that begins with `#` says what the next is about.
fn is_so(line: &str) -> bool {
    match line.split_once(' ') {
        Some((name, row)) => name == "#" || of_type(name, row),
        None => line.is_empty(),
    }
}

#[test]
fn bytes_are_taken_or_refused(rt: HostRuntime) {
    let rows = "
        # Numbers that stand for a choice.
        Alg 0004 taken 0000
        Alg 000b taken 0000
        Alg 000c taken 0000
        Alg 0003 refused 0083 00
        Alg 0005 refused 0083 00
        Alg 000a refused 0083 00
        Alg 000d refused 0083 00
        Alg 0010 refused 0083 00
        Alg 0012 refused 0083 00
        Alg 0104 refused 0083 00
        StartupType 0000 taken 0000
        StartupType 0001 taken 0000
        StartupType 0002 refused 0084 00
        StartupType 0100 refused 0084 00
        SessionType 00 taken 00
        SessionType 01 taken 00
        SessionType 03 taken 00
        SessionType 02 refused 0084 00
        SessionType 04 refused 0084 00
        KeyBits 0080 taken 0000
        KeyBits 0100 taken 0000
        KeyBits 0000 refused 0084 00
        KeyBits 00c0 refused 0084 00
        EncryptedSalt 0000 taken 0000
        EncryptedSalt 0001 aa refused 0084 00
        EncryptedSalt 0100 refused 0084 00
        # Bits 3 and 4 are reserved.
        SessionAttrs 00 taken 00
        SessionAttrs 01 taken 00
        SessionAttrs e7 taken 00
        SessionAttrs 08 refused 00a1 00
        SessionAttrs 09 refused 00a1 00
        SessionAttrs 10 refused 00a1 00
        SessionAttrs 18 refused 00a1 00
        SessionAttrs ff refused 00a1 00
        # Bits 8, 9 and 20 to 24 are reserved.
        NvAttrs 02060016 taken 00000000
        NvAttrs fe0ffcff taken 00000000
        NvAttrs 00000100 refused 00a1 00
        NvAttrs 00000200 refused 00a1 00
        NvAttrs 00100000 refused 00a1 00
        NvAttrs 00200000 refused 00a1 00
        NvAttrs 00400000 refused 00a1 00
        NvAttrs 00800000 refused 00a1 00
        NvAttrs 01000000 refused 00a1 00
        # Handles.
        PcrIndex 00000000 taken 00000000
        PcrIndex 00000017 taken 00000000
        PcrIndex 00000018 refused 0084 00
        PcrIndex 00000100 refused 0084 00
        PcrIndex 40000007 refused 0084 00
        NvIndex 01800001 taken 00000000
        NvIndex 01ffffff taken 00000000
        NvIndex 00ffffff refused 0084 00
        NvIndex 02000000 refused 0084 00
        SessionHandle 02000002 taken 00000000
        SessionHandle 03ffffff taken 00000000
        SessionHandle 01ffffff refused 0084 00
        SessionHandle 04000000 refused 0084 00
        SessionHandle 40000009 refused 0084 00
        PolicyHandle 03000001 taken 00000000
        PolicyHandle 02000000 refused 0084 00
        PolicyHandle 04000000 refused 0084 00
        AuthSession 02000000 taken 00000000
        AuthSession 03000000 taken 00000000
        AuthSession 40000009 taken 00000000
        AuthSession 40000007 refused 0084 00
        AuthSession 4000000a refused 0084 00
        AuthSession 01000000 refused 0084 00
        # Sized buffers.
        # Above the limit a size is refused, whatever bytes are there.
        Digest 0000 taken 0000
        Digest 0002 aabb taken 0000 0202
        Digest 0030 01 refused 009a 02
        Digest 0031 refused 0095 00
        Digest 0100 refused 0095 00
        Digest ffff refused 0095 00
        Name 0001 09 taken 0000 02
        Name 0032 refused 009a 02
        Name 0033 refused 0095 00
        Name 0032 000c5a5a5a5a5a5a5a5a5a5a5a5a5a5a5a5a5a5a5a5a5a5a5a5a5a5a5a5a5a5a5a5a5a5a5a5a5a5a5a5a5a5a5a5a5a5a5a5a taken
        # The longest, and one byte more.
        Digest 0030 5a5a5a5a5a5a5a5a5a5a5a5a5a5a5a5a5a5a5a5a5a5a5a5a5a5a5a5a5a5a5a5a5a5a5a5a5a5a5a5a5a5a5a5a5a5a5a5a taken
        Digest 0031 5a5a5a5a5a5a5a5a5a5a5a5a5a5a5a5a5a5a5a5a5a5a5a5a5a5a5a5a5a5a5a5a5a5a5a5a5a5a5a5a5a5a5a5a5a5a5a5a5a refused 0095 00
        Nonce 0030 5a5a5a5a5a5a5a5a5a5a5a5a5a5a5a5a5a5a5a5a5a5a5a5a5a5a5a5a5a5a5a5a5a5a5a5a5a5a5a5a5a5a5a5a5a5a5a5a taken
        Nonce 0031 5a5a5a5a5a5a5a5a5a5a5a5a5a5a5a5a5a5a5a5a5a5a5a5a5a5a5a5a5a5a5a5a5a5a5a5a5a5a5a5a5a5a5a5a5a5a5a5a5a refused 0095 00
        AuthValue 0030 5a5a5a5a5a5a5a5a5a5a5a5a5a5a5a5a5a5a5a5a5a5a5a5a5a5a5a5a5a5a5a5a5a5a5a5a5a5a5a5a5a5a5a5a5a5a5a5a taken
        AuthValue 0031 5a5a5a5a5a5a5a5a5a5a5a5a5a5a5a5a5a5a5a5a5a5a5a5a5a5a5a5a5a5a5a5a5a5a5a5a5a5a5a5a5a5a5a5a5a5a5a5a5a refused 0095 00
        # Structures.
        # hash, sizeofSelect, select
        Selection 000b 03 810040 taken 0000 02 030303
        Selection 000c 03 810040 taken
        Selection 000d 03 000000 refused 0083 00
        Selection 000b 02 000000 refused 0084 02
        Selection 000b 04 00000000 refused 0084 02
        # algorithm; of AES keyBits and mode, of XOR hashAlg
        SymDef 0010 taken 0000
        SymDef 0006 0080 0043 taken 0000 0202 0404
        SymDef 0006 0100 0043 taken
        SymDef 000a 000b taken 0000 0202
        SymDef 000a 000c taken
        SymDef 0026 0080 0043 refused 0096 00
        SymDef 000b refused 0096 00
        SymDef 0006 00c0 0043 refused 0084 02
        SymDef 0006 00c0 0042 refused 0084 02
        SymDef 0006 0080 0042 refused 0089 04
        SymDef 0006 0100 0010 refused 0089 04
        SymDef 000a 000d refused 0083 02
        # sessionHandle, nonceCaller, sessionAttributes, hmac
        Auth 40000009 0002aabb 01 0001cc taken 00000000 04040606 08 09090b
        Auth 40000007 0000 01 0000 refused 0084 00
        Auth 02000000 0031 01 0000 refused 0095 04
        Auth 02000000 0000 09 0000 refused 00a1 06
        Auth 02000000 0000 01 0031 refused 0095 07
        Auth 02000000 0030111111111111111111111111111111111111111111111111111111111111111111111111111111111111111111111111 00 0030222222222222222222222222222222222222222222222222222222222222222222222222222222222222222222222222 taken
        # nonceTPM, sessionAttributes, hmac
        AuthReply 0002aabb 01 0001cc taken 00000202 04 050507
        AuthReply 0031 01 0000 refused 0095 00
        AuthReply 0000 10 0000 refused 00a1 02
        AuthReply 0000 01 0031 refused 0095 03
        # clock, resetCount, restartCount, safe
        ClockInfo 00000000000003a1 00000002 00000003 01 taken 0000000000000000 08080808 0c0c0c0c 10
        ClockInfo ffffffffffffffff ffffffff ffffffff 00 taken 0000000000000000 08080808 0c0c0c0c 10
        ClockInfo 00000000000003a1 00000002 00000003 02 refused 0084 10
        ClockInfo 00000000000003a1 00000002 00000003 ff refused 0084 10
        # pcrSelect: count, SHA-256 and register 7; pcrDigest
        QuoteInfo 00000001 000b 03 800000 0002aabb taken 00000000 0404 06 070707 0a0a0c0c
        QuoteInfo 00000004 refused 0095 00
        QuoteInfo 00000000 0031 refused 0095 04
        QuoteInfo 00000001 0010 03 800000 refused 0083 04
        QuoteInfo 00000001 000b 04 800000 refused 0084 06
        # Public areas of indices.
        # size; nvIndex, nameAlg, attributes, authPolicy, dataSize
        NvPublic 000e 01800001 000b 02060016 0000 0008 taken 0000 02020202 0202 02020202 0202 0202
        NvPublic 000e 01800001 000c 02060016 0000 0008 taken
        # The area ends before dataSize, though its bytes are there: at dataSize.
        NvPublic 000d 01800001 000b 02060016 0000 0008 refused 009a 0e
        NvPublic 000c 01800001 000b 02060016 0000 0008 refused 009a 0e
        # before authPolicy, before attributes, before nameAlg, before nvIndex
        NvPublic 000b 01800001 000b 02060016 0000 0008 refused 009a 0c
        NvPublic 0009 01800001 000b 02060016 0000 0008 refused 009a 08
        NvPublic 0005 01800001 000b 02060016 0000 0008 refused 009a 06
        NvPublic 0003 01800001 000b 02060016 0000 0008 refused 009a 02
        NvPublic 0000 01800001 000b 02060016 0000 0008 refused 009a 02
        # One byte is left in the area: at that byte.
        NvPublic 000f 01800001 000b 02060016 0000 0008 00 refused 0095 10
        # The size passes the end of the bytes: at the byte after the size.
        NvPublic 000f 01800001 000b 02060016 0000 0008 refused 009a 02
        # A size that is too large is that, whatever follows.
        NvPublic 003f refused 0095 00
        # The bytes of authPolicy pass the end of the area, though they are there: at those bytes.
        NvPublic 000e 01800001 000b 02060016 0003010203 0008 refused 009a 0e
        NvPublic 000e 02800001 000b 02060016 0000 0008 refused 0084 02
        NvPublic 000e 01800001 000d 02060016 0000 0008 refused 0083 06
        NvPublic 000e 01800001 000b 02060316 0000 0008 refused 00a1 08
        NvPublic 000e 01800001 000b 02060016 0031 0008 refused 0095 0c
        # the largest, and a byte more
        NvPublic 003e 01000000 000c 00000000 0030777777777777777777777777777777777777777777777777777777777777777777777777777777777777777777777777 ffff taken
        NvPublic 003f 000000000000000000000000000000000000000000000000000000000000000000000000000000000000000000000000000000000000000000000000000000 refused 0095 00
        # Counted lists.
        # The same bank twice is two entries, and four entries are one too many, whatever follows.
        Selections 00000000 taken 00000000
        Selections 00000002 000403ffffff 000b03010000 taken 00000000 040406070707 0a0a0c0d0d0d
        Selections 00000002 000b03010000 000b03010000 taken
        Selections 00000003 000403ffffff 000b03010000 000c03800000 taken
        Selections 00000004 000403ffffff 000b03010000 000c03800000 000c03800000 refused 0095 00
        Selections 00000004 refused 0095 00
        Selections 00010000 refused 0095 00
        Selections ffffffff refused 0095 00
        Selections 00000001 000d03010000 refused 0083 04
        Selections 00000001 000b020100 refused 0084 06
        Digests 00000000 taken 00000000
        Digests 00000002 0001aa 0000 taken 00000000 040406 0707
        Digests 00000008 00000000000000000000000000000000 taken
        Digests 00000009 000000000000000000000000000000000000 refused 0095 00
        Digests 00000002 0000 0031 refused 0095 06
        OrDigests 00000002 0000 0000 taken 00000000 0404 0606
        OrDigests 00000002 0001aa 0000 taken
        OrDigests 00000008 00000000000000000000000000000000 taken
        OrDigests 00000000 refused 0095 00
        OrDigests 00000001 0000 refused 0095 00
        OrDigests 00000009 000000000000000000000000000000000000 refused 0095 00
        OrDigests 00000002 0000 0031 refused 0095 06
        HashedDigest 000d refused 0083 00
        HashedDigest 00 refused 009a 00
        HashedDigest 0004 refused 009a 02
        HashedDigest 000b 00 refused 009a 02
        HashedDigest 000c 00 refused 009a 02
        DigestValues 00000000 taken 00000000
        DigestValues 00000002 000b 1111111111111111111111111111111111111111111111111111111111111111 000c 222222222222222222222222222222222222222222222222222222222222222222222222222222222222222222222222 taken
        DigestValues 00000001 refused 009a 04
        DigestValues 00000001 00 refused 009a 04
        DigestValues 00000001 0004 refused 009a 06
        DigestValues 00000001 000c refused 009a 06
        DigestValues 00000001 000d refused 0083 04
        DigestValues 00000004 refused 0095 00
        # one of each hash; one byte less of the third digest, of the second, of the first; a second of no hash
        DigestValues 00000003 00041111111111111111111111111111111111111111 000b2222222222222222222222222222222222222222222222222222222222222222 000c333333333333333333333333333333333333333333333333333333333333333333333333333333333333333333333333 taken
        DigestValues 00000003 00041111111111111111111111111111111111111111 000b2222222222222222222222222222222222222222222222222222222222222222 000c3333333333333333333333333333333333333333333333333333333333333333333333333333333333333333333333 refused 009a 3e
        DigestValues 00000003 00041111111111111111111111111111111111111111 000b22222222222222222222222222222222222222222222222222222222222222 refused 009a 1c
        DigestValues 00000003 000411111111111111111111111111111111111111 refused 009a 06
        DigestValues 00000003 00041111111111111111111111111111111111111111 0010 refused 0083 1a
    ";
    for row in rows.lines() {
        assert!(rt; is_so(row.trim()), "{row}");
    }
}
