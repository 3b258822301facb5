//! The slots of sessions, and what each of them is started with. A script's line is told in `session_scripts`.

use crate::tests::session_scripts::run;
use std::mem::size_of;
use std::test::*;
use tpm_nv::Counter;
use tpm_session::Sessions;

#[test]
fn sessions_are_started_with_nonces_and_keys_flushed_once_and_go_on_or_end(rt: HostRuntime) {
    run(
        &rt,
        "
        # Three sessions are started and no fourth. A slot is asked for by the kind of its session,
        # and the lowest free slot is taken again.
        new
        started 02000000 8001 0000002b 00000176 40000007 40000007 0010 a0a1a2a3a4a5a6a7a8a9aaabacadaeaf 0000 00 0010 000b
        started 03000001 8001 0000002b 00000176 40000007 40000007 0010 a0a1a2a3a4a5a6a7a8a9aaabacadaeaf 0000 01 0010 000b
        started 03000002 8001 0000002b 00000176 40000007 40000007 0010 a0a1a2a3a4a5a6a7a8a9aaabacadaeaf 0000 03 0010 000b
        command 903 8001 0000002b 00000176 40000007 40000007 0010 a0a1a2a3a4a5a6a7a8a9aaabacadaeaf 0000 00 0010 000b
        loaded 02000000
        absent 03000000
        absent 02000001
        absent 03000003
        command 0 8001 0000000e 00000165 03000001
        started 02000001 8001 0000002b 00000176 40000007 40000007 0010 a0a1a2a3a4a5a6a7a8a9aaabacadaeaf 0000 00 0010 000b
        # A session is flushed once.
        new
        command 0 8001 0000002b 00000176 40000007 40000007 0010 00000000000000000000000000000000 0000 00 0010 000b
        command 0 8001 0000002b 00000176 40000007 40000007 0010 00000000000000000000000000000000 0000 00 0010 000b
        command 0 8001 0000002b 00000176 40000007 40000007 0010 00000000000000000000000000000000 0000 00 0010 000b
        command 903 8001 0000002b 00000176 40000007 40000007 0010 00000000000000000000000000000000 0000 00 0010 000b
        command 0 8001 0000000e 00000165 02000002
        command 1cb 8001 0000000e 00000165 02000002
        # A session goes on with the next nonce or ends.
        new
        started 02000000 8001 0000002b 00000176 40000007 40000007 0010 a0a1a2a3a4a5a6a7a8a9aaabacadaeaf 0000 00 0010 000b
        kept 02000000
        nonce 02000000 00000000000000000000000000000000
        ended 02000000
        absent 02000000
        # A nonce has 16 bytes and no more than a digest.
        new
        command 1d5 8001 0000002a 00000176 40000007 40000007 000f 000000000000000000000000000000 0000 00 0010 000b
        new
        command 1d5 8001 0000003c 00000176 40000007 40000007 0021 000000000000000000000000000000000000000000000000000000000000000000 0000 00 0010 000b
        new
        command 0 8001 0000003b 00000176 40000007 40000007 0020 0000000000000000000000000000000000000000000000000000000000000000 0000 00 0010 000b
        new
        command 0 8001 0000004b 00000176 40000007 40000007 0030 000000000000000000000000000000000000000000000000000000000000000000000000000000000000000000000000 0000 00 0010 000c
        # A session that is bound to the owner has a key, which is that of Python's hmac module: KDFa of the owner's
        # value, which the trailing zeros of the value are no part of. One that is bound to nothing has none.
        new
        command 0 8001 0000002b 00000176 40000007 40000001 0010 a0a1a2a3a4a5a6a7a8a9aaabacadaeaf 0000 00 0010 0004
        command 0 8001 0000002b 00000176 40000007 40000007 0010 a0a1a2a3a4a5a6a7a8a9aaabacadaeaf 0000 00 0010 0004
        key 02000000 0004 c6103ca8e8b8172b2019aa95b7019d8a2a2706e0
        key 02000001 0004 -
        new
        command 0 8001 0000002b 00000176 40000007 40000001 0010 a0a1a2a3a4a5a6a7a8a9aaabacadaeaf 0000 00 0010 000b
        command 0 8001 0000002b 00000176 40000007 40000007 0010 a0a1a2a3a4a5a6a7a8a9aaabacadaeaf 0000 00 0010 000b
        key 02000000 000b d683350f651cf750805521c488f3158619d9f0c51477fc08c55f950486759120
        key 02000001 000b -
        new
        command 0 8001 0000002b 00000176 40000007 40000001 0010 a0a1a2a3a4a5a6a7a8a9aaabacadaeaf 0000 00 0010 000c
        command 0 8001 0000002b 00000176 40000007 40000007 0010 a0a1a2a3a4a5a6a7a8a9aaabacadaeaf 0000 00 0010 000c
        key 02000000 000c b898a9e3754a084ba63c6b822e2fa9e986a82d8bcb3bf78ec74505edec0a0adb795f040a48760dca483b0255b5b6b637
        key 02000001 000c -
        ",
    );
}

// Three sessions, all of them in place. The public area of a counter is kept without what all have in common, and each
// digest with its length in one byte.
#[test]
fn sessions_take_800_bytes_and_a_counter_116(rt: HostRuntime) {
    assert!(rt; (size_of::<Sessions>(), size_of::<Counter>()) == (800, 116));
}
