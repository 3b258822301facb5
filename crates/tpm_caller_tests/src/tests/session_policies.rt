//! What policy sessions assert, and what they refuse. A script's line is told in `session_scripts`.

use crate::tests::session_scripts::{run, run_of};
use std::test::*;
use tpm_session::{Assertion, empty_policy, extend_policy};
use tpm_testing::{next_value, spelled};
use tpm_types::{Alg, Digest, OrDigests, Selections};

// Whether the assertion makes this digest of that of no assertion, in SHA-256.
fn comes_to(assertion: &Assertion<'_>, digest: &str) -> bool {
    let old = empty_policy(Alg::Sha256);
    let new = extend_policy(Alg::Sha256, assertion, old.as_slice());
    new.as_slice() == spelled(digest).as_slice()
}

#[test]
fn a_digest_is_extended_without_a_session(rt: HostRuntime) {
    let mut values =
        "00000001000b03000081 0020f5a5fd42d16a20302798ef6ed309979b43003d2320d9f0e8ea9831a92759fb4b 0000000200208fcd2169ab92694e0c633f1ab772842b8241bbc20288981fc7ac1eddc1fddb0e0020e8c02d3c5e701670cbaa327db1a2e9f3f41b2c22793e5c669a6e7f44b912f6c0";
    let selections = next_value::<Selections>(&mut values).unwrap_or_default();
    let pcr_digest = next_value::<Digest>(&mut values).unwrap_or_default();
    let digests = next_value::<OrDigests>(&mut values).expect(&rt, "two digests");
    let registers = Assertion::Pcr {
        selections: &selections,
        pcr_digest: &pcr_digest,
        update_counter: None,
    };
    assert!(rt;
        comes_to(
            &registers,
            "599a9cca81c171e404e4afc462e7415ee799c498b00ff6edb68d07de1dc47a20"
        )
    );
    assert!(rt;
        comes_to(
            &Assertion::Code(0x134),
            "e8c02d3c5e701670cbaa327db1a2e9f3f41b2c22793e5c669a6e7f44b912f6c0"
        )
    );
    assert!(rt;
        comes_to(
            &Assertion::AuthValue,
            "8fcd2169ab92694e0c633f1ab772842b8241bbc20288981fc7ac1eddc1fddb0e"
        )
    );
    assert!(rt;
        comes_to(
            &Assertion::Or(&digests),
            "cfd7952867f0335963f7c257f10de088258bdf1d89410ad3e0cf03583b0d9c3d"
        )
    );
}

// TPM2_StartAuthSession of a policy session, and of a trial, by SHA-256.
const POLICY: &str =
    "8001 0000002b 00000176 40000007 40000007 0010 a0a1a2a3a4a5a6a7a8a9aaabacadaeaf 0000 01 0010 000b";

const TRIAL: &str =
    "8001 0000002b 00000176 40000007 40000007 0010 a0a1a2a3a4a5a6a7a8a9aaabacadaeaf 0000 03 0010 000b";

#[test]
fn policies_come_to_the_digests_of_another_implementation(rt: HostRuntime) {
    for start in [POLICY, TRIAL] {
        run_of(
            &rt,
            start,
            "
            begin
            command 0 8001 0000003a 0000017f 03000000 0020f5a5fd42d16a20302798ef6ed309979b43003d2320d9f0e8ea9831a92759fb4b00000001000b03000081
            digest 599a9cca81c171e404e4afc462e7415ee799c498b00ff6edb68d07de1dc47a20
            command 0 8001 0000000e 00000180 03000000
            command 0 8001 0000003a 0000017f 03000000 0020f5a5fd42d16a20302798ef6ed309979b43003d2320d9f0e8ea9831a92759fb4b00000001000b03000081
            digest 599a9cca81c171e404e4afc462e7415ee799c498b00ff6edb68d07de1dc47a20
            command 0 8001 0000000e 00000180 03000000
            command 0 8001 0000003a 0000017f 03000000 0020f5a5fd42d16a20302798ef6ed309979b43003d2320d9f0e8ea9831a92759fb4b00000001000b03000081
            digest 599a9cca81c171e404e4afc462e7415ee799c498b00ff6edb68d07de1dc47a20
            begin
            command 0 8001 0000000e 0000016b 03000000
            digest 8fcd2169ab92694e0c633f1ab772842b8241bbc20288981fc7ac1eddc1fddb0e
            begin
            command 0 8001 00000012 0000016c 03000000 00000134
            digest e8c02d3c5e701670cbaa327db1a2e9f3f41b2c22793e5c669a6e7f44b912f6c0
            begin
            command 0 8001 00000012 0000016c 03000000 00000134
            command 0 8001 00000056 00000171 03000000 0000000200208fcd2169ab92694e0c633f1ab772842b8241bbc20288981fc7ac1eddc1fddb0e0020e8c02d3c5e701670cbaa327db1a2e9f3f41b2c22793e5c669a6e7f44b912f6c0
            digest cfd7952867f0335963f7c257f10de088258bdf1d89410ad3e0cf03583b0d9c3d
            # Another command code is refused. The same code may be set twice, and gives another digest each
            # time: those of Python's hashlib.
            begin
            command 0 8001 00000012 0000016c 03000000 00000134
            digest e8c02d3c5e701670cbaa327db1a2e9f3f41b2c22793e5c669a6e7f44b912f6c0
            command 0 8001 00000012 0000016c 03000000 00000134
            digest 569cbe1eec74df3ceac1fca774fc7fb50a95af60aea2fb06c835c5dd45fec337
            command 1c4 8001 00000012 0000016c 03000000 00000135
            digest 569cbe1eec74df3ceac1fca774fc7fb50a95af60aea2fb06c835c5dd45fec337
            ",
        );
    }
}

#[test]
fn codes_choices_and_registers_are_asserted_or_refused(rt: HostRuntime) {
    run(
        &rt,
        "
        # A trial asserts a choice whatever its policy is.
        new
        command 0 8001 0000002b 00000176 40000007 40000007 0010 a0a1a2a3a4a5a6a7a8a9aaabacadaeaf 0000 03 0010 000b
        command 0 8001 00000056 00000171 03000000 0000000200208fcd2169ab92694e0c633f1ab772842b8241bbc20288981fc7ac1eddc1fddb0e0020e8c02d3c5e701670cbaa327db1a2e9f3f41b2c22793e5c669a6e7f44b912f6c0
        digest cfd7952867f0335963f7c257f10de088258bdf1d89410ad3e0cf03583b0d9c3d
        # What a command authorized ends its policy.
        # The first digest is that of Python's hashlib. The second is the one that is recorded of
        # the other implementation for these three commands. They can't give it by Part 3, 23.11,
        # but the last of them gives it on a policy that begins again.
        new
        command 0 8001 0000002b 00000176 40000007 40000007 0010 a0a1a2a3a4a5a6a7a8a9aaabacadaeaf 0000 01 0010 000b
        command 0 8001 00000012 0000016c 03000000 00000134
        command 0 8001 00000056 00000171 03000000 00000002 0020 8fcd2169ab92694e0c633f1ab772842b8241bbc20288981fc7ac1eddc1fddb0e 0020 e8c02d3c5e701670cbaa327db1a2e9f3f41b2c22793e5c669a6e7f44b912f6c0
        command 0 8001 00000012 0000016c 03000000 00000134
        digest a9f49f8d642bf21d22e051633fd6d51fa1102d5d88e04691e7266cbd8f6531bc
        new
        command 0 8001 0000002b 00000176 40000007 40000007 0010 a0a1a2a3a4a5a6a7a8a9aaabacadaeaf 0000 01 0010 000b
        command 0 8001 00000012 0000016c 03000000 00000134
        command 0 8001 00000056 00000171 03000000 00000002 0020 8fcd2169ab92694e0c633f1ab772842b8241bbc20288981fc7ac1eddc1fddb0e 0020 e8c02d3c5e701670cbaa327db1a2e9f3f41b2c22793e5c669a6e7f44b912f6c0
        kept 03000000
        digest 0000000000000000000000000000000000000000000000000000000000000000
        command 0 8001 00000012 0000016c 03000000 00000134
        digest e8c02d3c5e701670cbaa327db1a2e9f3f41b2c22793e5c669a6e7f44b912f6c0
        # A fresh policy has zeros for its digest.
        new
        command 0 8001 0000002b 00000176 40000007 40000007 0010 a0a1a2a3a4a5a6a7a8a9aaabacadaeaf 0000 01 0010 000b
        digest 0000000000000000000000000000000000000000000000000000000000000000
        no-digest 03000001 910
        # Policy commands want their session. Each policy command on a session that is not loaded.
        new
        command 910 8001 0000000e 00000180 03000000
        command 910 8001 0000001a 0000017f 03000000 0000 00000001 000b 03 000001
        command 910 8001 00000012 0000016c 03000000 00000134
        command 910 8001 00000056 00000171 03000000 00000002 0020 8fcd2169ab92694e0c633f1ab772842b8241bbc20288981fc7ac1eddc1fddb0e 0020 e8c02d3c5e701670cbaa327db1a2e9f3f41b2c22793e5c669a6e7f44b912f6c0
        command 910 8001 0000000e 0000016b 03000000
        # Any command code is set.
        new
        command 0 8001 0000002b 00000176 40000007 40000007 0010 a0a1a2a3a4a5a6a7a8a9aaabacadaeaf 0000 01 0010 000b
        command 0 8001 00000012 0000016c 03000000 0000ffff
        digest 2f1f7abecf49255a0a8d1a6f9b96e657acd9b198f9d6ff689646e073c024a8c2
        # A choice has the policy among its digests. A list of one digest is no list of
        # TPM2_PolicyOR, and a policy session is none of two others.
        new
        command 0 8001 0000002b 00000176 40000007 40000007 0010 a0a1a2a3a4a5a6a7a8a9aaabacadaeaf 0000 01 0010 000b
        command 1d5 8001 00000034 00000171 03000000 00000001 0020 0000000000000000000000000000000000000000000000000000000000000000
        command 1c4 8001 00000056 00000171 03000000 00000002 0020 8fcd2169ab92694e0c633f1ab772842b8241bbc20288981fc7ac1eddc1fddb0e 0020 e8c02d3c5e701670cbaa327db1a2e9f3f41b2c22793e5c669a6e7f44b912f6c0
        digest 0000000000000000000000000000000000000000000000000000000000000000
        # Another digest of registers is refused.
        new
        command 0 8001 0000002b 00000176 40000007 40000007 0010 a0a1a2a3a4a5a6a7a8a9aaabacadaeaf 0000 01 0010 000b
        command 1c4 8001 0000003a 0000017f 03000000 0020 0000000000000000000000000000000000000000000000000000000000000000 00000001 000b 03 000001
        command 1c4 8001 0000001b 0000017f 03000000 0001 00 00000001 000b 03 000001
        digest 0000000000000000000000000000000000000000000000000000000000000000
        # Changed registers are refused until a restart. The digests are those of Python's hashlib.
        new
        command 0 8001 0000002b 00000176 40000007 40000007 0010 a0a1a2a3a4a5a6a7a8a9aaabacadaeaf 0000 01 0010 000b
        command 0 8001 0000001a 0000017f 03000000 0000 00000001 000b 03 000001
        digest bff2d58e9813f97cefc14f72ad8133bc7092d652b7c877959254af140c841f36
        command 0 8002 00000041 00000182 00000010 00000009 40000009 0000 01 0000 00000001 000b 0000000000000000000000000000000000000000000000000000000000000000
        command 128 8001 0000001a 0000017f 03000000 0000 00000001 000b 03 000001
        digest bff2d58e9813f97cefc14f72ad8133bc7092d652b7c877959254af140c841f36
        command 0 8001 0000000e 00000180 03000000
        digest 0000000000000000000000000000000000000000000000000000000000000000
        command 0 8001 0000001a 0000017f 03000000 0000 00000001 000b 03 000001
        digest a30840cd85e3d23a95cf861ec299fb6df74a4e479f4aecabf65724558f25f0e8
        # A trial takes any digest of registers. A trial takes the digest as it is given, of
        # whatever length, keeps no update counter, and stays a trial after a restart. The digests
        # are those of Python's hashlib.
        new
        command 0 8001 0000002b 00000176 40000007 40000007 0010 a0a1a2a3a4a5a6a7a8a9aaabacadaeaf 0000 03 0010 000b
        command 0 8001 0000001b 0000017f 03000000 0001 00 00000001 000b 03 000001
        digest 30597cab6c7e8a01a40b1c4b49d4472b5c16a48f043e56855c1fd5dbd523d938
        command 0 8002 00000041 00000182 00000010 00000009 40000009 0000 01 0000 00000001 000b 0000000000000000000000000000000000000000000000000000000000000000
        command 0 8001 0000001a 0000017f 03000000 0000 00000001 000b 03 000001
        command 0 8001 0000000e 00000180 03000000
        command 0 8001 0000001b 0000017f 03000000 0001 00 00000001 000b 03 000001
        digest 30597cab6c7e8a01a40b1c4b49d4472b5c16a48f043e56855c1fd5dbd523d938
        command 0 8002 00000041 00000182 00000010 00000009 40000009 0000 01 0000 00000001 000b 0000000000000000000000000000000000000000000000000000000000000000
        command 0 8001 0000001a 0000017f 03000000 0000 00000001 000b 03 000001
        command 0 8001 0000000e 00000180 03000000
        # Registers of two banks are asserted under a third hash. The digests are those of Python's
        # hashlib: over two banks, in a session of SHA-384.
        new
        command 0 8001 0000002b 00000176 40000007 40000007 0010 a0a1a2a3a4a5a6a7a8a9aaabacadaeaf 0000 01 0010 000c
        command 0 8001 00000020 0000017f 03000000 0000 00000002 0004 03 800001 000b 03 010002
        digest d32244152101ea5834f27de49543c3ceff4f73dfefe8b23b51fe946359e16dcf17b0fc807723e2a0e81fd025a68b01b3
        ",
    );
}
