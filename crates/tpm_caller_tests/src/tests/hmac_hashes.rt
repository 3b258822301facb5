//! Hashes, HMACs and derived keys. A script's line is told in `session_scripts`.

use crate::tests::session_scripts::run;
use std::test::*;
use tpm_hmac::{hash, hmac, kdfa, same, trim};
use tpm_testing::{bytes, is_spelled, next_bytes, next_value, word};
use tpm_types::Alg;

/// Whether the line's hash, HMAC or derived key is so.
pub fn is_hashed(what: &str, mut rest: &str) -> bool {
    match (next_value::<Alg>(&mut rest), bytes(word(&mut rest))) {
        (Some(alg), Some(first)) => is_result(what, alg, first.as_slice(), rest),
        _ => false,
    }
}

fn is_result(what: &str, alg: Alg, first: &[u8], mut rest: &str) -> bool {
    match what {
        "hash" => is_spelled(hash(alg, &[first]).as_slice(), rest),
        "hmac" => {
            let text = next_bytes(&mut rest);
            is_spelled(hmac(alg, first, &[text.as_slice()]).as_slice(), rest)
        }
        "kdfa" => is_derived(alg, first, rest),
        _ => false,
    }
}

fn is_derived(alg: Alg, key: &[u8], mut rest: &str) -> bool {
    let label = next_bytes(&mut rest);
    let context_u = next_bytes(&mut rest);
    let context_v = next_bytes(&mut rest);
    let expected = next_bytes(&mut rest);
    let mut room = [0; 72];
    let derived = &mut room[..expected.len().min(72)];
    kdfa(
        alg,
        key,
        label.as_slice(),
        context_u.as_slice(),
        context_v.as_slice(),
        derived,
    );
    !expected.is_empty() && *derived == *expected.as_slice()
}

#[test]
fn hashes_hmacs_and_derived_keys_are_those_of_the_standards(rt: HostRuntime) {
    run(
        &rt,
        "
        # The examples of FIPS 180-4: no byte, abc, and two blocks
        hash 0004 - da39a3ee5e6b4b0d3255bfef95601890afd80709
        hash 0004 616263 a9993e364706816aba3e25717850c26c9cd0d89d
        hash 0004 6162636462636465636465666465666765666768666768696768696a68696a6b696a6b6c6a6b6c6d6b6c6d6e6c6d6e6f6d6e6f706e6f7071 84983e441c3bd26ebaae4aa1f95129e5e54670f1
        hash 000b - e3b0c44298fc1c149afbf4c8996fb92427ae41e4649b934ca495991b7852b855
        hash 000b 616263 ba7816bf8f01cfea414140de5dae2223b00361a396177a9cb410ff61f20015ad
        hash 000b 6162636462636465636465666465666765666768666768696768696a68696a6b696a6b6c6a6b6c6d6b6c6d6e6c6d6e6f6d6e6f706e6f7071 248d6a61d20638b8e5c026930c3e6039a33ce45964ff2167f6ecedd419db06c1
        hash 000c - 38b060a751ac96384cd9327eb1b1e36a21fdb71114be07434c0cc7bf63f6e1da274edebfe76f65fbd51ad2f14898b95b
        hash 000c 616263 cb00753f45a35e8bb5a03d699ac65007272c32ab0eded1631a8b605a43ff5bed8086072ba1e7cc2358baeca134c825a7
        hash 000c 61626364656667686263646566676869636465666768696a6465666768696a6b65666768696a6b6c666768696a6b6c6d6768696a6b6c6d6e68696a6b6c6d6e6f696a6b6c6d6e6f706a6b6c6d6e6f70716b6c6d6e6f7071726c6d6e6f707172736d6e6f70717273746e6f707172737475 09330c33f71147e83d192fc782cd1b4753111b173b3b05d22fa08086e3b0f712fcc7c71a557e2db966c3e9fa91746039
        # RFC 2202, section 3, and RFC 4231, section 4: test cases 1 to 4, 6 and 7. Then a key of no byte, one as long
        # as the block, which is taken as it is, and one longer by a byte, which is hashed first, and Hi There: those
        # are of Python's hmac module. SHA-1
        hmac 0004 0b0b0b0b0b0b0b0b0b0b0b0b0b0b0b0b0b0b0b0b 4869205468657265 b617318655057264e28bc0b6fb378c8ef146be00
        hmac 0004 4a656665 7768617420646f2079612077616e7420666f72206e6f7468696e673f effcdf6ae5eb2fa2d27416d5f184df9c259a7c79
        hmac 0004 aaaaaaaaaaaaaaaaaaaaaaaaaaaaaaaaaaaaaaaa dddddddddddddddddddddddddddddddddddddddddddddddddddddddddddddddddddddddddddddddddddddddddddddddddddd 125d7342b9ac11cd91a39af48aa17b4f63f175d3
        hmac 0004 0102030405060708090a0b0c0d0e0f10111213141516171819 cdcdcdcdcdcdcdcdcdcdcdcdcdcdcdcdcdcdcdcdcdcdcdcdcdcdcdcdcdcdcdcdcdcdcdcdcdcdcdcdcdcdcdcdcdcdcdcdcdcd 4c9007f4026250c6bc8414f9bf50c86c2d7235da
        hmac 0004 aaaaaaaaaaaaaaaaaaaaaaaaaaaaaaaaaaaaaaaaaaaaaaaaaaaaaaaaaaaaaaaaaaaaaaaaaaaaaaaaaaaaaaaaaaaaaaaaaaaaaaaaaaaaaaaaaaaaaaaaaaaaaaaaaaaaaaaaaaaaaaaaaaaaaaaaaaaaaaaa 54657374205573696e67204c6172676572205468616e20426c6f636b2d53697a65204b6579202d2048617368204b6579204669727374 aa4ae5e15272d00e95705637ce8a3b55ed402112
        hmac 0004 aaaaaaaaaaaaaaaaaaaaaaaaaaaaaaaaaaaaaaaaaaaaaaaaaaaaaaaaaaaaaaaaaaaaaaaaaaaaaaaaaaaaaaaaaaaaaaaaaaaaaaaaaaaaaaaaaaaaaaaaaaaaaaaaaaaaaaaaaaaaaaaaaaaaaaaaaaaaaaaa 54657374205573696e67204c6172676572205468616e20426c6f636b2d53697a65204b657920616e64204c6172676572205468616e204f6e6520426c6f636b2d53697a652044617461 e8e99d0f45237d786d6bbaa7965c7808bbff1a91
        hmac 0004 - 4869205468657265 69536cc84eee5fe51c5b051aff8485f5c9ef0b58
        hmac 0004 aaaaaaaaaaaaaaaaaaaaaaaaaaaaaaaaaaaaaaaaaaaaaaaaaaaaaaaaaaaaaaaaaaaaaaaaaaaaaaaaaaaaaaaaaaaaaaaaaaaaaaaaaaaaaaaaaaaaaaaaaaaaaaaa 4869205468657265 e83ee1c362c86cc004df4f912a641c1bd844f36c
        hmac 0004 aaaaaaaaaaaaaaaaaaaaaaaaaaaaaaaaaaaaaaaaaaaaaaaaaaaaaaaaaaaaaaaaaaaaaaaaaaaaaaaaaaaaaaaaaaaaaaaaaaaaaaaaaaaaaaaaaaaaaaaaaaaaaaaaaa 4869205468657265 5c0fb63dc6aea0bed8fa2f8ea120a144e15cbd50
        # SHA-256
        hmac 000b 0b0b0b0b0b0b0b0b0b0b0b0b0b0b0b0b0b0b0b0b 4869205468657265 b0344c61d8db38535ca8afceaf0bf12b881dc200c9833da726e9376c2e32cff7
        hmac 000b 4a656665 7768617420646f2079612077616e7420666f72206e6f7468696e673f 5bdcc146bf60754e6a042426089575c75a003f089d2739839dec58b964ec3843
        hmac 000b aaaaaaaaaaaaaaaaaaaaaaaaaaaaaaaaaaaaaaaa dddddddddddddddddddddddddddddddddddddddddddddddddddddddddddddddddddddddddddddddddddddddddddddddddddd 773ea91e36800e46854db8ebd09181a72959098b3ef8c122d9635514ced565fe
        hmac 000b 0102030405060708090a0b0c0d0e0f10111213141516171819 cdcdcdcdcdcdcdcdcdcdcdcdcdcdcdcdcdcdcdcdcdcdcdcdcdcdcdcdcdcdcdcdcdcdcdcdcdcdcdcdcdcdcdcdcdcdcdcdcdcd 82558a389a443c0ea4cc819899f2083a85f0faa3e578f8077a2e3ff46729665b
        hmac 000b aaaaaaaaaaaaaaaaaaaaaaaaaaaaaaaaaaaaaaaaaaaaaaaaaaaaaaaaaaaaaaaaaaaaaaaaaaaaaaaaaaaaaaaaaaaaaaaaaaaaaaaaaaaaaaaaaaaaaaaaaaaaaaaaaaaaaaaaaaaaaaaaaaaaaaaaaaaaaaaaaaaaaaaaaaaaaaaaaaaaaaaaaaaaaaaaaaaaaaaaaaaaaaaaaaaaaaaaaaaaaaaaaaaaaaaaaaaaaaaaaaaaaaaaaaaaaaaaaaaaaa 54657374205573696e67204c6172676572205468616e20426c6f636b2d53697a65204b6579202d2048617368204b6579204669727374 60e431591ee0b67f0d8a26aacbf5b77f8e0bc6213728c5140546040f0ee37f54
        hmac 000b aaaaaaaaaaaaaaaaaaaaaaaaaaaaaaaaaaaaaaaaaaaaaaaaaaaaaaaaaaaaaaaaaaaaaaaaaaaaaaaaaaaaaaaaaaaaaaaaaaaaaaaaaaaaaaaaaaaaaaaaaaaaaaaaaaaaaaaaaaaaaaaaaaaaaaaaaaaaaaaaaaaaaaaaaaaaaaaaaaaaaaaaaaaaaaaaaaaaaaaaaaaaaaaaaaaaaaaaaaaaaaaaaaaaaaaaaaaaaaaaaaaaaaaaaaaaaaaaaaaaaa 5468697320697320612074657374207573696e672061206c6172676572207468616e20626c6f636b2d73697a65206b657920616e642061206c6172676572207468616e20626c6f636b2d73697a6520646174612e20546865206b6579206e6565647320746f20626520686173686564206265666f7265206265696e6720757365642062792074686520484d414320616c676f726974686d2e 9b09ffa71b942fcb27635fbcd5b0e944bfdc63644f0713938a7f51535c3a35e2
        hmac 000b - 4869205468657265 e48411262715c8370cd5e7bf8e82bef53bd53712d007f3429351843b77c7bb9b
        hmac 000b aaaaaaaaaaaaaaaaaaaaaaaaaaaaaaaaaaaaaaaaaaaaaaaaaaaaaaaaaaaaaaaaaaaaaaaaaaaaaaaaaaaaaaaaaaaaaaaaaaaaaaaaaaaaaaaaaaaaaaaaaaaaaaaa 4869205468657265 ebef34e13d0a0fe04593d043bc7a865106db0604211d404c18206d862e5d7852
        hmac 000b aaaaaaaaaaaaaaaaaaaaaaaaaaaaaaaaaaaaaaaaaaaaaaaaaaaaaaaaaaaaaaaaaaaaaaaaaaaaaaaaaaaaaaaaaaaaaaaaaaaaaaaaaaaaaaaaaaaaaaaaaaaaaaaaaa 4869205468657265 00af6c42340b99e2e1d9a1cdf1547be431fe2e9bab3215c68d013ba858891927
        # SHA-384
        hmac 000c 0b0b0b0b0b0b0b0b0b0b0b0b0b0b0b0b0b0b0b0b 4869205468657265 afd03944d84895626b0825f4ab46907f15f9dadbe4101ec682aa034c7cebc59cfaea9ea9076ede7f4af152e8b2fa9cb6
        hmac 000c 4a656665 7768617420646f2079612077616e7420666f72206e6f7468696e673f af45d2e376484031617f78d2b58a6b1b9c7ef464f5a01b47e42ec3736322445e8e2240ca5e69e2c78b3239ecfab21649
        hmac 000c aaaaaaaaaaaaaaaaaaaaaaaaaaaaaaaaaaaaaaaa dddddddddddddddddddddddddddddddddddddddddddddddddddddddddddddddddddddddddddddddddddddddddddddddddddd 88062608d3e6ad8a0aa2ace014c8a86f0aa635d947ac9febe83ef4e55966144b2a5ab39dc13814b94e3ab6e101a34f27
        hmac 000c 0102030405060708090a0b0c0d0e0f10111213141516171819 cdcdcdcdcdcdcdcdcdcdcdcdcdcdcdcdcdcdcdcdcdcdcdcdcdcdcdcdcdcdcdcdcdcdcdcdcdcdcdcdcdcdcdcdcdcdcdcdcdcd 3e8a69b7783c25851933ab6290af6ca77a9981480850009cc5577c6e1f573b4e6801dd23c4a7d679ccf8a386c674cffb
        hmac 000c aaaaaaaaaaaaaaaaaaaaaaaaaaaaaaaaaaaaaaaaaaaaaaaaaaaaaaaaaaaaaaaaaaaaaaaaaaaaaaaaaaaaaaaaaaaaaaaaaaaaaaaaaaaaaaaaaaaaaaaaaaaaaaaaaaaaaaaaaaaaaaaaaaaaaaaaaaaaaaaaaaaaaaaaaaaaaaaaaaaaaaaaaaaaaaaaaaaaaaaaaaaaaaaaaaaaaaaaaaaaaaaaaaaaaaaaaaaaaaaaaaaaaaaaaaaaaaaaaaaaaa 54657374205573696e67204c6172676572205468616e20426c6f636b2d53697a65204b6579202d2048617368204b6579204669727374 4ece084485813e9088d2c63a041bc5b44f9ef1012a2b588f3cd11f05033ac4c60c2ef6ab4030fe8296248df163f44952
        hmac 000c aaaaaaaaaaaaaaaaaaaaaaaaaaaaaaaaaaaaaaaaaaaaaaaaaaaaaaaaaaaaaaaaaaaaaaaaaaaaaaaaaaaaaaaaaaaaaaaaaaaaaaaaaaaaaaaaaaaaaaaaaaaaaaaaaaaaaaaaaaaaaaaaaaaaaaaaaaaaaaaaaaaaaaaaaaaaaaaaaaaaaaaaaaaaaaaaaaaaaaaaaaaaaaaaaaaaaaaaaaaaaaaaaaaaaaaaaaaaaaaaaaaaaaaaaaaaaaaaaaaaaa 5468697320697320612074657374207573696e672061206c6172676572207468616e20626c6f636b2d73697a65206b657920616e642061206c6172676572207468616e20626c6f636b2d73697a6520646174612e20546865206b6579206e6565647320746f20626520686173686564206265666f7265206265696e6720757365642062792074686520484d414320616c676f726974686d2e 6617178e941f020d351e2f254e8fd32c602420feb0b8fb9adccebb82461e99c5a678cc31e799176d3860e6110c46523e
        hmac 000c - 4869205468657265 da5393cef424a670d6db42c6ed6e7920779dfa4cbb98bf1c2e9c12ae10d10905d0c9e9d576c2a613be54b8daea246d4b
        hmac 000c aaaaaaaaaaaaaaaaaaaaaaaaaaaaaaaaaaaaaaaaaaaaaaaaaaaaaaaaaaaaaaaaaaaaaaaaaaaaaaaaaaaaaaaaaaaaaaaaaaaaaaaaaaaaaaaaaaaaaaaaaaaaaaaaaaaaaaaaaaaaaaaaaaaaaaaaaaaaaaaaaaaaaaaaaaaaaaaaaaaaaaaaaaaaaaaaaaaaaaaaaaaaaaaaaaaaaaaaaaaaaaaaaaaaaaaaaaaaaaaaaaaaaaaaaaaaaaaa 4869205468657265 5617c36d768eff4cdb4b48c3a320023adfa5deed39a88d75a739918c36338d6afe214107be6e51595c2f29d647bde45f
        hmac 000c aaaaaaaaaaaaaaaaaaaaaaaaaaaaaaaaaaaaaaaaaaaaaaaaaaaaaaaaaaaaaaaaaaaaaaaaaaaaaaaaaaaaaaaaaaaaaaaaaaaaaaaaaaaaaaaaaaaaaaaaaaaaaaaaaaaaaaaaaaaaaaaaaaaaaaaaaaaaaaaaaaaaaaaaaaaaaaaaaaaaaaaaaaaaaaaaaaaaaaaaaaaaaaaaaaaaaaaaaaaaaaaaaaaaaaaaaaaaaaaaaaaaaaaaaaaaaaaaaa 4869205468657265 a956933366648c218fd998d3117c6a71e32613e90743c3b854a8cc33e21684458fb9d43840e8e20ccd238b1c41c7d99c
        # Two blocks and part of a third, of the key owner and the label ATH. The expected values are those of
        # OpenSSL's KBKDF, whose salt is the label and whose info is both contexts.
        kdfa 0004 6f776e6572 415448 a0a1a2a3 b0b1b2b3b4 a1dfaa5b7add090e875683c746ce7911e18eb296221e9f4dbe89d904aef3f1b868f0576215bf9aebf065157cfad94523
        kdfa 000b 6f776e6572 415448 a0a1a2a3 b0b1b2b3b4 31e3e162e688498f3fa48b1e1afe0fae92e30e5c3e6ce872dcf7e1737fa6faf036f6b317f5120d1896a2fcb18b015545b500334b4091efb1ed7446292b1cf702bcf6a7f1b7793674
        ",
    );
}

#[test]
fn joined_parts_are_one_text_and_trailing_zeros_alone_are_trimmed(rt: HostRuntime) {
    let parts = hmac(Alg::Sha1, &[0x0B; 20], &[b"Hi ", b"", b"There"]);
    assert!(rt; parts == hmac(Alg::Sha1, &[0x0B; 20], &[b"Hi There"]));
    assert!(rt; hash(Alg::Sha1, &[b"a", b"bc"]) == hash(Alg::Sha1, &[b"abc"]));
    let trimmed = (trim(&[0, 1, 0, 2, 0, 0]), trim(&[0, 0]), trim(&[]));
    assert!(rt; trimmed == ([0, 1, 0, 2].as_slice(), [].as_slice(), [].as_slice()));
    // a prefix is another list
    assert!(rt; same(b"abc", b"abc") && same(b"", b""));
    assert!(rt; !same(b"abc", b"abd") && !same(b"abc", b"ab") && !same(b"", b"a"));
}
