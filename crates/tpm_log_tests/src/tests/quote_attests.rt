//! Quotes that a software TPM signed, beside the logs whose records it was extended with: what `tpm2_quote
//! -m` wrote of them. Their signatures are those of the keys in checks/quotes.

use crate::tests::quote_quotes::{is_quote, is_refusal};
use crate::tests::rows::{Asked, Row, made, rows};
use std::test::*;
use tpm_boot_laws::boot_to_quote;
use tpm_log::replay;
use tpm_pcr::Registers;
use tpm_quote::laws::attest_or_fault;
use tpm_quote::{
    AttestFault, NotSelected, check_attest, decode_attest, first_not_selected, nonce_matches,
    selects_none,
};
use tpm_types::{Attest, ClockInfo, Lent, Selection, Selections};
use tpm_vouched::laws::records_of_the_quote;
use tpm_wire::{Buffer, Refusal};

// SENT is the nonce that was sent for each quote. NOT_MEASURED is of registers 10 to 12, which no record of its log
// extends, signed under SHA-256; RSA_SHA1 of registers 0 to 7 of SHA-1, signed under SHA-1; TWO_BANKS of registers 0
// and 7 of SHA-1 and of SHA-256, and ALL of registers 0 to 7 of SHA-256, both signed under SHA-256. NOTHING is what
// ALL would end with if its one entry selected nothing, with the digest of no bytes: that of Python's hashlib.
const BYTES: &str = "
    SENT c0ffee0000000000000000000000000000000000
    NOT_MEASURED ff54434780180022000beea405b3af96d6844c54bb6d07db02e11983f95002ae2af9f1a807fd8e86bcc90014c0ffee00000000000000000000000000000000000000000000000357000000010000000001201910230016363600000001000b03001c0000202ea9ab9198d1638007400cd2c3bef1cc745b864b76011a0e1bc52180ac6452d4
    RSA_SHA1 ff54434780180022000b1a73441ad0cbefa9a585c9eecf45b0a659474b922f3262efa20710e2e1e998250014c0ffee0000000000000000000000000000000000000000000000049c000000010000000001201910230016363600000001000403ff00000014e215d07ab7586c5886cb9f004151306057d0de8f
    TWO_BANKS ff54434780180022000b8843e5f582d9d3270cfac1e4ba6d2343d12b3afca836e17262c53012042188590014c0ffee000000000000000000000000000000000000000000000003b8000000010000000001201910230016363600000002000403810000000b038100000020aafede955a1083bbe3492ef7a86ee56e9c872986902e2cd056ccc7e16324e03b
    ALL ff54434780180022000bf13d66293d389a25a9c91bdf5cfe2bb12962333d51ae35a4cd562bab57d2b4aa0014c0ffee00000000000000000000000000000000000000000000000362000000010000000001201910230016363600000001000b03ff000000207b0bcb625c0390650432b56a226a82bf2ecef3fd09b3f73564f5b721e201827b
    NOTHING 00000001000b030000000020e3b0c44298fc1c149afbf4c8996fb92427ae41e4649b934ca495991b7852b855
    SIGNER 000b1a73441ad0cbefa9a585c9eecf45b0a659474b922f3262efa20710e2e1e99825
    OTHER_SIGNER 000beea405b3af96d6844c54bb6d07db02e11983f95002ae2af9f1a807fd8e86bcc9
    OTHER_DIGEST 2ea9ab9198d1638007400cd2c3bef1cc745b864b76011a0e1bc52180ac6452d4
";

// The log of NOT_MEASURED.
const SEABIOS: &str = "
    000000000300000000000000000000000000000000000000000000002d00000053706563204944204576656e74303300000000000002020204000000
    040014000b0020000c0030000d004000000100000006000000040000000400946a7c9931f8bf16f5d1d20a965cb4977b527d2d0b008efa5c27f7f51e
    2f07626201bcd87039bd5c316bfb8252ed45a3621278a019a20c00b2f8582b03a960009b73b2ec0534a19eac8bbb7cad98746933c3a714c1fe99f571
    ac7012f9dc89ff5a3222cd6474b37a0d00c8c2bee7de9ee3fb9a3a435c3cfa257717874de4b2a5e473d8d3dd4f1a80eeebd05e0cb154766c1aeeca9d
    afd50abd85c255893fb31df867e0d3a571480651ac1c00000001000000140000009be5ed40da25ff300732b9ce8c019fc66e196cfa02000000050000
    000400000004009dbd87163112e5670378abe4510491259a61f4110b00ceb1bb117d14a37f07e23c96e580729e3fcc12f749915bbdc8edadfc20e21a
    cf0c008f6f01ba4ac9b9a75bfd3c76a71dfbb4ec7a4fd912f1cc36db26cfe2c2f46e00714f5c90febc935cd51ca63c80d344f50d00ff651dfa5841b2
    21536ee4d839d49c7dcecac08b2de654c38d26699380088b73623a765167cde9b224724f25bcc4e24c187d509bd9c00604f3dbc18e89706f50150000
    005374617274204f7074696f6e20524f4d205363616e0200000006000000040000000400b0ea1ddf684592b3a2ce95d61a930c93e9beee2b0b0056fb
    69c5123f3f24a84227f315d75101297671f6b1814490f30c7847fbeb392d0c00c8da70c653770f276ce2262e064cf08c952f6a95bd0112c1ac3afab4
    d996c3201693481e565e45deff1f46cab64954fb0d00986829601d092bab5f932bd18585ec6670339cf4b2b2e78946abc9a4bb87baf00c0b4bdc9f1b
    284f5bdf3dc492d327b79bfc8b6850d10a418915fbeb596222682000000007000000180000000000000073317636627e30c5474d0feefdb1d31afbca
    b72a02000000060000000400000004003b299b2568b2ce72bc9df9cbf3bad71dc77af7370b00240b7eb86763bad3be00c6cd60d0e7131aa59e4a5080
    244bd5330e0b1ed6037f0c0092aff2cf87fc1f1771dd6fabfb49024e1c9e340a6284b491a931f80d330acc1b4f9401bd6f1bf514d3ae0424a58f1706
    0d00cd28bbb2b4a6f469ca8a3714a2f06aa9c37b62ad25dc960f87da626468ecfad3af1d2f2ebcc2b641159dea7b553b7bac7e32913821701d37049c
    f6b21cf24b72200000000700000018000000000000003a46741b02cae216135f93272a956458c1b7f03f0400000005000000040000000400c1e25c3f
    6b0dc78d57296aa2870ca6f782ccf80f0b007a19a5a56fd2c4a9c9dbd8c74537f34d0bc442a4a528c36fb44a3ccd858df12b0c00d44316c5086ead04
    d3a1cc19a5b3bac1a9eabbdf47c89e3d5f189de97421d0b4702e64f98466b059c1a58c95ee68a6840d0081e4439d292b87cedc4bf8f84a282ee73923
    051cee3f827f03a9b8695eff8c8313608b61576861c7b1d8fc6c09a7eddc39460811ad7f5369f3a02b8cb88f6a930f00000043616c6c696e6720494e
    54203139680000000004000000040000000400d9be6524a5f5047db5866813acf3277892a7a30a0b00ad95131bc0b799c0b1af477fb14fcf26a6a9f7
    6079e48bf090acb7e8367bfd0e0c004a06b879c7eedbe01c945d46b5bd785b59203dce81ea6a1206c28091ca285365f760d9167778f0dc1763d4854a
    afd40a0d00ea71bb243b0b2db729b9eb88e3c55a3f490fbff23457825051224a1fe6e6d3f480590cfa3a4a6b12c622d6ac366feb03cd17004ed004cb
    3f0d5273162694667904000000ffffffff0100000004000000040000000400d9be6524a5f5047db5866813acf3277892a7a30a0b00ad95131bc0b799
    c0b1af477fb14fcf26a6a9f76079e48bf090acb7e8367bfd0e0c004a06b879c7eedbe01c945d46b5bd785b59203dce81ea6a1206c28091ca285365f7
    60d9167778f0dc1763d4854aafd40a0d00ea71bb243b0b2db729b9eb88e3c55a3f490fbff23457825051224a1fe6e6d3f480590cfa3a4a6b12c622d6
    ac366feb03cd17004ed004cb3f0d5273162694667904000000ffffffff0200000004000000040000000400d9be6524a5f5047db5866813acf3277892
    a7a30a0b00ad95131bc0b799c0b1af477fb14fcf26a6a9f76079e48bf090acb7e8367bfd0e0c004a06b879c7eedbe01c945d46b5bd785b59203dce81
    ea6a1206c28091ca285365f760d9167778f0dc1763d4854aafd40a0d00ea71bb243b0b2db729b9eb88e3c55a3f490fbff23457825051224a1fe6e6d3
    f480590cfa3a4a6b12c622d6ac366feb03cd17004ed004cb3f0d5273162694667904000000ffffffff0300000004000000040000000400d9be6524a5
    f5047db5866813acf3277892a7a30a0b00ad95131bc0b799c0b1af477fb14fcf26a6a9f76079e48bf090acb7e8367bfd0e0c004a06b879c7eedbe01c
    945d46b5bd785b59203dce81ea6a1206c28091ca285365f760d9167778f0dc1763d4854aafd40a0d00ea71bb243b0b2db729b9eb88e3c55a3f490fbf
    f23457825051224a1fe6e6d3f480590cfa3a4a6b12c622d6ac366feb03cd17004ed004cb3f0d5273162694667904000000ffffffff04000000040000
    00040000000400d9be6524a5f5047db5866813acf3277892a7a30a0b00ad95131bc0b799c0b1af477fb14fcf26a6a9f76079e48bf090acb7e8367bfd
    0e0c004a06b879c7eedbe01c945d46b5bd785b59203dce81ea6a1206c28091ca285365f760d9167778f0dc1763d4854aafd40a0d00ea71bb243b0b2d
    b729b9eb88e3c55a3f490fbff23457825051224a1fe6e6d3f480590cfa3a4a6b12c622d6ac366feb03cd17004ed004cb3f0d52731626946679040000
    00ffffffff0500000004000000040000000400d9be6524a5f5047db5866813acf3277892a7a30a0b00ad95131bc0b799c0b1af477fb14fcf26a6a9f7
    6079e48bf090acb7e8367bfd0e0c004a06b879c7eedbe01c945d46b5bd785b59203dce81ea6a1206c28091ca285365f760d9167778f0dc1763d4854a
    afd40a0d00ea71bb243b0b2db729b9eb88e3c55a3f490fbff23457825051224a1fe6e6d3f480590cfa3a4a6b12c622d6ac366feb03cd17004ed004cb
    3f0d5273162694667904000000ffffffff0600000004000000040000000400d9be6524a5f5047db5866813acf3277892a7a30a0b00ad95131bc0b799
    c0b1af477fb14fcf26a6a9f76079e48bf090acb7e8367bfd0e0c004a06b879c7eedbe01c945d46b5bd785b59203dce81ea6a1206c28091ca285365f7
    60d9167778f0dc1763d4854aafd40a0d00ea71bb243b0b2db729b9eb88e3c55a3f490fbff23457825051224a1fe6e6d3f480590cfa3a4a6b12c622d6
    ac366feb03cd17004ed004cb3f0d5273162694667904000000ffffffff0700000004000000040000000400d9be6524a5f5047db5866813acf3277892
    a7a30a0b00ad95131bc0b799c0b1af477fb14fcf26a6a9f76079e48bf090acb7e8367bfd0e0c004a06b879c7eedbe01c945d46b5bd785b59203dce81
    ea6a1206c28091ca285365f760d9167778f0dc1763d4854aafd40a0d00ea71bb243b0b2db729b9eb88e3c55a3f490fbff23457825051224a1fe6e6d3
    f480590cfa3a4a6b12c622d6ac366feb03cd17004ed004cb3f0d5273162694667904000000ffffffff
";

// The log of RSA_SHA1.
const OVMF: &str = "
    000000000300000000000000000000000000000000000000000000002500000053706563204944204576656e74303300000000000002000202000000
    040014000b0020000000000000080000000200000004001489f923c4dca729178b3e3233458550d8dddf290b0096a296d224f285c67bee93c30f8a30
    9157f0daa35dc5b87e410b78630a09cfc70200000000000000000008000080020000000400392f6883b4613137a6ed57e9ff1f1df115ec1b280b00a8
    7d62757d139619887b30e73c66a06bdcb97eb869f7f096a65657daa421a73210000000000082000000000000000e0000000000000000000800008002
    00000004003bd60ac456658ecc0ad04d4bbd0c641a603b44f80b0082a0445201cb49945461acc6ed78426700fb7e92819862edc55ba3ad4559b13510
    00000000009000000000000000c00000000000070000000100008002000000040057cd4dc19442475aa82743484f3b1caa88e142b80b00115aa827db
    ccfb44d216ad9ecfda56bdea620b860a94bed5b7a27bba1c4d02d83500000061dfe48bca93d211aa0d00e098032b8c0a000000000000000100000000
    00000053006500630075007200650042006f006f0074000007000000010000800200000004009b1387306ebb7ff8e795e7be77563666bbf4516e0b00
    dea7b80ab53a3daaa24d5cc46c64e1fa9ffd03739f90aadbd8c0867c4a5b48902400000061dfe48bca93d211aa0d00e098032b8c0200000000000000
    000000000000000050004b0007000000010000800200000004009afa86c507419b8570c62167cb9486d9fc8097580b00e670e121fcebd473b8bc41bb
    801301fc1d9afa33904f06f7149b74f12c47a68f2600000061dfe48bca93d211aa0d00e098032b8c030000000000000000000000000000004b004500
    4b0007000000010000800200000004005bf8faa078d40ffbd03317c93398b01229a0e1e00b00baf89a3ccace52750c5f0128351e0422a41597a1adfd
    50822aa363b9d124ea7c24000000cbb219d73a3d9645a3bcdad00e67656f020000000000000000000000000000006400620007000000010000800200
    00000400734424c9fe8fc71716c42096f4b74c88733b175e0b009f75b6823bff6af1024a4e2036719cdd548d3cbc2bf1de8e7ef4d0ed01f94bf92600
    0000cbb219d73a3d9645a3bcdad00e67656f0300000000000000000000000000000064006200780007000000040000000200000004009069ca78e745
    0a285173431b3e52c5c25299e4730b00df3f619804a92fdb4057192dc43dd748ea778adc52bc498ce80524c014b81119040000000000000001000000
    020000800200000004001b24f7f4bb84000302209d1298d62f5779a94f450b0090c2698921ca9fd02950be353f721888760e33ab5095a21e50f1e436
    0b6de1a03800000061dfe48bca93d211aa0d00e098032b8c0900000000000000060000000000000042006f006f0074004f0072006400650072000000
    01000200010000000200008002000000040022a4f6ee9af6dba01d3528deb64b74b582fc182b0b003197be1e300fa1600d1884c3a4bd4a90a15405bf
    b546cf2e6cf6095f8c362a936e00000061dfe48bca93d211aa0d00e098032b8c08000000000000003e0000000000000042006f006f00740030003000
    30003000090100002c0055006900410070007000000004071400c9bdb87cebf8344faaea3ee4af6516a10406140021aa2c4614760345836e8ab6f466
    23317fff04000100000002000080020000000400a15dd40b8cfacd69bb3c4b3575adb8f01ec80cab0b008feeaa7c040119942a7c9e25748a1fe6e2fb
    c2c77fe1d1c6aad17dad6282cf409c00000061dfe48bca93d211aa0d00e098032b8c08000000000000006c0000000000000042006f006f0074003000
    30003000310001000000200055004500460049002000510045004d00550020004400560044002d0052004f004d00200051004d003000300030003000
    35002000000002010c00d041030a0000000001010600021f03120a000200ffff00007fff04004eac0881119f594d850ee21a522c59b2010000000200
    0080020000000400df5d6605cb8f4366d745a8464cfb26c1efdc305c0b004d387b02d63b2f4cd7f667feb0a387fe47a10a3e26bf3533ddd001c605f3
    dec58800000061dfe48bca93d211aa0d00e098032b8c0800000000000000580000000000000042006f006f0074003000300030003200010000002c00
    450046004900200049006e007400650072006e0061006c0020005300680065006c006c00000004071400c9bdb87cebf8344faaea3ee4af6516a10406
    140083a5047c3e9e1c4fad65e05268d0b4d17fff04000400000007000080020000000400cd0fdb4531a6ec41be2753ba042637d6e5f7f2560b003d67
    72b4f84ed47595d72a2c4c5ffd15f5bb72c7507fe26f2aaee2c69d5633ba2800000043616c6c696e6720454649204170706c69636174696f6e206672
    6f6d20426f6f74204f7074696f6e00000000040000000200000004009069ca78e7450a285173431b3e52c5c25299e4730b00df3f619804a92fdb4057
    192dc43dd748ea778adc52bc498ce80524c014b81119040000000000000001000000040000000200000004009069ca78e7450a285173431b3e52c5c2
    5299e4730b00df3f619804a92fdb4057192dc43dd748ea778adc52bc498ce80524c014b8111904000000000000000200000004000000020000000400
    9069ca78e7450a285173431b3e52c5c25299e4730b00df3f619804a92fdb4057192dc43dd748ea778adc52bc498ce80524c014b81119040000000000
    000003000000040000000200000004009069ca78e7450a285173431b3e52c5c25299e4730b00df3f619804a92fdb4057192dc43dd748ea778adc52bc
    498ce80524c014b81119040000000000000004000000040000000200000004009069ca78e7450a285173431b3e52c5c25299e4730b00df3f619804a9
    2fdb4057192dc43dd748ea778adc52bc498ce80524c014b81119040000000000000005000000040000000200000004009069ca78e7450a285173431b
    3e52c5c25299e4730b00df3f619804a92fdb4057192dc43dd748ea778adc52bc498ce80524c014b81119040000000000000006000000040000000200
    000004009069ca78e7450a285173431b3e52c5c25299e4730b00df3f619804a92fdb4057192dc43dd748ea778adc52bc498ce80524c014b811190400
    0000000000000400000007000080020000000400b6ae9742d3936a4291cfed8df775bc4657e368c00b007044f06303e54fa96c3fcd1a0f11047c03d2
    09074470b1fd60460c9f007e28a62f00000052657475726e696e672066726f6d20454649204170706c69636174696f6e2066726f6d20426f6f74204f
    7074696f6e0400000007000080020000000400cd0fdb4531a6ec41be2753ba042637d6e5f7f2560b003d6772b4f84ed47595d72a2c4c5ffd15f5bb72
    c7507fe26f2aaee2c69d5633ba2800000043616c6c696e6720454649204170706c69636174696f6e2066726f6d20426f6f74204f7074696f6e040000
    000300008002000000040068095c7ea2858000e7286a814674f30019da6c9a0b00d6cb71f2c6241bd0fd4c7a0765103406efe2d2b886bac12d992c12
    b1b803c9084c00000018e0210e0000000080600d000000000000000000000000002c0000000000000004071400c9bdb87cebf8344faaea3ee4af6516
    a10406140083a5047c3e9e1c4fad65e05268d0b4d17fff0400
";

// Where the tokens of RSA_SHA1 begin, by the tables of Part 2, 10.12 and 10.11.1, and how many bytes it has.
const TOKENS: [u32; 17] = [
    0, 4, 6, 8, 42, 44, 64, 72, 76, 80, 81, 89, 93, 95, 96, 99, 101,
];

const END: usize = 121;

// The bytes of an attestation, and each of its parts; or their fault.
struct Attests;

impl Asked for Attests {
    fn ask(row: &mut Row<'_>) {
        let bytes = row.rest();
        match decode_attest(bytes.as_slice()) {
            Ok(attest) => {
                has_parts(row, &attest);
                row.holds(is_spelled(&attest, bytes.as_slice()));
            }
            Err(refusal) => is_refusal(row, refusal),
        }
    }
}

fn has_parts(row: &mut Row<'_>, attest: &Attest<'_>) {
    let clock_info = &attest.clock_info;
    row.has(attest.signer.as_slice());
    row.has(attest.extra_data.as_slice());
    row.is_code(clock_info.clock);
    row.prints(clock_info.reset_count);
    row.prints(clock_info.restart_count);
    row.is(if clock_info.safe { "safe" } else { "unsafe" });
    row.is_code(attest.firmware_version);
    is_quote(row, &attest.quote);
}

fn is_spelled(attest: &Attest<'_>, bytes: &[u8]) -> bool {
    let len = attest.len();
    if len > 4096 {
        return false;
    }
    let mut out = Buffer::new();
    attest.put(&mut out);
    out.as_slice() == bytes && len == bytes.len()
}

#[test]
fn a_quote_is_spelled_from_its_parts(rt: HostRuntime) {
    let signer = made(BYTES, "OTHER_SIGNER").expect(&rt, "bytes");
    let nonce = made(BYTES, "SENT").expect(&rt, "bytes");
    let bytes = made(BYTES, "NOT_MEASURED").expect(&rt, "bytes");
    let decoded = decode_attest(bytes.as_slice()).ok().expect(&rt, "a quote");
    let attest = Attest {
        signer: Lent::new(signer.as_slice()).expect(&rt, "a Name"),
        extra_data: Lent::new(nonce.as_slice()).expect(&rt, "a nonce"),
        clock_info: ClockInfo {
            clock: 0x357,
            reset_count: 1,
            restart_count: 0,
            safe: true,
        },
        firmware_version: 0x2019_1023_0016_3636,
        quote: decoded.quote,
    };
    assert!(rt; is_spelled(&attest, bytes.as_slice()));
    assert!(rt; Lent::<66>::new(&[0; 67]).is_none());
}

// Where the last token begins that begins within so many bytes.
fn token_at(end: usize) -> u32 {
    let mut at = 0;
    for token in TOKENS {
        if token as usize <= end {
            at = token;
        }
    }
    at
}

// Cut behind each byte: the token that is too short is at fault.
#[test]
fn a_quote_that_is_cut_has_a_fault(rt: HostRuntime) {
    let bytes = made(BYTES, "RSA_SHA1").expect(&rt, "bytes");
    assert!(rt; bytes.len() == END);
    for end in 0..END {
        let (front, _) = bytes.as_slice().split_at(end.min(bytes.len()));
        let (code, at) = (0x9A, token_at(end));
        assert!(rt;
            decode_attest(front).err() == Some(Refusal { code, at }),
            "{end}"
        );
    }
    let found = decode_attest(&[0xff; 5000]).err();
    assert!(rt; found == Some(Refusal { code: 0x84, at: 0 }));
}

// The next word is these registers of a bank, and of no other; or of none.
fn required(row: &mut Row<'_>) -> Selections {
    let hash = row.bank();
    match row.bytes().as_slice() {
        [first, second, third] => {
            let select = [*first, *second, *third];
            row.known(Selections::new(&[Selection { hash, select }]))
        }
        _ => Selections::default(),
    }
}

// The registers after the log that is given next, or after none.
fn registers_after(row: &mut Row<'_>) -> Registers {
    let log = match row.word() {
        "SEABIOS" => row.of(SEABIOS),
        "OVMF" => row.of(OVMF),
        _ => return Registers::new(),
    };
    let replayed = replay(log.as_slice());
    row.holds(replayed.is_ok());
    replayed.unwrap_or(Registers::new())
}

// A log, the hash of the signature, the nonce, what registers of which bank are required, and a quote.
struct Answers;

impl Asked for Answers {
    fn ask(row: &mut Row<'_>) {
        let registers = registers_after(row);
        let by = row.bank();
        let nonce = row.bytes();
        let required = required(row);
        match decode_attest(row.rest().as_slice()) {
            Ok(attest) => {
                let answer = check_attest(&registers, &attest, by, nonce.as_slice(), &required);
                row.holds(
                    nonce_matches(&attest, nonce.as_slice()) != (answer == Err(AttestFault::Nonce)),
                );
                is_answer(row, answer);
            }
            Err(_) => row.holds(false),
        }
    }
}

fn is_answer(row: &mut Row<'_>, answer: Result<(), AttestFault>) {
    match answer {
        Ok(()) => row.is("right"),
        Err(AttestFault::Nonce) => row.is("nonce"),
        Err(AttestFault::Digest) => row.is("digest"),
        Err(AttestFault::NotSelected(missing)) => lacks(row, missing),
    }
}

pub(crate) fn lacks(row: &mut Row<'_>, missing: NotSelected) {
    row.is_code(missing.bank.number() as u64);
    row.prints(missing.register.number());
}

// A quote of these bytes, and the registers of a bank.
struct Selects;

impl Asked for Selects {
    fn ask(row: &mut Row<'_>) {
        let required = required(row);
        match decode_attest(row.rest().as_slice()) {
            Ok(attest) => are_selected(row, &attest.quote.selections, &required),
            Err(_) => row.holds(false),
        }
    }
}

fn are_selected(row: &mut Row<'_>, quoted: &Selections, required: &Selections) {
    row.prints(selects_none(quoted));
    row.prints(selects_none(required));
    match first_not_selected(quoted, required) {
        Some(missing) => lacks(row, missing),
        None => row.is("none"),
    }
}

#[test]
fn each_part_of_a_quote_is_decoded_and_put_back_and_it_is_the_one_that_was_asked_for(
    rt: HostRuntime,
) {
    rows::<Attests>(
        &rt,
        BYTES,
        "
        RSA_SHA1 is SIGNER SENT 49c 1 0 safe 2019102300163636 4 ff0000 e215d07ab7586c5886cb9f004151306057d0de8f
        NOT_MEASURED is OTHER_SIGNER SENT 357 1 0 safe 2019102300163636 b 001c00 OTHER_DIGEST
        RSA_SHA1 80=00 is SIGNER SENT 49c 1 0 unsafe 2019102300163636 4 ff0000 e215d07ab7586c5886cb9f004151306057d0de8f
        # Bytes that are no quote have a fault: a byte behind it
        RSA_SHA1 00 is refused 95 121
        # another magic, and the type of a certification
        RSA_SHA1 3=46 is refused 84 0
        RSA_SHA1 0=fe is refused 84 0
        RSA_SHA1 5=17 is refused 84 4
        RSA_SHA1 5=14 is refused 84 4
        # a Name and a nonce of 67 bytes
        RSA_SHA1 7=43 is refused 95 6
        RSA_SHA1 43=43 is refused 95 42
        # neither safe nor unsafe
        RSA_SHA1 80=02 is refused 84 80
        RSA_SHA1 80=ff is refused 84 80
        # the information of a quote, which is judged as it is alone
        RSA_SHA1 92=04 is refused 95 89
        RSA_SHA1 95=04 is refused 84 95
        ",
    );
    attest_or_fault();
    rows::<Answers>(
        &rt,
        BYTES,
        "
        SEABIOS 000b SENT 000b 001c00 NOT_MEASURED is right
        OVMF 0004 SENT 0004 ff0000 RSA_SHA1 is right
        # the log of the other, another hash, and another digest
        SEABIOS 0004 SENT 0004 ff0000 RSA_SHA1 is digest
        OVMF 000b SENT 0004 ff0000 RSA_SHA1 is digest
        OVMF 0004 SENT 0004 ff0000 RSA_SHA1 120=8e is digest
        # Another nonce comes first.
        SEABIOS 0004 - 000c 000001 RSA_SHA1 is nonce
        SEABIOS 0004 c0ffee00000000000000000000000000000000 000c 000001 RSA_SHA1 is nonce
        SEABIOS 0004 c0ffee000000000000000000000000000000000000 000c 000001 RSA_SHA1 is nonce
        SEABIOS 0004 c0ffee0000000000000000000000000000000001 000c 000001 RSA_SHA1 is nonce
        SEABIOS 0004 c1ffee0000000000000000000000000000000000 000c 000001 RSA_SHA1 is nonce
        # Each required register has to be selected: 0 to 7, of which 1 comes first
        none 000b SENT 000b ff0000 TWO_BANKS is b 1
        none 000b SENT 0004 810080 TWO_BANKS is 4 23
        # a bank that is not quoted
        none 000b SENT 000c 800000 TWO_BANKS is c 7
        # What is selected may be more than what is required; the digest is judged after it.
        none 000b SENT 0004 800000 TWO_BANKS is digest
        none 000b SENT 000b 800000 ALL is digest
        # A quote of no register covers nothing.
        none 000b SENT 000b 010000 ALL <89 NOTHING is b 0
        none 000b SENT 000b - ALL <89 NOTHING is right
        ",
    );
    boot_to_quote();
    records_of_the_quote();
    rows::<Selects>(
        &rt,
        BYTES,
        "
        000b 010000 ALL <89 NOTHING is true false b 0
        000b - ALL <89 NOTHING is true true none
        # no entry, and the digest of none
        000b 010000 ALL <89 00000000 0000 is true false b 0
        000b - ALL <89 00000000 0000 is true true none
        ",
    );
}
