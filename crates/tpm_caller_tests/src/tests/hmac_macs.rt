//! The MACs of commands and responses between tpm2-tss 3.2.1 and libtpms 0.9.2, as they went between them.

use crate::tests::session_scripts::run;
use std::test::*;
use tpm_hmac::{SessionKey, command_mac, cp_hash, response_mac, rp_hash};
use tpm_testing::{bytes, next_bytes, next_number, next_value, word};
use tpm_types::{Alg, CommandCode, Digest, Name, SessionAttrs};

// A command or a response a line: its hash, the session key, the authorization value, the code, the
// Names of the handles (two at most, joined by `+`), the parameters, cpHash or rpHash, the newer
// nonce, the older, the attributes and the MAC. `-` is none. Of TPM2_HierarchyChangeAuth, code 129,
// the MAC alone is compared. The authorization value of the last two lines ends in zeros that are no part of it, and
// their MAC is that of Python's hmac module.
const ROWS: &str = "\
mac command 000b - - 0000013c 00000000 000400000000 83d626610b0b01361031551c63bf4483f4519d30038889ff04d59441b91fe554 c964447a8400c938dfa67f1257c33ec1565155da53ff1baf2ee35ad837558486 8b26365d44c0df3c6fae5ebabe84f4f4fa8825e8cbfa9222279101c537dd1a1e 01 61be469b433c23b38d7c2755957b62eed799a453c5aea795fe0d7851da1399f5
mac response 000b - - 0000013c - 0000000400049069ca78e7450a285173431b3e52c5c25299e473000bdf3f619804a92fdb4057192dc43dd748ea778adc52bc498ce80524c014b81119000c394341b7182cd227c5c6b07ef8000cdfd86136c4292b8e576573ad7ed9ae41019f5818b4b971c9effc60e1ad9f1289f0000dec2d57691d9b2d40182ac565032054b7d784ba96b18bcb5be0bb4e70e3fb041eff582c8af66ee50256539f2181d7f9e53627c0189da7e75a4d5ef10ea93b20b3 7efb077d4ef15c65e2cf20b969a7cb7d007f197958dcf1ea455b2e319eadc069 7973cf0c8385b1fbe5cc845ebfe0b8da9e00b660882d81f392854d2e4c3942b2 c964447a8400c938dfa67f1257c33ec1565155da53ff1baf2ee35ad837558486 01 d59942074444fe145af5db9fa0a1e5f31acb007b53b1be6ad187dbc5125df5e5
mac response 000b - 6f776e6572 00000129 - - b354d016ac8a7f6cd011e44acd409d75abaf1eb2ddb808c3f61c4289a7243912 1c4b75fa42c722f91270ae2319d63332ebbcee450d5f6715b3739f3866652b55 778758209cdadb75e957ec0076d7089cc0c676bdfeed569910916d4b8c4635a8 01 68482d6fe469f0ed32572a107dc6ca23871ed1ac1bf92aa6ee285068e500dc00
mac command 000b - 6f776e6572 0000012a 40000001 0003696478000e01800001000b0206001600000008 b16e4df151232b7f50fcc3cb05efaadfdf0bfcd398bab31d767603a8a6e7b2cf 3d6397648fe9addc211c610d7dc231286f7e18fce80e6a5da3b3d1b39a3f63b8 aa2e96fa3c0eb16cadd4abff4009d44c7d80f44cbcf55bd7ff0cddef22eabd7c 01 4893b410c25eeb8b4485cfb7ad72d8f20b308021699dc5a07ecfa58a98bbe5f8
mac command 0004 - - 00000182 00000000 00000001000b1111111111111111111111111111111111111111111111111111111111111111 dc74086002c86d83d7736d82c2c6c489d4907a69 0c21535a9d0e5f4c7fbe5db147843cdf8f732f11 a22a32644c4642b7f07150ef92ee6ad53ae4b0a1 01 937cae6845a01b22107a47ef20cebecdb45c4890
mac response 0004 - - 00000182 - - 3862af8482604d8e06ea9d3ab9ec8537f2796bfb da2dda0e76fe77f1e5d0270d9574b96530c30f44 0c21535a9d0e5f4c7fbe5db147843cdf8f732f11 01 82542c263da3321826401af6bff3bf36b882d0c6
mac command 0004 - 696478 00000134 000b07ee786a71c60bb938983992b82875024062d8448ca92c1ceac2c7956b686103+000b07ee786a71c60bb938983992b82875024062d8448ca92c1ceac2c7956b686103 - 8edd2bd360c25f68a8c1565f92a41052b15e6361 25b8260b47eb65257f43daf04b37630d69d4ea6b cb03069ca7a81687f2968a4439753dfc188a6e86 01 a919e42a38dae153ff97ead60cd12e2d3922667a
mac response 0004 - 696478 00000134 - - 90b75919ff6eb8bbd07e636c54b5585fc1854763 c93f79f37088d3b2f837d84a3594ea9e287dbdf6 25b8260b47eb65257f43daf04b37630d69d4ea6b 01 c05f80f6d50653607732569e014d4fec4d75bee1
mac command 0004 dff720fff37e1a2c8e17eef7e76093c9c2da86fa - 00000134 40000001+000b07ee786a71c60bb938983992b82875024062d8448ca92c1ceac2c7956b686103 - e9135a9c1319f07d5f69e1e28ce2f240d0cde5ac 680b246e894d0c5b2dcde8de1cd1b647a72a80bb c55039e13877cc101c3817347d2d6fa37840bd76 01 f6b83b6bba3cadaea5c64ab83b49e8aeeb285391
mac response 0004 dff720fff37e1a2c8e17eef7e76093c9c2da86fa - 00000134 - - 90b75919ff6eb8bbd07e636c54b5585fc1854763 6535c2f93a77811d18e137afb42d8e5c29926cea 680b246e894d0c5b2dcde8de1cd1b647a72a80bb 01 7b700687bfca36d5c87cf5538643b5e2657a5cb5
mac command 0004 dff720fff37e1a2c8e17eef7e76093c9c2da86fa 696478 00000134 000b07ee786a71c60bb938983992b82875024062d8448ca92c1ceac2c7956b686103+000b07ee786a71c60bb938983992b82875024062d8448ca92c1ceac2c7956b686103 - 8edd2bd360c25f68a8c1565f92a41052b15e6361 7eacea89ceae1b5fe3c35d9b45f7b3f1d735140e 6535c2f93a77811d18e137afb42d8e5c29926cea 01 3516d610c7a53627af3931e9cee3bc06c6a324bb
mac response 0004 dff720fff37e1a2c8e17eef7e76093c9c2da86fa 696478 00000134 - - 90b75919ff6eb8bbd07e636c54b5585fc1854763 8853d07a7a098394003293f2816ef705f92166bd 7eacea89ceae1b5fe3c35d9b45f7b3f1d735140e 01 9124d5ff25fe9371d586a19e24d4414cd19f0271
mac command 000b dc43fa031ed8f605f2a2a5af0aeda0384729a1fa2a9de10e2b588e0f0579804c - 00000134 40000001+000b07ee786a71c60bb938983992b82875024062d8448ca92c1ceac2c7956b686103 - d67d56d1eb9cdb075b259dcf8a732085220480f420f784cc5c7b822516e67fa8 9859da5c000485fa2d8f975336eae985a674da6cab785dcc3b5f7e212d47cd34 57ecd2d6e174e39d0faddfb06845d09451ca558e68fa882ff0afe6dc21c9bcc0 01 d3a81b6ede927833187b18bf24361ed73fdcec2bcf190453285db8d91fdb288e
mac response 000b dc43fa031ed8f605f2a2a5af0aeda0384729a1fa2a9de10e2b588e0f0579804c - 00000134 - - 3c228aac88851379497b0aff386c33108d748cb212ab2b0ae5f07a4efaf9c9c2 522a05ad169ba39ec113b99e505107402a1ddcf4e79fd82719defdeee42790dd 9859da5c000485fa2d8f975336eae985a674da6cab785dcc3b5f7e212d47cd34 01 abd8c02f5a4510acbd44929cbd3c14e554225c8eda0d7ba31fe4d0e1eea50b00
mac command 000b dc43fa031ed8f605f2a2a5af0aeda0384729a1fa2a9de10e2b588e0f0579804c 696478 00000134 000b07ee786a71c60bb938983992b82875024062d8448ca92c1ceac2c7956b686103+000b07ee786a71c60bb938983992b82875024062d8448ca92c1ceac2c7956b686103 - fcf9ea6c79951a3b6ae80ec0bddb3452c37f210ddf40805631ee48c4c55f3a53 848436eab1e5099614e6673f71be04ac41ed20b406b6b4b70b7e3a113a431274 522a05ad169ba39ec113b99e505107402a1ddcf4e79fd82719defdeee42790dd 01 a699c063c640a1b0a04a2771abdbce5fdb02ea8fd4de1996f23f96b8b928e9e0
mac response 000b dc43fa031ed8f605f2a2a5af0aeda0384729a1fa2a9de10e2b588e0f0579804c 696478 00000134 - - 3c228aac88851379497b0aff386c33108d748cb212ab2b0ae5f07a4efaf9c9c2 d4df027262407d57d1599bbd88739b7f1781688a31890e9934b696327e93cba1 848436eab1e5099614e6673f71be04ac41ed20b406b6b4b70b7e3a113a431274 01 b6d98db1f0112a057accd2506f775260286a62e07ba8152ce37a88ca174ca463
mac command 000c - - 00000182 00000000 00000001000b1111111111111111111111111111111111111111111111111111111111111111 b2f3889cb2e24dc63e933c84dea38110e0769be658a749c9d9bad7e98d7a803db6a72cbded6257ab36982c8afab52a17 e456acec8998fcfa704c061a773494a0f4ddc696637c55728d664b6923b7454921c48b4cf413a23a91f795a2fd85f3f9 1bf69d91c69b46c995f00949a7454e931870309dda225d394e9a0b9903973ffc29cc66fc31ba7fefcf1536209cb0c7d8 01 3e6444c17c6b64c04492deb12cadfa5cb978f6f978d90e92ae2a3d98efd4fc9ce4e81d5830613435565ade87785dceab
mac response 000c - - 00000182 - - 29e6d791ca5e84069759ff8f4c842ce2021658c2b7bdee31e80636a2bfec3e96970abbb6843ca4626e6f2bbaebbbc3a5 21e78cd0d835dcb348bc8bd4c34aa263d1441d7548300ea9600b3e7dc461ef17bac2997cbdc4bf26680a48f8dd61bd4d e456acec8998fcfa704c061a773494a0f4ddc696637c55728d664b6923b7454921c48b4cf413a23a91f795a2fd85f3f9 01 15a4d7dc2c6d166ebfe532d799eb7493689c27fd569437fe06c052c563989a32e3e850898e91931b998ad284736683d3
mac command 000c - 696478 00000134 000b07ee786a71c60bb938983992b82875024062d8448ca92c1ceac2c7956b686103+000b07ee786a71c60bb938983992b82875024062d8448ca92c1ceac2c7956b686103 - 07785f621ef2df3e7db350efddfc6645819b8495d0ee344a6a5083b34fcf61237328754810544cb7c1445403976e7516 92c0ad6b372699a0729a5e29ff3fc587048f998fc1e702d1d2312d3ecb8289de3d59f9ad5ab4f690c6dee7f71fdbb127 65df722c54e5748f1ded330b677a527692207b79e306dc581c34f13bfd4ac5313168658e65e3f47c3d70c987440dbca2 01 445a86fea81e254dcef48fd776f6bdc56a2854717c3443996069e3f179fcc41df2206d86ee23fa4977831abc1d6b35cd
mac response 000c - 696478 00000134 - - 4a5d19f1cb53ae1fc3776a298ac75cfee541be1055dbe564c235100c5ce6dbae4b1334af0a243c567f7ca2b4d8e66d85 07ae708c9aa9cc6c0bf676a54c598b15f3758ba465caf62c8e2c177a6483a00b172bc845c029d7cfce644bf2eb034fd7 92c0ad6b372699a0729a5e29ff3fc587048f998fc1e702d1d2312d3ecb8289de3d59f9ad5ab4f690c6dee7f71fdbb127 01 f514904a403827667b40a18062cff6f92123b47c9916e875571ad352c6a1a5976f8e9611399a3fc498a54975c6910d41
mac command 000c 80928232c9fa129837e2162c272aa4a57f564e81478cddffb29cda0ab82d90588d0a0b3c71cac0368a209eae69bb4bb5 - 00000134 40000001+000b07ee786a71c60bb938983992b82875024062d8448ca92c1ceac2c7956b686103 - 77ad9662ed6377c89ac2404cd2f0cb3a55c26d443647b110ac8d6c5d650248a3c5b6fa5a72b26c24abd43385e062fd74 27d8a35c76ddb3c8cc9f736b204d7a79cac9d804f76591f46f92ecf5b7bdb0e8180addc003aab274451175e3a393db6c 20d07b7419ec730da18ededcba46ecfd6860a21791984e584f25dfd4fc15ef53ff99874610b13ef4c9b7fc7675e2074d 01 e1a4de3d8eb03e2508813a11f15b2f50fdfe03fa49f7bc19e722332acea739fc46bfba96c9521c82373f1d8fcf040756
mac response 000c 80928232c9fa129837e2162c272aa4a57f564e81478cddffb29cda0ab82d90588d0a0b3c71cac0368a209eae69bb4bb5 - 00000134 - - 4a5d19f1cb53ae1fc3776a298ac75cfee541be1055dbe564c235100c5ce6dbae4b1334af0a243c567f7ca2b4d8e66d85 7847813cd84499b964a8cadeb70250181660e854319cea761e9a56cd69c2bf9b57528be1bf4904dd2f295b9d5cad6bee 27d8a35c76ddb3c8cc9f736b204d7a79cac9d804f76591f46f92ecf5b7bdb0e8180addc003aab274451175e3a393db6c 01 b12cfa8d0255728fca50ff89ff7e0b0e2b8311e48473b7daad9aed88296209f72d5d0688ca640ab4e8415bb9eda95c53
mac command 000c 80928232c9fa129837e2162c272aa4a57f564e81478cddffb29cda0ab82d90588d0a0b3c71cac0368a209eae69bb4bb5 696478 00000134 000b07ee786a71c60bb938983992b82875024062d8448ca92c1ceac2c7956b686103+000b07ee786a71c60bb938983992b82875024062d8448ca92c1ceac2c7956b686103 - 07785f621ef2df3e7db350efddfc6645819b8495d0ee344a6a5083b34fcf61237328754810544cb7c1445403976e7516 6a69cc8997aed4dca3ec154e8f5f942b7667466e198ef16dddfb6bdae23cf1ce59bc9a310b31e030b6c37aee9731fe13 7847813cd84499b964a8cadeb70250181660e854319cea761e9a56cd69c2bf9b57528be1bf4904dd2f295b9d5cad6bee 01 1b9dc7de4e2a59da4878c2c696f5d1454b18ed12852616b16cfe357c8e703c1f4e901de5c7335da60ac1480cce01e83b
mac response 000c 80928232c9fa129837e2162c272aa4a57f564e81478cddffb29cda0ab82d90588d0a0b3c71cac0368a209eae69bb4bb5 696478 00000134 - - 4a5d19f1cb53ae1fc3776a298ac75cfee541be1055dbe564c235100c5ce6dbae4b1334af0a243c567f7ca2b4d8e66d85 5a08f660b3621a42d3078dc4ded80b2bf53f61cb202f38931e76935d34306f2c01d27390483d3dfd0dcbd7a33cb35fb8 6a69cc8997aed4dca3ec154e8f5f942b7667466e198ef16dddfb6bdae23cf1ce59bc9a310b31e030b6c37aee9731fe13 01 6a30fa2d78a35e5e128dfdcd3dbf5c39cafb19b0af3fcb0d6d1eac1ee32b4a0b20b3f7cac87535e16e061787e2096f6e
mac command 0004 01020304 6100620000 00000129 - - 000102030405060708090a0b0c0d0e0f10111213 a0a1a2a3 b0b1b2b3b4 01 4d0b2dd8c68d5592d00db1963251da36bb7b5768
mac response 0004 01020304 6100620000 00000129 - - 000102030405060708090a0b0c0d0e0f10111213 a0a1a2a3 b0b1b2b3b4 01 4d0b2dd8c68d5592d00db1963251da36bb7b5768";

/// The Name of these bytes, or none where they are no Name.
pub fn name(text: &str) -> Option<Name> {
    match bytes(text) {
        Some(bytes) => Name::new(bytes.as_slice()),
        None => None,
    }
}

// cpHash of a command or rpHash of a response.
fn p_hash(side: &str, alg: Alg, code: CommandCode, rest: &mut &str) -> Digest {
    let names = word(rest);
    let params = next_bytes(rest);
    match names.split_once('+') {
        _ if side == "response" => rp_hash(alg, code, params.as_slice()),
        Some((first, second)) => cp_hash(
            alg,
            code,
            &[
                name(first).unwrap_or_default(),
                name(second).unwrap_or_default(),
            ],
            params.as_slice(),
        ),
        None => cp_hash(
            alg,
            code,
            &[name(names).unwrap_or_default()],
            params.as_slice(),
        ),
    }
}

// The digest of the next word.
fn digest(rest: &mut &str) -> Digest {
    Digest::new(next_bytes(rest).as_slice()).unwrap_or_default()
}

// Whether the rest of a line, from the hash of the parameters on, ends in the MAC, also by a key that is hashed once.
fn ends_in_the_mac(side: &str, alg: Alg, keys: (Digest, Digest), mut rest: &str) -> bool {
    let (session_key, auth) = keys;
    let (p_hash, newer, older) = (digest(&mut rest), digest(&mut rest), digest(&mut rest));
    let (p_hash, newer, older) = (p_hash.as_slice(), newer.as_slice(), older.as_slice());
    let attrs = next_value::<SessionAttrs>(&mut rest).unwrap_or_default();
    let (key, auth) = (session_key.as_slice(), auth.as_slice());
    let mac = if side == "response" {
        response_mac(alg, key, auth, p_hash, newer, older, attrs)
    } else {
        command_mac(alg, key, auth, p_hash, newer, older, attrs)
    };
    let mut kept = SessionKey::new(alg, session_key);
    kept.keep();
    let kept_mac = kept.session_mac(auth, p_hash, newer, older, attrs);
    let expected = digest(&mut rest);
    mac == expected && kept_mac == expected
}

/// Whether the hash and the MAC of a line are so.
pub fn is_authentic(mut rest: &str) -> bool {
    let side = word(&mut rest);
    let Some(alg) = next_value::<Alg>(&mut rest) else {
        return false;
    };
    let keys = (digest(&mut rest), digest(&mut rest));
    let code = next_number(&mut rest);
    let is_hashed = match CommandCode::from_number(code) {
        Some(code) => {
            let hashed = p_hash(side, alg, code, &mut rest);
            let mut next = rest;
            hashed == digest(&mut next)
        }
        None => {
            let _names = word(&mut rest);
            let _params = word(&mut rest);
            code == 0x129
        }
    };
    is_hashed && ends_in_the_mac(side, alg, keys, rest)
}

#[test]
fn hashes_and_macs_are_those_of_another_implementation(rt: HostRuntime) {
    run(&rt, ROWS);
}
