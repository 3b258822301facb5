//! Calls of subcommands: what each reads, answers and writes.

/// A line that begins with none of these signs is a call, and `%` ends it:
///
///     * BYTE TIMES    the byte, in hexadecimal, so many times before the lines that are read
///     < LINE          a line that is read; behind `<.` it has no line feed
///     <x HEX          bytes that are read, in hexadecimal; LOG is a log
///     > LINE          a line that is written; behind `>.` it goes on in the next
///     = ANSWER        the answer, if it isn't `Done`
///     @ N..           behind how many of the bytes that are read each line is written; the others at their end
///     ~ N             how many reads there are, of a byte each, of which each may fail
///     # TEXT          what the call is about
pub(crate) const CALLS: &str = r##"
show 80010000000c000001440000
> command Startup size 12
> parameters 0000
%
show
> refused 09a at 0
= Refused
%
show-reply 80020000001300000000000000000000010000
> reply PCR_Reset size 19
> parameters -
> session 1 nonce - attributes 01 hmac -
%
show-fields 80010000000c000001440000
> command Startup size 12
> parameters 0000
>   startupType TPM_SU 0000 TPM_SU_CLEAR
%
show-reply-fields 80020000001d000000000000000a000800000000000000040000010000
> reply NV_Read size 29
> parameters 00080000000000000004
>   data TPM2B_MAX_NV_BUFFER 00080000000000000004
> session 1 nonce - attributes 01 continueSession hmac -
%
show-nv 564a4e560001000000000000000900000002000e01800001000b220600160000000800036b657900000000000000080022018000020004020200120014000102030405060708090a0b0c0d0e0f1011121300080000ac2a53e6794d51175ddaf7ebcfbc8a2adf4a9b0e49fbd605b012364d01178454
> greatest 9
> counter 1 01800001 hash sha256 attributes 22060016 policy - authorization yes value 8
> counter 2 01800002 hash sha1 attributes 02020012 policy 000102030405060708090a0b0c0d0e0f10111213 authorization no value -
%
show-nv 564a4e56
> refused 09a at 4
= Refused
%
build 0000
> 80010000000c000001440000
%
build 0002
> refused 1c4 at 10
= Refused
%
not-hexadecimal
> not hexadecimal
= Refused
%
lines
< 80010000000c000001440000
< 80010000000a00000000
< < 80010000000a00000000
> 1 > command Startup size 12 tag 8001
> parameters 0000
> 2 < reply Startup size 10 tag 8001 code 000 TPM_RC_SUCCESS
> parameters -
> 3 < reply size 10 tag 8001 code 000 TPM_RC_SUCCESS
> no command is before it
= Refused
%
lines fields
< 80010000000c000001440000
< 80010000000a00000000
< < 80010000000a00000000
> 1 > command Startup size 12 tag 8001 TPM_ST_NO_SESSIONS
> parameters 0000
>   startupType TPM_SU 0000 TPM_SU_CLEAR
> 2 < reply Startup size 10 tag 8001 TPM_ST_NO_SESSIONS code 000 TPM_RC_SUCCESS
> parameters -
> 3 < reply size 10 tag 8001 TPM_ST_NO_SESSIONS code 000 TPM_RC_SUCCESS
> no command is before it
= Refused
%
lines json
< 80010000000c000001440000
< 80010000000a00000000
< < 80010000000a00000000
>. {"number":1,"kind":"command","command":"Startup","size":12,"tag":"8001","tag_name":"TPM_ST_NO_SESSIONS",
>. "command_code":"00000144","handles":[],"handle_names":[],"sessions":[],"parameters":"0000",
> "fields":[{"name":"startupType","type":"TPM_SU","value":"0000","value_name":"TPM_SU_CLEAR"}]}
>. {"number":2,"kind":"response","command":"Startup","size":10,"tag":"8001","tag_name":"TPM_ST_NO_SESSIONS",
> "code":"000","code_name":"TPM_RC_SUCCESS","handles":[],"handle_names":[],"parameters":"","fields":[],"sessions":[]}
>. {"number":3,"kind":"response","size":10,"tag":"8001","tag_name":"TPM_ST_NO_SESSIONS","code":"000",
> "code_name":"TPM_RC_SUCCESS","fault":"no command is before it"}
= Refused
%
lines json
< 8002000000230000014e 40000001 01800001 00000009 40000009 0000 01 0000 0008 0000
< 80010000000c000001440002
>. {"number":1,"kind":"command","command":"NV_Read","size":35,"tag":"8002","tag_name":"TPM_ST_SESSIONS",
>. "command_code":"0000014e","handles":["40000001","01800001"],"handle_names":["TPM_RH_OWNER","TPM_HT_NV_INDEX"],
>. "sessions":[{"session":"40000009","session_name":"TPM_RS_PW","nonce":"","attributes":"01",
>. "attribute_names":["continueSession"],"hmac":""}],"parameters":"00080000","fields":[{"name":"size",
> "type":"UINT16","value":"0008"},{"name":"offset","type":"UINT16","value":"0000"}]}
>. {"number":2,"kind":"command","command":"Startup","size":12,"tag":"8001","tag_name":"TPM_ST_NO_SESSIONS",
>. "command_code":"00000144","refused":"1c4","fault":"TPM_RC_VALUE for parameter 1","at":10,"handles":[],
> "handle_names":[],"sessions":[],"parameters":"0002"}
= Refused
%
lines fields
< 8002000000230000014e 40000001 01800001 00000009 40000009 0000 01 0000 0008 0000
< 80010000000c000001440002
> 1 > command NV_Read size 35 tag 8002 TPM_ST_SESSIONS
> handle 1 40000001 TPM_RH_OWNER
> handle 2 01800001 TPM_HT_NV_INDEX
> session 1 40000009 TPM_RS_PW nonce - attributes 01 continueSession hmac -
> parameters 00080000
>   size UINT16 0008
>   offset UINT16 0000
> 2 > command Startup size 12 tag 8001 TPM_ST_NO_SESSIONS
> refused 1c4 at 10 TPM_RC_VALUE for parameter 1
> parameters 0002
= Refused
%
lines fields
<. no
> 1 not hexadecimal
= Refused
%
stream
<x 80010000000c00000144000080
> 1 > command Startup size 12 tag 8001
> parameters 0000
> 2 cut short at 12
= Refused
%
stream json
<x 80010000000c00000144000080
>. {"number":1,"kind":"command","command":"Startup","size":12,"tag":"8001","tag_name":"TPM_ST_NO_SESSIONS",
>. "command_code":"00000144","handles":[],"handle_names":[],"sessions":[],"parameters":"0000",
> "fields":[{"name":"startupType","type":"TPM_SU","value":"0000","value_name":"TPM_SU_CLEAR"}]}
> {"number":2,"fault":"cut short","at":12}
= Refused
%
# a size that no frame has, behind which nothing is read
stream
<x 80010000000c00000144000080010000000a00000000800100000009
> 1 > command Startup size 12 tag 8001
> parameters 0000
> 2 < reply Startup size 10 tag 8001 code 000 TPM_RC_SUCCESS
> parameters -
> 3 bad size at 22
= Refused
@ 12 12 22 22
~ 28
%
# a comment, a command and its reply, a line that isn't hexadecimal, and a reply that has no command
lines
< # boot
<x 3e203830303120303030303030304320303030303031343420303030300d0a
<x 3c09307838303031303030303030306130303030303030300a
<
< no
<. < 80010000000a00000000
> 1 > command Startup size 12 tag 8001
> parameters 0000
> 2 < reply Startup size 10 tag 8001 code 000 TPM_RC_SUCCESS
> parameters -
> 3 not hexadecimal
> 4 < reply size 10 tag 8001 code 000 TPM_RC_SUCCESS
> its command is not known
= Refused
@ 38 38 63 63 67
~ 90
%
lines
%
lines
<
<
< # no frame
%
# Blanks count for nothing, however many there are. Of other bytes a line has 8,195 at most, and the next line is read.
lines
* 20 100000
<
<. > 80010000000c000001440000
> 1 > command Startup size 12 tag 8001
> parameters 0000
%
lines
* 23 100000
<
<. > 80010000000c000001440000
> 1 > command Startup size 12 tag 8001
> parameters 0000
%
lines
* 30 8195
<
<. > 80010000000c000001440000
> 1 not hexadecimal
> 2 > command Startup size 12 tag 8001
> parameters 0000
= Refused
%
lines
* 30 8196
<
<. > 80010000000c000001440000
> 1 too long
> 2 > command Startup size 12 tag 8001
> parameters 0000
= Refused
%
lines
* 30 100000
<
<. > 80010000000c000001440000
> 1 too long
> 2 > command Startup size 12 tag 8001
> parameters 0000
= Refused
%
run
< power
> power
%
run
<. no
> line 1: not hexadecimal
= Refused
%
run
<. 80010000000c000001440000
> 80010000000a00000000
%
# Startup, a power cycle, PCR_Read before a Startup, and a line that is refused
run
< 80010000000c000001440000
<
< power
< 8001000000140000017e00000001000b03010000
< no
< power
> 80010000000a00000000
> power
> 80010000000a00000100
> line 5: not hexadecimal
= Refused
%
run
<. power
> power
%
run
< power
< 80010000000c000001440000
> power
> 80010000000a00000000
@ 6 31
~ 32
%
# Nothing is read behind a line that is refused.
run
< power
< no
< power
> power
> line 2: not hexadecimal
= Refused
@ 6 9
~ 9
%
# A line that ends with byte 16,777,216 counts, whatever was read together with it, and one that ends behind it does
# not.
run
* 0a 16777213
< no
< power
> line 16777214: not hexadecimal
= Refused
%
run
* 0a 16777214
< no
= InputTooLong
%
events
> log Truncated at 0
= Refused
%
# the records of the log, by a reading of its bytes in Python
events
<x LOG
> 1 0 EV_NO_ACTION not-hashed measured=other at=73 - size 0
> 2 7 EV_SEPARATOR hashed=sha1,sha256,sha384 measured=data at=89 sha1=9069ca78e7450a285173431b3e52c5c25299e473,sha256=df3f619804a92fdb4057192dc43dd748ea778adc52bc498ce80524c014b81119,sha384=394341b7182cd227c5c6b07ef8000cdfd86136c4292b8e576573ad7ed9ae41019f5818b4b971c9effc60e1ad9f1289f0 separator=00000000
~ 216
%
# a separator with a digest of SHA-512 alone, which has no bank
events
<x 000000000300000000000000000000000000000000000000000000002100000053706563204944204576656e743033000000000000020002010000000d004000000000000004000000010000000d002248a8803402a2062fee5d37fede63ea8fb30fe502b9d6ba344c0c15c566d555612494e7e0bbc6fcf26e4b2325cb9310d99db8426e78f17ef3191b4d69adcf4a0400000000000000
> 1 0 EV_SEPARATOR not-hashed measured=other at=65 000d=2248a8803402a2062fee5d37fede63ea8fb30fe502b9d6ba344c0c15c566d555612494e7e0bbc6fcf26e4b2325cb9310d99db8426e78f17ef3191b4d69adcf4a separator=00000000
%
# up to the log's fault
events
<x 000000000300000000000000000000000000000000000000000000002900000053706563204944204576656e74303300000000000002000203000000040014000b0020000c003000000000000003000000000000000000000007000000040000000300000004009069ca78e7450a285173431b3e52c5c25299e4730b00df3f619804a92fdb4057192dc43dd748ea778adc52bc498ce80524c014b811190c00394341b7182cd227c5c6b07ef8000cdfd86136c4292b8e576573ad7ed9ae41019f5818b4b971c9effc60e1ad9f1289f004000000000000
> 1 0 EV_NO_ACTION not-hashed measured=other at=73 - size 0
> log Truncated at 211
= Refused
%
# an endless log: 2,048 pieces of 8,192 bytes, and the byte that is one too many
events
* 00 18446744073709551615
> log NotCryptoAgile at 4
= Refused
~ 2049
%
# what the definition says of a separator alone in register 7
secure-boot
<x LOG
> secure-boot sha1 unknown NoSecureBoot at 215
> secure-boot sha256 unknown NoSecureBoot at 215
> secure-boot sha384 unknown NoSecureBoot at 215
= Refused
~ 216
%
secure-boot
<x 000000000300000000000000000000000000000000000000000000002100000053706563204944204576656e743033000000000000020002010000000d004000000000000004000000010000000d002248a8803402a2062fee5d37fede63ea8fb30fe502b9d6ba344c0c15c566d555612494e7e0bbc6fcf26e4b2325cb9310d99db8426e78f17ef3191b4d69adcf4a0400000000000000
> secure-boot no bank
= Refused
%
check
> log Truncated at 0
= Refused
%
check
<x LOG
> quote matches
%
# beside a list of what register 7 is then, and of what register 0 isn't
check-log
<x LOG
> match sha1 7
> differs sha1 0
> quote matches
= Refused
~ 216
%
check-log
* 00 18446744073709551615
> log NotCryptoAgile at 4
= Refused
%
check-log
* ff 18446744073709551615
> log NotCryptoAgile at 0
= Refused
%
check-list
< sha1 7 b2a83b0ebf2f8374299a5b2bdfc31ea955ad7236
< sha1 0 b2a83b0ebf2f8374299a5b2bdfc31ea955ad7236
> match sha1 7
> differs sha1 0
> quote matches
= Refused
@ 48 96
~ 97
%
check-list
<. no
> line 1: not a register
= Refused
%
# What `tpm2_pcrread sha1:0,7+sha256:7+sha512:7` printed of swtpm, whose registers the records of the log had extended.
check-list
<   sha1:
<     0 : 0x0000000000000000000000000000000000000000
<     7 : 0xB2A83B0EBF2F8374299A5B2BDFC31EA955AD7236
<   sha256:
<     7 : 0x3D458CFE55CC03EA1F443F1562BEEC8DF51C75E14A9FCF9A7234A13F198E7969
<   sha512:
<     7 : 0x00000000000000000000000000000000000000000000000000000000000000000000000000000000000000000000000000000000000000000000000000000000
> match sha1 0
> match sha1 7
> match sha256 7
> quote matches
@ 59 110 195
~ 345
%
# An endless list ends with its first line that is wrong, and an endless line when it is too long for one.
check-list
* 0a 18446744073709551615
> line 1: not a register
= Refused
~ 1
%
check-list
* 61 18446744073709551615
> line 1: not a register
= Refused
~ 1
%
# the digests of the log, by a reading of its bytes in Python
extends
<x LOG
> sha1 7 9069ca78e7450a285173431b3e52c5c25299e473 EV_SEPARATOR
> sha256 7 df3f619804a92fdb4057192dc43dd748ea778adc52bc498ce80524c014b81119 EV_SEPARATOR
> sha384 7 394341b7182cd227c5c6b07ef8000cdfd86136c4292b8e576573ad7ed9ae41019f5818b4b971c9effc60e1ad9f1289f0 EV_SEPARATOR
~ 216
%
# The quote is told as checks/quotes/told.py tells it. The list has the digests of the log.
boot
<x LOG
>. {"attest":{"signer":"","nonce":"6e6f","clock":855,"resets":1,"restarts":0,"safe":true,
>. "firmware":"2019102300163636","selection":[{"bank":"sha256","registers":[7]}]},"nonce":"not compared",
> "selection":"not compared","quote":"matches"}
> {"selection":"lacks","lacks":{"bank":"sha1","register":7}}
> {"ok":false}
= Refused
~ 216
%
boot-list
< sha1 7 9069ca78e7450a285173431b3e52c5c25299e473 EV_SEPARATOR
< sha256 7 df3f619804a92fdb4057192dc43dd748ea778adc52bc498ce80524c014b81119 EV_SEPARATOR
< sha384 7 394341b7182cd227c5c6b07ef8000cdfd86136c4292b8e576573ad7ed9ae41019f5818b4b971c9effc60e1ad9f1289f0 EV_SEPARATOR
>. {"attest":{"signer":"","nonce":"6e6f","clock":855,"resets":1,"restarts":0,"safe":true,
>. "firmware":"2019102300163636","selection":[{"bank":"sha256","registers":[7]}]},"nonce":"not compared",
> "selection":"not compared","quote":"matches"}
> {"selection":"lacks","lacks":{"bank":"sha1","register":7}}
> {"ok":false}
= Refused
%
boot-list
<. sha256 7 df3f619804a92fdb4057192dc43dd748ea778adc52bc498ce80524c014b81119 EV_SEPARATOR
>. {"attest":{"signer":"","nonce":"6e6f","clock":855,"resets":1,"restarts":0,"safe":true,
>. "firmware":"2019102300163636","selection":[{"bank":"sha256","registers":[7]}]},"nonce":"not compared",
> "selection":"not compared","quote":"matches"}
> {"bank":"sha256","register":7,"allowed":true}
> {"ok":true}
%
boot-list
< sha256 7 00000000000000000000000000000000000000000000000000000000000000ff
>. {"attest":{"signer":"","nonce":"6e6f","clock":855,"resets":1,"restarts":0,"safe":true,
>. "firmware":"2019102300163636","selection":[{"bank":"sha256","registers":[7]}]},"nonce":"not compared",
> "selection":"not compared","quote":"matches"}
> {"bank":"sha256","register":7,"allowed":false,"at":89,"digest":"df3f619804a92fdb4057192dc43dd748ea778adc52bc498ce80524c014b81119","type":"EV_SEPARATOR"}
> {"ok":false}
= Refused
%
# how many digests a list has, or which line of it is the first that is wrong
list 0
%
list 0
<
%
list 3
< sha1 7 9069ca78e7450a285173431b3e52c5c25299e473 EV_SEPARATOR
< sha256 7 df3f619804a92fdb4057192dc43dd748ea778adc52bc498ce80524c014b81119 EV_SEPARATOR
< sha384 7 394341b7182cd227c5c6b07ef8000cdfd86136c4292b8e576573ad7ed9ae41019f5818b4b971c9effc60e1ad9f1289f0 EV_SEPARATOR
~ 268
%
list 1
< # none
<
<   
<. sha1 7 9069CA78e7450a285173431b3e52c5c25299e473#1
%
list 2
< sha1 7 9069ca78e7450a285173431b3e52c5c25299e473
< sha1 7
< no
= Refused
%
list 3
< sha1 7 9069ca78e7450a285173431b3e52c5c25299e473
<
<. sha1 24 9069ca78e7450a285173431b3e52c5c25299e473
= Refused
%
list 0
* 20 16777216
%
list
* 20 16777217
= InputTooLong
%
list
* 0a 18446744073709551615
= InputTooLong
"##;
