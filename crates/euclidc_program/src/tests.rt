use euclidc_commands::{Status, both_forms, euclidc};
use json_program::read_json;
use shelf_io::{MemShelf, MemSink, Shelf};
use std::alloc::{AllocError, Global};
use std::process::Abort;
use std::str;
use std::test::Fail;

// Whole commands. A case begins with the number of its status and with what is written: one line, a word for one of the
// texts below, or the selection of the default where that decides. Its other lines are
//     $ WORD ..        the words of the command, with `_` for an empty one; each such line is a command of its own
//     NAME TEXT        a file, where `^` is a line end, `!` a tab, `'` a carriage return, `$` a form feed, `?` the byte 0, and a
//                      backtick a byte that no text has. PROGRAM is the program below,
//                      `PROGRAM OLD -> NEW` that program with NEW for OLD, `IF COMPARISON` the one with this comparison in
//                      place of its own, EMPTY a program without rules, KEYS the keys below, SETTINGS settings, and CERTIFICATE a
//                      certificate
//     NAME:N TEXT      a file with spaces behind the text, up to so many bytes
//     ! N              the read with this number fails, counted from 1
//     ~                the sink stops after each byte in turn
const CASES: &str = r#"2 USAGE
$
$ _
$ decide -
$ decide - P
$ decide - P PAY more
$ decide - _ PAY
$ decide - P _
$ decide _ P PAY
$ Decide - P PAY
$ --help
$ prove - P S 02 0
$ prove - P S 256 0
$ prove - P S Default 0
$ prove - P S 0 65537
$ report - P S 65537
$ report - P S +1
$ report - P S -1
$ report - P S 00
$ report - P S _
$ report _ P S 0
$ report - _ S 0
$ report - P _ 0
$ report - P S
$ report - P S 0 more
$ prove - P S 0 00
$ prove - P S _ 0
$ prove _ P S 0 0
$ prove - _ S 0 0
$ prove - P _ 0 0
$ prove - P S 0
$ prove - P S 0 0 more
$ check - P S 0 _
$ check - P S 256 C
$ check - P S 01 C
$ check - P S _ C
$ check _ P S 0 C
$ check - P S 0 C more
$ convert P xml
$ convert _ json
$ convert P Json
$ sample 4294967296
$ sample 18446744073709551616
$ sample 07
$ sample -1
$ sample _
$ sample 7 7
$ sample
! 1
P PROGRAM
PAY {}
===
2 USAGE
$ decide
~
===
0 CARDS
$ decide - P PAY
~
P PROGRAM
PAY {"payment_method":"card"}
===
0 DEFAULT
$ decide - P PAY
~
P PROGRAM
PAY {}
===
3 refused payment 1 ""
$ decide - P PAY
~
P PROGRAM
PAY [
===
3 refused payment 1 ""
$ decide - P PAY
P {"defaultSelection":{"type":"none"},"rules":[]}
PAY [
===
3 refused program text 6 0
$ decide - P PAY
$ convert P json
$ convert P text
P [
===
0 = default: ["stripe"]^"cards": ["adyen"] {^  payment_method = card^}^
$ convert P text
~
P PROGRAM
===
0 = {"defaultSelection":{"type":"none"},"metadata":{},"rules":[]}^
$ convert P json
~
P default: none
===
5
$ convert P json
$ convert P text
Q PROGRAM
===
5
$ convert P json
! 1
P PROGRAM
===
0 = default: ["stripe"]^
$ convert P text
! 2
P EMPTY
===
0 = default: none^
$ convert P text
P:1048576 default: none
===
3 refused program text 6 8
$ convert P json
P:1048576 default none
===
4 toolong program
$ convert P json
$ convert P text
P:1048577 default: none
===
3 refused payment 3 ""
$ decide - P PAY
P PROGRAM
PAY []
===
3 refused table 1 -
$ decide K P PAY
K [
P [
PAY [
===
5
$ decide K P PAY
P PROGRAM
PAY {}
===
5
$ decide K P PAY
K other = 1
PAY {}
===
5
$ decide - P PAY
PAY [
===
5
$ decide - P PAY
P PROGRAM
===
5
$ decide K P PAY
! 1
K other = 1
P EMPTY
PAY {}
===
5
$ decide K P PAY
! 2
K other = 1
P EMPTY
PAY {}
===
5
$ decide K P PAY
! 3
K other = 1
P EMPTY
PAY {}
===
0 DEFAULT
$ decide K P PAY
! 4
K other = 1
P EMPTY
PAY {}
===
5
$ decide - P PAY
! 1
P PROGRAM
PAY {}
===
5
$ decide - P PAY
! 2
P PROGRAM
PAY {}
===
0 DEFAULT
$ decide - P PAY
! 3
P PROGRAM
PAY {}
===
0 DEFAULT
$ decide K P PAY
K:1048576 other = 1
P:1048576 EMPTY
PAY:1048576 {}
===
3 refused table 2 0
$ decide K P PAY
K:1048576 key = [{ name = "amount", kind = "float" }]
===
3 refused program json 1 ""
$ decide - P PAY
P:1048576 {
===
3 refused payment 1 ""
$ decide - P PAY
P PROGRAM
PAY:1048576 [
===
4 toolong table
$ decide K P PAY
K:1048577 other = 1
P [
===
4 toolong program
$ decide - P PAY
P:1048577 PROGRAM
PAY [
===
4 toolong payment
$ decide - P PAY
P PROGRAM
PAY:1048577 {}
===
0 = euclid certificate 1^atoms 0^bar 0^end^
$ prove - P S 1 0
$ prove - P S 1 65536
~
P {"defaultSelection":{"type":"none"},"rules":[{"name":"r","connectorSelection":{"type":"none"},"statements":[{"condition":[]}]},{"name":"late","connectorSelection":{"type":"none"},"statements":[{"condition":[{"lhs":"payment_method","comparison":"equal","value":{"type":"enum_variant","value":"wallet"}}]}]}]}
S SETTINGS
===
0 = euclid certificate 1^atoms 0^want 0^end^
$ prove - P S 1 0
P default: none^"a": none {^  amount >= 9223372036854775807^}^"b": none {^  amount > 9223372036854775807^}^
S SETTINGS
===
0 = {"payment_method":"card","payment_method_type":"credit"}^
$ prove - P S 2 15
~
P default: none^"us": none {^  billing_country = US^}^"other": none {^  billing_country /= US^}^"card": none {^  payment_method = card^}^
S [{"connector_name":"stripe","payment_methods_enabled":[{"payment_method":"card","payment_method_types":[{"payment_method_type":"credit"}]}]}]
===
0 = {"currency":"JPY","payment_method":"card","payment_method_type":"credit"}^
$ prove - P S 0 7
P default: none^"yen": none {^  currency = JPY^}^
S [{"connector_name":"stripe","payment_methods_enabled":[{"payment_method":"card","payment_method_types":[{"payment_method_type":"credit"}]}]}]
===
1 = euclid trace 1^atoms 0^todo^end^
$ prove - P S 1 0
~
P default: none^"big": none {^  amount > 100^}^"bigger": none {^  amount > 200^}^
S [{"connector_name":"stripe","payment_methods_enabled":[{"payment_method":"card","payment_method_types":[{"payment_method_type":"credit"}]}]}]
===
0 = euclid certificate 1^atoms 0^goal^end^
$ prove K P S default 0
K KEYS
P EMPTY
S []
===
0 = rule 0 "big" never^euclid certificate 1^atoms 0^goal^end^rule 1 "bigger" never^euclid certificate 1^atoms 0^goal^end^default never^euclid certificate 1^atoms 0^goal^end^
$ report - P S 0
$ report - P S 65536
~
P default: none^"big": none {^  amount > 100^}^"bigger": none {^  amount > 200^}^
S []
===
0 = default reached^{"payment_method":"card","payment_method_type":"credit"}^
$ report - P S 3
P EMPTY
S [{"connector_name":"stripe","payment_methods_enabled":[{"payment_method":"card","payment_method_types":[{"payment_method_type":"credit"}]}]}]
===
3 refused target 1 2
$ prove - P S 2 0
$ prove - P S 2 65536
~
P default: none^"big": none {^  amount > 100^}^"bigger": none {^  amount > 200^}^
S SETTINGS
===
3 refused target 1 0
$ prove - P S 0 0
P EMPTY
S []
===
3 refused table 1 -
$ report K P S 0
$ prove K P S 9 0
K [
P [
S [
===
3 refused program text 6 0
$ report - P S 0
$ prove - P S 9 0
P [
S [
===
3 refused program type 1 0 0
$ report - P S 65536
$ prove - P S 9 0
P default: none^"r": none {^  colour = red^}^
S [
===
3 refused settings 1 ""
$ report - P S 0
$ prove - P S 9 0
~
P EMPTY
S [
===
4 toolong settings
$ report - P S 0
$ prove - P S 9 0
P EMPTY
S:1048577 []
===
5
$ report K P S 0
$ prove K P S 9 0
P EMPTY
S []
===
5
$ report - P S 0
$ prove - P S 9 0
S []
===
5
$ report - P S 0
$ prove - P S 9 0
P EMPTY
===
5
$ report K P S 0
$ prove K P S 9 0
! 1
K KEYS
P EMPTY
S []
===
5
$ report K P S 0
$ prove K P S 9 0
! 2
K KEYS
P EMPTY
S []
===
5
$ report K P S 0
$ prove K P S 9 0
! 3
K KEYS
P EMPTY
S []
===
0 accepted
$ check - P S 1 C
~
P default: none^"big": none {^  amount > 100^}^"bigger": none {^  amount > 200^}^
S SETTINGS
C CERTIFICATE
===
1 rejected 1
$ check - P S 1 C
~
P default: none^"big": none {^  amount > 100^}^"bigger": none {^  amount > 200^}^
S SETTINGS
C euclid certificate 1^atoms 1^amount - any gt:100^split 0^want 0^bar 0^end^
===
1 rejected 2
$ check - P S 1 C
P default: none^"big": none {^  amount > 100^}^"bigger": none {^  amount > 200^}^
S SETTINGS
C euclid certificate 1^atoms 1^amount - any gt:100^split 0^bar 0^end^
===
1 rejected 3
$ check - P S 1 C
P default: none^"big": none {^  amount > 100^}^"bigger": none {^  amount > 200^}^
S SETTINGS
C euclid certificate 1^atoms 1^amount - any gt:100^split 0^bar 0^want 0^goal^end^
===
1 rejected 1
$ check - P S 0 C
P default: none^"big": none {^  amount > 100^}^"bigger": none {^  amount > 200^}^
S SETTINGS
C CERTIFICATE
===
1 rejected 2
$ check - P S default C
P default: none^"big": none {^  amount > 100^}^"bigger": none {^  amount > 200^}^
S SETTINGS
C CERTIFICATE
===
0 accepted
$ check - P S default C
$ check - P S 0 C
$ check - P S 1 C
P default: none^"big": none {^  amount > 100^}^"bigger": none {^  amount > 200^}^
S []
C euclid certificate 1^atoms 0^goal^end^
===
0 accepted
$ check - P S 0 C
P default: none^"yen": none {^  currency = JPY^}^
S SETTINGS
C euclid certificate 1^atoms 1^currency - any v:JPY^split 0^goal^want 0^end^
===
1 rejected 1
$ check - P S 0 C
P default: none^"yen": none {^  currency = JPY^}^
S SETTINGS
C euclid certificate 1^atoms 1^currency - any v:JPY^split 0^want 0^goal^end^
===
0 accepted
$ check - P S 1 C
P {"defaultSelection":{"type":"none"},"rules":[{"name":"r","connectorSelection":{"type":"none"},"statements":[{"condition":[]}]},{"name":"late","connectorSelection":{"type":"none"},"statements":[{"condition":[{"lhs":"payment_method","comparison":"equal","value":{"type":"enum_variant","value":"wallet"}}]}]}]}
S SETTINGS
C euclid certificate 1^atoms 0^bar 0^end^
===
3 refused target 1 2
$ check - P S 2 C
~
P default: none^"big": none {^  amount > 100^}^"bigger": none {^  amount > 200^}^
S SETTINGS
===
3 refused target 1 255
$ check - P S 255 C
! 3
P default: none^"big": none {^  amount > 100^}^"bigger": none {^  amount > 200^}^
S SETTINGS
C [
===
3 refused target 1 0
$ check - P S 0 C
P EMPTY
S []
C [
===
0 accepted
$ check K P S default C
K KEYS
P EMPTY
S []
C euclid certificate 1^atoms 0^goal^end^
===
3 refused table 1 -
$ check K P S 9 C
K [
P [
S [
C [
===
3 refused program text 6 0
$ check - P S 9 C
P [
S [
C [
===
3 refused program type 1 0 0
$ check - P S 9 C
P default: none^"r": none {^  colour = red^}^
S [
C [
===
3 refused settings 1 ""
$ check - P S 9 C
~
P EMPTY
S [
C [
===
3 refused settings 3 ""
$ check - P S 9 C
P EMPTY
S {}
C [
===
3 refused settings 2 "/0/connector_name"
$ check - P S 9 C
P EMPTY
S [{}]
C [
===
3 refused settings 6 "/0/payment_methods_enabled/0/payment_method"
$ check - P S default C
P EMPTY
S [{"connector_name":"c","payment_methods_enabled":[{"payment_method":"cash"}]}]
C [
===
3 refused certificate 3 1
$ check - P S default C
~
P EMPTY
S []
C [
===
3 refused certificate 3 7
$ check - P S 1 C
P default: none^"big": none {^  amount > 100^}^"bigger": none {^  amount > 200^}^
S SETTINGS
C euclid certificate 1^atoms 1^amount - any gt:100^split 0^bar 0^want 0^
===
3 refused certificate 6 1
$ check - P S 1 C
P default: none^"big": none {^  amount > 100^}^"bigger": none {^  amount > 200^}^
S SETTINGS
C euclid trace 1^atoms 1^amount - any gt:100^split 0^bar 0^want 0^end^
===
3 refused certificate 1 3
$ check - P S 1 C
P default: none^"big": none {^  amount > 100^}^"bigger": none {^  amount > 200^}^
S SETTINGS
C euclid certificate 1^atoms 1^amount - any gt:0100^split 0^bar 0^want 0^end^
===
3 refused certificate 2 3
$ check - P S 1 C
P default: none^"big": none {^  amount > 100^}^"bigger": none {^  amount > 200^}^
S SETTINGS
C euclid certificate 1^atoms 1^colour - any gt:100^split 0^bar 0^want 0^end^
===
3 refused certificate 2 3
$ check - P S 1 C
P default: none^"big": none {^  amount > 100^}^"bigger": none {^  amount > 200^}^
S SETTINGS
C euclid certificate 1^atoms 1^amount - any v:USD^split 0^bar 0^want 0^end^
===
3 refused certificate 5 2
$ check - P S 1 C
P default: none^"big": none {^  amount > 100^}^"bigger": none {^  amount > 200^}^
S SETTINGS
C euclid certificate 1^atoms 65537^amount - any gt:100^split 0^bar 0^want 0^end^
===
3 refused certificate 4 8
$ check - P S 1 C
P default: none^"big": none {^  amount > 100^}^"bigger": none {^  amount > 200^}^
S SETTINGS
C euclid certificate 1^atoms 1^amount - any gt:100^split 0^bar 0^want 0^end^x
===
5
$ check K P S default C
P EMPTY
S []
C [
===
5
$ check - P S default C
S []
C [
===
5
$ check - P S 9 C
P EMPTY
C [
===
5
$ check - P S default C
P EMPTY
S []
===
5
$ check K P S default C
! 1
K KEYS
P EMPTY
S []
C [
===
5
$ check K P S default C
! 2
K KEYS
P EMPTY
S []
C [
===
5
$ check K P S default C
! 3
K KEYS
P EMPTY
S []
C [
===
5
$ check K P S default C
! 4
K KEYS
P EMPTY
S []
C [
===
4 toolong settings
$ check - P S 9 C
P EMPTY
S:1048577 []
C [
===
3 refused certificate 3 1
$ check - P S default C
P EMPTY
S:1048576 []
C [
===
3 refused certificate 4 5
$ check - P S default C
P EMPTY
S []
C:1048577 euclid certificate 1^atoms 0^goal^end^
===
0 = sample 0^rules 256^reached 14^never 243^open 0^
$ sample 0
! 1
===
0 = sample 7^rules 256^reached 8^never 249^open 0^
$ sample 7
! 1
===
0 = sample 4294967295^rules 256^reached 9^never 248^open 0^
$ sample 4294967295
! 1
"#;

// Decisions. A line begins with the number of its status and with what is written, as above. Behind the arrows stand the key
// table, where `-` is the built-in one, the program and the payment. In all of them `|N*ITEM|` stands for so many items, and a
// `#` in an item for the number of the items that follow.
const DECISIONS: &str =
    r##"0 CARDS <- - <- PROGRAM <- {"payment_method":"card","payment_method_type":"credit","card_network":"Visa","authentication_type":"three_ds","capture_method":"automatic","currency":"USD","billing_country":"US","amount":0,"card_bin":"","business_label":"a","metadata":{"a":"b"}}
0 DEFAULT <- - <- PROGRAM <- {"payment_method":"wallet","payment_method_type":"debit","card_network":"Mastercard","authentication_type":"no_three_ds","capture_method":"manual","currency":"EUR","billing_country":"GB","amount":9223372036854775807}
0 DEFAULT <- - <- PROGRAM <- {"payment_method":"bank_transfer","payment_method_type":"google_pay","card_network":"AmericanExpress","currency":"GBP","billing_country":"DE"}
0 DEFAULT <- - <- PROGRAM <- {"payment_method":"bank_redirect","payment_method_type":"apple_pay","card_network":"Discover","currency":"INR","billing_country":"FR"}
0 DEFAULT <- - <- PROGRAM <- {"payment_method":"pay_later","payment_method_type":"paypal","card_network":"JCB","currency":"NOK","billing_country":"IN"}
0 DEFAULT <- - <- PROGRAM <- {"payment_method_type":"klarna","currency":"JPY","billing_country":"NO"}
0 DEFAULT <- - <- PROGRAM <- {"payment_method_type":"ach","billing_country":"JP"}
0 DEFAULT <- - <- PROGRAM <- {"payment_method_type":"sepa"}
0 DEFAULT <- - <- PROGRAM <- {"payment_method_type":"ideal"}
3 refused payment 7 "/payment_method" <- - <- PROGRAM <- {"payment_method":"cash"}
0 DEFAULT <-  <- EMPTY <- {}
3 refused payment 6 "/amount" <-  <- EMPTY <- {"amount":1}
0 DEFAULT <- other = 1 <- EMPTY <- {}
0 DEFAULT <- key = [] <- EMPTY <- {}
0 DEFAULT <- [[key]]^name = "_a9"^kind = "metadata"^colour = "red" <- EMPTY <- {"_a9":{"a":"b"}}
0 DEFAULT <- key = [{ name = "a", kind = "text" }, { name = "A", kind = "enum", variants = [] }] <- EMPTY <- {"a":"b"}
3 refused payment 7 "/A" <- key = [{ name = "a", kind = "text" }, { name = "A", kind = "enum", variants = [] }] <- EMPTY <- {"A":"b"}
3 refused table 1 - <- [ <- EMPTY <- {}
3 refused table 1 - <- [[key]]^name = "a"^name = "b"^kind = "text" <- EMPTY <- {}
3 refused table 1 - <- key = [1]^[[key]]^name = "a" <- EMPTY <- {}
3 refused table 1 - <- [[key]]^name = "a"^kind = "number"^max = 9223372036854775808 <- EMPTY <- {}
3 refused table 1 - <- [[key]]^name = "a"^kind = "number"^min = -9223372036854775809 <- EMPTY <- {}
3 refused table 2 0 <- key = 1 <- EMPTY <- {}
3 refused table 2 0 <- [key]^name = "a" <- EMPTY <- {}
3 refused table 2 1 <- key = [{ name = "a", kind = "text" }, "b"] <- EMPTY <- {}
3 refused table 3 0 <- [[key]]^kind = "text" <- EMPTY <- {}
3 refused table 3 0 <- [[key]]^name = 1 <- EMPTY <- {}
3 refused table 3 0 <- [[key]]^name = "" <- EMPTY <- {}
3 refused table 3 0 <- [[key]]^name = "a b" <- EMPTY <- {}
3 refused table 3 0 <- [[key]]^name = "9a" <- EMPTY <- {}
3 refused table 3 0 <- [[key]]^name = "é" <- EMPTY <- {}
3 refused table 4 1 <- [[key]]^name = "a"^kind = "text"^[[key]]^name = "a"^kind = "float" <- EMPTY <- {}
3 refused table 4 2 <- [[key]]^name = "a"^kind = "text"^[[key]]^name = "b"^kind = "text"^[[key]]^name = "a"^kind = "text" <- EMPTY <- {}
3 refused table 2 0 <- [[key]]^name = "a" <- EMPTY <- {}
3 refused table 2 0 <- [[key]]^name = "a"^kind = 1 <- EMPTY <- {}
3 refused table 2 0 <- [[key]]^name = "a"^kind = "float" <- EMPTY <- {}
3 refused table 2 0 <- [[key]]^name = "a"^kind = "Enum" <- EMPTY <- {}
3 refused table 2 0 <- [[key]]^name = "a"^kind = "enum" <- EMPTY <- {}
3 refused table 2 0 <- [[key]]^name = "a"^kind = "enum"^variants = "b" <- EMPTY <- {}
3 refused table 2 0 <- [[key]]^name = "a"^kind = "enum"^variants = ["b", 1] <- EMPTY <- {}
3 refused table 3 0 <- [[key]]^name = "a"^kind = "enum"^variants = ["b", "c-d"] <- EMPTY <- {}
3 refused table 4 0 <- [[key]]^name = "a"^kind = "enum"^variants = ["b", "c", "b"] <- EMPTY <- {}
3 refused table 2 0 <- [[key]]^name = "a"^kind = "number"^min = 1.0 <- EMPTY <- {}
3 refused table 2 0 <- [[key]]^name = "a"^kind = "number"^min = 1979-05-27 <- EMPTY <- {}
3 refused table 2 0 <- [[key]]^name = "a"^kind = "number"^min = 5^max = true <- EMPTY <- {}
3 refused table 5 0 <- [[key]]^name = "a"^kind = "number"^min = 6^max = 5 <- EMPTY <- {}
3 refused payment 8 "/a" <- [[key]]^name = "a"^kind = "number"^min = 5^max = 5 <- EMPTY <- {"a":4}
0 DEFAULT <- [[key]]^name = "a"^kind = "number"^min = 5^max = 5 <- EMPTY <- {"a":5}
3 refused payment 8 "/a" <- [[key]]^name = "a"^kind = "number"^min = 5^max = 5 <- EMPTY <- {"a":6}
0 DEFAULT <- [[key]]^name = "a"^kind = "number"^min = -9223372036854775808^max = 9223372036854775807 <- EMPTY <- {"a":-9223372036854775808}
0 DEFAULT <- [[key]]^name = "a"^kind = "number"^min = -9223372036854775808^max = 9223372036854775807 <- EMPTY <- {"a":9223372036854775807}
0 DEFAULT <- [[key]]^name = "a"^kind = "text"^min = 6^max = "5"^variants = 1 <- EMPTY <- {"a":"b"}
0 DEFAULT <- [[key]]^name = "a"^kind = "number"^max = 7 <- EMPTY <- {"a":-9223372036854775808}
3 refused payment 8 "/a" <- [[key]]^name = "a"^kind = "number"^max = 7 <- EMPTY <- {"a":8}
3 refused payment 8 "/b" <- [[key]]^name = "b"^kind = "number"^min = 7^[[key]]^name = "a"^kind = "enum"^variants = ["c", "d"] <- EMPTY <- {"b":6}
0 DEFAULT <- [[key]]^name = "b"^kind = "number"^min = 7^[[key]]^name = "a"^kind = "enum"^variants = ["c", "d"] <- EMPTY <- {"b":9223372036854775807,"a":"d"}
3 refused payment 7 "/a" <- [[key]]^name = "b"^kind = "number"^min = 7^[[key]]^name = "a"^kind = "enum"^variants = ["c", "d"] <- EMPTY <- {"a":"e"}
0 DEFAULT <- key = [|256*{ name = "k#", kind = "text" }, |] <- EMPTY <- {"k0":"a","k255":"a"}
3 refused table 6 256 <- key = [|257*{ name = "k#", kind = "text" }, |] <- EMPTY <- {}
3 refused table 6 256 <- key = [|256*{ name = "k#", kind = "text" }, |"b"] <- EMPTY <- {}
3 refused table 2 0 <- key = [{ name = "a", kind = "float" }, |256*{ name = "k#", kind = "text" }, |] <- EMPTY <- {}
0 DEFAULT <- key = [{ name = "a", kind = "enum", variants = [|1024*"v#", |] }] <- EMPTY <- {"a":"v0"}
3 refused payment 7 "/a" <- key = [{ name = "a", kind = "enum", variants = [|1024*"v#", |] }] <- EMPTY <- {"a":"v1024"}
3 refused table 6 0 <- key = [{ name = "a", kind = "enum", variants = [|1025*"v#", |] }] <- EMPTY <- {}
3 refused table 6 0 <- key = [{ name = "a", kind = "enum", variants = [1, |1024*"v#", |] }] <- EMPTY <- {}
0 DEFAULT <- key = [{ name = "|255*n|", kind = "enum", variants = ["|255*v|"] }] <- EMPTY <- {"|255*n|":"|255*v|"}
3 refused table 6 0 <- key = [{ name = "|256*n|", kind = "text" }] <- EMPTY <- {}
3 refused table 3 0 <- key = [{ name = "|255*n| ", kind = "text" }] <- EMPTY <- {}
3 refused table 6 0 <- key = [{ name = "a", kind = "enum", variants = ["|256*v|"] }] <- EMPTY <- {}
3 refused table 3 0 <- key = [{ name = "a", kind = "enum", variants = ["|255*v| "] }] <- EMPTY <- {}
3 refused table 1 - <- a = "`" <- EMPTY <- {}
3 refused payment 1 "" <- KEYS <- PROGRAM <- [
3 refused payment 1 "" <- KEYS <- PROGRAM <- {"amount":1}x
3 refused payment 3 "" <- KEYS <- PROGRAM <- []
3 refused payment 3 "" <- KEYS <- PROGRAM <- null
3 refused payment 6 "/colour" <- KEYS <- PROGRAM <- {"colour":"red"}
3 refused payment 6 "/colour" <- KEYS <- PROGRAM <- {"colour":null}
3 refused payment 6 "/Amount" <- KEYS <- PROGRAM <- {"Amount":1}
3 refused payment 6 "/colour" <- KEYS <- PROGRAM <- {"zone":1,"colour":2}
3 refused payment 6 "/a~1b~0" <- KEYS <- PROGRAM <- {"a/b~":1}
3 refused payment 3 "/currency" <- KEYS <- PROGRAM <- {"zone":1,"currency":1}
3 refused payment 3 "/currency" <- KEYS <- PROGRAM <- {"currency":0}
3 refused payment 7 "/currency" <- KEYS <- PROGRAM <- {"currency":"XXX"}
3 refused payment 7 "/currency" <- KEYS <- PROGRAM <- {"currency":"usd"}
3 refused payment 7 "/currency" <- KEYS <- PROGRAM <- {"currency":"US"}
3 refused payment 7 "/currency" <- KEYS <- PROGRAM <- {"currency":""}
3 refused payment 7 "/currency" <- KEYS <- PROGRAM <- {"metadata":{"a":1},"currency":"XXX"}
3 refused payment 3 "/amount" <- KEYS <- PROGRAM <- {"amount":"5"}
3 refused payment 3 "/amount" <- KEYS <- PROGRAM <- {"amount":{"amount":5}}
3 refused payment 4 "/amount" <- KEYS <- PROGRAM <- {"amount":1.5}
3 refused payment 4 "/amount" <- KEYS <- PROGRAM <- {"amount":1e3}
3 refused payment 4 "/amount" <- KEYS <- PROGRAM <- {"amount":9223372036854775808}
3 refused payment 8 "/amount" <- KEYS <- PROGRAM <- {"amount":-1}
3 refused payment 8 "/amount" <- KEYS <- PROGRAM <- {"colour":1,"amount":-1}
3 refused payment 8 "/age" <- KEYS <- PROGRAM <- {"age":9}
3 refused payment 8 "/age" <- KEYS <- PROGRAM <- {"age":21}
3 refused payment 3 "/card_bin" <- KEYS <- PROGRAM <- {"card_bin":400000}
3 refused payment 3 "/card_bin" <- KEYS <- PROGRAM <- {"card_bin":{"a":"b"}}
3 refused payment 9 "/card_bin" <- KEYS <- PROGRAM <- {"card_bin":"|1025*a|"}
3 refused payment 9 "/card_bin" <- KEYS <- PROGRAM <- {"card_bin":"|257*😀|"}
3 refused payment 3 "/metadata" <- KEYS <- PROGRAM <- {"metadata":"a"}
3 refused payment 3 "/metadata" <- KEYS <- PROGRAM <- {"metadata":["a"]}
3 refused payment 3 "/metadata/a" <- KEYS <- PROGRAM <- {"metadata":{"a":1}}
3 refused payment 3 "/metadata/" <- KEYS <- PROGRAM <- {"metadata":{"":{}}}
3 refused payment 3 "/metadata/~0~1\"" <- KEYS <- PROGRAM <- {"metadata":{"~/\"":false}}
3 refused payment 3 "/metadata/b" <- KEYS <- PROGRAM <- {"metadata":{"c":2,"b":1,"a":"1"}}
3 refused payment 9 "/metadata/s" <- KEYS <- PROGRAM <- {"metadata":{"s":"|1025*a|"}}
3 refused payment 9 "/metadata/s" <- KEYS <- PROGRAM <- {"metadata":{"s":"|257*😀|"}}
3 refused payment 9 "/metadata/|256*a|" <- KEYS <- PROGRAM <- {"metadata":{"|256*a|":"t"}}
3 refused payment 9 "/metadata/|256*a|" <- KEYS <- PROGRAM <- {"metadata":{"|256*a|":null}}
3 refused payment 9 "/metadata/|256*a|" <- KEYS <- PROGRAM <- {"metadata":{"|256*a|":1}}
3 refused payment 9 "/metadata/|64*😀|" <- KEYS <- PROGRAM <- {"metadata":{"|64*😀|":"t"}}
3 refused payment 8 "/tip" <- KEYS <- PROGRAM <- {"tip":-1,"metadata":{|4095*"#":"t",|"z":"t"}}
3 refused payment 5 "/metadata" <- KEYS <- PROGRAM <- {"metadata":{|4096*"#":"t",|"z":"t"}}
3 refused payment 5 "/metadata" <- KEYS <- PROGRAM <- {"metadata":{|4096*"#":null,|"z":null}}
3 refused payment 5 "/metadata" <- KEYS <- PROGRAM <- {"metadata":{|4096*"#":1,|"z":1}}
3 refused payment 1 "" <- KEYS <- PROGRAM <- {"card_bin":"`"}
0 CARDS <- KEYS <- PROGRAM <- {"payment_method":"card","age":10,"card_bin":"|1024*a|","metadata":{"|255*a|":"|1024*b|"}}
0 DEFAULT <- KEYS <- PROGRAM <- {"age":20,"amount":9223372036854775807,"card_bin":"|256*😀|"}
0 DEFAULT <- - <- PROGRAM <- {"payment_method":null}
0 CARDS <- - <- PROGRAM <- {"payment_method":"wallet","payment_method":"card"}
0 DEFAULT <- - <- PROGRAM <- {"amount":5,"card_bin":"4242","metadata":{"tier":"gold"}}
3 refused payment 3 "/amount" <- - <- PROGRAM <- {"amount":"5"}
3 refused payment 3 "/metadata/a\"~1b" <- - <- PROGRAM <- {"metadata":{"a\"/b":1}}
3 refused payment 4 "/amount" <- - <- PROGRAM <- {"amount":1.5}
3 refused payment 6 "/colour" <- - <- PROGRAM <- {"zone":1,"colour":null}
3 refused payment 7 "/payment_method" <- - <- PROGRAM <- {"payment_method":"Card"}
3 refused payment 7 "/currency" <- - <- PROGRAM <- {"currency":"XXX"}
3 refused payment 8 "/amount" <- - <- PROGRAM <- {"amount":-1}
0 CARDS <- key = [{ name = "payment_method", kind = "enum", variants = ["cash", "card"] }] <- PROGRAM <- {"payment_method":"card"}
0 DEFAULT <- key = [{ name = "payment_method", kind = "enum", variants = ["cash", "card"] }] <- PROGRAM <- {"payment_method":"cash"}
3 refused payment 6 "/payment_method" <- other = 1 <- EMPTY <- {"payment_method":"card"}
3 refused table 2 0 <- key = [{ name = "amount", kind = "float" }] <- EMPTY <- {}
3 refused table 3 0 <- key = [{ name = "a b", kind = "text" }] <- EMPTY <- {}
3 refused table 4 1 <- key = [{ name = "amount", kind = "number" }, { name = "amount", kind = "number" }] <- EMPTY <- {}
3 refused table 5 0 <- key = [{ name = "amount", kind = "number", min = 10, max = 5 }] <- EMPTY <- {}
3 refused payment 1 "" <- KEYS <- PROGRAM <- {"amount":1e999}
3 refused payment 1 "" <- KEYS <- PROGRAM <- {"amount":01}
3 refused payment 1 "" <- KEYS <- PROGRAM <- {"amount":nul}
0 CARDS <- - <- IF {"lhs":"amount","comparison":"equal","value":{"type":"number","value":5}} <- {"amount":5}
0 DEFAULT <- - <- IF {"lhs":"amount","comparison":"equal","value":{"type":"number","value":5}} <- {"amount":4}
0 DEFAULT <- - <- IF {"lhs":"amount","comparison":"equal","value":{"type":"number","value":5}} <- {}
0 DEFAULT <- - <- IF {"lhs":"amount","comparison":"not_equal","value":{"type":"number","value":5}} <- {"amount":5}
0 CARDS <- - <- IF {"lhs":"amount","comparison":"not_equal","value":{"type":"number","value":5}} <- {"amount":4}
0 DEFAULT <- - <- IF {"lhs":"amount","comparison":"not_equal","value":{"type":"number","value":5}} <- {}
0 DEFAULT <- - <- IF {"lhs":"amount","comparison":"less_than","value":{"type":"number","value":5}} <- {"amount":5}
0 CARDS <- - <- IF {"lhs":"amount","comparison":"less_than","value":{"type":"number","value":5}} <- {"amount":4}
0 DEFAULT <- - <- IF {"lhs":"amount","comparison":"less_than","value":{"type":"number","value":5}} <- {}
0 CARDS <- - <- IF {"lhs":"amount","comparison":"less_than_equal","value":{"type":"number","value":5}} <- {"amount":5}
0 CARDS <- - <- IF {"lhs":"amount","comparison":"less_than_equal","value":{"type":"number","value":5}} <- {"amount":4}
0 DEFAULT <- - <- IF {"lhs":"amount","comparison":"less_than_equal","value":{"type":"number","value":5}} <- {}
0 DEFAULT <- - <- IF {"lhs":"amount","comparison":"greater_than","value":{"type":"number","value":5}} <- {"amount":5}
0 DEFAULT <- - <- IF {"lhs":"amount","comparison":"greater_than","value":{"type":"number","value":5}} <- {"amount":4}
0 DEFAULT <- - <- IF {"lhs":"amount","comparison":"greater_than","value":{"type":"number","value":5}} <- {}
0 CARDS <- - <- IF {"lhs":"amount","comparison":"greater_than_equal","value":{"type":"number","value":5}} <- {"amount":5}
0 DEFAULT <- - <- IF {"lhs":"amount","comparison":"greater_than_equal","value":{"type":"number","value":5}} <- {"amount":4}
0 DEFAULT <- - <- IF {"lhs":"amount","comparison":"greater_than_equal","value":{"type":"number","value":5}} <- {}
0 CARDS <- - <- IF {"lhs":"payment_method","comparison":"equal","value":{"type":"enum_variant","value":"card"}} <- {"payment_method":"card"}
0 DEFAULT <- - <- IF {"lhs":"payment_method","comparison":"equal","value":{"type":"enum_variant","value":"card"}} <- {"payment_method":"wallet"}
0 DEFAULT <- - <- IF {"lhs":"payment_method","comparison":"equal","value":{"type":"enum_variant","value":"card"}} <- {}
0 DEFAULT <- - <- IF {"lhs":"payment_method","comparison":"not_equal","value":{"type":"enum_variant","value":"card"}} <- {"payment_method":"card"}
0 CARDS <- - <- IF {"lhs":"payment_method","comparison":"not_equal","value":{"type":"enum_variant","value":"card"}} <- {"payment_method":"wallet"}
0 DEFAULT <- - <- IF {"lhs":"payment_method","comparison":"not_equal","value":{"type":"enum_variant","value":"card"}} <- {}
3 refused program type 3 0 0 <- - <- IF {"lhs":"payment_method","comparison":"less_than","value":{"type":"enum_variant","value":"card"}} <- {"payment_method":"card"}
3 refused program type 3 0 0 <- - <- IF {"lhs":"payment_method","comparison":"less_than_equal","value":{"type":"enum_variant","value":"card"}} <- {"payment_method":"card"}
3 refused program type 3 0 0 <- - <- IF {"lhs":"payment_method","comparison":"greater_than","value":{"type":"enum_variant","value":"card"}} <- {"payment_method":"card"}
3 refused program type 3 0 0 <- - <- IF {"lhs":"payment_method","comparison":"greater_than_equal","value":{"type":"enum_variant","value":"card"}} <- {"payment_method":"card"}
0 CARDS <- - <- IF {"lhs":"metadata","comparison":"equal","value":{"type":"metadata_variant","value":{"key":"tier","value":"gold"}}} <- {"metadata":{"tier":"gold"}}
0 DEFAULT <- - <- IF {"lhs":"metadata","comparison":"equal","value":{"type":"metadata_variant","value":{"key":"tier","value":"gold"}}} <- {"metadata":{"tier":"blue"}}
0 DEFAULT <- - <- IF {"lhs":"metadata","comparison":"equal","value":{"type":"metadata_variant","value":{"key":"tier","value":"gold"}}} <- {}
0 DEFAULT <- - <- IF {"lhs":"metadata","comparison":"not_equal","value":{"type":"metadata_variant","value":{"key":"tier","value":"gold"}}} <- {"metadata":{"tier":"gold"}}
0 CARDS <- - <- IF {"lhs":"metadata","comparison":"not_equal","value":{"type":"metadata_variant","value":{"key":"tier","value":"gold"}}} <- {"metadata":{"tier":"blue"}}
0 DEFAULT <- - <- IF {"lhs":"metadata","comparison":"not_equal","value":{"type":"metadata_variant","value":{"key":"tier","value":"gold"}}} <- {}
3 refused program type 3 0 0 <- - <- IF {"lhs":"metadata","comparison":"less_than","value":{"type":"metadata_variant","value":{"key":"tier","value":"gold"}}} <- {"metadata":{"tier":"gold"}}
3 refused program type 3 0 0 <- - <- IF {"lhs":"metadata","comparison":"less_than_equal","value":{"type":"metadata_variant","value":{"key":"tier","value":"gold"}}} <- {"metadata":{"tier":"gold"}}
3 refused program type 3 0 0 <- - <- IF {"lhs":"metadata","comparison":"greater_than","value":{"type":"metadata_variant","value":{"key":"tier","value":"gold"}}} <- {"metadata":{"tier":"gold"}}
3 refused program type 3 0 0 <- - <- IF {"lhs":"metadata","comparison":"greater_than_equal","value":{"type":"metadata_variant","value":{"key":"tier","value":"gold"}}} <- {"metadata":{"tier":"gold"}}
0 CARDS <- - <- IF {"lhs":"card_bin","comparison":"equal","value":{"type":"str_value","value":"42"}} <- {"card_bin":"42"}
0 DEFAULT <- - <- IF {"lhs":"card_bin","comparison":"equal","value":{"type":"str_value","value":"42"}} <- {"card_bin":"421"}
0 DEFAULT <- - <- IF {"lhs":"card_bin","comparison":"equal","value":{"type":"str_value","value":"42"}} <- {}
0 DEFAULT <- - <- IF {"lhs":"card_bin","comparison":"not_equal","value":{"type":"str_value","value":"42"}} <- {"card_bin":"42"}
0 CARDS <- - <- IF {"lhs":"card_bin","comparison":"not_equal","value":{"type":"str_value","value":"42"}} <- {"card_bin":"421"}
0 DEFAULT <- - <- IF {"lhs":"card_bin","comparison":"not_equal","value":{"type":"str_value","value":"42"}} <- {}
3 refused program type 3 0 0 <- - <- IF {"lhs":"card_bin","comparison":"less_than","value":{"type":"str_value","value":"42"}} <- {"card_bin":"42"}
3 refused program type 3 0 0 <- - <- IF {"lhs":"card_bin","comparison":"less_than_equal","value":{"type":"str_value","value":"42"}} <- {"card_bin":"42"}
3 refused program type 3 0 0 <- - <- IF {"lhs":"card_bin","comparison":"greater_than","value":{"type":"str_value","value":"42"}} <- {"card_bin":"42"}
3 refused program type 3 0 0 <- - <- IF {"lhs":"card_bin","comparison":"greater_than_equal","value":{"type":"str_value","value":"42"}} <- {"card_bin":"42"}
0 CARDS <- - <- IF {"lhs":"amount","comparison":"equal","value":{"type":"number_array","value":[4,5]}} <- {"amount":5}
0 DEFAULT <- - <- IF {"lhs":"amount","comparison":"equal","value":{"type":"number_array","value":[4,5]}} <- {"amount":6}
0 DEFAULT <- - <- IF {"lhs":"amount","comparison":"equal","value":{"type":"number_array","value":[4,5]}} <- {}
0 DEFAULT <- - <- IF {"lhs":"amount","comparison":"not_equal","value":{"type":"number_array","value":[4,5]}} <- {"amount":5}
0 CARDS <- - <- IF {"lhs":"amount","comparison":"not_equal","value":{"type":"number_array","value":[4,5]}} <- {"amount":6}
0 DEFAULT <- - <- IF {"lhs":"amount","comparison":"not_equal","value":{"type":"number_array","value":[4,5]}} <- {}
3 refused program type 3 0 0 <- - <- IF {"lhs":"amount","comparison":"less_than","value":{"type":"number_array","value":[4,5]}} <- {"amount":5}
3 refused program type 3 0 0 <- - <- IF {"lhs":"amount","comparison":"less_than_equal","value":{"type":"number_array","value":[4,5]}} <- {"amount":5}
3 refused program type 3 0 0 <- - <- IF {"lhs":"amount","comparison":"greater_than","value":{"type":"number_array","value":[4,5]}} <- {"amount":5}
3 refused program type 3 0 0 <- - <- IF {"lhs":"amount","comparison":"greater_than_equal","value":{"type":"number_array","value":[4,5]}} <- {"amount":5}
0 CARDS <- - <- IF {"lhs":"payment_method","comparison":"equal","value":{"type":"enum_variant_array","value":["wallet","card"]}} <- {"payment_method":"card"}
0 DEFAULT <- - <- IF {"lhs":"payment_method","comparison":"equal","value":{"type":"enum_variant_array","value":["wallet","card"]}} <- {"payment_method":"pay_later"}
0 DEFAULT <- - <- IF {"lhs":"payment_method","comparison":"equal","value":{"type":"enum_variant_array","value":["wallet","card"]}} <- {}
0 DEFAULT <- - <- IF {"lhs":"payment_method","comparison":"not_equal","value":{"type":"enum_variant_array","value":["wallet","card"]}} <- {"payment_method":"card"}
0 CARDS <- - <- IF {"lhs":"payment_method","comparison":"not_equal","value":{"type":"enum_variant_array","value":["wallet","card"]}} <- {"payment_method":"pay_later"}
0 DEFAULT <- - <- IF {"lhs":"payment_method","comparison":"not_equal","value":{"type":"enum_variant_array","value":["wallet","card"]}} <- {}
3 refused program type 3 0 0 <- - <- IF {"lhs":"payment_method","comparison":"less_than","value":{"type":"enum_variant_array","value":["wallet","card"]}} <- {"payment_method":"card"}
3 refused program type 3 0 0 <- - <- IF {"lhs":"payment_method","comparison":"less_than_equal","value":{"type":"enum_variant_array","value":["wallet","card"]}} <- {"payment_method":"card"}
3 refused program type 3 0 0 <- - <- IF {"lhs":"payment_method","comparison":"greater_than","value":{"type":"enum_variant_array","value":["wallet","card"]}} <- {"payment_method":"card"}
3 refused program type 3 0 0 <- - <- IF {"lhs":"payment_method","comparison":"greater_than_equal","value":{"type":"enum_variant_array","value":["wallet","card"]}} <- {"payment_method":"card"}
0 CARDS <- - <- IF {"lhs":"amount","comparison":"equal","value":{"type":"number_comparison_array","value":[{"comparisonType":"greater_than","number":10},{"comparison_type":"less_than","number":3}]}} <- {"amount":2}
0 DEFAULT <- - <- IF {"lhs":"amount","comparison":"equal","value":{"type":"number_comparison_array","value":[{"comparisonType":"greater_than","number":10},{"comparison_type":"less_than","number":3}]}} <- {"amount":5}
0 DEFAULT <- - <- IF {"lhs":"amount","comparison":"equal","value":{"type":"number_comparison_array","value":[{"comparisonType":"greater_than","number":10},{"comparison_type":"less_than","number":3}]}} <- {}
0 DEFAULT <- - <- IF {"lhs":"amount","comparison":"not_equal","value":{"type":"number_comparison_array","value":[{"comparisonType":"greater_than","number":10},{"comparison_type":"less_than","number":3}]}} <- {"amount":2}
0 CARDS <- - <- IF {"lhs":"amount","comparison":"not_equal","value":{"type":"number_comparison_array","value":[{"comparisonType":"greater_than","number":10},{"comparison_type":"less_than","number":3}]}} <- {"amount":5}
0 DEFAULT <- - <- IF {"lhs":"amount","comparison":"not_equal","value":{"type":"number_comparison_array","value":[{"comparisonType":"greater_than","number":10},{"comparison_type":"less_than","number":3}]}} <- {}
3 refused program type 3 0 0 <- - <- IF {"lhs":"amount","comparison":"less_than","value":{"type":"number_comparison_array","value":[{"comparisonType":"greater_than","number":10},{"comparison_type":"less_than","number":3}]}} <- {"amount":2}
3 refused program type 3 0 0 <- - <- IF {"lhs":"amount","comparison":"less_than_equal","value":{"type":"number_comparison_array","value":[{"comparisonType":"greater_than","number":10},{"comparison_type":"less_than","number":3}]}} <- {"amount":2}
3 refused program type 3 0 0 <- - <- IF {"lhs":"amount","comparison":"greater_than","value":{"type":"number_comparison_array","value":[{"comparisonType":"greater_than","number":10},{"comparison_type":"less_than","number":3}]}} <- {"amount":2}
3 refused program type 3 0 0 <- - <- IF {"lhs":"amount","comparison":"greater_than_equal","value":{"type":"number_comparison_array","value":[{"comparisonType":"greater_than","number":10},{"comparison_type":"less_than","number":3}]}} <- {"amount":2}
0 DEFAULT <- - <- IF {"lhs":"amount","comparison":"equal","value":{"type":"number_array","value":[]}} <- {"amount":5,"payment_method":"card"}
0 CARDS <- - <- IF {"lhs":"amount","comparison":"not_equal","value":{"type":"number_array","value":[]}} <- {"amount":5,"payment_method":"card"}
0 DEFAULT <- - <- IF {"lhs":"payment_method","comparison":"equal","value":{"type":"enum_variant_array","value":[]}} <- {"amount":5,"payment_method":"card"}
0 CARDS <- - <- IF {"lhs":"payment_method","comparison":"not_equal","value":{"type":"enum_variant_array","value":[]}} <- {"amount":5,"payment_method":"card"}
0 DEFAULT <- - <- IF {"lhs":"amount","comparison":"equal","value":{"type":"number_comparison_array","value":[]}} <- {"amount":5,"payment_method":"card"}
0 CARDS <- - <- IF {"lhs":"amount","comparison":"not_equal","value":{"type":"number_comparison_array","value":[]}} <- {"amount":5,"payment_method":"card"}
0 CARDS <- - <- IF {"lhs":"amount","comparison":"greater_than_equal","value":{"type":"number","value":9223372036854775807}} <- {"amount":9223372036854775807}
0 DEFAULT <- - <- IF {"lhs":"amount","comparison":"greater_than","value":{"type":"number","value":9223372036854775807}} <- {"amount":9223372036854775807}
0 DEFAULT <- - <- IF {"lhs":"metadata","comparison":"equal","value":{"type":"metadata_variant","value":{"key":"tier","value":"gold"}}} <- {"metadata":{"level":"gold"}}
3 refused program text 6 0 <- - <- |0*x| <- {}
3 refused program text 6 2 <- - <-  ^ <- {}
3 refused program text 6 0 <- - <- [] <- {}
3 refused program text 6 0 <- - <- null <- {}
3 refused program text 6 0 <- - <- 5 <- {}
3 refused program text 6 0 <- - <- "default" <- {}
3 refused program text 6 7 <- - <- default <- {}
3 refused program text 6 8 <- - <- default: <- {}
3 refused program text 6 8 <- - <- default none <- {}
3 refused program text 1 2 <- - <- a ; <- {}
3 refused program text 2 0 <- - <- "a <- {}
3 refused program text 6 16 <- - <- default : none r <- {}
3 refused program text 6 16 <- - <- default: none r: <- {}
3 refused program text 6 21 <- - <- default: none r: none <- {}
3 refused program text 6 23 <- - <- default: none r: none { <- {}
3 refused program text 6 30 <- - <- default: none r: none { amount <- {}
3 refused program text 6 18 <- - <- default: none "r" "s" <- {}
3 refused program text 6 21 <- - <- default: none default <- {}
3 refused program text 6 26 <- - <- default: none r: none { } { <- {}
3 refused program text 1 34 <- - <- default: none r: ["a"] { amount = - } <- {}
3 refused program text 1 34 <- - <- default: none r: ["a"] { amount = --1 } <- {}
3 refused program text 1 32 <- - <- default: none r: ["a"] { amount / 7 } <- {}
3 refused program text 1 32 <- - <- default: none r: ["a"] { amount / = 7 } <- {}
3 refused program text 6 34 <- - <- default: none r: ["a"] { amount < = 7 } <- {}
3 refused program text 2 34 <- - <- default: none r: ["a"] { amount = " } <- {}
3 refused program text 6 33 <- - <- default: none r: ["a"] { amount == 1 } <- {}
3 refused program text 6 33 <- - <- default: none r: ["a"] { amount => 1 } <- {}
3 refused program text 6 33 <- - <- default: none r: ["a"] { amount =< 1 } <- {}
3 refused program text 6 34 <- - <- default: none r: ["a"] { amount = } <- {}
3 refused program text 6 32 <- - <- default: none r: ["a"] { amount } <- {}
3 refused program text 6 25 <- - <- default: none r: ["a"] { = 1 } <- {}
3 refused program text 6 25 <- - <- default: none r: ["a"] { 5 = amount } <- {}
3 refused program text 6 25 <- - <- default: none r: ["a"] { "amount" = 1 } <- {}
3 refused program text 6 32 <- - <- default: none r: ["a"] { amount 1 } <- {}
3 refused program text 6 38 <- - <- default: none r: ["a"] { amount = 1 & } <- {}
3 refused program text 6 38 <- - <- default: none r: ["a"] { amount = 1 & & amount = 1 } <- {}
3 refused program text 6 35 <- - <- default: none r: ["a"] { amount = 1, amount = 2 } <- {}
3 refused program text 6 46 <- - <- default: none r: ["a"] { amount = card amount } <- {}
3 refused program text 6 37 <- - <- default: none r: ["a"] { amount = 5a } <- {}
3 refused program text 6 36 <- - <- default: none r: ["a"] { amount = 5 6 } <- {}
3 refused program text 6 38 <- - <- default: none r: ["a"] { amount = 1 { } } <- {}
3 refused program text 6 50 <- - <- default: none r: ["a"] { amount = 1 { amount = 2 } <- {}
3 refused program text 6 38 <- - <- default: none r: ["a"] { amount = 1 } } } <- {}
3 refused program text 6 51 <- - <- default: none r: ["a"] { amount = 1 { amount = 2 } { amount = 3 } } <- {}
3 refused program text 6 40 <- - <- default: none r: ["a"] { amount = "a" : } <- {}
3 refused program text 6 40 <- - <- default: none r: ["a"] { amount = "a" : b } <- {}
3 refused program text 6 40 <- - <- default: none r: ["a"] { amount = "a" : 5 } <- {}
3 refused program text 6 38 <- - <- default: none r: ["a"] { amount = "a" "b" } <- {}
3 refused program text 6 36 <- - <- default: none r: ["a"] { amount = a : "b" } <- {}
3 refused program text 6 34 <- - <- default: none r: ["a"] { amount = [1] } <- {}
3 refused program text 1 34 <- - <- default: none r: ["a"] { amount = $1 } <- {}
3 refused program text 1 34 <- - <- default: none r: ["a"] { amount = ?1 } <- {}
3 refused program text 1 34 <- - <- default: none r: ["a"] { amount = ;1 } <- {}
3 refused program text 1 34 <- - <- default: none r: ["a"] { amount = é1 } <- {}
3 refused program text 6 38 <- - <- default: none r: ["a"] { amount = (1, a) } <- {}
3 refused program text 6 38 <- - <- default: none r: ["a"] { amount = (a, 1) } <- {}
3 refused program text 6 39 <- - <- default: none r: ["a"] { amount = (<1, 2) } <- {}
3 refused program text 6 40 <- - <- default: none r: ["a"] { amount = (<1, <a) } <- {}
3 refused program text 6 38 <- - <- default: none r: ["a"] { amount = (1, <2) } <- {}
3 refused program text 6 36 <- - <- default: none r: ["a"] { amount = ( ) } <- {}
3 refused program text 6 37 <- - <- default: none r: ["a"] { amount = (1,) } <- {}
3 refused program text 6 35 <- - <- default: none r: ["a"] { amount = (,1) } <- {}
3 refused program text 6 35 <- - <- default: none r: ["a"] { amount = ("a") } <- {}
3 refused program text 6 37 <- - <- default: none r: ["a"] { amount = (1 2) } <- {}
3 refused program text 6 37 <- - <- default: none r: ["a"] { amount = (1 } <- {}
3 refused program text 6 36 <- - <- default: none r: ["a"] { amount = (1] } <- {}
3 refused program text 6 35 <- - <- default: none r: ["a"] { amount = ((1)) } <- {}
3 refused program text 3 34 <- - <- default: none r: ["a"] { amount = 9223372036854775808 } <- {}
3 refused program text 3 34 <- - <- default: none r: ["a"] { amount = -9223372036854775809 } <- {}
3 refused program text 3 34 <- - <- default: none r: ["a"] { amount = 00009223372036854775808 } <- {}
3 refused program text 3 38 <- - <- default: none r: ["a"] { amount = (1, 99999999999999999999) } <- {}
3 refused program text 5 36 <- - <- default: none r: ["a"] { card_bin = "|256*a|" } <- {}
3 refused program text 2 36 <- - <- default: none r: ["a"] { card_bin = "a^b" } <- {}
3 refused program text 5 25 <- - <- default: none r: ["a"] { |256*a| = 1 } <- {}
3 refused program text 5 34 <- - <- default: none r: ["a"] { amount = |256*a| } <- {}
3 refused program text 4 37 <- - <- default: none r: ["a"] { card_bin = "`" } <- {}
3 refused program text 4 43 <- - <- default: none r: ["a"] { card_bin = "a" ; "`" } <- {}
3 refused program text 1 41 <- - <- default: none r: ["a"] { card_bin = "é" é } <- {}
3 refused program text 6 9 <- - <- default: |255*a| <- {}
3 refused program text 5 9 <- - <- default: |256*a| <- {}
3 refused program text 5 9 <- - <- default: "|256*a|" <- {}
3 refused program text 2 9 <- - <- default: "|256*a| <- {}
3 refused program text 6 271 <- - <- default: none "|255*a|" <- {}
3 refused program text 1 13 <- - <- default none ; <- {}
3 refused program text 4 14 <- - <- default none "` <- {}
3 refused program text 1 13 <- - <- default: none  <- {}
3 refused program text 1 26 <- - <- default: none r: none { } ~ <- {}
3 refused program text 6 16 <- - <- default: ["a" @ ] <- {}
3 refused program text 6 16 <- - <- default: ["a" @ b] <- {}
3 refused program text 6 14 <- - <- default: ["a" % 3] <- {}
3 refused program text 6 19 <- - <- default: split ["a"] <- {}
3 refused program text 6 30 <- - <- default: split ["a" @ "b" % 3,] <- {}
3 refused program text 6 10 <- - <- default: [,] <- {}
3 refused program text 6 14 <- - <- default: ["a",] <- {}
3 refused program text 6 14 <- - <- default: ["a" "b"] <- {}
3 refused program text 6 10 <- - <- default: [a] <- {}
3 refused program text 6 10 <- - <- default: [5] <- {}
3 refused program text 6 16 <- - <- default: split [a % 3] <- {}
3 refused program text 6 22 <- - <- default: split ["a" % x] <- {}
3 refused program text 6 22 <- - <- default: split ["a" % ] <- {}
3 refused program text 6 15 <- - <- default: split 5 <- {}
3 refused program text 6 14 <- - <- default: split <- {}
3 refused program text 6 18 <- - <- default: surcharge <- {}
3 refused program text 6 19 <- - <- default: surcharge "5" <- {}
3 refused program text 6 19 <- - <- default: surcharge -1 <- {}
3 refused program text 6 13 <- - <- default: rate <- {}
3 refused program text 6 14 <- - <- default: rate x <- {}
3 refused program text 6 14 <- - <- default: rate 10001 <- {}
3 refused program text 6 14 <- - <- default: rate -1 <- {}
3 refused program text 6 22 <- - <- default: split ["a" % 256] <- {}
3 refused program text 6 22 <- - <- default: split ["a" % -1] <- {}
3 refused program text 6 29 <- - <- default: three_ds no_three_ds <- {}
3 refused program text 6 9 <- - <- default: Default <- {}
3 refused program text 6 9 <- - <- default: none_ <- {}
3 refused program text 6 9 <- - <- default: (1) <- {}
3 refused program text 6 25 <- - <- default: split ["a" % 100 <- {}
3 refused program text 6 13 <- - <- default: none, none <- {}
3 refused program text 7 3086 <- - <- default: none |256*r: none { } |r: none { } <- {}
3 refused program text 1 3090 <- - <- default: none |256*r: none { } |"r" ; <- {}
3 refused program text 7 3086 <- - <- default: none |256*r: none { } |"r" 5 <- {}
3 refused program text 6 3086 <- - <- default: none |256*r: none { } |5 <- {}
3 refused program text 7 180249 <- - <- default: none r: ["a"] { |16384*amount = 1 |amount = 1 } <- {}
3 refused program text 7 213017 <- - <- default: none r: ["a"] { |16384*amount = 1 & |amount = 1 } <- {}
3 refused program text 7 213017 <- - <- default: none r: ["a"] { amount = 1 { |16383*amount = 1 & |amount = 1 & amount = 1 } } <- {}
3 refused program text 6 213018 <- - <- default: none r: ["a"] { |16384*amount = 1 & | } <- {}
3 refused program text 6 25 <- - <- default: none |2*r: none { |8192*amount = 1 | } |r: none { amount = 1 } <- {}
3 refused program text 7 180253 <- - <- default: none r: ["a"] { amount = 1 { |16382*amount = 1 |amount = 1 { amount = 1 } } } <- {}
3 refused program text 7 439 <- - <- default: none r: ["a"] { |32*amount = 1 { |amount = 1 |32*} | } <- {}
3 refused program text 1 441 <- - <- default: none r: ["a"] { |32*amount = 1 { |; } <- {}
3 refused program text 7 439 <- - <- default: none r: ["a"] { |31*amount = 1 { |amount = 1 { } <- {}
3 refused program text 7 12323 <- - <- default: none r: ["a"] { amount = (|4096*1, |1) } <- {}
3 refused program text 7 16419 <- - <- default: none r: ["a"] { amount = (|4096*>1, |>1) } <- {}
3 refused program text 7 24619 <- - <- default: none r: ["a"] { payment_method = (|4096*card, |card) } <- {}
3 refused program text 6 12323 <- - <- default: none r: ["a"] { amount = (|4096*1, |) } <- {}
3 refused program text 6 12323 <- - <- default: none r: ["a"] { amount = (|4096*1, |a) } <- {}
3 refused program text 7 20490 <- - <- default: [|4096*"a", |"a"] <- {}
3 refused program text 7 36880 <- - <- default: split [|4096*"a" % 1, |"a" % 1] <- {}
3 refused program text 6 20490 <- - <- default: [|4096*"a", |5] <- {}
0 RULE <- - <- default: none r: ["a"] { amount = -0 } <- {"amount":0}
0 RULE <- - <- default: none r: ["a"] { amount = 007 } <- {"amount":7}
0 RULE <- - <- default: none r: ["a"] { amount=1&amount/=2 } <- {"amount":1}
0 {"type":"none"} <- - <- default: none r: ["a"] { amount=1&amount/=2 } <- {"amount":2}
0 {"type":"none"} <- - <- default: none r: ["a"] { amount=(<1,>=2) } <- {"amount":1}
0 RULE <- - <- default: none r: ["a"] { amount=(<1,>=2) } <- {"amount":2}
0 RULE <- - <- default: none r: ["a"] { metadata="a:":"b" } <- {"metadata":{"a:":"b"}}
0 RULE <- - <- default: none r: ["a"] { metadata = "a" : "b" metadata = "c" : "d" } <- {"metadata":{"c":"d"}}
0 RULE <- - <- default: none r: ["a"] { card_bin = "|255*a|" } <- {"card_bin":"|255*a|"}
0 RULE <- - <- default: none r: ["a"] { card_bin = "é & {" card_bin = "" } <- {"card_bin":"é & {"}
0 RULE <- - <- default: none r: ["a"] { amount = 9223372036854775807 } <- {"amount":9223372036854775807}
0 RULE <- - <- default: none r: ["a"] { amount > -9223372036854775808 } <- {"amount":0}
0 RULE <- - <- default: none r: ["a"] { amount = 00009223372036854775807 } <- {"amount":9223372036854775807}
0 RULE <- - <- default: none r: ["a"] { payment_method = (card, wallet) { amount > 5 amount < 2 & amount /= 1 } } <- {"payment_method":"wallet","amount":0}
0 {"type":"none"} <- - <- default: none r: ["a"] { payment_method = (card, wallet) { amount > 5 amount < 2 & amount /= 1 } } <- {"payment_method":"wallet","amount":1}
0 RULE <- - <- default: none r: ["a"] { |31*amount = 1 { |amount = 1 |31*} | } <- {"amount":1}
0 RULE <- - <- default: none r: ["a"] { |16383*amount = 2 |amount = 1 } <- {"amount":1}
0 RULE <- - <- default: none r: ["a"] { |16383*amount = 1 & |amount = 1 } <- {"amount":1}
0 RULE <- - <- default: none r: ["a"] { amount = (|4095*1, |2) } <- {"amount":2}
0 RULE <- - <- default: none r: ["a"] { payment_method = (|4095*card, |wallet) } <- {"payment_method":"wallet"}
0 RULE <- - <- default: none r: ["a"] { amount = (|4095*<1, |>2) } <- {"amount":3}
0 RULE <- - <- default: none r: ["a"] { amount <= 5 & |15*metadata = "a" : "b" & |amount >= 5 & metadata = "c" : "d" } <- {"amount":5,"metadata":{"a":"b","c":"d"}}
0 {"type":"none"} <- - <- default: none r: ["a"] { amount <= 5 & |15*metadata = "a" : "b" & |amount >= 5 & metadata = "c" : "d" } <- {"amount":5,"metadata":{"a":"b","c":"e"}}
0 {"type":"none"} <- - <- default: none r: ["a"] {  } <- {}
0 RULE <- - <- default!:'^ none^^r'!:["a"]!{^payment_method!=card}' <- {"payment_method":"card"}
0 RULE <- - <- default:split["a"@"b"%3,"c"%97]"r":["a"]{amount>0&payment_method/=(card,wallet){amount<=5}amount>=9} <- {"amount":5,"payment_method":"bank_transfer"}
0 {"data":[{"connector":{"connector":"a","merchant_connector_id":"b"},"split":3},{"connector":{"connector":"c","merchant_connector_id":null},"split":97}],"type":"volume_split"} <- - <- default:split["a"@"b"%3,"c"%97]"r":["a"]{amount>0&payment_method/=(card,wallet){amount<=5}amount>=9} <- {"amount":6,"payment_method":"bank_transfer"}
0 = rule 1 "split"^{"data":[{"connector":"a","merchant_connector_id":null}],"type":"priority"}^ <- [[key]]^name = "default"^kind = "enum"^variants = ["none", "split", "rate"]^[[key]]^name = "split"^kind = "number" <- default: none default: none { default = none & split > 3 } split: ["a"] { default = (rate, split) } none: none { } <- {"default":"rate","split":9}
0 = rule 255 "r"^{"type":"none"}^ <- - <- default: none |255*"": none { } |r: none { card_bin = "" } <- {"card_bin":""}
0 {"data":{"basis_points":10000},"type":"surcharge_rate"} <- - <- default: rate 10000 <- {}
0 {"data":{"basis_points":0},"type":"surcharge_rate"} <- - <- default: rate 0 <- {}
0 {"data":{"amount":9223372036854775807},"type":"surcharge_fixed"} <- - <- default: surcharge 9223372036854775807 <- {}
0 {"data":{"amount":0},"type":"surcharge_fixed"} <- - <- default: surcharge -0 <- {}
0 {"data":{"decision":"three_ds"},"type":"three_ds"} <- - <- default: three_ds <- {}
0 {"data":{"decision":"no_three_ds"},"type":"three_ds"} <- - <- default: no_three_ds <- {}
0 {"data":[],"type":"priority"} <- - <- default: [] <- {}
0 {"data":[{"connector":"","merchant_connector_id":""}],"type":"priority"} <- - <- default: ["" @ ""] <- {}
3 refused program type 6 default selection <- - <- default: split ["a" % 255] <- {}
0 {"data":[],"type":"volume_split"} <- - <- default: split [] <- {}
3 refused program type 1 0 0 <- - <- default: none r: ["a"] { default = 1 } <- {}
3 refused program type 1 0 2 <- - <- default: none r: ["a"] { amount = 1 amount = 2 { colour = red } } <- {}
3 refused program type 2 0 0 <- - <- default: none r: ["a"] { amount = card } <- {}
3 refused program json 1 "" <- - <- { <- {}
3 refused program json 1 "" <- - <- PROGRAM ]}]} -> ]}]}, <- {}
3 refused program json 1 "" <- - <- PROGRAM stripe -> ` <- {}
3 refused program json 1 "" <- - <- ^ { <- {}
3 refused program json 2 "/defaultSelection" <- - <- {} <- {}
0 CARDS <- - <- ^ {"defaultSelection":{"type":"priority","data":[{"connector":"stripe"}]},"rules":[{"name":"cards","connectorSelection":{"type":"priority","data":[{"connector":"adyen"}]},"statements":[{"condition":[{"lhs":"payment_method","comparison":"equal","value":{"type":"enum_variant","value":"card"}}]}]}]} <- {"payment_method":"card"}
0 CARDS <- - <- {"type":"advanced","data":{"defaultSelection":{"type":"priority","data":[{"connector":"stripe"}]},"rules":[{"name":"cards","connectorSelection":{"type":"priority","data":[{"connector":"adyen"}]},"statements":[{"condition":[{"lhs":"payment_method","comparison":"equal","value":{"type":"enum_variant","value":"card"}}]}]}]}} <- {"payment_method":"card"}
3 refused program json 2 "/data" <- - <- PROGRAM {"default -> {"type":"advanced","default <- {}
0 CARDS <- - <- PROGRAM {"default -> {"type":"other","default <- {"payment_method":"card"}
0 CARDS <- - <- PROGRAM {"default -> {"type":null,"default <- {"payment_method":"card"}
0 CARDS <- - <- PROGRAM {"default -> {"type":7,"default <- {"payment_method":"card"}
3 refused program json 3 "/data" <- - <- {"type":"advanced","data":null} <- {}
3 refused program json 3 "/data" <- - <- {"type":"advanced","data":[]} <- {}
3 refused program json 3 "/data" <- - <- {"type":"advanced","data":7} <- {}
3 refused program json 3 "/data" <- - <- {"type":"advanced","data":"x"} <- {}
3 refused program json 2 "/data/defaultSelection" <- - <- {"type":"advanced","data":{"type":"advanced","data":{"defaultSelection":{"type":"priority","data":[{"connector":"stripe"}]},"rules":[{"name":"cards","connectorSelection":{"type":"priority","data":[{"connector":"adyen"}]},"statements":[{"condition":[{"lhs":"payment_method","comparison":"equal","value":{"type":"enum_variant","value":"card"}}]}]}]}}} <- {}
3 refused program json 7 "/data/rules/0/statements/0/condition/0/comparison" <- - <- {"type":"advanced","data":{"defaultSelection":{"type":"priority","data":[{"connector":"stripe"}]},"rules":[{"name":"cards","connectorSelection":{"type":"priority","data":[{"connector":"adyen"}]},"statements":[{"condition":[{"lhs":"payment_method","comparison":"is","value":{"type":"enum_variant","value":"card"}}]}]}]}} <- {}
0 CARDS <- - <- PROGRAM "defaultSelection": -> "defaultSelection":null,"defaultSelection": <- {"payment_method":"card"}
3 refused program json 3 "/defaultSelection" <- - <- PROGRAM "defaultSelection": -> "defaultSelection":null,"metadata": <- {}
3 refused program json 3 "/defaultSelection" <- - <- PROGRAM "defaultSelection": -> "defaultSelection":true,"metadata": <- {}
3 refused program json 2 "/defaultSelection" <- - <- PROGRAM "defaultSelection": -> "metadata": <- {}
0 CARDS <- - <- PROGRAM "data":[{"connector":"stripe" -> "data":null,"data":[{"connector":"stripe" <- {"payment_method":"card"}
3 refused program json 3 "/defaultSelection/data" <- - <- PROGRAM "data":[{"connector":"stripe" -> "data":null,"metadata":[{"connector":"stripe" <- {}
3 refused program json 3 "/defaultSelection/data" <- - <- PROGRAM "data":[{"connector":"stripe" -> "data":true,"metadata":[{"connector":"stripe" <- {}
3 refused program json 2 "/defaultSelection/data" <- - <- PROGRAM "data":[{"connector":"stripe" -> "metadata":[{"connector":"stripe" <- {}
0 CARDS <- - <- PROGRAM "connector":"stripe" -> "connector":null,"connector":"stripe" <- {"payment_method":"card"}
3 refused program json 3 "/defaultSelection/data/0/connector" <- - <- PROGRAM "connector":"stripe" -> "connector":null,"metadata":"stripe" <- {}
3 refused program json 3 "/defaultSelection/data/0/connector" <- - <- PROGRAM "connector":"stripe" -> "connector":true,"metadata":"stripe" <- {}
3 refused program json 2 "/defaultSelection/data/0/connector" <- - <- PROGRAM "connector":"stripe" -> "metadata":"stripe" <- {}
0 CARDS <- - <- PROGRAM "rules": -> "rules":null,"rules": <- {"payment_method":"card"}
3 refused program json 3 "/rules" <- - <- PROGRAM "rules": -> "rules":null,"metadata": <- {}
3 refused program json 3 "/rules" <- - <- PROGRAM "rules": -> "rules":true,"metadata": <- {}
3 refused program json 2 "/rules" <- - <- PROGRAM "rules": -> "metadata": <- {}
0 CARDS <- - <- PROGRAM "name": -> "name":null,"name": <- {"payment_method":"card"}
3 refused program json 3 "/rules/0/name" <- - <- PROGRAM "name": -> "name":null,"metadata": <- {}
3 refused program json 3 "/rules/0/name" <- - <- PROGRAM "name": -> "name":true,"metadata": <- {}
3 refused program json 2 "/rules/0/name" <- - <- PROGRAM "name": -> "metadata": <- {}
0 CARDS <- - <- PROGRAM "connectorSelection": -> "connectorSelection":null,"connectorSelection": <- {"payment_method":"card"}
3 refused program json 3 "/rules/0/connectorSelection" <- - <- PROGRAM "connectorSelection": -> "connectorSelection":null,"metadata": <- {}
3 refused program json 3 "/rules/0/connectorSelection" <- - <- PROGRAM "connectorSelection": -> "connectorSelection":true,"metadata": <- {}
3 refused program json 2 "/rules/0/connectorSelection" <- - <- PROGRAM "connectorSelection": -> "metadata": <- {}
0 CARDS <- - <- PROGRAM "statements": -> "statements":null,"statements": <- {"payment_method":"card"}
3 refused program json 3 "/rules/0/statements" <- - <- PROGRAM "statements": -> "statements":null,"metadata": <- {}
3 refused program json 3 "/rules/0/statements" <- - <- PROGRAM "statements": -> "statements":true,"metadata": <- {}
3 refused program json 2 "/rules/0/statements" <- - <- PROGRAM "statements": -> "metadata": <- {}
0 CARDS <- - <- PROGRAM "condition": -> "condition":null,"condition": <- {"payment_method":"card"}
3 refused program json 3 "/rules/0/statements/0/condition" <- - <- PROGRAM "condition": -> "condition":null,"metadata": <- {}
3 refused program json 3 "/rules/0/statements/0/condition" <- - <- PROGRAM "condition": -> "condition":true,"metadata": <- {}
3 refused program json 2 "/rules/0/statements/0/condition" <- - <- PROGRAM "condition": -> "metadata": <- {}
0 CARDS <- - <- PROGRAM "lhs": -> "lhs":null,"lhs": <- {"payment_method":"card"}
3 refused program json 3 "/rules/0/statements/0/condition/0/lhs" <- - <- PROGRAM "lhs": -> "lhs":null,"metadata": <- {}
3 refused program json 3 "/rules/0/statements/0/condition/0/lhs" <- - <- PROGRAM "lhs": -> "lhs":true,"metadata": <- {}
3 refused program json 2 "/rules/0/statements/0/condition/0/lhs" <- - <- PROGRAM "lhs": -> "metadata": <- {}
0 CARDS <- - <- PROGRAM "comparison": -> "comparison":null,"comparison": <- {"payment_method":"card"}
3 refused program json 3 "/rules/0/statements/0/condition/0/comparison" <- - <- PROGRAM "comparison": -> "comparison":null,"metadata": <- {}
3 refused program json 3 "/rules/0/statements/0/condition/0/comparison" <- - <- PROGRAM "comparison": -> "comparison":true,"metadata": <- {}
3 refused program json 2 "/rules/0/statements/0/condition/0/comparison" <- - <- PROGRAM "comparison": -> "metadata": <- {}
0 CARDS <- - <- PROGRAM "value":{ -> "value":null,"value":{ <- {"payment_method":"card"}
3 refused program json 3 "/rules/0/statements/0/condition/0/value" <- - <- PROGRAM "value":{ -> "value":null,"metadata":{ <- {}
3 refused program json 3 "/rules/0/statements/0/condition/0/value" <- - <- PROGRAM "value":{ -> "value":true,"metadata":{ <- {}
3 refused program json 2 "/rules/0/statements/0/condition/0/value" <- - <- PROGRAM "value":{ -> "metadata":{ <- {}
0 CARDS <- - <- PROGRAM "type":"priority","data":[{"connector":"stripe" -> "type":null,"type":"priority","data":[{"connector":"stripe" <- {"payment_method":"card"}
3 refused program json 3 "/defaultSelection/type" <- - <- PROGRAM "type":"priority","data":[{"connector":"stripe" -> "type":null,"metadata":"priority","data":[{"connector":"stripe" <- {}
3 refused program json 3 "/defaultSelection/type" <- - <- PROGRAM "type":"priority","data":[{"connector":"stripe" -> "type":true,"metadata":"priority","data":[{"connector":"stripe" <- {}
3 refused program json 2 "/defaultSelection/type" <- - <- PROGRAM "type":"priority","data":[{"connector":"stripe" -> "metadata":"priority","data":[{"connector":"stripe" <- {}
0 CARDS <- - <- PROGRAM "type":"enum_variant" -> "type":null,"type":"enum_variant" <- {"payment_method":"card"}
3 refused program json 3 "/rules/0/statements/0/condition/0/value/type" <- - <- PROGRAM "type":"enum_variant" -> "type":null,"metadata":"enum_variant" <- {}
3 refused program json 3 "/rules/0/statements/0/condition/0/value/type" <- - <- PROGRAM "type":"enum_variant" -> "type":true,"metadata":"enum_variant" <- {}
3 refused program json 2 "/rules/0/statements/0/condition/0/value/type" <- - <- PROGRAM "type":"enum_variant" -> "metadata":"enum_variant" <- {}
0 CARDS <- - <- PROGRAM "value":"card" -> "value":null,"value":"card" <- {"payment_method":"card"}
3 refused program json 3 "/rules/0/statements/0/condition/0/value/value" <- - <- PROGRAM "value":"card" -> "value":null,"metadata":"card" <- {}
3 refused program json 3 "/rules/0/statements/0/condition/0/value/value" <- - <- PROGRAM "value":"card" -> "value":true,"metadata":"card" <- {}
3 refused program json 2 "/rules/0/statements/0/condition/0/value/value" <- - <- PROGRAM "value":"card" -> "metadata":"card" <- {}
0 DEFAULT <- - <- PROGRAM "rules":[ -> "rules":[|255*{"name":"r","connectorSelection":{"type":"none"},"statements":[]},| <- {}
3 refused program json 5 "/rules" <- - <- PROGRAM "rules":[ -> "rules":[|256*{"name":"r","connectorSelection":{"type":"none"},"statements":[]},| <- {}
0 CARDS <- - <- PROGRAM "statements":[ -> "statements":[|16383*{"condition":[]},| <- {}
3 refused program json 5 "/rules/0/statements" <- - <- PROGRAM "statements":[ -> "statements":[|16384*{"condition":[]},| <- {}
3 refused program json 5 "/rules/1/statements/0" <- - <- PROGRAM "rules":[ -> "rules":[{"name":"r","connectorSelection":{"type":"none"},"statements":[|16383*{"condition":[]},|{"condition":[]}]}, <- {}
3 refused program json 5 "/rules/0/statements/0/nested/16383" <- - <- PROGRAM "statements":[ -> "statements":[{"condition":[],"nested":[|16383*{"condition":[]},|{"condition":[]}]}, <- {}
0 CARDS <- - <- PROGRAM "condition" -> |31*"nested":[{"condition":[],|"condition":[]|31*}]|,"condition" <- {"payment_method":"card"}
3 refused program json 5 "/rules/0/statements/0|32*/nested/0|" <- - <- PROGRAM "condition" -> |32*"nested":[{"condition":[],|"condition":[]|32*}]|,"condition" <- {}
0 DEFAULT <- - <- PROGRAM "condition" -> "nested":[],"condition" <- {"payment_method":"card"}
0 CARDS <- - <- PROGRAM "condition" -> "nested":[{"condition":[]}],"condition" <- {"payment_method":"card"}
0 CARDS <- - <- PROGRAM "condition" -> "nested":null,"condition" <- {"payment_method":"card"}
3 refused program json 3 "/rules/0/statements/0/nested" <- - <- PROGRAM "condition" -> "nested":false,"condition" <- {}
0 CARDS <- - <- PROGRAM {"default -> {"metadata":|126*[||126*]|,"default <- {"payment_method":"card"}
3 refused program json 1 "" <- - <- PROGRAM {"default -> {"metadata":|127*[||127*]|,"default <- {}
0 CARDS <- - <- PROGRAM connectorSelection -> routingOutput <- {"payment_method":"card"}
0 CARDS <- - <- PROGRAM "connectorSelection -> "routingOutput":null,"connectorSelection <- {"payment_method":"card"}
3 refused program json 3 "/rules/0/connectorSelection" <- - <- PROGRAM "connectorSelection" -> "connectorSelection":null,"routingOutput" <- {}
0 CARDS <- - <- PROGRAM "adyen" -> "adyen","merchant_connector_id":null <- {"payment_method":"card"}
3 refused program json 3 "/rules/0/connectorSelection/data/0/merchant_connector_id" <- - <- PROGRAM "adyen" -> "adyen","merchant_connector_id":1 <- {}
3 refused program json 3 "/rules/0/routingOutput/data" <- - <- PROGRAM "connectorSelection":{"type":"priority","data":[{"connector":"adyen"}]} -> "routingOutput":{"type":"priority","data":7} <- {}
0 DEFAULT <- - <- PROGRAM "cards" -> "|127*é|a" <- {}
3 refused program json 5 "/rules/0/name" <- - <- PROGRAM "cards" -> "|128*é|" <- {}
3 refused program type 1 0 0 <- - <- PROGRAM "payment_method" -> "|127*é|a" <- {}
3 refused program json 5 "/rules/0/statements/0/condition/0/lhs" <- - <- PROGRAM "payment_method" -> "|128*é|" <- {}
3 refused program type 4 0 0 <- - <- PROGRAM "card" -> "|127*é|a" <- {}
3 refused program json 5 "/rules/0/statements/0/condition/0/value/value" <- - <- PROGRAM "card" -> "|128*é|" <- {}
0 CARDS <- - <- PROGRAM "stripe" -> "|127*é|a" <- {"payment_method":"card"}
3 refused program json 5 "/defaultSelection/data/0/connector" <- - <- PROGRAM "stripe" -> "|128*é|" <- {}
0 CARDS <- - <- PROGRAM "stripe" -> "stripe","merchant_connector_id":"|127*é|a" <- {"payment_method":"card"}
3 refused program json 5 "/defaultSelection/data/0/merchant_connector_id" <- - <- PROGRAM "stripe" -> "stripe","merchant_connector_id":"|128*é|" <- {}
0 CARDS <- - <- PROGRAM {"connector":"stripe"} -> |4095*{"connector":"stripe"},|{"connector":"stripe"} <- {"payment_method":"card"}
3 refused program json 5 "/defaultSelection/data" <- - <- PROGRAM {"connector":"stripe"} -> |4096*{"connector":"stripe"},|{"connector":"stripe"} <- {}
0 DEFAULT <- - <- IF {"lhs":"amount","comparison":"equal","value":{"type":"number_array","value":[|4095*#,|0]}} <- {}
3 refused program json 5 "/rules/0/statements/0/condition/0/value/value" <- - <- IF {"lhs":"amount","comparison":"equal","value":{"type":"number_array","value":[|4096*#,|0]}} <- {}
0 DEFAULT <- - <- IF {"lhs":"payment_method","comparison":"equal","value":{"type":"enum_variant_array","value":[|4095*"card",|"card"]}} <- {}
3 refused program json 5 "/rules/0/statements/0/condition/0/value/value" <- - <- IF {"lhs":"payment_method","comparison":"equal","value":{"type":"enum_variant_array","value":[|4096*"card",|"card"]}} <- {}
0 DEFAULT <- - <- IF {"lhs":"amount","comparison":"equal","value":{"type":"number_comparison_array","value":[|4095*{"comparisonType":"equal","number":1},|{"comparisonType":"equal","number":1}]}} <- {}
3 refused program json 5 "/rules/0/statements/0/condition/0/value/value" <- - <- IF {"lhs":"amount","comparison":"equal","value":{"type":"number_comparison_array","value":[|4096*{"comparisonType":"equal","number":1},|{"comparisonType":"equal","number":1}]}} <- {}
3 refused program json 5 "/rules/0/statements/0/condition/0/value/value/1" <- - <- IF {"lhs":"payment_method","comparison":"equal","value":{"type":"enum_variant_array","value":["card","|256*a|"]}} <- {}
3 refused program json 5 "/rules/0/statements/0/condition/0/value/value" <- - <- IF {"lhs":"card_bin","comparison":"equal","value":{"type":"str_value","value":"|256*a|"}} <- {}
3 refused program json 5 "/rules/0/statements/0/condition/0/value/value" <- - <- IF {"lhs":"card_bin","comparison":"equal","value":{"type":"enum_variant","value":"|256*a|"}} <- {}
3 refused program json 5 "/rules/0/statements/0/condition/0/value/value/key" <- - <- IF {"lhs":"metadata","comparison":"equal","value":{"type":"metadata_variant","value":{"key":"|256*a|","value":"|256*a|"}}} <- {}
3 refused program json 5 "/rules/0/statements/0/condition/0/value/value/value" <- - <- IF {"lhs":"metadata","comparison":"equal","value":{"type":"metadata_variant","value":{"key":"a","value":"|256*a|"}}} <- {}
3 refused program json 3 "/rules/0/statements/0/condition/0/value/value" <- - <- IF {"lhs":"amount","comparison":"equal","value":{"type":"number","value":"card"}} <- {}
3 refused program json 3 "/rules/0/statements/0/condition/0/value/value" <- - <- IF {"lhs":"amount","comparison":"equal","value":{"type":"number","value":null}} <- {}
3 refused program json 4 "/rules/0/statements/0/condition/0/value/value" <- - <- IF {"lhs":"amount","comparison":"equal","value":{"type":"number","value":1.0}} <- {}
3 refused program json 4 "/rules/0/statements/0/condition/0/value/value" <- - <- IF {"lhs":"amount","comparison":"equal","value":{"type":"number","value":1e2}} <- {}
3 refused program json 4 "/rules/0/statements/0/condition/0/value/value" <- - <- IF {"lhs":"amount","comparison":"equal","value":{"type":"number","value":9223372036854775808}} <- {}
3 refused program json 3 "/rules/0/statements/0/condition/0/value/value/1" <- - <- IF {"lhs":"amount","comparison":"equal","value":{"type":"number_array","value":[1,"2"]}} <- {}
3 refused program json 4 "/rules/0/statements/0/condition/0/value/value/0" <- - <- IF {"lhs":"amount","comparison":"equal","value":{"type":"number_array","value":[1.5,"2"]}} <- {}
3 refused program json 3 "/rules/0/statements/0/condition/0/value/value" <- - <- IF {"lhs":"amount","comparison":"equal","value":{"type":"number_array","value":5}} <- {}
3 refused program json 3 "/rules/0/statements/0/condition/0/value/value/0" <- - <- IF {"lhs":"amount","comparison":"equal","value":{"type":"number_comparison_array","value":[5]}} <- {}
3 refused program json 2 "/rules/0/statements/0/condition/0/value/value/key" <- - <- IF {"lhs":"metadata","comparison":"equal","value":{"type":"metadata_variant","value":{"value":"a"}}} <- {}
3 refused program json 2 "/rules/0/statements/0/condition/0/value/value/value" <- - <- IF {"lhs":"metadata","comparison":"equal","value":{"type":"metadata_variant","value":{"key":"a"}}} <- {}
3 refused program json 6 "/rules/0/statements/0/condition/0/value/type" <- - <- IF {"lhs":"amount","comparison":"equal","value":{"type":"float","value":[]}} <- {}
3 refused program json 6 "/rules/0/statements/0/condition/0/value/type" <- - <- IF {"lhs":"amount","comparison":"equal","value":{"type":"Number"}} <- {}
3 refused program json 7 "/rules/0/statements/0/condition/0/comparison" <- - <- IF {"lhs":"amount","comparison":"is","value":{"type":"number","value":5}} <- {}
3 refused program json 7 "/rules/0/statements/0/condition/0/comparison" <- - <- IF {"lhs":"amount","comparison":"EQUAL","value":{"type":"number","value":5}} <- {}
3 refused program json 7 "/rules/0/statements/0/condition/0/comparison" <- - <- IF {"lhs":"amount","comparison":"equals","value":{"type":"number","value":5}} <- {}
3 refused program json 7 "/rules/0/statements/0/condition/0/comparison" <- - <- IF {"lhs":"amount","comparison":"<","value":{"type":"number","value":5}} <- {}
0 CARDS <- - <- IF {"lhs":"amount","comparison":"equal","value":{"type":"number_comparison_array","value":[{"comparisonType":"equal","comparison_type":"less_than","number":5}]}} <- {"amount":5}
3 refused program json 3 "/rules/0/statements/0/condition/0/value/value/0/comparisonType" <- - <- IF {"lhs":"amount","comparison":"equal","value":{"type":"number_comparison_array","value":[{"comparisonType":null,"comparison_type":"equal","number":5}]}} <- {}
3 refused program json 2 "/rules/0/statements/0/condition/0/value/value/0/comparisonType" <- - <- IF {"lhs":"amount","comparison":"equal","value":{"type":"number_comparison_array","value":[{"number":5}]}} <- {}
3 refused program json 7 "/rules/0/statements/0/condition/0/value/value/0/comparison_type" <- - <- IF {"lhs":"amount","comparison":"equal","value":{"type":"number_comparison_array","value":[{"comparison_type":"is","number":5}]}} <- {}
3 refused program json 2 "/rules/0/statements/0/condition/0/value/value/0/number" <- - <- IF {"lhs":"amount","comparison":"equal","value":{"type":"number_comparison_array","value":[{"comparison_type":"equal"}]}} <- {}
3 refused program json 4 "/rules/0/statements/0/condition/0/value/value/0/number" <- - <- IF {"lhs":"amount","comparison":"equal","value":{"type":"number_comparison_array","value":[{"comparison_type":"equal","number":0.5}]}} <- {}
0 {"data":[],"type":"priority"} <- - <- {"defaultSelection":{"type":"priority","data":[]},"rules":[]} <- {}
0 {"data":[{"connector":"b","merchant_connector_id":"mca_1"},{"connector":"a","merchant_connector_id":null}],"type":"priority"} <- - <- {"defaultSelection":{"type":"priority","data":[{"connector":"b","merchant_connector_id":"mca_1"},{"connector":"a"}]},"rules":[]} <- {}
0 {"data":[{"connector":"a\"b","merchant_connector_id":"a\"b"}],"type":"priority"} <- - <- {"defaultSelection":{"type":"priority","data":[{"connector":"a\u0022b","merchant_connector_id":"a\u0022b"}]},"rules":[]} <- {}
0 {"data":[{"connector":"c\\d/é","merchant_connector_id":"c\\d/é"}],"type":"priority"} <- - <- {"defaultSelection":{"type":"priority","data":[{"connector":"c\\d\/\u00e9","merchant_connector_id":"c\\d\/\u00e9"}]},"rules":[]} <- {}
0 {"data":[{"connector":"\n\t\r\b\f","merchant_connector_id":"\n\t\r\b\f"}],"type":"priority"} <- - <- {"defaultSelection":{"type":"priority","data":[{"connector":"\n\t\r\b\f","merchant_connector_id":"\n\t\r\b\f"}]},"rules":[]} <- {}
0 {"data":[{"connector":"\u0000\u001f","merchant_connector_id":"\u0000\u001f"}],"type":"priority"} <- - <- {"defaultSelection":{"type":"priority","data":[{"connector":"\u0000\u001F","merchant_connector_id":"\u0000\u001F"}]},"rules":[]} <- {}
0 {"data":[{"connector":"é€😀","merchant_connector_id":"é€😀"}],"type":"priority"} <- - <- {"defaultSelection":{"type":"priority","data":[{"connector":"é€\ud83d\ude00","merchant_connector_id":"é€\ud83d\ude00"}]},"rules":[]} <- {}
0 {"data":[],"type":"volume_split"} <- - <- {"defaultSelection":{"type":"volume_split","data":[]},"rules":[]} <- {}
0 {"data":[{"connector":{"connector":"stripe","merchant_connector_id":"mca_1"},"split":60},{"connector":{"connector":"adyen","merchant_connector_id":null},"split":40}],"type":"volume_split"} <- - <- {"defaultSelection":{"type":"volume_split","data":[{"connector":{"connector":"stripe","merchant_connector_id":"mca_1"},"split":60},{"connector":{"connector":"adyen"},"split":40}]},"rules":[]} <- {}
0 {"data":{"amount":0},"type":"surcharge_fixed"} <- - <- {"defaultSelection":{"type":"surcharge_fixed","data":{"amount":0}},"rules":[]} <- {}
0 {"data":{"amount":9223372036854775807},"type":"surcharge_fixed"} <- - <- {"defaultSelection":{"type":"surcharge_fixed","data":{"amount":9223372036854775807}},"rules":[]} <- {}
0 {"data":{"basis_points":0},"type":"surcharge_rate"} <- - <- {"defaultSelection":{"type":"surcharge_rate","data":{"basis_points":0}},"rules":[]} <- {}
0 {"data":{"basis_points":10000},"type":"surcharge_rate"} <- - <- {"defaultSelection":{"type":"surcharge_rate","data":{"basis_points":10000}},"rules":[]} <- {}
0 {"data":{"decision":"three_ds"},"type":"three_ds"} <- - <- {"defaultSelection":{"type":"three_ds","data":{"decision":"three_ds"}},"rules":[]} <- {}
0 {"data":{"decision":"no_three_ds"},"type":"three_ds"} <- - <- {"defaultSelection":{"type":"three_ds","data":{"decision":"no_three_ds"}},"rules":[]} <- {}
0 {"type":"none"} <- - <- {"defaultSelection":{"type":"none"},"rules":[]} <- {}
0 {"type":"none"} <- - <- {"defaultSelection":{"type":"none","data":7},"rules":[]} <- {}
3 refused program json 3 "/defaultSelection/data/amount" <- - <- {"defaultSelection":{"type":"surcharge_fixed","data":{"amount":-1}},"rules":[]} <- {}
3 refused program json 4 "/defaultSelection/data/amount" <- - <- {"defaultSelection":{"type":"surcharge_fixed","data":{"amount":1.0}},"rules":[]} <- {}
3 refused program json 4 "/defaultSelection/data/amount" <- - <- {"defaultSelection":{"type":"surcharge_fixed","data":{"amount":1e2}},"rules":[]} <- {}
3 refused program json 4 "/defaultSelection/data/amount" <- - <- {"defaultSelection":{"type":"surcharge_fixed","data":{"amount":9223372036854775808}},"rules":[]} <- {}
3 refused program json 3 "/defaultSelection/data/amount" <- - <- {"defaultSelection":{"type":"surcharge_fixed","data":{"amount":"5"}},"rules":[]} <- {}
3 refused program json 3 "/defaultSelection/data/basis_points" <- - <- {"defaultSelection":{"type":"surcharge_rate","data":{"basis_points":-1}},"rules":[]} <- {}
3 refused program json 3 "/defaultSelection/data/basis_points" <- - <- {"defaultSelection":{"type":"surcharge_rate","data":{"basis_points":10001}},"rules":[]} <- {}
3 refused program json 4 "/defaultSelection/data/basis_points" <- - <- {"defaultSelection":{"type":"surcharge_rate","data":{"basis_points":1.0}},"rules":[]} <- {}
3 refused program json 3 "/defaultSelection/data/basis_points" <- - <- {"defaultSelection":{"type":"surcharge_rate","data":{"basis_points":null}},"rules":[]} <- {}
3 refused program json 3 "/defaultSelection/data/decision" <- - <- {"defaultSelection":{"type":"three_ds","data":{"decision":"ThreeDs"}},"rules":[]} <- {}
3 refused program json 3 "/defaultSelection/data/decision" <- - <- {"defaultSelection":{"type":"three_ds","data":{"decision":true}},"rules":[]} <- {}
3 refused program json 2 "/defaultSelection/data/amount" <- - <- {"defaultSelection":{"type":"surcharge_fixed","data":{}},"rules":[]} <- {}
3 refused program json 3 "/defaultSelection/data" <- - <- {"defaultSelection":{"type":"surcharge_fixed","data":[]},"rules":[]} <- {}
3 refused program json 2 "/defaultSelection/data" <- - <- {"defaultSelection":{"type":"surcharge_fixed"},"rules":[]} <- {}
3 refused program json 2 "/defaultSelection/data/basis_points" <- - <- {"defaultSelection":{"type":"surcharge_rate","data":{}},"rules":[]} <- {}
3 refused program json 3 "/defaultSelection/data" <- - <- {"defaultSelection":{"type":"surcharge_rate","data":[]},"rules":[]} <- {}
3 refused program json 2 "/defaultSelection/data" <- - <- {"defaultSelection":{"type":"surcharge_rate"},"rules":[]} <- {}
3 refused program json 2 "/defaultSelection/data/decision" <- - <- {"defaultSelection":{"type":"three_ds","data":{}},"rules":[]} <- {}
3 refused program json 3 "/defaultSelection/data" <- - <- {"defaultSelection":{"type":"three_ds","data":[]},"rules":[]} <- {}
3 refused program json 2 "/defaultSelection/data" <- - <- {"defaultSelection":{"type":"three_ds"},"rules":[]} <- {}
3 refused program json 3 "/defaultSelection/data/0/split" <- - <- {"defaultSelection":{"type":"volume_split","data":[{"connector":{"connector":"a"},"split":-1}]},"rules":[]} <- {}
3 refused program json 3 "/defaultSelection/data/0/split" <- - <- {"defaultSelection":{"type":"volume_split","data":[{"connector":{"connector":"a"},"split":256}]},"rules":[]} <- {}
3 refused program json 4 "/defaultSelection/data/0/split" <- - <- {"defaultSelection":{"type":"volume_split","data":[{"connector":{"connector":"a"},"split":1.0}]},"rules":[]} <- {}
3 refused program json 3 "/defaultSelection/data/0/split" <- - <- {"defaultSelection":{"type":"volume_split","data":[{"connector":{"connector":"a"},"split":"1"}]},"rules":[]} <- {}
3 refused program json 2 "/defaultSelection/data/0/split" <- - <- {"defaultSelection":{"type":"volume_split","data":[{"connector":{"connector":"a"}}]},"rules":[]} <- {}
3 refused program json 3 "/defaultSelection/data/0/connector" <- - <- {"defaultSelection":{"type":"volume_split","data":[{"connector":"a","split":1}]},"rules":[]} <- {}
3 refused program json 3 "/defaultSelection/data/1" <- - <- {"defaultSelection":{"type":"priority","data":[{"connector":"a"},"b"]},"rules":[]} <- {}
3 refused program json 5 "/defaultSelection/data" <- - <- {"defaultSelection":{"type":"volume_split","data":[|4096*{"connector":{"connector":"a"},"split":1},|7]},"rules":[]} <- {}
3 refused program json 6 "/defaultSelection/type" <- - <- {"defaultSelection":{"type":"Priority","data":[]},"rules":[]} <- {}
3 refused program json 3 "/defaultSelection/type" <- - <- {"defaultSelection":{"type":7,"data":[]},"rules":[]} <- {}
3 refused program json 3 "/defaultSelection/type" <- - <- PROGRAM "priority","data":[{"connector":"stripe"}]},"rules":[ -> 7},"rules":[7, <- {}
3 refused program json 3 "/rules/0" <- - <- PROGRAM "rules":[ -> "rules":[7,7, <- {}
3 refused program json 3 "/rules/0/name" <- - <- PROGRAM "name":"cards","connectorSelection" -> "connectorSelection":7,"name":7,"metadata" <- {}
3 refused program json 2 "/rules/0/statements/0/condition/0/lhs" <- - <- IF {"value":7,"comparison":7} <- {}
3 refused program json 3 "/rules/0/statements/0/condition/0/comparison" <- - <- IF {"value":7,"comparison":7,"lhs":""} <- {}
3 refused program json 5 "/rules" <- - <- PROGRAM "rules":[ -> "rules":[7,|256*{"name":"r","connectorSelection":{"type":"none"},"statements":[]},| <- {}
3 refused program type 1 0 0 <- - <- IF {"lhs":"colour","comparison":"less_than","value":{"type":"str_value","value":"a"}} <- {}
3 refused program type 1 0 0 <- - <- IF {"lhs":"colour","comparison":"equal","value":{"type":"metadata_variant","value":{"key":"a","value":"b"}}} <- {}
3 refused program type 2 0 0 <- - <- IF {"lhs":"amount","comparison":"less_than","value":{"type":"str_value","value":"a"}} <- {}
3 refused program type 2 0 0 <- - <- IF {"lhs":"payment_method","comparison":"less_than","value":{"type":"number","value":5}} <- {}
3 refused program type 2 0 0 <- - <- IF {"lhs":"payment_method","comparison":"equal","value":{"type":"str_value","value":"card"}} <- {}
3 refused program type 2 0 0 <- - <- IF {"lhs":"amount","comparison":"equal","value":{"type":"enum_variant","value":"card"}} <- {}
3 refused program type 2 0 0 <- - <- IF {"lhs":"card_bin","comparison":"equal","value":{"type":"enum_variant","value":"card"}} <- {}
3 refused program type 2 0 0 <- - <- IF {"lhs":"card_bin","comparison":"equal","value":{"type":"metadata_variant","value":{"key":"a","value":"b"}}} <- {}
3 refused program type 2 0 0 <- - <- IF {"lhs":"metadata","comparison":"equal","value":{"type":"str_value","value":"card"}} <- {}
3 refused program type 2 0 0 <- - <- IF {"lhs":"payment_method","comparison":"equal","value":{"type":"number_array","value":[]}} <- {}
3 refused program type 2 0 0 <- - <- IF {"lhs":"amount","comparison":"equal","value":{"type":"enum_variant_array","value":[]}} <- {}
3 refused program type 2 0 0 <- - <- IF {"lhs":"card_bin","comparison":"equal","value":{"type":"number_comparison_array","value":[]}} <- {}
3 refused program type 3 0 0 <- - <- IF {"lhs":"payment_method","comparison":"less_than","value":{"type":"enum_variant","value":"cash"}} <- {}
3 refused program type 3 0 0 <- - <- IF {"lhs":"payment_method","comparison":"greater_than_equal","value":{"type":"enum_variant_array","value":["cash"]}} <- {}
3 refused program type 4 0 0 <- - <- IF {"lhs":"payment_method","comparison":"equal","value":{"type":"enum_variant","value":"cash"}} <- {}
3 refused program type 4 0 0 <- - <- IF {"lhs":"payment_method","comparison":"not_equal","value":{"type":"enum_variant_array","value":["card","cash"]}} <- {}
3 refused program type 4 0 0 <- - <- IF {"lhs":"payment_method","comparison":"equal","value":{"type":"enum_variant","value":"cash"}} <- [
3 refused program type 1 0 1 <- - <- IF {"lhs":"payment_method","comparison":"equal","value":{"type":"enum_variant","value":"card"}},{"lhs":"colour","comparison":"equal","value":{"type":"number","value":1}} <- {}
3 refused program type 1 0 1 <- - <- PROGRAM "condition" -> "nested":[{"condition":[{"lhs":"colour","comparison":"equal","value":{"type":"number","value":1}}]}],"condition" <- {}
3 refused program type 1 0 3 <- - <- PROGRAM "condition" -> "nested":[{"condition":[{"lhs":"payment_method","comparison":"equal","value":{"type":"enum_variant","value":"card"}}],"nested":[{"condition":[{"lhs":"payment_method","comparison":"equal","value":{"type":"enum_variant","value":"card"}}]}]},{"condition":[{"lhs":"colour","comparison":"equal","value":{"type":"number","value":1}}]}],"condition" <- {}
3 refused program type 6 default selection <- - <- {"defaultSelection":{"type":"volume_split","data":[{"connector":{"connector":"a"},"split":99}]},"rules":[]} <- {}
3 refused program type 6 default selection <- - <- {"defaultSelection":{"type":"volume_split","data":[{"connector":{"connector":"a"},"split":60},{"connector":{"connector":"a"},"split":41}]},"rules":[]} <- {}
3 refused program type 6 default selection <- - <- {"defaultSelection":{"type":"volume_split","data":[|255*{"connector":{"connector":"a"},"split":1},|{"connector":{"connector":"a"},"split":1}]},"rules":[]} <- {}
3 refused program type 6 default selection <- - <- {"defaultSelection":{"type":"volume_split","data":[{"connector":{"connector":"a"},"split":255},{"connector":{"connector":"a"},"split":101}]},"rules":[]} <- {}
3 refused program type 6 0 selection <- - <- {"defaultSelection":{"type":"none"},"rules":[{"name":"q","connectorSelection":{"type":"volume_split","data":[{"connector":{"connector":"a"},"split":98}]},"statements":[]},{"name":"r","connectorSelection":{"type":"volume_split","data":[{"connector":{"connector":"a"},"split":99}]},"statements":[]}]} <- {}
3 refused program type 6 1 selection <- - <- {"defaultSelection":{"type":"none"},"rules":[{"name":"r","connectorSelection":{"type":"volume_split","data":[{"connector":{"connector":"a"},"split":100}]},"statements":[]},{"name":"r","connectorSelection":{"type":"volume_split","data":[{"connector":{"connector":"a"},"split":99}]},"statements":[]}]} <- {}
3 refused program type 5 0 selection <- - <- {"defaultSelection":{"type":"none"},"rules":[{"name":"r","connectorSelection":{"type":"priority","data":[]},"statements":[]}]} <- {}
3 refused program type 5 0 selection <- - <- {"defaultSelection":{"type":"surcharge_fixed","data":{"amount":1}},"rules":[{"name":"r","connectorSelection":{"type":"volume_split","data":[]},"statements":[]}]} <- {}
3 refused program type 5 1 selection <- - <- {"defaultSelection":{"type":"priority","data":[]},"rules":[{"name":"r","connectorSelection":{"type":"priority","data":[{"connector":"a"}]},"statements":[]},{"name":"r","connectorSelection":{"type":"volume_split","data":[]},"statements":[]}]} <- {}
3 refused program type 7 0 selection <- - <- {"defaultSelection":{"type":"surcharge_fixed","data":{"amount":1}},"rules":[{"name":"r","connectorSelection":{"type":"priority","data":[{"connector":"a"}]},"statements":[]}]} <- {}
3 refused program type 7 1 selection <- - <- {"defaultSelection":{"type":"none"},"rules":[{"name":"r","connectorSelection":{"type":"priority","data":[{"connector":"a"}]},"statements":[]},{"name":"r","connectorSelection":{"type":"three_ds","data":{"decision":"three_ds"}},"statements":[]}]} <- {}
3 refused program type 7 2 selection <- - <- {"defaultSelection":{"type":"none"},"rules":[{"name":"r","connectorSelection":{"type":"surcharge_fixed","data":{"amount":1}},"statements":[]},{"name":"r","connectorSelection":{"type":"surcharge_rate","data":{"basis_points":1}},"statements":[]},{"name":"r","connectorSelection":{"type":"three_ds","data":{"decision":"three_ds"}},"statements":[]}]} <- {}
3 refused program type 6 0 selection <- - <- {"defaultSelection":{"type":"surcharge_fixed","data":{"amount":1}},"rules":[{"name":"r","connectorSelection":{"type":"volume_split","data":[{"connector":{"connector":"a"},"split":99}]},"statements":[]}]} <- {}
3 refused program type 7 0 selection <- - <- {"defaultSelection":{"type":"priority","data":[]},"rules":[{"name":"r","connectorSelection":{"type":"three_ds","data":{"decision":"three_ds"}},"statements":[]}]} <- {}
0 {"type":"none"} <- - <- {"defaultSelection":{"type":"none"},"rules":[{"name":"r","connectorSelection":{"type":"none"},"statements":[]},{"name":"r","connectorSelection":{"type":"volume_split","data":[{"connector":{"connector":"a"},"split":100}]},"statements":[]},{"name":"r","connectorSelection":{"type":"priority","data":[{"connector":"a"}]},"statements":[]},{"name":"r","connectorSelection":{"type":"none"},"statements":[]}]} <- {}
0 {"data":{"amount":1},"type":"surcharge_fixed"} <- - <- {"defaultSelection":{"type":"surcharge_fixed","data":{"amount":1}},"rules":[{"name":"r","connectorSelection":{"type":"none"},"statements":[]},{"name":"r","connectorSelection":{"type":"surcharge_rate","data":{"basis_points":1}},"statements":[]},{"name":"r","connectorSelection":{"type":"surcharge_fixed","data":{"amount":1}},"statements":[]}]} <- {}
0 {"data":{"decision":"three_ds"},"type":"three_ds"} <- - <- {"defaultSelection":{"type":"three_ds","data":{"decision":"three_ds"}},"rules":[{"name":"r","connectorSelection":{"type":"three_ds","data":{"decision":"three_ds"}},"statements":[]},{"name":"r","connectorSelection":{"type":"none"},"statements":[]}]} <- {}
3 refused program type 7 0 selection <- - <- PROGRAM {"type":"priority","data":[{"connector":"stripe"}]} -> {"type":"surcharge_fixed","data":{"amount":1}} <- [
3 refused program type 6 default selection <- - <- PROGRAM {"type":"priority","data":[{"connector":"stripe"}]} -> {"type":"volume_split","data":[{"connector":{"connector":"a"},"split":1}]} <- {}"##;

// Conversions. A line begins as above. Behind the arrows stand the form that is asked for, and the program.
const CONVERSIONS: &str =
    r##"0 = {"defaultSelection":{"data":[{"connector":{"connector":"a","merchant_connector_id":null},"split":60},{"connector":{"connector":"b","merchant_connector_id":"x"},"split":40}],"type":"volume_split"},"metadata":{},"rules":[{"connectorSelection":{"data":[{"connector":"adyen","merchant_connector_id":"mca_2"},{"connector":"stripe","merchant_connector_id":null}],"type":"priority"},"name":"all forms","statements":[{"condition":[{"comparison":"equal","lhs":"amount","metadata":{},"value":{"type":"number","value":1}},{"comparison":"not_equal","lhs":"amount","metadata":{},"value":{"type":"number","value":-5}},{"comparison":"less_than","lhs":"amount","metadata":{},"value":{"type":"number","value":9223372036854775807}},{"comparison":"less_than_equal","lhs":"amount","metadata":{},"value":{"type":"number","value":-9223372036854775808}},{"comparison":"greater_than","lhs":"amount","metadata":{},"value":{"type":"number","value":0}},{"comparison":"greater_than_equal","lhs":"amount","metadata":{},"value":{"type":"number","value":2}}],"nested":[{"condition":[{"comparison":"equal","lhs":"payment_method","metadata":{},"value":{"type":"enum_variant","value":"card"}}],"nested":null},{"condition":[{"comparison":"not_equal","lhs":"payment_method","metadata":{},"value":{"type":"enum_variant_array","value":["card","wallet"]}}],"nested":[{"condition":[{"comparison":"equal","lhs":"card_bin","metadata":{},"value":{"type":"str_value","value":"é t"}}],"nested":null}]}]},{"condition":[{"comparison":"equal","lhs":"metadata","metadata":{},"value":{"type":"metadata_variant","value":{"key":"a:b","value":""}}}],"nested":null},{"condition":[{"comparison":"equal","lhs":"amount","metadata":{},"value":{"type":"number_array","value":[1,-2,3]}},{"comparison":"equal","lhs":"amount","metadata":{},"value":{"type":"number_comparison_array","value":[{"comparisonType":"less_than","number":1},{"comparisonType":"greater_than_equal","number":2},{"comparisonType":"equal","number":3},{"comparisonType":"not_equal","number":4},{"comparisonType":"less_than_equal","number":5},{"comparisonType":"greater_than","number":6}]}}],"nested":null}]},{"connectorSelection":{"data":{"amount":0},"type":"surcharge_fixed"},"name":"","statements":[]},{"connectorSelection":{"data":{"basis_points":10000},"type":"surcharge_rate"},"name":"default","statements":[{"condition":[{"comparison":"equal","lhs":"amount","metadata":{},"value":{"type":"number","value":1}}],"nested":null}]},{"connectorSelection":{"data":{"decision":"three_ds"},"type":"three_ds"},"name":"a :{}[](),&@%","statements":[]},{"connectorSelection":{"data":{"decision":"no_three_ds"},"type":"three_ds"},"name":"split","statements":[]},{"connectorSelection":{"type":"none"},"name":"none","statements":[]}]}^ <- json <- default: split ["a" % 60, "b" @ "x" % 40]^"all forms": ["adyen" @ "mca_2", "stripe"] {^  amount = 1 & amount /= -5 & amount < 9223372036854775807 & amount <= -9223372036854775808 & amount > 0 & amount >= 2 {^    payment_method = card^    payment_method /= (card, wallet) {^      card_bin = "é t"^    }^  }^  metadata = "a:b" : ""^  amount = (1, -2, 3) & amount = (< 1, >= 2, = 3, /= 4, <= 5, > 6)^}^"": surcharge 0 {^}^"default": rate 10000 {^  amount = 1^}^"a :{}[](),&@%": three_ds {^}^"split": no_three_ds {^}^"none": none {^}^
0 = default: split ["a" % 60, "b" @ "x" % 40]^"all forms": ["adyen" @ "mca_2", "stripe"] {^  amount = 1 & amount /= -5 & amount < 9223372036854775807 & amount <= -9223372036854775808 & amount > 0 & amount >= 2 {^    payment_method = card^    payment_method /= (card, wallet) {^      card_bin = "é t"^    }^  }^  metadata = "a:b" : ""^  amount = (1, -2, 3) & amount = (< 1, >= 2, = 3, /= 4, <= 5, > 6)^}^"": surcharge 0 {^}^"default": rate 10000 {^  amount = 1^}^"a :{}[](),&@%": three_ds {^}^"split": no_three_ds {^}^"none": none {^}^ <- text <- {"defaultSelection":{"data":[{"connector":{"connector":"a","merchant_connector_id":null},"split":60},{"connector":{"connector":"b","merchant_connector_id":"x"},"split":40}],"type":"volume_split"},"metadata":{},"rules":[{"connectorSelection":{"data":[{"connector":"adyen","merchant_connector_id":"mca_2"},{"connector":"stripe","merchant_connector_id":null}],"type":"priority"},"name":"all forms","statements":[{"condition":[{"comparison":"equal","lhs":"amount","metadata":{},"value":{"type":"number","value":1}},{"comparison":"not_equal","lhs":"amount","metadata":{},"value":{"type":"number","value":-5}},{"comparison":"less_than","lhs":"amount","metadata":{},"value":{"type":"number","value":9223372036854775807}},{"comparison":"less_than_equal","lhs":"amount","metadata":{},"value":{"type":"number","value":-9223372036854775808}},{"comparison":"greater_than","lhs":"amount","metadata":{},"value":{"type":"number","value":0}},{"comparison":"greater_than_equal","lhs":"amount","metadata":{},"value":{"type":"number","value":2}}],"nested":[{"condition":[{"comparison":"equal","lhs":"payment_method","metadata":{},"value":{"type":"enum_variant","value":"card"}}],"nested":null},{"condition":[{"comparison":"not_equal","lhs":"payment_method","metadata":{},"value":{"type":"enum_variant_array","value":["card","wallet"]}}],"nested":[{"condition":[{"comparison":"equal","lhs":"card_bin","metadata":{},"value":{"type":"str_value","value":"é t"}}],"nested":null}]}]},{"condition":[{"comparison":"equal","lhs":"metadata","metadata":{},"value":{"type":"metadata_variant","value":{"key":"a:b","value":""}}}],"nested":null},{"condition":[{"comparison":"equal","lhs":"amount","metadata":{},"value":{"type":"number_array","value":[1,-2,3]}},{"comparison":"equal","lhs":"amount","metadata":{},"value":{"type":"number_comparison_array","value":[{"comparisonType":"less_than","number":1},{"comparisonType":"greater_than_equal","number":2},{"comparisonType":"equal","number":3},{"comparisonType":"not_equal","number":4},{"comparisonType":"less_than_equal","number":5},{"comparisonType":"greater_than","number":6}]}}],"nested":null}]},{"connectorSelection":{"data":{"amount":0},"type":"surcharge_fixed"},"name":"","statements":[]},{"connectorSelection":{"data":{"basis_points":10000},"type":"surcharge_rate"},"name":"default","statements":[{"condition":[{"comparison":"equal","lhs":"amount","metadata":{},"value":{"type":"number","value":1}}],"nested":null}]},{"connectorSelection":{"data":{"decision":"three_ds"},"type":"three_ds"},"name":"a :{}[](),&@%","statements":[]},{"connectorSelection":{"data":{"decision":"no_three_ds"},"type":"three_ds"},"name":"split","statements":[]},{"connectorSelection":{"type":"none"},"name":"none","statements":[]}]}
0 = {"defaultSelection":{"type":"none"},"metadata":{},"rules":[]}^ <- json <- default: none^
0 = default: none^ <- text <- {"defaultSelection":{"type":"none"},"metadata":{},"rules":[]}
0 = {"defaultSelection":{"data":[],"type":"priority"},"metadata":{},"rules":[]}^ <- json <- default: []^
0 = default: []^ <- text <- {"defaultSelection":{"data":[],"type":"priority"},"metadata":{},"rules":[]}
0 = {"defaultSelection":{"data":[{"connector":"","merchant_connector_id":null}],"type":"priority"},"metadata":{},"rules":[{"connectorSelection":{"data":[{"connector":"","merchant_connector_id":""}],"type":"priority"},"name":"r","statements":[]}]}^ <- json <- default: [""]^"r": ["" @ ""] {^}^
0 = default: [""]^"r": ["" @ ""] {^}^ <- text <- {"defaultSelection":{"data":[{"connector":"","merchant_connector_id":null}],"type":"priority"},"metadata":{},"rules":[{"connectorSelection":{"data":[{"connector":"","merchant_connector_id":""}],"type":"priority"},"name":"r","statements":[]}]}
0 = {"defaultSelection":{"data":[],"type":"volume_split"},"metadata":{},"rules":[]}^ <- json <- default: split []^
0 = default: split []^ <- text <- {"defaultSelection":{"data":[],"type":"volume_split"},"metadata":{},"rules":[]}
0 = {"defaultSelection":{"type":"none"},"metadata":{},"rules":[{"connectorSelection":{"type":"none"},"name":"a\tb","statements":[]}]}^ <- json <- default: none^"a!b": none {^}^
0 = default: none^"a!b": none {^}^ <- text <- {"defaultSelection":{"type":"none"},"metadata":{},"rules":[{"connectorSelection":{"type":"none"},"name":"a\tb","statements":[]}]}
0 = {"defaultSelection":{"type":"none"},"metadata":{},"rules":[{"connectorSelection":{"type":"none"},"name":"r","statements":[|31*{"condition":[{"comparison":"equal","lhs":"amount","metadata":{},"value":{"type":"number","value":1}}],"nested":[|{"condition":[{"comparison":"equal","lhs":"amount","metadata":{},"value":{"type":"number","value":1}}],"nested":null}|31*]}|]}]}^ <- json <- default: none r: none { |31*amount = 1 { |amount = 1 |31*} |}
0 = default: none^"r": none {^  amount = 7^}^ <- text <- default:none^^r!:none{amount=007}'^
0 = {"defaultSelection":{"type":"none"},"metadata":{},"rules":[{"connectorSelection":{"type":"none"},"name":"r","statements":[{"condition":[{"comparison":"equal","lhs":"amount","metadata":{},"value":{"type":"number","value":0}}],"nested":null}]}]}^ <- json <- default:none r:none{amount=-0}
0 = default: none^ <- text <- {"type":"advanced","data":{"defaultSelection":{"type":"none"},"metadata":{},"rules":[]}}
0 = {"defaultSelection":{"type":"none"},"metadata":{},"rules":[]}^ <- json <-  {"defaultSelection":{"type":"none"} , "metadata":{} , "rules":[]} 
0 = {"defaultSelection":{"type":"none"},"metadata":{},"rules":[{"connectorSelection":{"type":"none"},"name":"r","statements":[{"condition":[{"comparison":"less_than","lhs":"colour","metadata":{},"value":{"type":"enum_variant","value":"x"}}],"nested":null}]}]}^ <- json <- default: none r: none { colour < x }
0 = default: none^"|255*r|": none {^|0*x|  amount = (|4095*1, |1)^}^ <- text <- {"defaultSelection":{"type":"none"},"rules":[{"name":"|255*r|","connectorSelection":{"type":"none"},"statements":[{"condition":[{"lhs":"amount","comparison":"equal","value":{"type":"number_array","value":[|4095*1,|1]}}]}]}]}
3 refused convert 1 default <- text <- {"defaultSelection":{"data":[{"connector":"a\"b","merchant_connector_id":null}],"type":"priority"},"metadata":{},"rules":[]}
0 = {"defaultSelection":{"data":[{"connector":"a\"b","merchant_connector_id":null}],"type":"priority"},"metadata":{},"rules":[]}^ <- json <- {"defaultSelection":{"data":[{"connector":"a\"b","merchant_connector_id":null}],"type":"priority"},"metadata":{},"rules":[]}
3 refused convert 1 default <- text <- {"defaultSelection":{"data":[{"connector":"a","merchant_connector_id":"b\n"}],"type":"priority"},"metadata":{},"rules":[]}
0 = {"defaultSelection":{"data":[{"connector":"a","merchant_connector_id":"b\n"}],"type":"priority"},"metadata":{},"rules":[]}^ <- json <- {"defaultSelection":{"data":[{"connector":"a","merchant_connector_id":"b\n"}],"type":"priority"},"metadata":{},"rules":[]}
3 refused convert 1 default <- text <- {"defaultSelection":{"data":[{"connector":{"connector":"a","merchant_connector_id":null},"split":1},{"connector":{"connector":"b\"","merchant_connector_id":null},"split":1}],"type":"volume_split"},"metadata":{},"rules":[]}
0 = {"defaultSelection":{"data":[{"connector":{"connector":"a","merchant_connector_id":null},"split":1},{"connector":{"connector":"b\"","merchant_connector_id":null},"split":1}],"type":"volume_split"},"metadata":{},"rules":[]}^ <- json <- {"defaultSelection":{"data":[{"connector":{"connector":"a","merchant_connector_id":null},"split":1},{"connector":{"connector":"b\"","merchant_connector_id":null},"split":1}],"type":"volume_split"},"metadata":{},"rules":[]}
3 refused convert 1 default <- text <- {"defaultSelection":{"data":[{"connector":{"connector":"a","merchant_connector_id":"\""},"split":1}],"type":"volume_split"},"metadata":{},"rules":[{"connectorSelection":{"type":"none"},"name":"r\"","statements":[]}]}
0 = {"defaultSelection":{"data":[{"connector":{"connector":"a","merchant_connector_id":"\""},"split":1}],"type":"volume_split"},"metadata":{},"rules":[{"connectorSelection":{"type":"none"},"name":"r\"","statements":[]}]}^ <- json <- {"defaultSelection":{"data":[{"connector":{"connector":"a","merchant_connector_id":"\""},"split":1}],"type":"volume_split"},"metadata":{},"rules":[{"connectorSelection":{"type":"none"},"name":"r\"","statements":[]}]}
3 refused convert 1 0 <- text <- {"defaultSelection":{"type":"none"},"metadata":{},"rules":[{"connectorSelection":{"type":"none"},"name":"r\"","statements":[]}]}
0 = {"defaultSelection":{"type":"none"},"metadata":{},"rules":[{"connectorSelection":{"type":"none"},"name":"r\"","statements":[]}]}^ <- json <- {"defaultSelection":{"type":"none"},"metadata":{},"rules":[{"connectorSelection":{"type":"none"},"name":"r\"","statements":[]}]}
3 refused convert 1 0 <- text <- {"defaultSelection":{"type":"none"},"metadata":{},"rules":[{"connectorSelection":{"type":"none"},"name":"r\n","statements":[]}]}
0 = {"defaultSelection":{"type":"none"},"metadata":{},"rules":[{"connectorSelection":{"type":"none"},"name":"r\n","statements":[]}]}^ <- json <- {"defaultSelection":{"type":"none"},"metadata":{},"rules":[{"connectorSelection":{"type":"none"},"name":"r\n","statements":[]}]}
3 refused convert 1 0 <- text <- {"defaultSelection":{"type":"none"},"metadata":{},"rules":[{"connectorSelection":{"data":[{"connector":"a\"","merchant_connector_id":null}],"type":"priority"},"name":"r","statements":[]}]}
0 = {"defaultSelection":{"type":"none"},"metadata":{},"rules":[{"connectorSelection":{"data":[{"connector":"a\"","merchant_connector_id":null}],"type":"priority"},"name":"r","statements":[]}]}^ <- json <- {"defaultSelection":{"type":"none"},"metadata":{},"rules":[{"connectorSelection":{"data":[{"connector":"a\"","merchant_connector_id":null}],"type":"priority"},"name":"r","statements":[]}]}
3 refused convert 1 0 <- text <- {"defaultSelection":{"type":"none"},"metadata":{},"rules":[{"connectorSelection":{"type":"none"},"name":"r","statements":[{"condition":[],"nested":null}]}]}
0 = {"defaultSelection":{"type":"none"},"metadata":{},"rules":[{"connectorSelection":{"type":"none"},"name":"r","statements":[{"condition":[],"nested":null}]}]}^ <- json <- {"defaultSelection":{"type":"none"},"metadata":{},"rules":[{"connectorSelection":{"type":"none"},"name":"r","statements":[{"condition":[],"nested":null}]}]}
3 refused convert 1 0 <- text <- {"defaultSelection":{"type":"none"},"metadata":{},"rules":[{"connectorSelection":{"type":"none"},"name":"r","statements":[{"condition":[{"comparison":"equal","lhs":"amount","metadata":{},"value":{"type":"number","value":1}}],"nested":[]}]}]}
0 = {"defaultSelection":{"type":"none"},"metadata":{},"rules":[{"connectorSelection":{"type":"none"},"name":"r","statements":[{"condition":[{"comparison":"equal","lhs":"amount","metadata":{},"value":{"type":"number","value":1}}],"nested":[]}]}]}^ <- json <- {"defaultSelection":{"type":"none"},"metadata":{},"rules":[{"connectorSelection":{"type":"none"},"name":"r","statements":[{"condition":[{"comparison":"equal","lhs":"amount","metadata":{},"value":{"type":"number","value":1}}],"nested":[]}]}]}
3 refused convert 1 0 <- text <- {"defaultSelection":{"type":"none"},"metadata":{},"rules":[{"connectorSelection":{"type":"none"},"name":"r","statements":[{"condition":[{"comparison":"equal","lhs":"amount","metadata":{},"value":{"type":"number","value":1}}],"nested":[{"condition":[{"comparison":"equal","lhs":"amount","metadata":{},"value":{"type":"number","value":1}}],"nested":[{"condition":[],"nested":null}]}]}]}]}
0 = {"defaultSelection":{"type":"none"},"metadata":{},"rules":[{"connectorSelection":{"type":"none"},"name":"r","statements":[{"condition":[{"comparison":"equal","lhs":"amount","metadata":{},"value":{"type":"number","value":1}}],"nested":[{"condition":[{"comparison":"equal","lhs":"amount","metadata":{},"value":{"type":"number","value":1}}],"nested":[{"condition":[],"nested":null}]}]}]}]}^ <- json <- {"defaultSelection":{"type":"none"},"metadata":{},"rules":[{"connectorSelection":{"type":"none"},"name":"r","statements":[{"condition":[{"comparison":"equal","lhs":"amount","metadata":{},"value":{"type":"number","value":1}}],"nested":[{"condition":[{"comparison":"equal","lhs":"amount","metadata":{},"value":{"type":"number","value":1}}],"nested":[{"condition":[],"nested":null}]}]}]}]}
3 refused convert 1 0 <- text <- {"defaultSelection":{"type":"none"},"metadata":{},"rules":[{"connectorSelection":{"type":"none"},"name":"r","statements":[{"condition":[{"comparison":"equal","lhs":"amount","metadata":{},"value":{"type":"number","value":1}}],"nested":null},{"condition":[{"comparison":"equal","lhs":"amount","metadata":{},"value":{"type":"number_array","value":[]}}],"nested":null}]}]}
0 = {"defaultSelection":{"type":"none"},"metadata":{},"rules":[{"connectorSelection":{"type":"none"},"name":"r","statements":[{"condition":[{"comparison":"equal","lhs":"amount","metadata":{},"value":{"type":"number","value":1}}],"nested":null},{"condition":[{"comparison":"equal","lhs":"amount","metadata":{},"value":{"type":"number_array","value":[]}}],"nested":null}]}]}^ <- json <- {"defaultSelection":{"type":"none"},"metadata":{},"rules":[{"connectorSelection":{"type":"none"},"name":"r","statements":[{"condition":[{"comparison":"equal","lhs":"amount","metadata":{},"value":{"type":"number","value":1}}],"nested":null},{"condition":[{"comparison":"equal","lhs":"amount","metadata":{},"value":{"type":"number_array","value":[]}}],"nested":null}]}]}
3 refused convert 1 0 <- text <- {"defaultSelection":{"type":"none"},"metadata":{},"rules":[{"connectorSelection":{"type":"none"},"name":"r","statements":[{"condition":[{"comparison":"equal","lhs":"amount","metadata":{},"value":{"type":"number","value":1}}],"nested":null},{"condition":[{"comparison":"equal","lhs":"amount","metadata":{},"value":{"type":"enum_variant_array","value":[]}}],"nested":null}]}]}
0 = {"defaultSelection":{"type":"none"},"metadata":{},"rules":[{"connectorSelection":{"type":"none"},"name":"r","statements":[{"condition":[{"comparison":"equal","lhs":"amount","metadata":{},"value":{"type":"number","value":1}}],"nested":null},{"condition":[{"comparison":"equal","lhs":"amount","metadata":{},"value":{"type":"enum_variant_array","value":[]}}],"nested":null}]}]}^ <- json <- {"defaultSelection":{"type":"none"},"metadata":{},"rules":[{"connectorSelection":{"type":"none"},"name":"r","statements":[{"condition":[{"comparison":"equal","lhs":"amount","metadata":{},"value":{"type":"number","value":1}}],"nested":null},{"condition":[{"comparison":"equal","lhs":"amount","metadata":{},"value":{"type":"enum_variant_array","value":[]}}],"nested":null}]}]}
3 refused convert 1 0 <- text <- {"defaultSelection":{"type":"none"},"metadata":{},"rules":[{"connectorSelection":{"type":"none"},"name":"r","statements":[{"condition":[{"comparison":"equal","lhs":"amount","metadata":{},"value":{"type":"number","value":1}}],"nested":null},{"condition":[{"comparison":"equal","lhs":"amount","metadata":{},"value":{"type":"number_comparison_array","value":[]}}],"nested":null}]}]}
0 = {"defaultSelection":{"type":"none"},"metadata":{},"rules":[{"connectorSelection":{"type":"none"},"name":"r","statements":[{"condition":[{"comparison":"equal","lhs":"amount","metadata":{},"value":{"type":"number","value":1}}],"nested":null},{"condition":[{"comparison":"equal","lhs":"amount","metadata":{},"value":{"type":"number_comparison_array","value":[]}}],"nested":null}]}]}^ <- json <- {"defaultSelection":{"type":"none"},"metadata":{},"rules":[{"connectorSelection":{"type":"none"},"name":"r","statements":[{"condition":[{"comparison":"equal","lhs":"amount","metadata":{},"value":{"type":"number","value":1}}],"nested":null},{"condition":[{"comparison":"equal","lhs":"amount","metadata":{},"value":{"type":"number_comparison_array","value":[]}}],"nested":null}]}]}
3 refused convert 1 0 <- text <- {"defaultSelection":{"type":"none"},"metadata":{},"rules":[{"connectorSelection":{"type":"none"},"name":"r","statements":[{"condition":[{"comparison":"equal","lhs":"amount","metadata":{},"value":{"type":"number","value":1}}],"nested":null},{"condition":[{"comparison":"equal","lhs":"amount","metadata":{},"value":{"type":"str_value","value":"\""}}],"nested":null}]}]}
0 = {"defaultSelection":{"type":"none"},"metadata":{},"rules":[{"connectorSelection":{"type":"none"},"name":"r","statements":[{"condition":[{"comparison":"equal","lhs":"amount","metadata":{},"value":{"type":"number","value":1}}],"nested":null},{"condition":[{"comparison":"equal","lhs":"amount","metadata":{},"value":{"type":"str_value","value":"\""}}],"nested":null}]}]}^ <- json <- {"defaultSelection":{"type":"none"},"metadata":{},"rules":[{"connectorSelection":{"type":"none"},"name":"r","statements":[{"condition":[{"comparison":"equal","lhs":"amount","metadata":{},"value":{"type":"number","value":1}}],"nested":null},{"condition":[{"comparison":"equal","lhs":"amount","metadata":{},"value":{"type":"str_value","value":"\""}}],"nested":null}]}]}
3 refused convert 1 0 <- text <- {"defaultSelection":{"type":"none"},"metadata":{},"rules":[{"connectorSelection":{"type":"none"},"name":"r","statements":[{"condition":[{"comparison":"equal","lhs":"amount","metadata":{},"value":{"type":"number","value":1}}],"nested":null},{"condition":[{"comparison":"equal","lhs":"amount","metadata":{},"value":{"type":"str_value","value":"a\nb"}}],"nested":null}]}]}
0 = {"defaultSelection":{"type":"none"},"metadata":{},"rules":[{"connectorSelection":{"type":"none"},"name":"r","statements":[{"condition":[{"comparison":"equal","lhs":"amount","metadata":{},"value":{"type":"number","value":1}}],"nested":null},{"condition":[{"comparison":"equal","lhs":"amount","metadata":{},"value":{"type":"str_value","value":"a\nb"}}],"nested":null}]}]}^ <- json <- {"defaultSelection":{"type":"none"},"metadata":{},"rules":[{"connectorSelection":{"type":"none"},"name":"r","statements":[{"condition":[{"comparison":"equal","lhs":"amount","metadata":{},"value":{"type":"number","value":1}}],"nested":null},{"condition":[{"comparison":"equal","lhs":"amount","metadata":{},"value":{"type":"str_value","value":"a\nb"}}],"nested":null}]}]}
3 refused convert 1 0 <- text <- {"defaultSelection":{"type":"none"},"metadata":{},"rules":[{"connectorSelection":{"type":"none"},"name":"r","statements":[{"condition":[{"comparison":"equal","lhs":"amount","metadata":{},"value":{"type":"number","value":1}}],"nested":null},{"condition":[{"comparison":"equal","lhs":"amount","metadata":{},"value":{"type":"metadata_variant","value":{"key":"\"","value":"a"}}}],"nested":null}]}]}
0 = {"defaultSelection":{"type":"none"},"metadata":{},"rules":[{"connectorSelection":{"type":"none"},"name":"r","statements":[{"condition":[{"comparison":"equal","lhs":"amount","metadata":{},"value":{"type":"number","value":1}}],"nested":null},{"condition":[{"comparison":"equal","lhs":"amount","metadata":{},"value":{"type":"metadata_variant","value":{"key":"\"","value":"a"}}}],"nested":null}]}]}^ <- json <- {"defaultSelection":{"type":"none"},"metadata":{},"rules":[{"connectorSelection":{"type":"none"},"name":"r","statements":[{"condition":[{"comparison":"equal","lhs":"amount","metadata":{},"value":{"type":"number","value":1}}],"nested":null},{"condition":[{"comparison":"equal","lhs":"amount","metadata":{},"value":{"type":"metadata_variant","value":{"key":"\"","value":"a"}}}],"nested":null}]}]}
3 refused convert 1 0 <- text <- {"defaultSelection":{"type":"none"},"metadata":{},"rules":[{"connectorSelection":{"type":"none"},"name":"r","statements":[{"condition":[{"comparison":"equal","lhs":"amount","metadata":{},"value":{"type":"number","value":1}}],"nested":null},{"condition":[{"comparison":"equal","lhs":"amount","metadata":{},"value":{"type":"metadata_variant","value":{"key":"a","value":"\n"}}}],"nested":null}]}]}
0 = {"defaultSelection":{"type":"none"},"metadata":{},"rules":[{"connectorSelection":{"type":"none"},"name":"r","statements":[{"condition":[{"comparison":"equal","lhs":"amount","metadata":{},"value":{"type":"number","value":1}}],"nested":null},{"condition":[{"comparison":"equal","lhs":"amount","metadata":{},"value":{"type":"metadata_variant","value":{"key":"a","value":"\n"}}}],"nested":null}]}]}^ <- json <- {"defaultSelection":{"type":"none"},"metadata":{},"rules":[{"connectorSelection":{"type":"none"},"name":"r","statements":[{"condition":[{"comparison":"equal","lhs":"amount","metadata":{},"value":{"type":"number","value":1}}],"nested":null},{"condition":[{"comparison":"equal","lhs":"amount","metadata":{},"value":{"type":"metadata_variant","value":{"key":"a","value":"\n"}}}],"nested":null}]}]}
3 refused convert 1 0 <- text <- {"defaultSelection":{"type":"none"},"metadata":{},"rules":[{"connectorSelection":{"type":"none"},"name":"r","statements":[{"condition":[{"comparison":"equal","lhs":"amount","metadata":{},"value":{"type":"number","value":1}}],"nested":null},{"condition":[{"comparison":"equal","lhs":"amount","metadata":{},"value":{"type":"enum_variant","value":""}}],"nested":null}]}]}
0 = {"defaultSelection":{"type":"none"},"metadata":{},"rules":[{"connectorSelection":{"type":"none"},"name":"r","statements":[{"condition":[{"comparison":"equal","lhs":"amount","metadata":{},"value":{"type":"number","value":1}}],"nested":null},{"condition":[{"comparison":"equal","lhs":"amount","metadata":{},"value":{"type":"enum_variant","value":""}}],"nested":null}]}]}^ <- json <- {"defaultSelection":{"type":"none"},"metadata":{},"rules":[{"connectorSelection":{"type":"none"},"name":"r","statements":[{"condition":[{"comparison":"equal","lhs":"amount","metadata":{},"value":{"type":"number","value":1}}],"nested":null},{"condition":[{"comparison":"equal","lhs":"amount","metadata":{},"value":{"type":"enum_variant","value":""}}],"nested":null}]}]}
3 refused convert 1 0 <- text <- {"defaultSelection":{"type":"none"},"metadata":{},"rules":[{"connectorSelection":{"type":"none"},"name":"r","statements":[{"condition":[{"comparison":"equal","lhs":"amount","metadata":{},"value":{"type":"number","value":1}}],"nested":null},{"condition":[{"comparison":"equal","lhs":"amount","metadata":{},"value":{"type":"enum_variant","value":"a b"}}],"nested":null}]}]}
0 = {"defaultSelection":{"type":"none"},"metadata":{},"rules":[{"connectorSelection":{"type":"none"},"name":"r","statements":[{"condition":[{"comparison":"equal","lhs":"amount","metadata":{},"value":{"type":"number","value":1}}],"nested":null},{"condition":[{"comparison":"equal","lhs":"amount","metadata":{},"value":{"type":"enum_variant","value":"a b"}}],"nested":null}]}]}^ <- json <- {"defaultSelection":{"type":"none"},"metadata":{},"rules":[{"connectorSelection":{"type":"none"},"name":"r","statements":[{"condition":[{"comparison":"equal","lhs":"amount","metadata":{},"value":{"type":"number","value":1}}],"nested":null},{"condition":[{"comparison":"equal","lhs":"amount","metadata":{},"value":{"type":"enum_variant","value":"a b"}}],"nested":null}]}]}
3 refused convert 1 0 <- text <- {"defaultSelection":{"type":"none"},"metadata":{},"rules":[{"connectorSelection":{"type":"none"},"name":"r","statements":[{"condition":[{"comparison":"equal","lhs":"amount","metadata":{},"value":{"type":"number","value":1}}],"nested":null},{"condition":[{"comparison":"equal","lhs":"amount","metadata":{},"value":{"type":"enum_variant","value":"9a"}}],"nested":null}]}]}
0 = {"defaultSelection":{"type":"none"},"metadata":{},"rules":[{"connectorSelection":{"type":"none"},"name":"r","statements":[{"condition":[{"comparison":"equal","lhs":"amount","metadata":{},"value":{"type":"number","value":1}}],"nested":null},{"condition":[{"comparison":"equal","lhs":"amount","metadata":{},"value":{"type":"enum_variant","value":"9a"}}],"nested":null}]}]}^ <- json <- {"defaultSelection":{"type":"none"},"metadata":{},"rules":[{"connectorSelection":{"type":"none"},"name":"r","statements":[{"condition":[{"comparison":"equal","lhs":"amount","metadata":{},"value":{"type":"number","value":1}}],"nested":null},{"condition":[{"comparison":"equal","lhs":"amount","metadata":{},"value":{"type":"enum_variant","value":"9a"}}],"nested":null}]}]}
3 refused convert 1 0 <- text <- {"defaultSelection":{"type":"none"},"metadata":{},"rules":[{"connectorSelection":{"type":"none"},"name":"r","statements":[{"condition":[{"comparison":"equal","lhs":"amount","metadata":{},"value":{"type":"number","value":1}}],"nested":null},{"condition":[{"comparison":"equal","lhs":"amount","metadata":{},"value":{"type":"enum_variant","value":"é"}}],"nested":null}]}]}
0 = {"defaultSelection":{"type":"none"},"metadata":{},"rules":[{"connectorSelection":{"type":"none"},"name":"r","statements":[{"condition":[{"comparison":"equal","lhs":"amount","metadata":{},"value":{"type":"number","value":1}}],"nested":null},{"condition":[{"comparison":"equal","lhs":"amount","metadata":{},"value":{"type":"enum_variant","value":"é"}}],"nested":null}]}]}^ <- json <- {"defaultSelection":{"type":"none"},"metadata":{},"rules":[{"connectorSelection":{"type":"none"},"name":"r","statements":[{"condition":[{"comparison":"equal","lhs":"amount","metadata":{},"value":{"type":"number","value":1}}],"nested":null},{"condition":[{"comparison":"equal","lhs":"amount","metadata":{},"value":{"type":"enum_variant","value":"é"}}],"nested":null}]}]}
3 refused convert 1 0 <- text <- {"defaultSelection":{"type":"none"},"metadata":{},"rules":[{"connectorSelection":{"type":"none"},"name":"r","statements":[{"condition":[{"comparison":"equal","lhs":"amount","metadata":{},"value":{"type":"number","value":1}}],"nested":null},{"condition":[{"comparison":"equal","lhs":"amount","metadata":{},"value":{"type":"enum_variant_array","value":["a","a-b"]}}],"nested":null}]}]}
0 = {"defaultSelection":{"type":"none"},"metadata":{},"rules":[{"connectorSelection":{"type":"none"},"name":"r","statements":[{"condition":[{"comparison":"equal","lhs":"amount","metadata":{},"value":{"type":"number","value":1}}],"nested":null},{"condition":[{"comparison":"equal","lhs":"amount","metadata":{},"value":{"type":"enum_variant_array","value":["a","a-b"]}}],"nested":null}]}]}^ <- json <- {"defaultSelection":{"type":"none"},"metadata":{},"rules":[{"connectorSelection":{"type":"none"},"name":"r","statements":[{"condition":[{"comparison":"equal","lhs":"amount","metadata":{},"value":{"type":"number","value":1}}],"nested":null},{"condition":[{"comparison":"equal","lhs":"amount","metadata":{},"value":{"type":"enum_variant_array","value":["a","a-b"]}}],"nested":null}]}]}
3 refused convert 1 0 <- text <- {"defaultSelection":{"type":"none"},"metadata":{},"rules":[{"connectorSelection":{"type":"none"},"name":"r","statements":[{"condition":[{"comparison":"equal","lhs":"amount","metadata":{},"value":{"type":"number","value":1}}],"nested":null},{"condition":[{"comparison":"equal","lhs":"","metadata":{},"value":{"type":"number","value":1}}],"nested":null}]}]}
0 = {"defaultSelection":{"type":"none"},"metadata":{},"rules":[{"connectorSelection":{"type":"none"},"name":"r","statements":[{"condition":[{"comparison":"equal","lhs":"amount","metadata":{},"value":{"type":"number","value":1}}],"nested":null},{"condition":[{"comparison":"equal","lhs":"","metadata":{},"value":{"type":"number","value":1}}],"nested":null}]}]}^ <- json <- {"defaultSelection":{"type":"none"},"metadata":{},"rules":[{"connectorSelection":{"type":"none"},"name":"r","statements":[{"condition":[{"comparison":"equal","lhs":"amount","metadata":{},"value":{"type":"number","value":1}}],"nested":null},{"condition":[{"comparison":"equal","lhs":"","metadata":{},"value":{"type":"number","value":1}}],"nested":null}]}]}
3 refused convert 1 0 <- text <- {"defaultSelection":{"type":"none"},"metadata":{},"rules":[{"connectorSelection":{"type":"none"},"name":"r","statements":[{"condition":[{"comparison":"equal","lhs":"amount","metadata":{},"value":{"type":"number","value":1}}],"nested":null},{"condition":[{"comparison":"equal","lhs":"a b","metadata":{},"value":{"type":"number","value":1}}],"nested":null}]}]}
0 = {"defaultSelection":{"type":"none"},"metadata":{},"rules":[{"connectorSelection":{"type":"none"},"name":"r","statements":[{"condition":[{"comparison":"equal","lhs":"amount","metadata":{},"value":{"type":"number","value":1}}],"nested":null},{"condition":[{"comparison":"equal","lhs":"a b","metadata":{},"value":{"type":"number","value":1}}],"nested":null}]}]}^ <- json <- {"defaultSelection":{"type":"none"},"metadata":{},"rules":[{"connectorSelection":{"type":"none"},"name":"r","statements":[{"condition":[{"comparison":"equal","lhs":"amount","metadata":{},"value":{"type":"number","value":1}}],"nested":null},{"condition":[{"comparison":"equal","lhs":"a b","metadata":{},"value":{"type":"number","value":1}}],"nested":null}]}]}
3 refused convert 1 0 <- text <- {"defaultSelection":{"type":"none"},"metadata":{},"rules":[{"connectorSelection":{"type":"none"},"name":"r","statements":[{"condition":[{"comparison":"equal","lhs":"amount","metadata":{},"value":{"type":"number","value":1}}],"nested":null},{"condition":[{"comparison":"equal","lhs":"9","metadata":{},"value":{"type":"number","value":1}}],"nested":null}]}]}
0 = {"defaultSelection":{"type":"none"},"metadata":{},"rules":[{"connectorSelection":{"type":"none"},"name":"r","statements":[{"condition":[{"comparison":"equal","lhs":"amount","metadata":{},"value":{"type":"number","value":1}}],"nested":null},{"condition":[{"comparison":"equal","lhs":"9","metadata":{},"value":{"type":"number","value":1}}],"nested":null}]}]}^ <- json <- {"defaultSelection":{"type":"none"},"metadata":{},"rules":[{"connectorSelection":{"type":"none"},"name":"r","statements":[{"condition":[{"comparison":"equal","lhs":"amount","metadata":{},"value":{"type":"number","value":1}}],"nested":null},{"condition":[{"comparison":"equal","lhs":"9","metadata":{},"value":{"type":"number","value":1}}],"nested":null}]}]}
3 refused convert 1 0 <- text <- {"defaultSelection":{"type":"none"},"metadata":{},"rules":[{"connectorSelection":{"type":"none"},"name":"r","statements":[{"condition":[{"comparison":"equal","lhs":"amount","metadata":{},"value":{"type":"number","value":1}}],"nested":null},{"condition":[{"comparison":"equal","lhs":"a.b","metadata":{},"value":{"type":"number","value":1}}],"nested":null}]}]}
0 = {"defaultSelection":{"type":"none"},"metadata":{},"rules":[{"connectorSelection":{"type":"none"},"name":"r","statements":[{"condition":[{"comparison":"equal","lhs":"amount","metadata":{},"value":{"type":"number","value":1}}],"nested":null},{"condition":[{"comparison":"equal","lhs":"a.b","metadata":{},"value":{"type":"number","value":1}}],"nested":null}]}]}^ <- json <- {"defaultSelection":{"type":"none"},"metadata":{},"rules":[{"connectorSelection":{"type":"none"},"name":"r","statements":[{"condition":[{"comparison":"equal","lhs":"amount","metadata":{},"value":{"type":"number","value":1}}],"nested":null},{"condition":[{"comparison":"equal","lhs":"a.b","metadata":{},"value":{"type":"number","value":1}}],"nested":null}]}]}
3 refused convert 1 0 <- text <- {"defaultSelection":{"type":"none"},"metadata":{},"rules":[{"connectorSelection":{"type":"none"},"name":"r","statements":[{"condition":[{"comparison":"equal","lhs":"amount","metadata":{},"value":{"type":"number","value":1}}],"nested":null},{"condition":[{"comparison":"equal","lhs":"é","metadata":{},"value":{"type":"number","value":1}}],"nested":null}]}]}
0 = {"defaultSelection":{"type":"none"},"metadata":{},"rules":[{"connectorSelection":{"type":"none"},"name":"r","statements":[{"condition":[{"comparison":"equal","lhs":"amount","metadata":{},"value":{"type":"number","value":1}}],"nested":null},{"condition":[{"comparison":"equal","lhs":"é","metadata":{},"value":{"type":"number","value":1}}],"nested":null}]}]}^ <- json <- {"defaultSelection":{"type":"none"},"metadata":{},"rules":[{"connectorSelection":{"type":"none"},"name":"r","statements":[{"condition":[{"comparison":"equal","lhs":"amount","metadata":{},"value":{"type":"number","value":1}}],"nested":null},{"condition":[{"comparison":"equal","lhs":"é","metadata":{},"value":{"type":"number","value":1}}],"nested":null}]}]}
3 refused convert 1 3 <- text <- {"defaultSelection":{"type":"none"},"metadata":{},"rules":[{"connectorSelection":{"type":"none"},"name":"r","statements":[{"condition":[{"comparison":"equal","lhs":"amount","metadata":{},"value":{"type":"number","value":1}}],"nested":null}]},{"connectorSelection":{"type":"none"},"name":"r","statements":[{"condition":[{"comparison":"equal","lhs":"amount","metadata":{},"value":{"type":"number","value":1}}],"nested":null}]},{"connectorSelection":{"type":"none"},"name":"r","statements":[{"condition":[{"comparison":"equal","lhs":"amount","metadata":{},"value":{"type":"number","value":1}}],"nested":null}]},{"connectorSelection":{"type":"none"},"name":"r","statements":[{"condition":[],"nested":null}]}]}
0 = {"defaultSelection":{"type":"none"},"metadata":{},"rules":[{"connectorSelection":{"type":"none"},"name":"r","statements":[{"condition":[{"comparison":"equal","lhs":"amount","metadata":{},"value":{"type":"number","value":1}}],"nested":null}]},{"connectorSelection":{"type":"none"},"name":"r","statements":[{"condition":[{"comparison":"equal","lhs":"amount","metadata":{},"value":{"type":"number","value":1}}],"nested":null}]},{"connectorSelection":{"type":"none"},"name":"r","statements":[{"condition":[{"comparison":"equal","lhs":"amount","metadata":{},"value":{"type":"number","value":1}}],"nested":null}]},{"connectorSelection":{"type":"none"},"name":"r","statements":[{"condition":[],"nested":null}]}]}^ <- json <- {"defaultSelection":{"type":"none"},"metadata":{},"rules":[{"connectorSelection":{"type":"none"},"name":"r","statements":[{"condition":[{"comparison":"equal","lhs":"amount","metadata":{},"value":{"type":"number","value":1}}],"nested":null}]},{"connectorSelection":{"type":"none"},"name":"r","statements":[{"condition":[{"comparison":"equal","lhs":"amount","metadata":{},"value":{"type":"number","value":1}}],"nested":null}]},{"connectorSelection":{"type":"none"},"name":"r","statements":[{"condition":[{"comparison":"equal","lhs":"amount","metadata":{},"value":{"type":"number","value":1}}],"nested":null}]},{"connectorSelection":{"type":"none"},"name":"r","statements":[{"condition":[],"nested":null}]}]}
3 refused convert 1 1 <- text <- {"defaultSelection":{"type":"none"},"metadata":{},"rules":[{"connectorSelection":{"type":"none"},"name":"r","statements":[{"condition":[{"comparison":"equal","lhs":"amount","metadata":{},"value":{"type":"number","value":1}}],"nested":null}]},{"connectorSelection":{"type":"none"},"name":"r","statements":[{"condition":[],"nested":null}]},{"connectorSelection":{"type":"none"},"name":"r","statements":[{"condition":[{"comparison":"equal","lhs":"amount","metadata":{},"value":{"type":"number","value":1}}],"nested":null}]},{"connectorSelection":{"type":"none"},"name":"r\"","statements":[]}]}
0 = {"defaultSelection":{"type":"none"},"metadata":{},"rules":[{"connectorSelection":{"type":"none"},"name":"r","statements":[{"condition":[{"comparison":"equal","lhs":"amount","metadata":{},"value":{"type":"number","value":1}}],"nested":null}]},{"connectorSelection":{"type":"none"},"name":"r","statements":[{"condition":[],"nested":null}]},{"connectorSelection":{"type":"none"},"name":"r","statements":[{"condition":[{"comparison":"equal","lhs":"amount","metadata":{},"value":{"type":"number","value":1}}],"nested":null}]},{"connectorSelection":{"type":"none"},"name":"r\"","statements":[]}]}^ <- json <- {"defaultSelection":{"type":"none"},"metadata":{},"rules":[{"connectorSelection":{"type":"none"},"name":"r","statements":[{"condition":[{"comparison":"equal","lhs":"amount","metadata":{},"value":{"type":"number","value":1}}],"nested":null}]},{"connectorSelection":{"type":"none"},"name":"r","statements":[{"condition":[],"nested":null}]},{"connectorSelection":{"type":"none"},"name":"r","statements":[{"condition":[{"comparison":"equal","lhs":"amount","metadata":{},"value":{"type":"number","value":1}}],"nested":null}]},{"connectorSelection":{"type":"none"},"name":"r\"","statements":[]}]}
3 refused convert 1 255 <- text <- {"defaultSelection":{"type":"none"},"metadata":{},"rules":[|255*{"connectorSelection":{"type":"none"},"name":"r","statements":[]},|{"connectorSelection":{"type":"none"},"name":"\"","statements":[]}]}
0 = {"defaultSelection":{"type":"none"},"metadata":{},"rules":[|255*{"connectorSelection":{"type":"none"},"name":"r","statements":[]},|{"connectorSelection":{"type":"none"},"name":"\"","statements":[]}]}^ <- json <- {"defaultSelection":{"type":"none"},"metadata":{},"rules":[|255*{"connectorSelection":{"type":"none"},"name":"r","statements":[]},|{"connectorSelection":{"type":"none"},"name":"\"","statements":[]}]}
3 refused program text 6 8 <- json <- default none
3 refused program text 4 1 <- text <- a`
3 refused program json 2 "/defaultSelection" <- text <- {}"##;

// A program of which each front up to a `~` is refused at its end, and each up to a `?` is a program.
const FRONTS: &str =
    r#"default~:~ [~"stripe"~ @~ "mca_1"~]?^"big card"~:~ [~"adyen"~ @~ "mca_2"~,~ "stripe"~ @~ "mca_1"~]~ {~^  payment_method~ =~ card~ &~ amount~ >~ 100000~ {~^    currency~ =~ (~USD~,~ EUR~)~^    metadata~ =~ "tier"~ :~ "gold"~^  }~^}?^"split"~:~ split~ [~"stripe"~ @~ "mca_1"~ %~ 60~,~ "adyen"~ @~ "mca_2"~ %~ 40~]~ {~^  payment_method~ =~ card~ &~ card_network~ /=~ Visa~^}?^"wallets"~:~ [~"paypal"~]~ {~^  payment_method~ =~ (~wallet~,~ pay_later~)~^}?"#;

// The keys of CERTIFICATES.
const CERTIFICATE_KEYS: &str =
    r#"key = [{ name = "m", kind = "enum", variants = ["card", "wallet"] }, { name = "e", kind = "enum", variants = [] }, { name = "n", kind = "number" }, { name = "b", kind = "number", min = 10, max = 20 }, { name = "t", kind = "text" }, { name = "d", kind = "metadata" }]"#;

// Certificates that no payment reaches the default of a program without rules where there is no connector. A section begins with
// a file, in which an `@` stands for what each line that follows has behind its arrow; in front of the arrow stands what `check`
// answers.
const CERTIFICATES: &str = "@^atoms 0^end^
1 rejected 0 <- euclid certificate 1
3 refused certificate 6 1 <- euclid trace 1
3 refused certificate 1 1 <- euclid trace 1|1* |
3 refused certificate 1 1 <- euclid certificate 2
3 refused certificate 1 1 <- euclid certificate 10
3 refused certificate 1 1 <- euclid certificate 01
3 refused certificate 1 1 <- euclid certificate
3 refused certificate 1 1 <- euclid  certificate 1
3 refused certificate 1 1 <- euclid!certificate 1
3 refused certificate 1 1 <-  euclid certificate 1
3 refused certificate 1 1 <- euclid certificate 1|1* |
3 refused certificate 1 1 <- euclid certificate 1'
3 refused certificate 1 1 <- Euclid certificate 1
3 refused certificate 1 1 <- euclid Certificate 1
3 refused certificate 1 1 <- euclid trace 2
3 refused certificate 1 1 <- |0*x|
3 refused certificate 1 1 <- certificate 1
3 refused certificate 1 1 <- ﻿euclid certificate 1
3 refused certificate 1 1 <- ^euclid certificate 1
3 refused certificate 1 2 <- euclid certificate 1^euclid certificate 1
===
euclid certificate 1^@^end^
1 rejected 0 <- atoms 0
3 refused certificate 1 2 <- atoms 00
3 refused certificate 1 2 <- atoms -0
3 refused certificate 1 2 <- atoms +0
3 refused certificate 1 2 <- atoms 0|1* |
3 refused certificate 1 2 <-  atoms 0
3 refused certificate 1 2 <- atoms  0
3 refused certificate 1 2 <- atoms!0
3 refused certificate 1 2 <- atoms 0'
3 refused certificate 1 2 <- atoms
3 refused certificate 1 2 <- atoms|1* |
3 refused certificate 1 2 <- Atoms 0
3 refused certificate 1 2 <- atom 0
3 refused certificate 1 2 <- atoms 0x0
3 refused certificate 1 2 <- atoms ０
3 refused certificate 1 2 <- atoms -1
3 refused certificate 5 2 <- atoms 65537
3 refused certificate 5 2 <- atoms 4294967295
3 refused certificate 1 2 <- atoms 4294967296
3 refused certificate 1 2 <- atoms 18446744073709551616
3 refused certificate 1 2 <- |0*x|
3 refused certificate 1 3 <- atoms 1
3 refused certificate 1 3 <- atoms 1^end
3 refused certificate 1 2 <- end
3 refused certificate 1 2 <- goal
3 refused certificate 1 3 <- atoms 0^atoms 0
1 rejected 0 <- atoms 1^m - any
3 refused certificate 1 4 <- atoms 2^m - any
3 refused certificate 1 4 <- atoms 1^m - any^m - any
===
euclid certificate 1^atoms 1^@^goal^end^
0 accepted <- m - any v:card
0 accepted <- m - none v:card
0 accepted <- m - any
0 accepted <- m - none
0 accepted <- e - any
0 accepted <- e - none
0 accepted <- m - any v:card v:card
0 accepted <- m - any v:card v:wallet
0 accepted <- n - any eq:1
0 accepted <- n - any eq:1 ne:1 lt:1 le:1 gt:1 ge:1
3 refused certificate 1 3 <- m  - any v:card
3 refused certificate 1 3 <- m -  any v:card
3 refused certificate 1 3 <- m - any  v:card
3 refused certificate 1 3 <- m - any v:card|1* |
3 refused certificate 1 3 <- m - any|1* |
3 refused certificate 1 3 <-  m - any
3 refused certificate 1 3 <- m!- any
3 refused certificate 1 3 <- m - any!v:card
3 refused certificate 1 3 <- m - any'
3 refused certificate 1 3 <- m - any v:card'
3 refused certificate 1 3 <- m - any v: card
3 refused certificate 1 3 <- m -any
3 refused certificate 1 3 <- m- any
3 refused certificate 1 3 <- m - anyv:card
3 refused certificate 1 3 <- |0*x|
3 refused certificate 1 3 <- m
3 refused certificate 1 3 <- m|1* |
3 refused certificate 1 3 <- m -
3 refused certificate 1 3 <- m -|1* |
3 refused certificate 1 3 <- m any
3 refused certificate 1 3 <- m v:card
3 refused certificate 1 3 <- any
3 refused certificate 1 3 <- - any
3 refused certificate 2 3 <- M - any
3 refused certificate 2 3 <- mm - any
3 refused certificate 2 3 <- x - any
3 refused certificate 2 3 <- none - any
3 refused certificate 2 3 <- m1 - any
3 refused certificate 1 3 <- 1m - any
3 refused certificate 1 3 <- m.n - any
3 refused certificate 1 3 <- é - any
3 refused certificate 2 3 <- _ - any
3 refused certificate 1 3 <- m-m - any
3 refused certificate 1 3 <- m x - any
3 refused certificate 2 3 <- m x any
3 refused certificate 2 3 <- m x61 any
3 refused certificate 2 3 <- d - any
0 accepted <- d x any
0 accepted <- d x61 any
3 refused certificate 1 3 <- d X61 any
3 refused certificate 1 3 <- d x6 any
3 refused certificate 1 3 <- d x6A any
0 accepted <- d x6a any
3 refused certificate 1 3 <- d x6g any
3 refused certificate 1 3 <- d 61 any
3 refused certificate 1 3 <- d xx61 any
3 refused certificate 1 3 <- d x-61 any
3 refused certificate 1 3 <- d x61-  any
3 refused certificate 2 3 <- d xff any
0 accepted <- d xc3a9 any
3 refused certificate 2 3 <- d xc3 any
3 refused certificate 2 3 <- d xeda080 any
0 accepted <- d x00 any
0 accepted <- d x0a any
0 accepted <- d x20 any
3 refused certificate 1 3 <- d -- any
0 accepted <- d x|255*61| any
3 refused certificate 5 3 <- d x|256*61| any
3 refused certificate 2 3 <- d x|255*ff| any
3 refused certificate 5 3 <- d x|256*ff| any
3 refused certificate 5 3 <- m x|256*61| any
3 refused certificate 2 3 <- n x61 any eq:1
3 refused certificate 2 3 <- t x61 any t:61
3 refused certificate 1 3 <- m - Any
3 refused certificate 1 3 <- m - all
3 refused certificate 1 3 <- m - non
3 refused certificate 1 3 <- m - none_of
3 refused certificate 1 3 <- m - nones
3 refused certificate 1 3 <- m - anyany
3 refused certificate 1 3 <- m - any none
3 refused certificate 1 3 <- m - v:card any
3 refused certificate 1 3 <- m - any v:
3 refused certificate 2 3 <- m - any v:Card
3 refused certificate 2 3 <- m - any v:cash
3 refused certificate 1 3 <- m - any v:card,
3 refused certificate 1 3 <- m - any v:car d
3 refused certificate 1 3 <- m - any V:card
3 refused certificate 1 3 <- m - any v=card
3 refused certificate 1 3 <- m - any card
3 refused certificate 1 3 <- m - any v::card
3 refused certificate 1 3 <- m - any v:1
3 refused certificate 1 3 <- m - any :card
3 refused certificate 2 3 <- e - any v:card
3 refused certificate 2 3 <- n - any v:card
3 refused certificate 2 3 <- t - any v:card
3 refused certificate 2 3 <- d x61 any v:card
3 refused certificate 2 3 <- m - any eq:1
3 refused certificate 2 3 <- m - any t:61
3 refused certificate 2 3 <- m - any v:card t:61
3 refused certificate 1 3 <- m - any v:é
0 accepted <- t - any t:
0 accepted <- t - any t:61
3 refused certificate 1 3 <- t - any t:6
3 refused certificate 1 3 <- t - any t:6A
0 accepted <- t - any t:6a
3 refused certificate 1 3 <- t - any t:6g
3 refused certificate 1 3 <- t - any t:0x61
3 refused certificate 1 3 <- t - any t:a
3 refused certificate 1 3 <- t - any T:61
0 accepted <- t - any t:61 t:61
3 refused certificate 2 3 <- t - any t:ff
0 accepted <- t - any t:c3a9
3 refused certificate 2 3 <- t - any t:c3
0 accepted <- t - any t:00
0 accepted <- t - any t:|255*61|
3 refused certificate 5 3 <- t - any t:|256*61|
0 accepted <- t - any t:|127*c3a9|61
3 refused certificate 5 3 <- t - any t:|128*c3a9|
3 refused certificate 2 3 <- t - any t:|255*ff|
3 refused certificate 5 3 <- t - any t:|256*ff|
0 accepted <- d x61 any t:61
0 accepted <- d x61 any t:
3 refused certificate 2 3 <- d x61 any t:ff
3 refused certificate 2 3 <- d x61 any eq:1
3 refused certificate 2 3 <- t - any eq:1
3 refused certificate 2 3 <- n - any t:61
0 accepted <- t - none t:61
3 refused certificate 1 3 <- t - any t:61x
0 accepted <- n - any eq:0
3 refused certificate 1 3 <- n - any eq:-0
3 refused certificate 1 3 <- n - any eq:+1
3 refused certificate 1 3 <- n - any eq:01
3 refused certificate 1 3 <- n - any eq:-01
3 refused certificate 1 3 <- n - any eq:00
3 refused certificate 1 3 <- n - any eq:
3 refused certificate 1 3 <- n - any eq:-
3 refused certificate 1 3 <- n - any eq: 1
3 refused certificate 1 3 <- n - any eq:1.0
3 refused certificate 1 3 <- n - any eq:1e3
3 refused certificate 1 3 <- n - any eq:0x1
3 refused certificate 1 3 <- n - any eq:１
3 refused certificate 1 3 <- n - any eq:--1
0 accepted <- n - any eq:9223372036854775807
3 refused certificate 1 3 <- n - any eq:9223372036854775808
0 accepted <- n - any eq:-9223372036854775808
3 refused certificate 1 3 <- n - any eq:-9223372036854775809
3 refused certificate 1 3 <- n - any eq:18446744073709551616
3 refused certificate 1 3 <- n - any EQ:1
3 refused certificate 1 3 <- n - any e:1
3 refused certificate 1 3 <- n - any =:1
0 accepted <- n - any gt:1
3 refused certificate 1 3 <- n - any gte:1
3 refused certificate 1 3 <- n - any gt1
0 accepted <- n - any ne:-5
0 accepted <- n - any lt:10
0 accepted <- n - any le:10
0 accepted <- n - any ge:10
0 accepted <- b - any eq:9
0 accepted <- b - any eq:21
0 accepted <- b - none lt:-9223372036854775808
3 refused certificate 1 3 <- n - any gt:0100
3 refused certificate 1 3 <- n - any eq:1,2
0 accepted <- n - any|4096* eq:#|
3 refused certificate 5 3 <- n - any|4097* eq:#|
0 accepted <- m - any|4096* v:card|
3 refused certificate 5 3 <- m - any|4097* v:card|
0 accepted <- t - any|4096* t:|
3 refused certificate 5 3 <- t - any|4097* t:|
3 refused certificate 5 3 <- z - any|4097* eq:1|
3 refused certificate 1 3 <- n - any|4097* eq:01|
3 refused certificate 1 3 <- n - any|4096* eq:1| eq:01
3 refused certificate 5 3 <- z - any t:|256*61|
3 refused certificate 1 3 <- z - any t:6
3 refused certificate 1 3 <- z - any eq:-0
3 refused certificate 1 3 <- m - any v:cash eq:-0
3 refused certificate 5 3 <- d xff any t:|256*61|
3 refused certificate 1 3 <- z x|256*61| all
3 refused certificate 5 3 <- m - any|4097* v:cash|
3 refused certificate 1 3 <- d xff any t:6
3 refused certificate 1 3 <- goal
3 refused certificate 1 3 <- end
3 refused certificate 1 3 <- split 0
3 refused certificate 1 3 <- atoms 1
3 refused certificate 1 3 <- euclid certificate 1
===
euclid certificate 1^atoms 0^@end^
1 rejected 0 <- |0*x|
0 accepted <- goal^
1 rejected 0 <- split 0^
1 rejected 0 <- split 4294967295^
3 refused certificate 1 3 <- split 4294967296^
3 refused certificate 1 3 <- split 4294967300^
3 refused certificate 1 3 <- split 18446744073709551616^
3 refused certificate 1 3 <- split 00^
3 refused certificate 1 3 <- split 01^
3 refused certificate 1 3 <- split -0^
3 refused certificate 1 3 <- split -1^
3 refused certificate 1 3 <- split +1^
3 refused certificate 1 3 <- split 1.0^
3 refused certificate 1 3 <- split 0x1^
3 refused certificate 1 3 <- split a^
3 refused certificate 1 3 <- split^
3 refused certificate 1 3 <- split ^
3 refused certificate 1 3 <- split  1^
3 refused certificate 1 3 <-  split 1^
3 refused certificate 1 3 <- split 1 ^
3 refused certificate 1 3 <- split!1^
3 refused certificate 1 3 <- split 1'^
3 refused certificate 1 3 <- Split 1^
3 refused certificate 1 3 <- splits 1^
3 refused certificate 1 3 <- split1^
3 refused certificate 1 3 <- split 1 2^
3 refused certificate 1 3 <- split １^
1 rejected 0 <- void 0^
1 rejected 0 <- void 4294967295^
3 refused certificate 1 3 <- void 4294967296^
3 refused certificate 1 3 <- void 00^
3 refused certificate 1 3 <- void^
3 refused certificate 1 3 <- void ^
3 refused certificate 1 3 <- void  0^
3 refused certificate 1 3 <- void 0 ^
1 rejected 0 <- want 0^
1 rejected 0 <- want 4294967295^
3 refused certificate 1 3 <- want 4294967296^
3 refused certificate 1 3 <- want 07^
3 refused certificate 1 3 <- want^
3 refused certificate 1 3 <- want -1^
3 refused certificate 1 3 <- want 0'^
1 rejected 0 <- bar 0^
1 rejected 0 <- bar 4294967295^
3 refused certificate 1 3 <- bar 4294967296^
3 refused certificate 1 3 <- bar 00^
3 refused certificate 1 3 <- bar^
3 refused certificate 1 3 <- bars 0^
3 refused certificate 1 3 <- bar 0x^
3 refused certificate 1 3 <- goal ^
3 refused certificate 1 3 <-  goal^
3 refused certificate 1 3 <- goal 0^
3 refused certificate 1 3 <- Goal^
3 refused certificate 1 3 <- goal'^
3 refused certificate 1 3 <- goals^
3 refused certificate 1 3 <- todo^
3 refused certificate 1 3 <- todo 0^
3 refused certificate 1 4 <- goal^todo^
1 rejected 1 <- goal^goal^goal^
3 refused certificate 1 3 <- ^
3 refused certificate 1 4 <- goal^^
3 refused certificate 1 3 <- m - any^
3 refused certificate 1 3 <- end ^
3 refused certificate 1 3 <- End^
3 refused certificate 1 3 <- end'^
3 refused certificate 1 3 <-  end^
3 refused certificate 1 3 <- ends^
3 refused certificate 1 3 <- end 0^
3 refused certificate 1 3 <- !^
3 refused certificate 1 3 <- é^
1 rejected 1 <- |131073*goal^|
3 refused certificate 5 131076 <- |131074*goal^|
3 refused certificate 1 131076 <- |131073*goal^|todo^
1 rejected 0 <- split 0^want 0^bar 0^void 0^goal^
===
euclid certificate 1^atoms 0^goal^@
0 accepted <- end^
3 refused certificate 3 4 <- end
3 refused certificate 3 4 <- |0*x|
3 refused certificate 3 4 <- en
3 refused certificate 4 5 <- end^^
3 refused certificate 4 5 <- end^|1* |
3 refused certificate 4 5 <- end^end^
3 refused certificate 4 5 <- end^x
3 refused certificate 4 5 <- end^goal^end^
3 refused certificate 4 5 <- end^euclid certificate 1^
3 refused certificate 3 4 <- end'
3 refused certificate 1 4 <- end'^
3 refused certificate 1 4 <- end ^
3 refused certificate 3 4 <- goal
3 refused certificate 3 5 <- goal^
3 refused certificate 3 4 <- todo
3 refused certificate 1 4 <- todo^
3 refused certificate 4 6 <- goal^end^end
===
@
3 refused certificate 3 1 <- |0*x|
3 refused certificate 1 1 <- ^
3 refused certificate 3 1 <- euclid certificate 1
3 refused certificate 3 1 <- euclid trace 1
3 refused certificate 6 1 <- euclid trace 1^
3 refused certificate 3 1 <- euclid trace 2
3 refused certificate 3 2 <- euclid certificate 1^
3 refused certificate 3 2 <- euclid certificate 1^atoms 0
3 refused certificate 3 2 <- euclid certificate 1^atoms 65537
3 refused certificate 3 3 <- euclid certificate 1^atoms 1^
3 refused certificate 3 3 <- euclid certificate 1^atoms 1^z - any
3 refused certificate 2 3 <- euclid certificate 1^atoms 1^z - any^
3 refused certificate 2 3 <- euclid certificate 1^atoms 2^z - any^m  - any^end^
3 refused certificate 1 3 <- euclid certificate 1^atoms 2^m  - any^z - any^end^
3 refused certificate 2 3 <- euclid certificate 1^atoms 1^z - any^todo^end^
3 refused certificate 1 4 <- euclid certificate 1^atoms 1^m - any^todo^end^^
3 refused certificate 4 5 <- euclid certificate 1^atoms 0^goal^end^^todo
3 refused certificate 5 2 <- euclid certificate 1^atoms 65537^m  - any^end^
3 refused certificate 6 1 <- euclid trace 1^atoms 65537^end^
3 refused certificate 6 1 <- euclid trace 1^atoms 0^todo^end^
3 refused certificate 5 3 <- euclid certificate 1^atoms 2^n - any|4097* eq:1|^z - any^end^
3 refused certificate 2 3 <- euclid certificate 1^atoms 2^z - any^n - any|4097* eq:1|^end^
0 accepted <- euclid certificate 1^atoms 65536^|65536*n - any eq:#^|goal^end^
1 rejected 2 <- euclid certificate 1^atoms 3^m - any v:card^m - any v:card^d x61 none t:61^split 2^split 0^split 7^end^
3 refused certificate 3 1 <- euclid cer
3 refused certificate 3 2 <- euclid certificate 1^ato
3 refused certificate 3 4 <- euclid certificate 1^atoms 4^m - any v:card v:wallet^n - none l
3 refused certificate 3 6 <- euclid certificate 1^atoms 4^m - any v:card v:wallet^n - none lt:-5 ge:10^t - any t: t:c3a9^d x61 n
3 refused certificate 3 9 <- euclid certificate 1^atoms 4^m - any v:card v:wallet^n - none lt:-5 ge:10^t - any t: t:c3a9^d x61 none t:62^split 3^void 0^split 42
3 refused certificate 3 10 <- euclid certificate 1^atoms 4^m - any v:card v:wallet^n - none lt:-5 ge:10^t - any t: t:c3a9^d x61 none t:62^split 3^void 0^split 4294967295^wan
3 refused certificate 3 12 <- euclid certificate 1^atoms 4^m - any v:card v:wallet^n - none lt:-5 ge:10^t - any t: t:c3a9^d x61 none t:62^split 3^void 0^split 4294967295^want 0^bar 12^go
3 refused certificate 3 13 <- euclid certificate 1^atoms 4^m - any v:card v:wallet^n - none lt:-5 ge:10^t - any t: t:c3a9^d x61 none t:62^split 3^void 0^split 4294967295^want 0^bar 12^goal^e
1 rejected 1 <- euclid certificate 1^atoms 4^m - any v:card v:wallet^n - none lt:-5 ge:10^t - any t: t:c3a9^d x61 none t:62^split 3^void 0^split 4294967295^want 0^bar 12^goal^end^";

const PROGRAM: &str =
    r#"{"defaultSelection":{"type":"priority","data":[{"connector":"stripe"}]},"rules":[{"name":"cards","connectorSelection":{"type":"priority","data":[{"connector":"adyen"}]},"statements":[{"condition":[{"lhs":"payment_method","comparison":"equal","value":{"type":"enum_variant","value":"card"}}]}]}]}"#;

const EMPTY: &str =
    r#"{"defaultSelection":{"type":"priority","data":[{"connector":"stripe"}]},"rules":[]}"#;

// The comparison of the program.
const COMPARISON: &str =
    r#"{"lhs":"payment_method","comparison":"equal","value":{"type":"enum_variant","value":"card"}}"#;

const KEYS: &str =
    r#"key = [{ name = "payment_method", kind = "enum", variants = ["card", "wallet"] }, { name = "payment_method_type", kind = "enum", variants = ["credit", "debit"] }, { name = "currency", kind = "enum", variants = ["USD", "EUR", "NOK"] }, { name = "amount", kind = "number", min = 0 }, { name = "age", kind = "number", min = 10, max = 20 }, { name = "card_bin", kind = "text" }, { name = "label", kind = "text" }, { name = "metadata", kind = "metadata" }, { name = "tip", kind = "number", min = 0 }]"#;

const SETTINGS: &str =
    r#"[{"connector_name":"stripe","merchant_connector_id":"mca_1","disabled":false,"payment_methods_enabled":[{"payment_method":"card","payment_method_types":[{"payment_method_type":"credit","card_networks":["Visa","Mastercard"],"accepted_currencies":{"type":"enable_only","list":["USD","EUR"]},"accepted_countries":null,"minimum_amount":100,"maximum_amount":1000000,"recurring_enabled":true}]}]}]"#;

// That no amount above 200 is not above 100.
const CERTIFICATE: &str =
    "euclid certificate 1^atoms 1^amount - any gt:100^split 0^bar 0^want 0^end^";

const CARDS: &str =
    "rule 0 \"cards\"\n{\"data\":[{\"connector\":\"adyen\",\"merchant_connector_id\":null}],\"type\":\"priority\"}\n";

const DEFAULT: &str =
    "default\n{\"data\":[{\"connector\":\"stripe\",\"merchant_connector_id\":null}],\"type\":\"priority\"}\n";

const STRIPE: &str =
    "default\n{\"data\":[{\"connector\":\"stripe\",\"merchant_connector_id\":\"mca_1\"}],\"type\":\"priority\"}\n";

const RULE: &str =
    "rule 0 \"r\"\n{\"data\":[{\"connector\":\"a\",\"merchant_connector_id\":null}],\"type\":\"priority\"}\n";

const USAGE: &str =
    "usage: euclidc decide K P PAY | report K P S B | prove K P S T B | check K P S T C | convert P json|text | sample N\n";

// A file, by what its line says of it.
fn file_of(alloc: Global, text: &str) -> Result<String, AllocError> {
    if let Some(comparison) = text.strip_prefix("IF ") {
        return PROGRAM.replace(alloc, COMPARISON, comparison);
    }
    if let Some((old, new)) = text.split_once(" -> ") {
        return PROGRAM.replace(alloc, old.trim_start_matches("PROGRAM "), new);
    }
    let text = match text {
        "PROGRAM" => PROGRAM,
        "EMPTY" => EMPTY,
        "KEYS" => KEYS,
        "SETTINGS" => SETTINGS,
        "CERTIFICATE" => CERTIFICATE,
        text => text,
    };
    String::from_str(alloc, text)
}

fn byte_of(sign: u8) -> u8 {
    match sign {
        b'^' => b'\n',
        b'!' => b'\t',
        b'\'' => b'\r',
        b'$' => 0x0c,
        b'?' => 0,
        b'`' => 0xff,
        byte => byte,
    }
}

// The bytes of a file, with spaces behind them up to a length.
fn bytes_of(rt: &impl AllocGlobal, text: &str, length: &str) -> Result<Vec<u8>, Fail> {
    let mut bytes = Vec::new(rt.alloc());
    for sign in file_of(rt.alloc(), text)?.as_bytes() {
        bytes.push(byte_of(*sign))?;
    }
    if !length.is_empty() {
        bytes.resize(length.parse()?, b' ')?;
    }
    Ok(bytes)
}

// The shelf of a case. Its first read failed before, on another name.
fn shelf_of(rt: &impl AllocGlobal, case: &str) -> Result<MemShelf, Fail> {
    let mut shelf = MemShelf::new(rt.alloc());
    shelf.fail_at(0)?;
    let _ = shelf.read_up_to(rt.alloc(), "other", 1);
    for line in case.lines().skip(1) {
        let Some((name, text)) = line.split_once(' ') else {
            continue;
        };
        if name == "!" {
            shelf.fail_at(text.parse()?)?;
        } else if name != "$" {
            let (name, length) = name.split_once(':').unwrap_or((name, ""));
            shelf.add(name, &bytes_of(rt, text, length)?)?;
        }
    }
    Ok(shelf)
}

// The words of a line, the sign before them left out.
fn words_of(rt: &impl AllocGlobal, line: &str) -> Result<Vec<String>, Fail> {
    let mut words = Vec::new(rt.alloc());
    for word in line.split(' ').skip(1) {
        let word = if word == "_" { "" } else { word };
        words.push(String::from_str(rt.alloc(), word)?)?;
    }
    Ok(words)
}

// What a command of a case gives, with room for so many bytes: the number of its status, how often the shelf and the
// sink failed, and what is written.
fn outcome(rt: &impl AllocGlobal, case: &str, command: &str, room: usize) -> Result<String, Fail> {
    let mut shelf = shelf_of(rt, case)?;
    let mut out = MemSink::new(rt.alloc(), Some(room as u64));
    out.reserve(32_768)?;
    let words = words_of(rt, command)?;
    let number = euclidc(rt.alloc(), &words, &mut shelf, &mut out).number();
    let (reads, puts) = (shelf.faults(), out.faults());
    let text = str::from_utf8(out.bytes())?;
    Ok(format!(in rt.alloc(); "{number} {reads} {puts} {text}")?)
}

// What has to be given: all of the text, or a front of it and a fault of the sink.
fn wanted(
    rt: &impl AllocGlobal,
    case: &str,
    status: &str,
    text: &str,
    room: usize,
) -> Result<String, Fail> {
    let front = str::from_utf8(&text.as_bytes()[..room.min(text.len())])?;
    if room < text.len() {
        return Ok(format!(in rt.alloc(); "6 1 1 {front}")?);
    }
    let failed = status == "5" && case.contains("\n! ");
    let reads = if failed { 2 } else { 1 };
    Ok(format!(in rt.alloc(); "{status} {reads} 0 {front}")?)
}

// What is written, by the first line of a case.
fn text_of(rt: &impl AllocGlobal, line: &str) -> Result<String, Fail> {
    let text = match line {
        "CARDS" => CARDS,
        "DEFAULT" => DEFAULT,
        "RULE" => RULE,
        "STRIPE" => STRIPE,
        "USAGE" => USAGE,
        "" => "",
        line if line.starts_with("= ") => {
            let text = line[2..].replace(rt.alloc(), "^", "\n")?;
            return Ok(text.replace(rt.alloc(), "!", "\t")?);
        }
        line if line.starts_with('{') => {
            return Ok(format!(in rt.alloc(); "default\n{line}\n")?);
        }
        line => return Ok(format!(in rt.alloc(); "{line}\n")?),
    };
    Ok(String::from_str(rt.alloc(), text)?)
}

fn check_case<R: AllocGlobal + Abort>(rt: &R, case: &str) -> Result<(), Fail> {
    let line = case.lines().next().unwrap_or("");
    let (status, text) = line.split_once(' ').unwrap_or((line, ""));
    let text = text_of(rt, text)?;
    let least = if case.contains("\n~\n") {
        0
    } else {
        text.len()
    };
    for command in case.lines().filter(|line| line.starts_with('$')) {
        for room in least..=text.len() {
            let found = outcome(rt, case, command, room)?;
            let wanted = wanted(rt, case, status, &text, room)?;
            assert_eq!(rt; found, wanted, "at {command} of {case}");
        }
    }
    Ok(())
}

// The text of a template.
fn expanded(alloc: Global, template: &str) -> Result<String, AllocError> {
    let mut text = String::new(alloc);
    for part in template.split('|') {
        match part.split_once('*') {
            Some((count, item)) => push_items(alloc, &mut text, count.parse().unwrap_or(0), item)?,
            None => text.push_str(part)?,
        }
    }
    Ok(text)
}

fn push_items(alloc: Global, text: &mut String, count: u32, item: &str) -> Result<(), AllocError> {
    for number in (0..count).rev() {
        let number = number.to_string(alloc)?;
        text.push_str(item.replace(alloc, "#", number.as_str())?.as_str())?;
    }
    Ok(())
}

// The case that a line of DECISIONS stands for.
fn case_of(alloc: Global, line: &str) -> Option<String> {
    let (answer, files) = line.split_once(" <- ")?;
    let (keys, files) = files.split_once(" <- ")?;
    let (program, payment) = files.split_once(" <- ")?;
    let word = if keys == "-" { "-" } else { "K" };
    let mut case = command_text(alloc, answer, word).ok()?;
    let files = files_text(alloc, keys, program, payment).ok()?;
    case.push_str(files.as_str()).ok()?;
    Some(case)
}

fn command_text(alloc: Global, answer: &str, word: &str) -> Result<String, AllocError> {
    format!(in alloc; "{answer}\n$ decide {word} P PAY\n")
}

// The case that a line of CONVERSIONS stands for.
fn conversion_of(alloc: Global, line: &str) -> Option<String> {
    let (answer, words) = line.split_once(" <- ")?;
    let (form, program) = words.split_once(" <- ")?;
    format!(in alloc; "{answer}\n$ convert P {form}\nP {program}\n").ok()
}

// The case that a line of CERTIFICATES stands for, with the file of its section.
fn certificate_of(alloc: Global, file: &str, line: &str) -> Option<String> {
    let (answer, part) = line.split_once(" <- ")?;
    let file = file.replace(alloc, "@", part).ok()?;
    let (keys, file) = (CERTIFICATE_KEYS, file.as_str());
    format!(in alloc; "{answer}\n$ check K P S default C\nK {keys}\nP EMPTY\nS []\nC {file}\n").ok()
}

// The case of a front of a program, which is a program or is refused at its end.
fn front_of(alloc: Global, front: &str, is_program: bool) -> Result<String, AllocError> {
    if is_program {
        return format!(in alloc; "0 STRIPE\n$ decide - P PAY\nP {front}\nPAY {{}}\n");
    }
    let end = front.len();
    format!(in alloc; "3 refused program text 6 {end}\n$ decide - P PAY\nP {front}\nPAY {{}}\n")
}

fn files_text(
    alloc: Global,
    keys: &str,
    program: &str,
    payment: &str,
) -> Result<String, AllocError> {
    format!(in alloc; "K {keys}\nP {program}\nPAY {payment}\n")
}

#[test]
fn programs_decide(rt: HostRuntime) -> Result<(), Fail> {
    for line in expanded(rt.alloc(), DECISIONS)?.lines() {
        let case = case_of(rt.alloc(), line).ok_or(line)?;
        check_case(&rt, case.as_str())?;
    }
    Ok(())
}

#[test]
fn programs_are_converted(rt: HostRuntime) -> Result<(), Fail> {
    for line in expanded(rt.alloc(), CONVERSIONS)?.lines() {
        let case = conversion_of(rt.alloc(), line).ok_or(line)?;
        check_case(&rt, case.as_str())?;
    }
    Ok(())
}

#[test]
fn certificates_are_read(rt: HostRuntime) -> Result<(), Fail> {
    for section in expanded(rt.alloc(), CERTIFICATES)?.split("\n===\n") {
        let (file, lines) = section.split_once('\n').ok_or(section)?;
        for line in lines.lines() {
            let case = certificate_of(rt.alloc(), file, line).ok_or(line)?;
            check_case(&rt, case.as_str())?;
        }
    }
    Ok(())
}

#[test]
fn a_program_has_both_forms(rt: HostRuntime) -> Result<(), Fail> {
    match read_json(rt.alloc(), PROGRAM.as_bytes()) {
        Ok(program) => {
            let forms = both_forms(rt.alloc(), &program).ok().ok_or("it has")?;
            assert_eq!(&rt;
                forms.0.as_str(),
                "default: [\"stripe\"]\n\"cards\": [\"adyen\"] {\n  payment_method = card\n}\n"
            );
            assert_eq!(&rt; forms.1.as_str().len(), 395);
        }
        Err(_) => return Err("it is a program".into()),
    }
    Ok(())
}

#[test]
fn fronts_of_a_program_are_refused_at_their_ends(rt: HostRuntime) -> Result<(), Fail> {
    let mut front = String::new(rt.alloc());
    for sign in FRONTS.chars() {
        if sign == '~' || sign == '?' {
            let case = front_of(rt.alloc(), front.as_str(), sign == '?')?;
            check_case(&rt, case.as_str())?;
        } else {
            front.push(sign)?;
        }
    }
    Ok(())
}

#[test]
fn commands_give_their_answers(rt: HostRuntime) -> Result<(), Fail> {
    for case in CASES.split("===\n") {
        check_case(&rt, case)?;
    }
    assert_eq!(&rt; Status::No.number(), 1);
    assert_eq!(&rt; Status::NoMemory.number(), 7);
    Ok(())
}
