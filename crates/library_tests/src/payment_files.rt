//! Payments as JSON.

use crate::cases::expanded;
use key_table::KeyTable;
use payment_reader::{read_payment, write_payment};
use std::test::Fail;

const KEYS: &str = r#"key = [
    { name = "payment_method", kind = "enum", variants = ["card", "wallet"] },
    { name = "payment_method_type", kind = "enum", variants = ["credit", "debit"] },
    { name = "currency", kind = "enum", variants = ["USD", "EUR", "NOK"] },
    { name = "amount", kind = "number", min = 0 },
    { name = "age", kind = "number", min = 10, max = 20 },
    { name = "card_bin", kind = "text" },
    { name = "label", kind = "text" },
    { name = "metadata", kind = "metadata" },
    { name = "tip", kind = "number", min = 0 },
]"#;

// What a file is, written again, and the file.
const FILES: &str = r##"{} <- {}
{"payment_method":"card","payment_method_type":"credit"} <- {"payment_method_type":"credit","payment_method":"card"}
{"amount":0,"card_bin":"4é€😀","currency":"NOK","label":"","metadata":{"":"a","b":""}} <-  {"metadata": {"b": "", "": "\u0061", "c": null}, "currency": "NOK", "card_bin": "4\u00e9€😀", "label": "", "amount": 0 }
{"metadata":{"\u0001":"\n","\"":"\\","~/":"a"}} <- {"metadata":{"~/":"a","\u0022":"\\","\u0001":"\u000a"}}
{} <- {"amount":null,"currency":null,"card_bin":null,"metadata":null}
{} <- {"metadata":{}}
{} <- {"metadata":{"a":null}}
{"amount":9223372036854775807} <- {"amount":9223372036854775807}
{"age":10} <- {"age":10}
{"age":20} <- {"age":20}
{"card_bin":"|1024*a|"} <- {"card_bin":"|1024*a|"}
{"card_bin":"|256*😀|"} <- {"card_bin":"|256*😀|"}
{"metadata":{"s":"|1024*a|"}} <- {"metadata":{"s":"|1024*a|"}}
{"metadata":{"|255*a|":"t"}} <- {"metadata":{"|255*a|":"t"}}"##;

#[test]
fn payments_are_written(rt: HostRuntime) -> Result<(), Fail> {
    let alloc = rt.alloc();
    let table = KeyTable::from_toml(alloc, KEYS.as_bytes())?;
    for row in expanded(alloc, FILES)?.lines() {
        let (wanted, file) = row.split_once(" <- ").ok_or(row)?;
        let payment = read_payment(alloc, &table, file.as_bytes())?;
        let text = write_payment(alloc, &table, &payment)?;
        assert_eq!(rt; text.as_str(), wanted, "at {file}");
    }
    Ok(())
}
