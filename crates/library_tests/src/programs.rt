//! Programs as JSON: what they decide by their source, how they are written, and limits that no file of a command reaches.

use crate::cases::expanded;
use crate::values::payment;
use euclid_ast::{Choice, choice_of_source};
use json_program::{JsonError, read_json, write_json};
use key_table::{KeyTable, NoMemory, Stop};
use std::alloc::Global;
use std::test::Fail;

// What a program decides on a card payment, or after a `!` on one by a method that has no name: the number of a rule, or `-` for
// the default.
const CHOICES: &str = r#"- {"defaultSelection":{"type":"none"},"rules":[]}
- {"defaultSelection":{"type":"none"},"rules":[{"name":"","connectorSelection":{"type":"none"},"statements":[]}]}
0 {"defaultSelection":{"type":"none"},"rules":[{"name":"","connectorSelection":{"type":"none"},"statements":[{"condition":[]}]}]}
0 {"defaultSelection":{"type":"none"},"rules":[{"name":"","connectorSelection":{"type":"none"},"statements":[{"condition":[{"lhs":"payment_method","comparison":"equal","value":{"type":"enum_variant","value":"card"}}]}]}]}
- {"defaultSelection":{"type":"none"},"rules":[{"name":"","connectorSelection":{"type":"none"},"statements":[{"condition":[{"lhs":"payment_method","comparison":"equal","value":{"type":"enum_variant","value":"wallet"}}]}]}]}
- {"defaultSelection":{"type":"none"},"rules":[{"name":"","connectorSelection":{"type":"none"},"statements":[{"condition":[{"lhs":"payment_method","comparison":"equal","value":{"type":"enum_variant","value":"colour"}}]}]}]}
0 {"defaultSelection":{"type":"none"},"rules":[{"name":"","connectorSelection":{"type":"none"},"statements":[{"condition":[{"lhs":"payment_method","comparison":"not_equal","value":{"type":"enum_variant","value":"colour"}}]}]}]}
- {"defaultSelection":{"type":"none"},"rules":[{"name":"","connectorSelection":{"type":"none"},"statements":[{"condition":[{"lhs":"colour","comparison":"equal","value":{"type":"enum_variant","value":"card"}}]}]}]}
- {"defaultSelection":{"type":"none"},"rules":[{"name":"","connectorSelection":{"type":"none"},"statements":[{"condition":[{"lhs":"payment_method","comparison":"less_than","value":{"type":"enum_variant","value":"card"}}]}]}]}
0 {"defaultSelection":{"type":"none"},"rules":[{"name":"","connectorSelection":{"type":"none"},"statements":[{"condition":[{"lhs":"payment_method","comparison":"equal","value":{"type":"enum_variant","value":"wallet"}}]},{"condition":[{"lhs":"payment_method","comparison":"equal","value":{"type":"enum_variant","value":"card"}}]}]}]}
- {"defaultSelection":{"type":"none"},"rules":[{"name":"","connectorSelection":{"type":"none"},"statements":[{"condition":[{"lhs":"payment_method","comparison":"equal","value":{"type":"enum_variant","value":"card"}},{"lhs":"payment_method","comparison":"equal","value":{"type":"enum_variant","value":"wallet"}}]}]}]}
2 {"defaultSelection":{"type":"none"},"rules":[{"name":"","connectorSelection":{"type":"none"},"statements":[]},{"name":"","connectorSelection":{"type":"none"},"statements":[{"condition":[{"lhs":"payment_method","comparison":"equal","value":{"type":"enum_variant","value":"wallet"}}]}]},{"name":"","connectorSelection":{"type":"none"},"statements":[{"condition":[{"lhs":"payment_method","comparison":"equal","value":{"type":"enum_variant","value":"wallet"}}]},{"condition":[{"lhs":"payment_method","comparison":"equal","value":{"type":"enum_variant","value":"card"}}]}]},{"name":"","connectorSelection":{"type":"none"},"statements":[{"condition":[{"lhs":"payment_method","comparison":"equal","value":{"type":"enum_variant","value":"card"}}]}]}]}
- {"defaultSelection":{"type":"none"},"rules":[{"name":"","connectorSelection":{"type":"none"},"statements":[{"condition":[],"nested":[]}]}]}
0 {"defaultSelection":{"type":"none"},"rules":[{"name":"","connectorSelection":{"type":"none"},"statements":[{"condition":[],"nested":[{"condition":[{"lhs":"payment_method","comparison":"equal","value":{"type":"enum_variant","value":"card"}}]}]}]}]}
0 {"defaultSelection":{"type":"none"},"rules":[{"name":"","connectorSelection":{"type":"none"},"statements":[{"condition":[],"nested":[{"condition":[{"lhs":"payment_method","comparison":"equal","value":{"type":"enum_variant","value":"wallet"}}]},{"condition":[{"lhs":"payment_method","comparison":"equal","value":{"type":"enum_variant","value":"card"}}]}]}]}]}
- {"defaultSelection":{"type":"none"},"rules":[{"name":"","connectorSelection":{"type":"none"},"statements":[{"condition":[],"nested":[{"condition":[{"lhs":"payment_method","comparison":"equal","value":{"type":"enum_variant","value":"wallet"}}]}]}]}]}
- {"defaultSelection":{"type":"none"},"rules":[{"name":"","connectorSelection":{"type":"none"},"statements":[{"condition":[],"nested":[{"condition":[],"nested":[]}]}]}]}
0 {"defaultSelection":{"type":"none"},"rules":[{"name":"","connectorSelection":{"type":"none"},"statements":[{"condition":[],"nested":[{"condition":[],"nested":[{"condition":[{"lhs":"payment_method","comparison":"equal","value":{"type":"enum_variant","value":"wallet"}}]},{"condition":[{"lhs":"payment_method","comparison":"equal","value":{"type":"enum_variant","value":"card"}}]}]}]}]}]}
- {"defaultSelection":{"type":"none"},"rules":[{"name":"","connectorSelection":{"type":"none"},"statements":[{"condition":[{"lhs":"payment_method","comparison":"equal","value":{"type":"enum_variant","value":"wallet"}}],"nested":[{"condition":[{"lhs":"payment_method","comparison":"equal","value":{"type":"enum_variant","value":"card"}}]}]}]}]}
!- {"defaultSelection":{"type":"none"},"rules":[{"name":"","connectorSelection":{"type":"none"},"statements":[{"condition":[{"lhs":"payment_method","comparison":"equal","value":{"type":"enum_variant","value":"card"}}]}]}]}
!0 {"defaultSelection":{"type":"none"},"rules":[{"name":"","connectorSelection":{"type":"none"},"statements":[{"condition":[{"lhs":"payment_method","comparison":"not_equal","value":{"type":"enum_variant","value":"card"}}]}]}]}
!- {"defaultSelection":{"type":"none"},"rules":[{"name":"","connectorSelection":{"type":"none"},"statements":[{"condition":[{"lhs":"payment_method","comparison":"equal","value":{"type":"enum_variant_array","value":["wallet","card"]}}]}]}]}
!0 {"defaultSelection":{"type":"none"},"rules":[{"name":"","connectorSelection":{"type":"none"},"statements":[{"condition":[{"lhs":"payment_method","comparison":"not_equal","value":{"type":"enum_variant_array","value":["wallet","card"]}}]}]}]}
- {"defaultSelection":{"type":"none"},"rules":[{"name":"","connectorSelection":{"type":"none"},"statements":[{"condition":[{"lhs":"payment_method","comparison":"not_equal","value":{"type":"str_value","value":"wallet"}}]}]}]}
- {"defaultSelection":{"type":"none"},"rules":[{"name":"","connectorSelection":{"type":"none"},"statements":[{"condition":[{"lhs":"payment_method","comparison":"not_equal","value":{"type":"number","value":5}}]}]}]}
- {"defaultSelection":{"type":"none"},"rules":[{"name":"","connectorSelection":{"type":"none"},"statements":[{"condition":[{"lhs":"payment_method","comparison":"not_equal","value":{"type":"number_array","value":[5]}}]}]}]}
- {"defaultSelection":{"type":"none"},"rules":[{"name":"","connectorSelection":{"type":"none"},"statements":[{"condition":[{"lhs":"payment_method","comparison":"not_equal","value":{"type":"number_comparison_array","value":[{"comparisonType":"equal","number":5}]}}]}]}]}
- {"defaultSelection":{"type":"none"},"rules":[{"name":"","connectorSelection":{"type":"none"},"statements":[{"condition":[{"lhs":"payment_method","comparison":"not_equal","value":{"type":"metadata_variant","value":{"key":"card","value":"wallet"}}}]}]}]}"#;

// What is written, and the program.
const WRITTEN: &str =
    r#"{"defaultSelection":{"type":"none"},"metadata":{},"rules":[]} <- {"defaultSelection":{"type":"none"},"rules":[]}
{"defaultSelection":{"data":{"amount":5},"type":"surcharge_fixed"},"metadata":{},"rules":[{"connectorSelection":{"data":[{"connector":{"connector":"a","merchant_connector_id":null},"split":100}],"type":"volume_split"},"name":"b","statements":[{"condition":[{"comparison":"not_equal","lhs":"amount","metadata":{},"value":{"type":"number_comparison_array","value":[{"comparisonType":"less_than_equal","number":-1}]}}],"nested":[]}]}]} <- {"type":"advanced","data":{"rules":[{"statements":[{"nested":[],"condition":[{"value":{"value":[{"number":-1,"comparison_type":"less_than_equal"}],"type":"number_comparison_array"},"comparison":"not_equal","lhs":"amount"}]}],"routingOutput":{"data":[{"split":100,"connector":{"connector":"a"}}],"type":"volume_split"},"name":"\u0062"}],"defaultSelection":{"data":{"amount":5},"type":"surcharge_fixed"}}}
{"defaultSelection":{"data":{"decision":"three_ds"},"type":"three_ds"},"metadata":{},"rules":[{"connectorSelection":{"type":"none"},"name":"r","statements":[{"condition":[{"comparison":"equal","lhs":"metadata","metadata":{},"value":{"type":"metadata_variant","value":{"key":"k","value":"v"}}},{"comparison":"equal","lhs":"card_bin","metadata":{},"value":{"type":"str_value","value":"4"}},{"comparison":"greater_than","lhs":"a","metadata":{},"value":{"type":"number","value":7}},{"comparison":"equal","lhs":"a","metadata":{},"value":{"type":"number_array","value":[1,2]}},{"comparison":"equal","lhs":"a","metadata":{},"value":{"type":"enum_variant_array","value":["x","y"]}},{"comparison":"equal","lhs":"a","metadata":{},"value":{"type":"enum_variant","value":"x"}}],"nested":null}]}]} <- {"defaultSelection":{"type":"three_ds","data":{"decision":"three_ds"}},"rules":[{"name":"r","connectorSelection":{"type":"none"},"statements":[{"condition":[{"lhs":"metadata","comparison":"equal","value":{"type":"metadata_variant","value":{"value":"v","key":"k"}}},{"lhs":"card_bin","comparison":"equal","value":{"type":"str_value","value":"4"}},{"lhs":"a","comparison":"greater_than","value":{"type":"number","value":7}},{"lhs":"a","comparison":"equal","value":{"type":"number_array","value":[1,2]}},{"lhs":"a","comparison":"equal","value":{"type":"enum_variant_array","value":["x","y"]}},{"lhs":"a","comparison":"equal","value":{"type":"enum_variant","value":"x"}}]}]}]}"#;

// The fault of a program with many comparisons, as code and path, or nothing.
const LONG: &str =
    r#" <- {"defaultSelection":{"type":"none"},"rules":[{"name":"","connectorSelection":{"type":"none"},"statements":[{"condition":[|16383*{"lhs":"a","comparison":"equal","value":{"type":"enum_variant","value":"b"}},|{"lhs":"a","comparison":"equal","value":{"type":"enum_variant","value":"b"}}]},{"condition":[]}]}]}
5 /rules/0/statements/1/condition/0 <- {"defaultSelection":{"type":"none"},"rules":[{"name":"","connectorSelection":{"type":"none"},"statements":[{"condition":[|16383*{"lhs":"a","comparison":"equal","value":{"type":"enum_variant","value":"b"}},|{"lhs":"a","comparison":"equal","value":{"type":"enum_variant","value":"b"}}]},{"condition":[{"lhs":"a","comparison":"equal","value":{"type":"enum_variant","value":"b"}}]}]}]}
5 /rules/0/statements/0/condition <- {"defaultSelection":{"type":"none"},"rules":[{"name":"","connectorSelection":{"type":"none"},"statements":[{"condition":[|16384*{"lhs":"a","comparison":"equal","value":{"type":"enum_variant","value":"b"}},|{"lhs":"a","comparison":"equal","value":{"type":"enum_variant","value":"b"}}]}]}]}"#;

// The rule that a program chooses.
fn chosen(alloc: Global, table: &KeyTable, entries: &str, file: &str) -> Option<Option<u32>> {
    let program = read_json(alloc, file.as_bytes()).ok()?;
    let payment = payment(alloc, entries)?;
    Some(match choice_of_source(table, &program, &payment) {
        Choice::Rule(rule) => Some(rule),
        Choice::Default => None,
    })
}

fn written(alloc: Global, file: &str) -> Option<String> {
    let program = read_json(alloc, file.as_bytes()).ok()?;
    let text = write_json(alloc, &program).ok()?;
    String::from_str(alloc, text.as_str()).ok()
}

fn fault(alloc: Global, file: &str) -> Result<String, NoMemory> {
    match read_json(alloc, file.as_bytes()) {
        Ok(_) => Ok(String::new(alloc)),
        Err(Stop::Memory) => Err(NoMemory),
        Err(Stop::Fault(JsonError { code, path })) => {
            Ok(format!(in alloc; "{code} {}", path.as_str())?)
        }
    }
}

#[test]
fn programs_choose(rt: HostRuntime) -> Result<(), Fail> {
    let table = KeyTable::built_in(rt.alloc())?;
    for line in CHOICES.lines() {
        let (wanted, file) = line.split_once(' ').ok_or(line)?;
        let (entries, wanted) = match wanted.strip_prefix('!') {
            Some(wanted) => ("0=variant:99", wanted),
            None => ("0=variant:0", wanted),
        };
        let found = chosen(rt.alloc(), &table, entries, file);
        assert_eq!(rt; found, Some(wanted.parse().ok()), "at {file}");
    }
    Ok(())
}

#[test]
fn programs_are_written(rt: HostRuntime) -> Result<(), Fail> {
    for line in WRITTEN.lines() {
        let (wanted, file) = line.split_once(" <- ").ok_or(line)?;
        let found = written(rt.alloc(), file).ok_or(line)?;
        assert_eq!(rt; found.as_str(), wanted, "at {file}");
    }
    Ok(())
}

#[test]
fn comparisons_are_counted(rt: HostRuntime) -> Result<(), Fail> {
    for line in expanded(rt.alloc(), LONG)?.lines() {
        let (wanted, file) = line.split_once(" <- ").ok_or("no arrow")?;
        assert_eq!(rt; fault(rt.alloc(), file)?.as_str(), wanted);
    }
    Ok(())
}
