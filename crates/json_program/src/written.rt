ghost use Rattle.std.specs.Prelude.{◌≡◌, IfOk, map};
ghost use Rattle.serde_json.specs.View.{view};
ghost use Rattle.json_program.specs.Written.{list_data, operator_text, value_data, statement_data, selection_data, program_data};

use euclid_ast::{
    Account, Comparison, NumberTest, Program, Rule, Selection, Share, Statement, ThreeDs, ValueForm,
};
use key_table::{Op, Text};
use serde_json::{Value, json};
use std::alloc::{AllocError, Global};

// What is written as JSON.
trait Written {
    ghost use Rattle.serde_json.specs.Data.{Data};

    ghost json: { Self → Data };

    fn value(&self, alloc: Global) -> Result<Value, AllocError>
        ensures { IfOk result (λ v. view v ≡ json self.now) };
}

// An array of what is written for each of these.
fn list_value<T: Written>(alloc: Global, items: &[T]) -> Result<Value, AllocError>
    ensures { IfOk result (λ v. view v ≡ list_data (map T.json items.now)) }
{
    let mut list = Vec::new(alloc);
    for item in items {
        list.push(item.value(alloc)?)?;
    }
    Ok(Value::Array(list))
}

/// A program as JSON.
pub(crate) fn program_value(alloc: Global, program: &Program) -> Result<Value, AllocError>
    ensures { IfOk result (λ v. view v ≡ program_data program.now) }
{
    let default_selection = selection_value(alloc, &program.default_selection)?;
    let rules = list_value(alloc, program.rules.as_slice())?;
    json!(in alloc; {"defaultSelection": default_selection, "metadata": {}, "rules": rules})
}

impl Written for Rule {
    ghost use Rattle.json_program.specs.Written.{rule_data};

    ghost json = { rule_data };

    fn value(&self, alloc: Global) -> Result<Value, AllocError> {
        let selection = selection_value(alloc, &self.selection)?;
        let statements = statements_value(alloc, self.statements.as_slice())?;
        json!(in alloc; {"connectorSelection": selection, "name": self.name.as_str(), "statements": statements})
    }
}

/// A selection as JSON.
pub(crate) fn selection_value(alloc: Global, selection: &Selection) -> Result<Value, AllocError>
    ensures { IfOk result (λ v. view v ≡ selection_data selection.now) }
{
    match selection {
        Selection::Priority(accounts) => {
            let data = list_value(alloc, accounts.as_slice())?;
            json!(in alloc; {"data": data, "type": "priority"})
        }
        Selection::Volume(shares) => {
            let data = list_value(alloc, shares.as_slice())?;
            json!(in alloc; {"data": data, "type": "volume_split"})
        }
        Selection::SurchargeFixed(amount) => {
            json!(in alloc; {"data": {"amount": *amount}, "type": "surcharge_fixed"})
        }
        Selection::SurchargeRate(points) => {
            json!(in alloc; {"data": {"basis_points": *points}, "type": "surcharge_rate"})
        }
        Selection::Auth(ThreeDs::ThreeDs) => {
            json!(in alloc; {"data": {"decision": "three_ds"}, "type": "three_ds"})
        }
        Selection::Auth(ThreeDs::NoThreeDs) => {
            json!(in alloc; {"data": {"decision": "no_three_ds"}, "type": "three_ds"})
        }
        Selection::Nothing => json!(in alloc; {"type": "none"}),
    }
}

impl Written for Account {
    ghost use Rattle.json_program.specs.Written.{account_data};

    ghost json = { account_data };

    fn value(&self, alloc: Global) -> Result<Value, AllocError> {
        match &self.id {
            Some(id) => {
                json!(in alloc; {"connector": self.connector.as_str(), "merchant_connector_id": id.as_str()})
            }
            None => {
                json!(in alloc; {"connector": self.connector.as_str(), "merchant_connector_id": null})
            }
        }
    }
}

impl Written for Share {
    ghost use Rattle.json_program.specs.Written.{share_data};

    ghost json = { share_data };

    fn value(&self, alloc: Global) -> Result<Value, AllocError> {
        let account = self.account.value(alloc)?;
        json!(in alloc; {"connector": account, "split": self.split})
    }
}

#[cycle(statements)]
fn statements_value(alloc: Global, statements: &[Statement]) -> Result<Value, AllocError>
    ensures { IfOk result (λ v. view v ≡ list_data (map statement_data statements.now)) }
{
    let mut list = Vec::new(alloc);
    for statement in statements {
        list.push(statement_value(alloc, statement)?)?;
    }
    Ok(Value::Array(list))
}

#[cycle(statements)]
#[tactic(auto, using(crate::proofs::WrittenParts::data_out))]
fn statement_value(alloc: Global, statement: &Statement) -> Result<Value, AllocError>
    ensures { IfOk result (λ v. view v ≡ statement_data statement.now) }
{
    let condition = list_value(alloc, statement.condition.as_slice())?;
    match &statement.nested {
        None => json!(in alloc; {"condition": condition, "nested": null}),
        Some(inner) => {
            let nested = statements_value(alloc, inner.as_slice())?;
            json!(in alloc; {"condition": condition, "nested": nested})
        }
    }
}

impl Written for Comparison {
    ghost use Rattle.json_program.specs.Written.{comparison_data};

    ghost json = { comparison_data };

    fn value(&self, alloc: Global) -> Result<Value, AllocError> {
        let value = value_of_form(alloc, &self.value)?;
        let comparison = operator_text(self.op);
        json!(in alloc; {"comparison": comparison, "lhs": self.lhs.as_str(), "metadata": {}, "value": value})
    }
}

fn operator_text(op: Op) -> &'static str
    ensures { result.now ≡ operator_text op }
{
    match op {
        Op::Equal => "equal",
        Op::NotEqual => "not_equal",
        Op::Less => "less_than",
        Op::LessEqual => "less_than_equal",
        Op::Greater => "greater_than",
        Op::GreaterEqual => "greater_than_equal",
    }
}

fn value_of_form(alloc: Global, value: &ValueForm) -> Result<Value, AllocError>
    ensures { IfOk result (λ v. view v ≡ value_data value.now) }
{
    match value {
        ValueForm::Number(number) => json!(in alloc; {"type": "number", "value": *number}),
        ValueForm::Variant(name) => {
            json!(in alloc; {"type": "enum_variant", "value": name.as_str()})
        }
        ValueForm::Metadata { key, value } => {
            json!(in alloc; {"type": "metadata_variant", "value": {"key": key.as_str(), "value": value.as_str()}})
        }
        ValueForm::Str(text) => json!(in alloc; {"type": "str_value", "value": text.as_str()}),
        ValueForm::Numbers(numbers) => {
            let list = list_value(alloc, numbers.as_slice())?;
            json!(in alloc; {"type": "number_array", "value": list})
        }
        ValueForm::Variants(names) => {
            let list = list_value(alloc, names.as_slice())?;
            json!(in alloc; {"type": "enum_variant_array", "value": list})
        }
        ValueForm::NumberTests(tests) => {
            let list = list_value(alloc, tests.as_slice())?;
            json!(in alloc; {"type": "number_comparison_array", "value": list})
        }
    }
}

impl Written for i64 {
    ghost use Rattle.json_program.specs.Written.{number_data};

    ghost json = { number_data };

    fn value(&self, alloc: Global) -> Result<Value, AllocError> {
        json!(in alloc; *self)
    }
}

impl Written for Text {
    ghost use Rattle.serde_json.specs.Data.{string};

    ghost json = { string };

    fn value(&self, alloc: Global) -> Result<Value, AllocError> {
        json!(in alloc; self.as_str())
    }
}

impl Written for NumberTest {
    ghost use Rattle.json_program.specs.Written.{test_data};

    ghost json = { test_data };

    fn value(&self, alloc: Global) -> Result<Value, AllocError> {
        json!(in alloc; {"comparisonType": operator_text(self.op), "number": self.number})
    }
}
