ghost use Rattle.std.specs.Prelude.{◌≡◌, codes, true, IfOk};
ghost use Rattle.serde_json.specs.View.{view};
ghost use Rattle.key_table.specs.Answers.{Answers};
ghost use Rattle.euclid_ast.specs.Limits.{is_value, is_comparison};
ghost use Rattle.json_shape.specs.Fields.{within_field, word_of};
ghost use Rattle.json_program.specs.Comparisons.{operator_named, operator_of, form_named, metadata_of, value_in, value_of, fields_of};

use crate::error::{UNKNOWN_FORM, UNKNOWN_OPERATOR, WRONG_SHAPE};
use crate::field::{name_in, short_text, short_text_in, whole_in};
use crate::limits::MOST_ITEMS;
use euclid_ast::{Comparison, NumberTest, ValueForm};
use json_shape::{Path, Reader, ShapeError, each, field, list_up_to, whole};
use key_table::{Op, Stop, Text};
use serde_json::Value;
use std::alloc::Global;

/// The form of a value.
#[derive(Clone, Copy, Debug, PartialEq, Eq)]
pub(crate) enum Form {
    Number,
    Variant,
    Metadata,
    Str,
    Numbers,
    Variants,
    NumberTests,
}

impl Form {
    fn named(word: &str) -> Option<Form>
        ensures { result ≡ form_named word.now }
    {
        match word {
            "number" => Some(Form::Number),
            "enum_variant" => Some(Form::Variant),
            "metadata_variant" => Some(Form::Metadata),
            "str_value" => Some(Form::Str),
            "number_array" => Some(Form::Numbers),
            "enum_variant_array" => Some(Form::Variants),
            "number_comparison_array" => Some(Form::NumberTests),
            _ => None,
        }
    }
}

/// The fields of a comparison.
#[tactic(auto, unfolding(crate::specs::Comparisons::fields_of))]
pub(crate) fn fields(
    alloc: Global,
    node: &Value,
    path: &Path,
) -> Result<Comparison, Stop<ShapeError>>
    ensures fields { Answers (λ c. c) result (fields_of path.now (view node.now)) }
    ensures fits { IfOk result (λ c. is_comparison c ≡ true) }
{
    let lhs = short_text_in(alloc, node, path, "lhs")?;
    let op = operator_in(alloc, node, path, "comparison")?;
    let at = path.name("value")?;
    let value = value(alloc, field(alloc, node, path, "value")?, &at)?;
    Ok(Comparison { lhs, op, value })
}

fn operator_in(alloc: Global, node: &Value, path: &Path, name: &str) -> Result<Op, Stop<ShapeError>>
    ensures { Answers (λ o. o) result (within_field name.now operator_of path.now (view node.now)) }
{
    let at = path.name(name)?;
    let Some(word) = field(alloc, node, path, name)?.as_str() else {
        return Err(at.stop(WRONG_SHAPE));
    };
    match operator_named(word) {
        Some(op) => Ok(op),
        None => Err(at.stop(UNKNOWN_OPERATOR)),
    }
}

fn operator_named(word: &str) -> Option<Op>
    ensures { result ≡ operator_named word.now }
{
    match word {
        "equal" => Some(Op::Equal),
        "not_equal" => Some(Op::NotEqual),
        "less_than" => Some(Op::Less),
        "less_than_equal" => Some(Op::LessEqual),
        "greater_than" => Some(Op::Greater),
        "greater_than_equal" => Some(Op::GreaterEqual),
        _ => None,
    }
}

#[tactic(auto, unfolding(crate::specs::Comparisons::value_of))]
fn value(alloc: Global, node: &Value, path: &Path) -> Result<ValueForm, Stop<ShapeError>>
    ensures value { Answers (λ v. v) result (value_of path.now (view node.now)) }
    ensures fits { IfOk result (λ v. is_value v ≡ true) }
{
    let form = form_in(alloc, node, path)?;
    let at = path.name("value")?;
    value_in(alloc, form, field(alloc, node, path, "value")?, &at)
}

fn form_in(alloc: Global, node: &Value, path: &Path) -> Result<Form, Stop<ShapeError>>
    ensures { Answers (λ f. f) result (within_field (codes "type") (word_of 6 form_named) path.now (view node.now)) }
{
    let at = path.name("type")?;
    let Some(word) = field(alloc, node, path, "type")?.as_str() else {
        return Err(at.stop(WRONG_SHAPE));
    };
    match Form::named(word) {
        Some(form) => Ok(form),
        None => Err(at.stop(UNKNOWN_FORM)),
    }
}

fn value_in(
    alloc: Global,
    form: Form,
    node: &Value,
    path: &Path,
) -> Result<ValueForm, Stop<ShapeError>>
    ensures value { Answers (λ v. v) result (value_in form path.now (view node.now)) }
    ensures fits { IfOk result (λ v. is_value v ≡ true) }
{
    match form {
        Form::Number => Ok(ValueForm::Number(whole(alloc, node, path)?)),
        Form::Variant => Ok(ValueForm::Variant(short_text(alloc, node, path)?)),
        Form::Metadata => metadata(alloc, node, path),
        Form::Str => Ok(ValueForm::Str(short_text(alloc, node, path)?)),
        Form::Numbers => {
            let nodes = list_up_to(alloc, node, path, MOST_ITEMS)?;
            Ok(ValueForm::Numbers(each(alloc, &OneNumber, nodes, path)?))
        }
        Form::Variants => {
            let nodes = list_up_to(alloc, node, path, MOST_ITEMS)?;
            Ok(ValueForm::Variants(each(alloc, &OneText, nodes, path)?))
        }
        Form::NumberTests => {
            let nodes = list_up_to(alloc, node, path, MOST_ITEMS)?;
            Ok(ValueForm::NumberTests(each(alloc, &OneTest, nodes, path)?))
        }
    }
}

fn metadata(alloc: Global, node: &Value, path: &Path) -> Result<ValueForm, Stop<ShapeError>>
    ensures value { Answers (λ v. v) result (metadata_of path.now (view node.now)) }
    ensures fits { IfOk result (λ v. is_value v ≡ true) }
{
    let key = short_text_in(alloc, node, path, "key")?;
    let value = short_text_in(alloc, node, path, "value")?;
    Ok(ValueForm::Metadata { key, value })
}

// A whole number.
struct OneNumber;

impl Reader for OneNumber {
    ghost use Rattle.key_table.specs.Integers.{is_signed};
    ghost use Rattle.json_shape.specs.Shapes.{whole_of};

    type Item = i64;

    ghost reads = { λ _. whole_of };

    ghost fits = { λ _ n. is_signed n };

    fn read(&self, alloc: Global, node: &Value, path: &Path) -> Result<i64, Stop<ShapeError>> {
        whole(alloc, node, path)
    }
}

// A text of at most 255 bytes.
struct OneText;

impl Reader for OneText {
    ghost use Rattle.euclid_ast.specs.Limits.{is_short};
    ghost use Rattle.json_program.specs.Texts.{text_of};

    type Item = Text;

    ghost reads = { λ _. text_of };

    ghost fits = { λ _ t. is_short t };

    fn read(&self, alloc: Global, node: &Value, path: &Path) -> Result<Text, Stop<ShapeError>> {
        short_text(alloc, node, path)
    }
}

// An entry of a number comparison array.
struct OneTest;

impl Reader for OneTest {
    ghost use Rattle.euclid_ast.specs.Limits.{is_test};
    ghost use Rattle.json_program.specs.Comparisons.{test_of};

    type Item = NumberTest;

    ghost reads = { λ _. test_of };

    ghost fits = { λ _ t. is_test t };

    #[tactic(auto, unfolding(crate::specs::Comparisons::test_of))]
    fn read(
        &self,
        alloc: Global,
        node: &Value,
        path: &Path,
    ) -> Result<NumberTest, Stop<ShapeError>> {
        let name = name_in("comparisonType", "comparison_type", node);
        let op = operator_in(alloc, node, path, name)?;
        let number = whole_in(alloc, node, path, "number")?;
        Ok(NumberTest { op, number })
    }
}
