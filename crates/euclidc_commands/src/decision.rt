ghost use Rattle.std.specs.Prelude.{◌≡◌, length, IfOk};
ghost use Rattle.euclid_ast.specs.Meaning.{IsWithin};
ghost use Rattle.euclidc_commands.specs.Decisions.{decision_text, rule_text, default_text};

use euclid_ast::{Choice, Program, Rule, Selection};
use json_program::{write_selection, write_string};
use key_table::{NoMemory, Text};
use std::alloc::Global;

/// The lines of a decision: what decides, and the selection that it gives.
pub fn decision(alloc: Global, program: &Program, choice: Choice) -> Result<Text, NoMemory>
    requires { IsWithin choice (length program.now.rules) }
    ensures { IfOk result (λ t. t ≡ decision_text program.now choice) }
{
    match choice {
        Choice::Rule(number) => {
            let rule = &program.rules.as_slice()[number as usize];
            rule_decision(alloc, number, rule)
        }
        Choice::Default => default_decision(alloc, &program.default_selection),
    }
}

fn rule_decision(alloc: Global, number: u32, rule: &Rule) -> Result<Text, NoMemory>
    ensures { IfOk result (λ t. t ≡ rule_text number rule.now) }
{
    let name = write_string(alloc, &rule.name)?;
    let name = name.as_str();
    let selection = write_selection(alloc, &rule.selection)?;
    let selection = selection.as_str();
    let text = format!(in alloc; "rule {number} {name}\n{selection}\n")?;
    Ok(Text::from(text))
}

fn default_decision(alloc: Global, selection: &Selection) -> Result<Text, NoMemory>
    ensures { IfOk result (λ t. t ≡ default_text selection.now) }
{
    let selection = write_selection(alloc, selection)?;
    let selection = selection.as_str();
    let text = format!(in alloc; "default\n{selection}\n")?;
    Ok(Text::from(text))
}
