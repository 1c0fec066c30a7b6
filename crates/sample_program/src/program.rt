ghost use Rattle.std.specs.Prelude.{◌≡◌, ◌+◌, ◌*◌, ◌++◌, ℕ, decimal, IfOk, OnOk};
ghost use Rattle.sample_program.specs.Draws.{state, draws_from};
ghost use Rattle.sample_program.specs.Programs.{output, condition, rule, rules, program};

use crate::comparison::numbered_comparison;
use crate::draws::Draws;
use euclid_ast::{Account, Comparison, Program, Rule, Selection, Statement};
use key_table::{NoMemory, Seq, Text};
use std::alloc::Global;

const RULES: u32 = 256;

// Those of each rule.
const COMPARISONS: u32 = 3;

/// The program of a seed. It has 256 rules, each with one statement of three comparisons, and gives one of the connectors
/// `c0` to `c3` by each rule, and `c0` by default. It is refused for want of memory alone.
#[tactic(auto, unfolding(crate::specs::Programs::program))]
pub fn sample_program(alloc: Global, seed: u32) -> Result<Program, NoMemory>
    ensures { IfOk result (λ p. p ≡ program seed) }
{
    let default_selection = output(alloc, 0)?;
    let rules = rules(alloc, seed)?;
    Ok(Program {
        default_selection,
        rules,
    })
}

fn rules(alloc: Global, seed: u32) -> Result<Seq<Rule>, NoMemory>
    ensures { IfOk result (λ r. r ≡ rules seed 256) }
{
    let mut draws = Draws::from_seed(seed);
    let mut rules = Seq::with_capacity(alloc, RULES as usize)?;
    for number in 0..RULES {
        rules.push(rule(alloc, &mut draws, number)?)?;
    }
    Ok(rules)
}

// The rule with a number, for which four numbers are drawn.
fn rule(alloc: Global, draws: &mut Draws, number: u32) -> Result<Rule, NoMemory>
    ensures state { (seed : ℕ) → draws.old.state ≡ state seed (4 * number) → OnOk result (draws.new.state ≡ state seed (4 * number + 4)) }
    ensures rule { (seed : ℕ) → draws.old.state ≡ state seed (4 * number) → IfOk result (λ r. r ≡ rule seed number) }
{
    let condition = condition(alloc, draws)?;
    let selection = output(alloc, draws.below(4))?;
    let name = name(alloc, "r", u64::from(number))?;
    let mut statements = Seq::with_capacity(alloc, 1)?;
    statements.push(Statement {
        condition,
        nested: None,
    })?;
    Ok(Rule {
        name,
        selection,
        statements,
    })
}

// Three comparisons that are drawn.
fn condition(alloc: Global, draws: &mut Draws) -> Result<Seq<Comparison>, NoMemory>
    ensures state { (seed others : ℕ) → draws.old.state ≡ state seed others → OnOk result (draws.new.state ≡ state seed (others + 3)) }
    ensures condition { (seed others : ℕ) → draws.old.state ≡ state seed others → IfOk result (λ c. c ≡ condition (draws_from seed others 8 3)) }
{
    let mut condition = Seq::with_capacity(alloc, COMPARISONS as usize)?;
    for _ in 0..COMPARISONS {
        condition.push(numbered_comparison(alloc, draws.below(8))?)?;
    }
    Ok(condition)
}

// The one connector with a number.
fn output(alloc: Global, number: u64) -> Result<Selection, NoMemory>
    ensures { IfOk result (λ s. s ≡ output number) }
{
    let connector = name(alloc, "c", number)?;
    let mut accounts = Seq::with_capacity(alloc, 1)?;
    accounts.push(Account {
        connector,
        id: None,
    })?;
    Ok(Selection::Priority(accounts))
}

// A letter and a number in decimal.
fn name(alloc: Global, letter: &str, number: u64) -> Result<Text, NoMemory>
    ensures { IfOk result (λ t. t ≡ letter.now ++ decimal number) }
{
    let name = format!(in alloc; "{letter}{number}")?;
    Ok(Text::from(name))
}
