ghost use Rattle.std.specs.Prelude.{◌≡◌, length, true, IfOk};
ghost use Rattle.euclid_ast.specs.Meaning.{IsWithin};
ghost use Rattle.dir_typing.specs.Typed.{IsTyped};
ghost use Rattle.connector_settings.specs.GraphOf.{IsMadeWith};
ghost use Rattle.rule_problem.specs.Problems.{problem_fits};
ghost use Rattle.rule_report.specs.Paths.{paths_of};
ghost use Rattle.rule_report.specs.Targets.{IsProblemOf};
ghost use Rattle.rule_report.specs.Answers.{IsNumbered, IsAnswerOn};
ghost use Rattle.rule_report.specs.Reaching.{IsMetWhere};

use crate::problem::problem_of;
use crate::shared::{Shared, shared_by};
use connector_settings::ConnectorGraph;
use constraint_graph::Graph;
use euclid_ast::Choice;
use key_table::{KeyTable, NoMemory, atom_law};
use rule_problem::{Problem, Report};
use rule_search::search;
use std::alloc::Global;
use std::marker::Model;
use std::snapshot::Snapshot;
use vir_lowering::{VirProgram, fits_law, keeps_law};

/// The targets of a program, its rules and its default, over a connector graph. What their problems share is made once.
/// Contracts see the program and the connector graph.
#[derive(Drop)]
pub struct Targets {
    shared: Shared,
    graph: Graph,
    goal: u32,
    program: Snapshot<VirProgram>,
    connectors: Snapshot<ConnectorGraph>,
}

impl Model for Targets {
    ghost use Rattle.std.specs.Prelude.{◌≡◌};
    ghost use Rattle.std.specs.Coded.{codes};
    ghost use Rattle.euclid_ast.specs.contracts.statement.Statement as statement;
    ghost use Rattle.constraint_graph.specs.Graphs.{atoms_of};
    ghost use Rattle.dir_typing.specs.Typed.{IsTyped};
    ghost use Rattle.connector_settings.specs.GraphOf.{IsMadeWith};
    ghost use Rattle.rule_report.specs.Aims.{Aims};
    ghost use Rattle.rule_report.specs.Paths.{paths_of};
    ghost use Rattle.rule_report.specs.Shared.{IsSharedBy};

    ghost Value = { Aims };

    ghost coded = { Prim.hlevel (codes, statement.the_row.coded) };

    ghost view = { λ t. record { program = t.program.value; connectors = t.connectors.value } };

    ghost invariant = { λ t. IsTyped t.program.value
        × IsMadeWith t.program.value.table t.connectors.value
        × IsSharedBy (paths_of t.program.value) (atoms_of t.connectors.value.graph) t.shared
        × (t.graph ≡ t.connectors.value.graph)
        × (t.goal ≡ t.connectors.value.goal) };
}

impl Targets {
    ghost use Rattle.rule_report.specs.Aims.{aims};

    /// The targets of a program over a connector graph, which were both made with this table. They are refused for want of
    /// memory alone.
    pub fn new(
        alloc: Global,
        _table: &KeyTable,
        program: &VirProgram,
        connectors: &ConnectorGraph,
    ) -> Result<Targets, NoMemory>
        requires program { program.now.table ≡ _table.now }
        requires connectors { IsMadeWith _table.now connectors.now }
        ensures { IfOk result (λ targets. targets ≡ aims program.now connectors.now) }
    {
        let shared = shared_by(alloc, program.rules(), &connectors.graph)?;
        let graph = connectors.graph.copy()?;
        Ok(Targets {
            shared,
            graph,
            goal: connectors.goal,
            program: Snapshot::of(program),
            connectors: Snapshot::of(connectors),
        })
    }

    /// The problem of a target, which is the default or one of the program's rules. For a rule it wants one of the rule's
    /// paths, and the paths of the rules before it are bars; for the default nothing is wanted, and the paths of all rules are
    /// bars. The paths of a rule are its leaf statements in source order, each with the atoms of all conditions from the
    /// outermost statement down, all wanted true; a statement with a nested list that is empty has none. Each atom of the
    /// wants, the bars and the graph stands once, in that order. A payment satisfies the problem exactly where it is legal, the
    /// graph's goal holds of it, and the source program chooses the target. It is refused for want of memory alone.
    pub fn problem(&self, alloc: Global, target: Choice) -> Result<Problem, NoMemory>
        requires { IsWithin target (length self.now.program.source.rules) }
        ensures problem { IfOk result (IsProblemOf (paths_of self.now.program) self.now.connectors.graph self.now.connectors.goal target) }
        ensures fits { IfOk result (λ problem. problem_fits self.now.program.table problem ≡ true) }
        ensures met { IfOk result (IsMetWhere self.now.program self.now.connectors target) }
        ensures numbered { IfOk result IsNumbered }
    {
        keeps_law();
        fits_law();
        atom_law();
        problem_of(alloc, &self.shared, &self.graph, self.goal, target)
    }

    /// The number of rules.
    pub fn rule_count(&self) -> u32
        ensures { result ≡ length self.now.program.source.rules }
    {
        self.shared.rules.as_slice().len() as u32
    }

    /// What the search answers, with a budget of splits, on the problem of a target, which is the default or one of the
    /// program's rules: a payment that satisfies the problem, a certificate that none does, or a trace of exactly the budget.
    /// The table is the program's. It is refused for want of memory alone.
    pub fn report(
        &self,
        alloc: Global,
        table: &KeyTable,
        target: Choice,
        budget: u32,
    ) -> Result<Report, NoMemory>
        requires table { self.now.program.table ≡ table.now }
        requires target { IsWithin target (length self.now.program.source.rules) }
        ensures { IfOk result (IsAnswerOn self.now budget target) }
    {
        let problem = self.problem(alloc, target)?;
        search(alloc, table, &problem, budget)
    }
}

/// The problem of one target of a program over a connector graph, as `Targets::problem` gives it. The program and the graph
/// were both made with this table, and a target that is a rule is one of the program's. It is refused for want of memory
/// alone.
pub fn problem_for(
    alloc: Global,
    table: &KeyTable,
    program: &VirProgram,
    connectors: &ConnectorGraph,
    target: Choice,
) -> Result<Problem, NoMemory>
    requires program { program.now.table ≡ table.now }
    requires connectors { IsMadeWith table.now connectors.now }
    requires target { IsWithin target (length program.now.source.rules) }
    ensures problem { IfOk result (IsProblemOf (paths_of program.now) connectors.now.graph connectors.now.goal target) }
    ensures fits { IfOk result (λ problem. problem_fits table.now problem ≡ true) }
    ensures met { IfOk result (IsMetWhere program.now connectors.now target) }
{
    let targets = Targets::new(alloc, table, program, connectors)?;
    targets.problem(alloc, target)
}
