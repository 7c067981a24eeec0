//! Searches, and what checks logs.
use crate::reading::{is_well_named, read};
use case_files::first_word;
use cdcl::{Answer, solve};
use cnf_core::{Assignment, Cnf, Log, satisfies};
use proof_check::{check_distinct, check_log};
use std::alloc::Global;

/// What a search answered.
#[derive(Clone, Copy, PartialEq)]
enum Outcome {
    Satisfied,
    /// With so many steps.
    Unsat(u64),
    Spent(u64),
}

fn is_satisfied(cnf: &Cnf, assignment: &Assignment) -> bool {
    assignment.values.items().len() == cnf.vars as usize && satisfies(cnf, assignment)
}

/// The answers of `check_log` and of `check_distinct`.
fn checked(alloc: Global, cnf: &Cnf, log: &Log) -> Option<(bool, bool)> {
    if !is_well_named(cnf) {
        return None;
    }
    let derives = check_log(alloc, cnf, log).ok()?;
    let is_new = check_distinct(alloc, cnf, log).ok()?;
    Some((derives, is_new))
}

/// The answer, if what comes with it is accepted.
fn judged(alloc: Global, cnf: &Cnf, answer: &Answer) -> Option<Outcome> {
    match answer {
        Answer::Satisfied(assignment) if is_satisfied(cnf, assignment) => Some(Outcome::Satisfied),
        Answer::Satisfied(_) => None,
        Answer::Unsat(log) if checked(alloc, cnf, log)? == (true, false) => {
            Some(Outcome::Unsat(log.steps.items().len() as u64))
        }
        Answer::Unsat(_) => None,
        Answer::Spent(log) if checked(alloc, cnf, log)? == (false, true) => {
            Some(Outcome::Spent(log.steps.items().len() as u64))
        }
        Answer::Spent(_) => None,
    }
}

/// What a search through so many conflicts answers.
fn searched(alloc: Global, cnf: &Cnf, conflicts: u64) -> Option<Outcome> {
    if !is_well_named(cnf) || conflicts > 1_000_000 {
        return None;
    }
    if cnf.clauses.items().len() > 1_000_000 {
        return None;
    }
    judged(alloc, cnf, &solve(alloc, cnf, conflicts).ok()?)
}

/// Whether a search that needs so many steps makes as many with that budget, and spends a smaller one.
fn keeps_budgets(alloc: Global, cnf: &Cnf, steps: u64) -> bool {
    for conflicts in [0, 1, 2, steps.saturating_sub(1)] {
        let is_less = conflicts < steps;
        if is_less && searched(alloc, cnf, conflicts) != Some(Outcome::Spent(conflicts)) {
            return false;
        }
    }
    searched(alloc, cnf, steps) == Some(Outcome::Unsat(steps))
}

/// Whether a search through so many conflicts answers what the first line says, `c ANSWER NAME`.
pub fn is_answer(alloc: Global, conflicts: u64, case: &str) -> Option<bool> {
    let (head, _) = case.split_once('\n')?;
    let (answer, _) = first_word(first_word(head).1);
    let (cnf, _) = read(alloc, case)?;
    match searched(alloc, &cnf, conflicts)? {
        Outcome::Satisfied => Some(answer == "sat"),
        Outcome::Unsat(steps) => Some(answer == "unsat" && keeps_budgets(alloc, &cnf, steps)),
        Outcome::Spent(_) => Some(answer == "spent"),
    }
}

/// The word for a truth value.
fn word(holds: bool) -> &'static str {
    if holds { "true" } else { "false" }
}

/// Whether the two checks answer what the first line says, `c DERIVES NEW NAME`.
pub fn is_judgement(alloc: Global, case: &str) -> Option<bool> {
    let (head, _) = case.split_once('\n')?;
    let (derives, rest) = first_word(first_word(head).1);
    let (is_new, _) = first_word(rest);
    let (cnf, log) = read(alloc, case)?;
    let answers = checked(alloc, &cnf, &log)?;
    Some(word(answers.0) == derives && word(answers.1) == is_new)
}
