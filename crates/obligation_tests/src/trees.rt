//! Trees of bodies: how many leaves they have, where each leads, and the values of its terms.
ghost use Rattle.std.specs.Prelude.{IfSome};
ghost use Rattle.cocoon_resolve.specs.Readers.{HasRole};
ghost use Rattle.cocoon_syntax.specs.TreeOf.{design_of};

use crate::asking::digest;
use crate::copies::copied_tables;
use crate::fitting::value;
use crate::inputs::{put_in, zeros};
use crate::names::role_name;
use crate::numbers::small;
use crate::texts::Question;
use bv_terms::{Env, InputId, Node, TermId, TermOp, Terms};
use case_files::{Printer, first_word, last_line, number, numbers};
use cocoon_num::{FunTable, List};
use cocoon_resolve::Checked;
use declarations::RoleId;
use obligation_gen::{End, InlineFault, Leaf, Tree, body_tree, inline};
use std::alloc::Global;

/// The tree of a role, with its arena.
#[derive(Drop)]
struct Shown {
    terms: Terms,
    tree: Tree,
}

/// The number of a role that is there at a level.
fn role_at(checked: &Checked, name: &[u8], level: u32) -> Option<RoleId>
    ensures { IfSome result (λ role. HasRole (design_of checked.now) role level) }
{
    let role = checked.role_of(name)?;
    checked.names().role_at(checked.design(), name, level)?;
    Some(role)
}

/// The tree of a refined role, if the level has a block and the number of bodies is allowed.
fn inlined(
    alloc: Global,
    checked: &Checked,
    level: u32,
    role: RoleId,
    within: u32,
    terms: &mut Terms,
) -> Option<Result<Tree, InlineFault>>
    requires { HasRole (design_of checked.now) role level }
{
    if level < 1 || level >= checked.levels() || within < 1 || within > 12 {
        return None;
    }
    Some(inline(alloc, checked, level, role, within, terms))
}

/// The tree that words say: `inlined LEVEL ROLE WITHIN` or `body LEVEL ROLE`.
fn made(
    alloc: Global,
    checked: &Checked,
    words: &str,
    terms: &mut Terms,
) -> Option<Result<Tree, InlineFault>> {
    let (kind, rest) = first_word(words);
    let (level, rest) = first_word(rest);
    let (name, within) = first_word(rest);
    let level = u32::from(small(level)?);
    let role = role_at(checked, name.as_bytes(), level)?;
    match kind {
        "inlined" => inlined(
            alloc,
            checked,
            level,
            role,
            u32::from(small(within)?),
            terms,
        ),
        "body" => Some(body_tree(alloc, checked, level, role, terms)),
        _ => None,
    }
}

/// The two parts of a chain: what is before the last part, and the last part.
fn split_chain(terms: &Terms, chain: TermId) -> Option<(TermId, TermId)> {
    if chain >= terms.count() {
        return None;
    }
    match terms.node(chain) {
        Node::Binary(TermOp::And, before, last) => Some((*before, *last)),
        _ => None,
    }
}

/// The parts of a chain, the last one first.
fn parts(alloc: Global, terms: &Terms, chain: TermId) -> Option<Vec<TermId>> {
    let mut parts = Vec::new(alloc);
    let mut rest = chain;
    for _ in 0..terms.count() {
        let Some((before, last)) = split_chain(terms, rest) else {
            break;
        };
        parts.push(last).ok()?;
        rest = before;
    }
    parts.push(rest).ok()?;
    Some(parts)
}

/// Puts the values of terms, with a comma between two, or `-` where there are none.
fn put_values(
    alloc: Global,
    terms: &Terms,
    env: &Env,
    ids: &[TermId],
    given: &mut Printer,
) -> Option<()> {
    let mut between = "";
    for id in ids {
        given.put(between);
        given.put_number(u64::try_from(value(alloc, terms, *id, env)?.value).ok()?);
        between = ",";
    }
    if ids.is_empty() {
        given.put("-");
    }
    Some(())
}

impl Shown {
    /// The tree of words, or how many leaves it would have.
    fn read(alloc: Global, checked: &Checked, words: &str) -> Option<Result<Shown, u64>> {
        let mut terms = Terms::new(alloc);
        match made(alloc, checked, words, &mut terms)? {
            Ok(tree) => Some(Ok(Shown { terms, tree })),
            Err(InlineFault::Paths(count)) => Some(Err(count)),
            Err(InlineFault::NoMemory) => None,
        }
    }

    /// The environment of a tuple `NUMBERS;NUMBERS;NUMBERS`: of parameters, of fields, and of choices in the order in which a leaf
    /// takes them. What is not said is 0.
    fn env(&self, alloc: Global, word: &str, tables: &[Option<FunTable>]) -> Option<Env> {
        let (args, rest) = word.split_once(';')?;
        let (fields, choices) = rest.split_once(';')?;
        let mut inputs = zeros(alloc, &self.terms)?;
        put_in(
            &mut inputs,
            self.tree.args.items(),
            &numbers(alloc, args, ',')?,
        );
        put_in(
            &mut inputs,
            self.tree.fields.items(),
            &numbers(alloc, fields, ',')?,
        );
        let choices = numbers(alloc, choices, ',')?;
        for leaf in self.tree.leaves.items() {
            put_in(&mut inputs, leaf.choices.items(), &choices);
        }
        Some(Env {
            inputs: List::from(inputs),
            tables: List::from(copied_tables(alloc, tables)?),
        })
    }

    /// Puts the widths of choices, with a comma between two, or `-` where there are none.
    fn put_widths(&self, choices: &[InputId], given: &mut Printer) {
        let mut between = "";
        for choice in choices {
            given.put(between);
            if *choice < self.terms.input_count() {
                let width = self.terms.width(self.terms.input_term(*choice));
                given.put_number(u64::from(width));
            }
            between = ",";
        }
        if choices.is_empty() {
            given.put("-");
        }
    }

    /// Puts the values of the parts of a leaf's condition, of the values of its role and of its fields.
    fn put_at(&self, alloc: Global, leaf: &Leaf, env: &Env, given: &mut Printer) -> Option<()> {
        given.put(" : ");
        for part in parts(alloc, &self.terms, leaf.cond)?.iter().rev() {
            let value = value(alloc, &self.terms, *part, env)?;
            given.put_number(u64::try_from(value.value).ok()?);
        }
        let (values, fields) = match &leaf.end {
            End::Sent(_, values, fields) => (values, fields),
            End::Inside(_, values, fields) => (values, fields),
        };
        given.put(" ");
        put_values(alloc, &self.terms, env, values.items(), given)?;
        given.put(" ");
        put_values(alloc, &self.terms, env, fields.items(), given)
    }

    /// Puts a leaf: where it leads, the widths of its choices, and its values at each of these.
    fn put_leaf(
        &self,
        alloc: Global,
        checked: &Checked,
        leaf: &Leaf,
        envs: &[Env],
        given: &mut Printer,
    ) -> Option<()> {
        let (kind, role) = match &leaf.end {
            End::Sent(role, _, _) => ("sent ", *role),
            End::Inside(role, _, _) => ("inside ", *role),
        };
        given.put(kind);
        given.put_bytes(role_name(checked, role)?);
        given.put(" ");
        self.put_widths(leaf.choices.items(), given);
        for env in envs {
            self.put_at(alloc, leaf, env, given)?;
        }
        Some(())
    }

    /// The environments of the tuples of a line.
    fn envs(&self, alloc: Global, line: &str, tables: &[Option<FunTable>]) -> Option<Vec<Env>> {
        let mut envs = Vec::new(alloc);
        for word in line.split(' ') {
            envs.push(self.env(alloc, word, tables)?).ok()?;
        }
        Some(envs)
    }
}

/// Puts how many leaves a tree has.
fn put_count(alloc: Global, question: &Question, words: &str, given: &mut Printer) -> Option<()> {
    match Shown::read(alloc, &question.checked, words)? {
        Ok(shown) => given.put_number(shown.tree.leaves.items().len() as u64),
        Err(count) => {
            given.put("over ");
            given.put_number(count);
        }
    }
    Some(())
}

/// Puts one leaf of a tree.
fn put_one(
    alloc: Global,
    question: &Question,
    line: &str,
    words: &str,
    given: &mut Printer,
) -> Option<()> {
    let (leaf, words) = first_word(words);
    let checked = &question.checked;
    let shown = Shown::read(alloc, checked, words)?.ok()?;
    let envs = shown.envs(alloc, line, question.defs.tables())?;
    let leaf = shown.tree.leaves.items().get(number(leaf)? as usize)?;
    shown.put_leaf(alloc, checked, leaf, &envs, given)
}

/// Puts a digest of all leaves of a tree.
fn put_digest(
    alloc: Global,
    question: &Question,
    line: &str,
    words: &str,
    given: &mut Printer,
) -> Option<()> {
    let checked = &question.checked;
    let shown = Shown::read(alloc, checked, words)?.ok()?;
    let envs = shown.envs(alloc, line, question.defs.tables())?;
    let mut text = Printer::new(alloc);
    for leaf in shown.tree.leaves.items() {
        shown.put_leaf(alloc, checked, leaf, &envs, &mut text)?;
        text.put("\n");
    }
    given.put_number(digest(text.text()));
    given.lose_with(&text);
    Some(())
}

/// Puts what is asked of a tree of the design in the last line `design`, with these declarations in it: `leaves TREE`,
/// `leaf NUMBER TREE` or `digest TREE`, and then the declarations.
pub(crate) fn put_tree(
    rt: &HostRuntime,
    above: &str,
    kind: &str,
    asked: &str,
    given: &mut Printer,
) {
    let (words, declared) = asked.split_once(" :: ").unwrap_or((asked, ""));
    let Some(question) = Question::read(rt, above, declared) else {
        return given.put("no design");
    };
    let line = last_line(above, "numbers").unwrap_or_default();
    let done = match kind {
        "leaves" => put_count(rt.alloc(), &question, words, given),
        "leaf" => put_one(rt.alloc(), &question, line, words, given),
        _ => put_digest(rt.alloc(), &question, line, words, given),
    };
    if done.is_none() {
        given.put("no tree");
    }
}
