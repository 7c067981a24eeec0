//! Terms under numbers.
ghost use Rattle.std.specs.Prelude.{◌≡◌, ◌≤◌, ◌<◌, ◌+◌, ◌^◌, ◌++◌, [], ◌∷◌, All, IfOk, OnOk, OnErr, Some, length, slice_get};
ghost use Rattle.bv_terms.specs.TermTrees.{IsWidth, OperandsFit, joined_width};
ghost use Rattle.std.specs.BTreeMap.{UpdatesBy};
ghost use Rattle.bv_terms.specs.Keys.{key_cmp, number_of};
ghost use Rattle.bv_terms.specs.Arenas.{CanFollow, GrowsBy, HasOneMore, IsArena, IsFound, IsInputTerm, IsPut, KeepsTerms, count_input, inputs_in, node_width, width_at};

use crate::keys::{Key, key_of};
use crate::node::{FunId, InputId, Node, TermId, TermOp};
use cocoon_num::{Bits, List, NoMemory};
use std::alloc::Global;
use std::collections::BTreeMap;
use std::marker::Model;

/// More terms are out of memory.
const MOST_TERMS: usize = 1 << 25;

/// Terms, each under one number. A term that was put in stays.
#[derive(Drop)]
pub struct Terms {
    nodes: Vec<Node>,
    widths: Vec<u8>,
    /// The term of each input.
    inputs: Vec<TermId>,
    /// The number of each node, by its key.
    numbers: BTreeMap<Key, TermId>,
}

impl Model for Terms {
    ghost use Rattle.std.specs.Prelude.{List as Items};
    ghost use Rattle.bv_terms.specs.declared.node.Node.{Node};
    ghost use Rattle.bv_terms.specs.Arenas.{IsKept};

    ghost Value = { Items Node };

    ghost view = { λ t. t.nodes.items };

    ghost invariant = { λ t. IsKept t.nodes.items t.widths.items t.inputs.items t.numbers };
}

/// The width of what an operator gives, in bits.
fn joined(op: TermOp, first: u8, second: u8) -> u8
    requires { OperandsFit op first second }
    ensures { result ≡ joined_width op first second }
{
    match op {
        TermOp::Concat => first + second,
        TermOp::Equal | TermOp::Less => 1,
        _ => first,
    }
}

fn number(numbers: &BTreeMap<Key, TermId>, key: &Key) -> Option<TermId>
    ensures { result ≡ number_of numbers.now key.now.items }
{
    numbers.get(key).copied()
}

/// One more node with its width and its key, all or none.
fn push(
    nodes: &mut Vec<Node>,
    widths: &mut Vec<u8>,
    numbers: &mut BTreeMap<Key, TermId>,
    key: Key,
    node: Node,
    width: u8,
) -> Result<TermId, NoMemory>
    ensures at { IfOk result (λ id. id ≡ length nodes.old.items) }
    ensures nodes { OnOk result (nodes.new.items ≡ nodes.old.items ++ node ∷ []) }
    ensures widths { OnOk result (widths.new.items ≡ widths.old.items ++ width ∷ []) }
    ensures numbers { IfOk result (λ id.
        UpdatesBy key_cmp (key_cmp key) numbers.old numbers.new (Some id)) }
    ensures small { OnOk result (length nodes.new.items ≤ 2 ^ 25) }
    ensures refused { OnErr result ((nodes.new.items ≡ nodes.old.items)
        × (widths.new.items ≡ widths.old.items)
        × (numbers.new.entries ≡ numbers.old.entries)) }
{
    if nodes.len() >= MOST_TERMS {
        return Err(NoMemory);
    }
    let id = nodes.len() as TermId;
    nodes.reserve(1)?;
    widths.reserve(1)?;
    numbers.insert(key, id)?;
    nodes.push_reserved(node);
    widths.push_reserved(width);
    Ok(id)
}

impl Terms {
    /// An arena with no term.
    pub fn new(alloc: Global) -> Terms
        ensures { result ≡ [] }
    {
        Terms {
            nodes: Vec::new(alloc),
            widths: Vec::new(alloc),
            inputs: Vec::new(alloc),
            numbers: BTreeMap::new(alloc),
        }
    }

    /// The number of a node of this width, in bits, that is no input: its own if it is there, else it is put in.
    pub fn put(&mut self, node: Node, width: u8) -> Result<TermId, NoMemory>
        requires follows { CanFollow self.old node }
        requires width { width ≡ node_width (width_at self.old) node }
        requires no_input { count_input 0 node ≡ 0 }
        ensures put { IfOk result (λ id. IsPut self.old self.new node id) }
        ensures found { IfOk result (λ id. IsFound self.old self.new node id) }
        ensures kept { KeepsTerms self.old self.new }
        ensures few { GrowsBy 1 self.old self.new }
        ensures refused { OnErr result (self.new ≡ self.old) }
    {
        let alloc = *self.nodes.allocator();
        let key = key_of(alloc, &node)?;
        if let Some(id) = number(&self.numbers, &key) {
            return Ok(id);
        }
        push(
            &mut self.nodes,
            &mut self.widths,
            &mut self.numbers,
            key,
            node,
            width,
        )
    }

    /// The term of a number.
    pub fn constant(&mut self, value: Bits) -> Result<TermId, NoMemory>
        ensures put { IfOk result (λ id. IsPut self.old self.new (Node.Constant value) id) }
        ensures found { IfOk result (λ id. IsFound self.old self.new (Node.Constant value) id) }
        ensures kept { KeepsTerms self.old self.new }
        ensures few { GrowsBy 1 self.old self.new }
        ensures refused { OnErr result (self.new ≡ self.old) }
    {
        self.put(Node::Constant(value), value.width)
    }

    /// A new input of a width, in bits. Inputs have the numbers from 0 on.
    pub fn input(&mut self, width: u8) -> Result<TermId, NoMemory>
        requires { IsWidth width }
        ensures put { IfOk result (λ id.
            IsPut self.old self.new (Node.Input (inputs_in self.old) width) id) }
        ensures more { IfOk result (λ id. HasOneMore self.old self.new id) }
        ensures kept { KeepsTerms self.old self.new }
        ensures refused { OnErr result (self.new ≡ self.old) }
    {
        let input = self.inputs.len() as InputId;
        self.inputs.reserve(1)?;
        let node = Node::Input(input, width);
        let alloc = *self.nodes.allocator();
        let key = key_of(alloc, &node)?;
        let (nodes, widths) = (&mut self.nodes, &mut self.widths);
        let id = push(nodes, widths, &mut self.numbers, key, node, width)?;
        self.inputs.push_reserved(id);
        Ok(id)
    }

    /// A function at arguments, of a width in bits.
    pub fn apply(&mut self, function: FunId, args: &[TermId], width: u8) -> Result<TermId, NoMemory>
        requires args { All (λ a. a < length self.old) args.now }
        requires widths { All (λ a. width_at self.old a ≤ 64) args.now }
        requires width { IsWidth width }
        ensures put { IfOk result (λ id.
            IsPut self.old self.new (Node.Apply function args.now width) id) }
        ensures found { IfOk result (λ id.
            IsFound self.old self.new (Node.Apply function args.now width) id) }
        ensures kept { KeepsTerms self.old self.new }
        ensures few { GrowsBy 1 self.old self.new }
        ensures refused { OnErr result (self.new ≡ self.old) }
    {
        let alloc = *self.nodes.allocator();
        let args = List::from(Vec::from_slice(alloc, args)?);
        self.put(Node::Apply(function, args, width), width)
    }

    /// A term with each bit turned.
    pub fn not(&mut self, a: TermId) -> Result<TermId, NoMemory>
        requires { a < length self.old }
        ensures put { IfOk result (λ id. IsPut self.old self.new (Node.Not a) id) }
        ensures found { IfOk result (λ id. IsFound self.old self.new (Node.Not a) id) }
        ensures kept { KeepsTerms self.old self.new }
        ensures few { GrowsBy 1 self.old self.new }
        ensures refused { OnErr result (self.new ≡ self.old) }
    {
        self.put(Node::Not(a), self.width(a))
    }

    /// Two terms under an operator.
    pub fn binary(&mut self, op: TermOp, a: TermId, b: TermId) -> Result<TermId, NoMemory>
        requires operands { (a < length self.old) × (b < length self.old) }
        requires widths { OperandsFit op (width_at self.old a) (width_at self.old b) }
        ensures put { IfOk result (λ id. IsPut self.old self.new (Node.Binary op a b) id) }
        ensures found { IfOk result (λ id. IsFound self.old self.new (Node.Binary op a b) id) }
        ensures kept { KeepsTerms self.old self.new }
        ensures few { GrowsBy 1 self.old self.new }
        ensures refused { OnErr result (self.new ≡ self.old) }
    {
        let width = joined(op, self.width(a), self.width(b));
        self.put(Node::Binary(op, a, b), width)
    }

    /// The bits of a term from `high` down to `low`, both included and counted from 0.
    pub fn slice(&mut self, a: TermId, high: u8, low: u8) -> Result<TermId, NoMemory>
        requires operand { a < length self.old }
        requires places { (low ≤ high) × (high < width_at self.old a) }
        ensures put { IfOk result (λ id. IsPut self.old self.new (Node.Slice a high low) id) }
        ensures found { IfOk result (λ id. IsFound self.old self.new (Node.Slice a high low) id) }
        ensures kept { KeepsTerms self.old self.new }
        ensures few { GrowsBy 1 self.old self.new }
        ensures refused { OnErr result (self.new ≡ self.old) }
    {
        prove!(high < self.width(a));
        self.put(Node::Slice(a, high, low), high - low + 1)
    }

    /// `a` where `c` is true, else `b`.
    pub fn pick(&mut self, c: TermId, a: TermId, b: TermId) -> Result<TermId, NoMemory>
        requires operands { (c < length self.old) × (a < length self.old) × (b < length self.old) }
        requires choice { width_at self.old c ≡ 1 }
        requires widths { width_at self.old a ≡ width_at self.old b }
        ensures put { IfOk result (λ id. IsPut self.old self.new (Node.Pick c a b) id) }
        ensures found { IfOk result (λ id. IsFound self.old self.new (Node.Pick c a b) id) }
        ensures kept { KeepsTerms self.old self.new }
        ensures few { GrowsBy 1 self.old self.new }
        ensures refused { OnErr result (self.new ≡ self.old) }
    {
        self.put(Node::Pick(c, a, b), self.width(a))
    }

    /// How many terms there are.
    pub fn count(&self) -> u32
        ensures count { result ≡ length self.now }
        ensures arena { IsArena self.now }
    {
        self.nodes.len() as u32
    }

    /// The node of a term.
    pub fn node(&self, id: TermId) -> &Node
        requires { id < length self.now }
        ensures node { slice_get self.now id ≡ Some result.now }
        ensures arena { IsArena self.now }
    {
        &self.nodes[id as usize]
    }

    /// The width of a term, in bits.
    pub fn width(&self, id: TermId) -> u8
        requires { id < length self.now }
        ensures { result ≡ width_at self.now id }
    {
        self.widths[id as usize]
    }

    /// How many inputs there are.
    pub fn input_count(&self) -> u32
        ensures { result ≡ inputs_in self.now }
    {
        self.inputs.len() as u32
    }

    /// The term of an input.
    pub fn input_term(&self, input: InputId) -> TermId
        requires { input < inputs_in self.now }
        ensures { IsInputTerm self.now input result }
    {
        self.inputs[input as usize]
    }
}
