//! A program in the making.
use cocoon_num::{List, Text};
use p4_ir::{Control, P4Expr, P4Field, P4Header, P4Stmt, Program, Table};
use std::alloc::Global;
use std::mem;

/// A program in the making. What is added stands for itself until something takes it: fields until a header does, expressions
/// and blocks until a statement does, tables and statements until a control does. Nothing is added without memory.
#[derive(Drop)]
pub struct Draft {
    alloc: Global,
    fields: Vec<P4Field>,
    headers: Vec<P4Header>,
    meta: Vec<P4Field>,
    exprs: Vec<P4Expr>,
    /// The statements of the innermost block that is open.
    stmts: Vec<P4Stmt>,
    /// Those of the blocks around it, outermost first.
    around: Vec<Vec<P4Stmt>>,
    blocks: Vec<Vec<P4Stmt>>,
    tables: Vec<Table>,
    ingress: Option<Control>,
}

impl Draft {
    pub fn new(alloc: Global) -> Draft {
        Draft {
            alloc,
            fields: Vec::new(alloc),
            headers: Vec::new(alloc),
            meta: Vec::new(alloc),
            exprs: Vec::new(alloc),
            stmts: Vec::new(alloc),
            around: Vec::new(alloc),
            blocks: Vec::new(alloc),
            tables: Vec::new(alloc),
            ingress: None,
        }
    }

    pub fn alloc(&self) -> Global {
        self.alloc
    }

    pub fn add_field(&mut self, field: P4Field) -> Option<()> {
        self.fields.push(field).ok()
    }

    /// Adds a header of the fields that stand in none.
    pub fn add_header(&mut self, name: &str) -> Option<()> {
        let name = Text::from(self.alloc, name.as_bytes()).ok()?;
        let fields = mem::replace(&mut self.fields, Vec::new(self.alloc));
        let fields = List::from(fields);
        self.headers.push(P4Header { name, fields }).ok()
    }

    pub fn add_meta(&mut self, field: P4Field) -> Option<()> {
        self.meta.push(field).ok()
    }

    pub fn add_table(&mut self, table: Table) -> Option<()> {
        self.tables.push(table).ok()
    }

    pub fn add_expr(&mut self, expr: P4Expr) -> Option<()> {
        self.exprs.push(expr).ok()
    }

    /// The last expression that stands in no other part.
    pub fn take_expr(&mut self) -> Option<P4Expr> {
        self.exprs.pop()
    }

    pub fn take_boxed(&mut self) -> Option<Box<P4Expr>> {
        let expr = self.exprs.pop()?;
        Box::new(self.alloc, expr).ok()
    }

    pub fn add_stmt(&mut self, stmt: P4Stmt) -> Option<()> {
        self.stmts.push(stmt).ok()
    }

    /// Begins a block.
    pub fn open(&mut self) -> Option<()> {
        let around = mem::replace(&mut self.stmts, Vec::new(self.alloc));
        self.around.push(around).ok()
    }

    /// Ends the innermost block.
    pub fn close(&mut self) -> Option<()> {
        let around = self.around.pop()?;
        let block = mem::replace(&mut self.stmts, around);
        self.blocks.push(block).ok()
    }

    /// The last block that stands in no statement.
    pub fn take_block(&mut self) -> Option<Vec<P4Stmt>> {
        self.blocks.pop()
    }

    /// A control of the tables and statements that stand in none.
    fn take_control(&mut self) -> Control {
        let tables = mem::replace(&mut self.tables, Vec::new(self.alloc));
        let body = mem::replace(&mut self.stmts, Vec::new(self.alloc));
        Control {
            tables: List::from(tables),
            body: List::from(body),
        }
    }

    /// What follows is of the egress control.
    pub fn end_ingress(&mut self) {
        let ingress = self.take_control();
        self.ingress = Some(ingress);
    }

    /// The program of all that was added.
    pub fn finish(mut self) -> Program {
        let last = self.take_control();
        let (ingress, egress) = match self.ingress.take() {
            Some(ingress) => (ingress, last),
            None => (last, self.take_control()),
        };
        Program {
            headers: List::from(mem::replace(&mut self.headers, Vec::new(self.alloc))),
            meta: List::from(mem::replace(&mut self.meta, Vec::new(self.alloc))),
            ingress,
            egress,
        }
    }
}
