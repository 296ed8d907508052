//! The names of a program that stand for variables, each with its slot, in the order of the tree.

use c_tree::{
    Arg, Declarator, Expr, ExprNode, External, Func, Init, Item, NoMemory, Program, Slot, Start,
    Stmt, StmtNode, Text,
};
use std::alloc::Global;

// A name with its slot, as ` x=L0`, or ` x=G0` for a variable of file scope.
fn add(alloc: Global, out: &mut String, word: &Text, slot: Slot) -> Result<(), NoMemory> {
    out.push(' ')?;
    for byte in word.as_slice() {
        out.push(char::from(*byte))?;
    }
    let text = match slot {
        Slot::Unset => String::from_str(alloc, "=?")?,
        Slot::Global(n) => format!(in alloc; "=G{n}")?,
        Slot::Local(n) => format!(in alloc; "=L{n}")?,
    };
    out.push_str(text.as_str())
}

#[cycle(add_expr)]
fn add_args(alloc: Global, out: &mut String, args: &[Arg]) -> Result<(), NoMemory> {
    for arg in args {
        match arg {
            Arg::Value(e) | Arg::Address(e) => add_expr(alloc, out, e)?,
            Arg::Format(..) => {}
        }
    }
    Ok(())
}

#[cycle(add_expr)]
fn add_expr(alloc: Global, out: &mut String, e: &Expr) -> Result<(), NoMemory> {
    match &e.node {
        ExprNode::Const { .. } => Ok(()),
        ExprNode::Name { word, slot } => add(alloc, out, word, *slot),
        ExprNode::Index { word, slot, index } => {
            add(alloc, out, word, *slot)?;
            add_expr(alloc, out, index)
        }
        ExprNode::Call { args, .. } => add_args(alloc, out, args),
        ExprNode::Unary { of, .. } | ExprNode::Cast { of, .. } => add_expr(alloc, out, of),
        ExprNode::Binary { left, right, .. } | ExprNode::Comma { left, right } => {
            add_expr(alloc, out, left)?;
            add_expr(alloc, out, right)
        }
        ExprNode::Choice { test, yes, no } => {
            add_expr(alloc, out, test)?;
            add_expr(alloc, out, yes)?;
            add_expr(alloc, out, no)
        }
        ExprNode::Assign { place, value, .. } => {
            add_expr(alloc, out, place)?;
            add_expr(alloc, out, value)
        }
        ExprNode::Bump { place, .. } => add_expr(alloc, out, place),
    }
}

fn add_optional(alloc: Global, out: &mut String, e: &Option<Expr>) -> Result<(), NoMemory> {
    match e {
        None => Ok(()),
        Some(e) => add_expr(alloc, out, e),
    }
}

fn add_declarators(alloc: Global, out: &mut String, ds: &[Declarator]) -> Result<(), NoMemory> {
    for d in ds {
        add(alloc, out, &d.word, d.slot)?;
        match &d.start {
            Start::Bare => {}
            Start::One(e) => add_expr(alloc, out, e)?,
            Start::List(es) => {
                for e in es {
                    add_expr(alloc, out, e)?;
                }
            }
        }
    }
    Ok(())
}

fn add_init(alloc: Global, out: &mut String, init: &Init) -> Result<(), NoMemory> {
    match init {
        Init::Empty => Ok(()),
        Init::Act(e) => add_expr(alloc, out, e),
        Init::Vars(_, ds) => add_declarators(alloc, out, ds),
    }
}

#[cycle(add_stmt)]
fn add_stmt(alloc: Global, out: &mut String, st: &Stmt) -> Result<(), NoMemory> {
    match &st.node {
        StmtNode::Empty | StmtNode::Break | StmtNode::Continue => Ok(()),
        StmtNode::Act(e) => add_expr(alloc, out, e),
        StmtNode::Block(items) => add_items(alloc, out, items),
        StmtNode::If { test, yes, no } => {
            add_expr(alloc, out, test)?;
            add_stmt(alloc, out, yes)?;
            match no {
                None => Ok(()),
                Some(no) => add_stmt(alloc, out, no),
            }
        }
        StmtNode::While { test, body } => {
            add_expr(alloc, out, test)?;
            add_stmt(alloc, out, body)
        }
        StmtNode::Do { body, test } => {
            add_stmt(alloc, out, body)?;
            add_expr(alloc, out, test)
        }
        StmtNode::For {
            init,
            test,
            step,
            body,
        } => {
            add_init(alloc, out, init)?;
            add_optional(alloc, out, test)?;
            add_optional(alloc, out, step)?;
            add_stmt(alloc, out, body)
        }
        StmtNode::Return(e) => add_optional(alloc, out, e),
    }
}

#[cycle(add_stmt)]
fn add_items(alloc: Global, out: &mut String, items: &[Item]) -> Result<(), NoMemory> {
    for item in items {
        match item {
            Item::Vars(_, ds) => add_declarators(alloc, out, ds)?,
            Item::Stmt(st) => add_stmt(alloc, out, st)?,
        }
    }
    Ok(())
}

fn add_function(alloc: Global, out: &mut String, f: &Func) -> Result<(), NoMemory> {
    for param in &f.params {
        add(alloc, out, &param.word, param.slot)?;
    }
    match &f.body {
        None => Ok(()),
        Some(items) => add_items(alloc, out, items),
    }
}

/// The names of a program, each after a space.
pub fn names_of(alloc: Global, program: &Program) -> Result<String, NoMemory> {
    let mut out = String::new(alloc);
    for external in &program.externals {
        match external {
            External::Vars(_, ds) => add_declarators(alloc, &mut out, ds)?,
            External::Func(f) => add_function(alloc, &mut out, f)?,
        }
    }
    Ok(out)
}
