//! Builders of trees: each node with the span from its first token to its last.

ghost use Rattle.std.specs.Prelude.{◌≡◌, map, IfOk, Some, None, true, false};
ghost use Rattle.c_tree.specs.declared.stmt.Slot.TheVariants.{Unset};
ghost use Rattle.c_tree.specs.Parts.{span_of, span_of_code};
ghost use Rattle.c_tree.specs.Tree as plain;
ghost use Rattle.c_tree.specs.Views.{tree, tree_option, initial, variable, first, code, body_of, outer};
ghost use Rattle.c_grammar.specs.Grammar as grammar;
ghost use Rattle.c_grammar.specs.Grammar.{over};
ghost use Rattle.c_grammar.specs.Programs as programs;
ghost use Rattle.c_parse.specs.Gives.{given};

use crate::cursor::span_over;
use c_tree::{
    Arg, BinOp, Declarator, Expr, ExprNode, External, Func, Init, Item, NoMemory, Param, Shape,
    Slot, Span, Start, Stmt, StmtNode, Text, Ty, UnOp,
};
use std::alloc::Global;

/// An expression in a box: while it waits for what comes next, it is held as one word.
pub fn boxed_expr(alloc: Global, e: Expr) -> Result<Box<Expr>, NoMemory>
    ensures { IfOk result (λ held. tree held.value ≡ tree e) }
{
    Ok(Box::new(alloc, e)?)
}

/// A statement in a box.
pub fn boxed_stmt(alloc: Global, s: Stmt) -> Result<Box<Stmt>, NoMemory>
    ensures { IfOk result (λ held. code held.value ≡ code s) }
{
    Ok(Box::new(alloc, s)?)
}

/// A constant.
pub fn const_expr(value: i64, word: Text, span: Span) -> Expr
    ensures { tree result ≡ plain.constant value word span }
{
    Expr {
        node: ExprNode::Const { value, word },
        span,
    }
}

/// A variable.
pub fn name_expr(word: Text, span: Span) -> Expr
    ensures { tree result ≡ plain.name word Unset span }
{
    Expr {
        node: ExprNode::Name {
            word,
            slot: Slot::Unset,
        },
        span,
    }
}

/// An element of an array.
pub fn index_expr(word: Text, index: Box<Expr>, span: Span) -> Expr
    ensures { tree result ≡ plain.index word Unset (tree index.value) span }
{
    Expr {
        node: ExprNode::Index {
            word,
            slot: Slot::Unset,
            index,
        },
        span,
    }
}

/// A call.
pub fn call_expr(word: Text, args: Vec<Arg>, span: Span) -> Expr
    ensures { tree result ≡ plain.call word (grammar.args (map given args.items)) span }
{
    Expr {
        node: ExprNode::Call { word, args },
        span,
    }
}

/// The same expression with the span of the parentheses around it.
pub fn parenthesized(span: Span, inner: Expr) -> Expr
    ensures { tree result ≡ grammar.wrapped span (tree inner) }
{
    Expr {
        node: inner.node,
        span,
    }
}

/// `++` or `--` before an operand.
pub fn prefix_bump_expr(alloc: Global, up: bool, from: Span, place: Expr) -> Result<Expr, NoMemory>
    ensures { IfOk result (λ e.
        tree e ≡ plain.bump true up (tree place) (over from (span_of (tree place)))) }
{
    let span = span_over(from, place.span);
    Ok(Expr {
        node: ExprNode::Bump {
            before: true,
            up,
            place: Box::new(alloc, place)?,
        },
        span,
    })
}

/// `++` or `--` after an operand.
pub fn postfix_bump_expr(up: bool, place: Box<Expr>, to: Span) -> Expr
    ensures { tree result
        ≡ plain.bump false up (tree place.value) (over (span_of (tree place.value)) to) }
{
    let span = span_over(place.span, to);
    Expr {
        node: ExprNode::Bump {
            before: false,
            up,
            place,
        },
        span,
    }
}

/// A prefix operator and its operand.
pub fn unary_expr(alloc: Global, op: UnOp, from: Span, of: Expr) -> Result<Expr, NoMemory>
    ensures { IfOk result (λ e. tree e ≡ grammar.prefixed op from (tree of)) }
{
    let span = span_over(from, of.span);
    Ok(Expr {
        node: ExprNode::Unary {
            op,
            of: Box::new(alloc, of)?,
        },
        span,
    })
}

/// `(type) operand`
pub fn cast_expr(alloc: Global, from: Span, ty: Ty, of: Expr) -> Result<Expr, NoMemory>
    ensures { IfOk result (λ e. tree e ≡ plain.cast ty (tree of) (over from (span_of (tree of)))) }
{
    let span = span_over(from, of.span);
    Ok(Expr {
        node: ExprNode::Cast {
            ty,
            of: Box::new(alloc, of)?,
        },
        span,
    })
}

/// A binary operator and its operands.
pub fn binary_expr(alloc: Global, op: BinOp, left: Box<Expr>, right: Expr) -> Result<Expr, NoMemory>
    ensures { IfOk result (λ e. tree e ≡ grammar.joined op (tree left.value) (tree right)) }
{
    let span = span_over(left.span, right.span);
    Ok(Expr {
        node: ExprNode::Binary {
            op,
            left,
            right: Box::new(alloc, right)?,
        },
        span,
    })
}

/// `test ? yes : no`
pub fn conditional_expr(test: Box<Expr>, yes: Box<Expr>, no: Box<Expr>) -> Expr
    ensures { tree result
        ≡ grammar.chosen (tree test.value) (tree yes.value) (tree no.value) }
{
    let span = span_over(test.span, no.span);
    Expr {
        node: ExprNode::Choice { test, yes, no },
        span,
    }
}

/// `place = value`, or `place op= value`.
pub fn assign_expr(
    alloc: Global,
    op: Option<BinOp>,
    place: Box<Expr>,
    value: Expr,
) -> Result<Expr, NoMemory>
    ensures { IfOk result (λ e. tree e ≡ grammar.assigned op (tree place.value) (tree value)) }
{
    let span = span_over(place.span, value.span);
    Ok(Expr {
        node: ExprNode::Assign {
            op,
            place,
            value: Box::new(alloc, value)?,
        },
        span,
    })
}

/// `left, right`
pub fn comma_expr(alloc: Global, left: Box<Expr>, right: Expr) -> Result<Expr, NoMemory>
    ensures { IfOk result (λ e. tree e ≡ grammar.followed (tree left.value) (tree right)) }
{
    let span = span_over(left.span, right.span);
    Ok(Expr {
        node: ExprNode::Comma {
            left,
            right: Box::new(alloc, right)?,
        },
        span,
    })
}

/// A declared variable.
pub fn declarator(word: Text, span: Span, shape: Shape, start: Start) -> Declarator
    ensures { variable result ≡ programs.variable word span shape (initial start) }
{
    Declarator {
        word,
        slot: Slot::Unset,
        span,
        shape,
        start,
    }
}

/// An expression statement.
pub fn expr_stmt(of: Expr, to: Span) -> Stmt
    ensures { code result ≡ plain.act (tree of) (over (span_of (tree of)) to) }
{
    let span = span_over(of.span, to);
    Stmt {
        node: StmtNode::Act(of),
        span,
    }
}

/// `{ items }`
pub fn block_stmt(from: Span, items: Vec<Item>, to: Span) -> Stmt
    ensures { code result ≡ plain.block (body_of items.items) (over from to) }
{
    Stmt {
        node: StmtNode::Block(items),
        span: span_over(from, to),
    }
}

/// `if (test) yes`
pub fn if_stmt(from: Span, test: Expr, yes: Box<Stmt>) -> Stmt
    ensures { code result
        ≡ plain.if_then (tree test) (code yes.value) (over from (span_of_code (code yes.value))) }
{
    let span = span_over(from, yes.span);
    Stmt {
        node: StmtNode::If {
            test,
            yes,
            no: None,
        },
        span,
    }
}

/// `if (test) yes else no`
pub fn if_else_stmt(from: Span, test: Expr, yes: Box<Stmt>, no: Box<Stmt>) -> Stmt
    ensures { code result
        ≡ plain.if_else (tree test) (code yes.value) (code no.value)
        (over from (span_of_code (code no.value))) }
{
    let span = span_over(from, no.span);
    Stmt {
        node: StmtNode::If {
            test,
            yes,
            no: Some(no),
        },
        span,
    }
}

/// `while (test) body`
pub fn while_stmt(from: Span, test: Expr, body: Box<Stmt>) -> Stmt
    ensures { code result
        ≡ plain.while (tree test) (code body.value) (over from (span_of_code (code body.value))) }
{
    let span = span_over(from, body.span);
    Stmt {
        node: StmtNode::While { test, body },
        span,
    }
}

/// `do body while (test);`
pub fn do_stmt(body: Box<Stmt>, test: Expr, span: Span) -> Stmt
    ensures { code result ≡ plain.do_while (code body.value) (tree test) span }
{
    Stmt {
        node: StmtNode::Do { body, test },
        span,
    }
}

/// `for (init test; step) body`
pub fn for_stmt(
    from: Span,
    init: Init,
    test: Option<Expr>,
    step: Option<Expr>,
    body: Box<Stmt>,
) -> Stmt
    ensures { code result
        ≡ plain.for (first init) (tree_option test) (tree_option step) (code body.value)
        (over from (span_of_code (code body.value))) }
{
    let span = span_over(from, body.span);
    Stmt {
        node: StmtNode::For {
            init,
            test,
            step,
            body,
        },
        span,
    }
}

/// `return`, with a value or with none.
pub fn return_stmt(value: Option<Expr>, span: Span) -> Stmt
    ensures { code result ≡ plain.give (tree_option value) span }
{
    Stmt {
        node: StmtNode::Return(value),
        span,
    }
}

/// A parameter.
pub fn parameter(word: Text, span: Span, ty: Ty, array: bool) -> Param
    ensures { result ≡ programs.parameter word span ty array }
{
    Param {
        word,
        slot: Slot::Unset,
        span,
        ty,
        array,
    }
}

/// A prototype.
pub fn prototype(word: Text, span: Span, ret: Option<Ty>, params: Vec<Param>) -> External
    ensures { outer result ≡ programs.function word span ret params.items None }
{
    External::Func(Func {
        word,
        span,
        ret,
        params,
        body: None,
    })
}

/// A function with its body.
pub fn function_definition(
    word: Text,
    span: Span,
    ret: Option<Ty>,
    params: Vec<Param>,
    items: Vec<Item>,
) -> External
    ensures { outer result
        ≡ programs.function word span ret params.items (Some (body_of items.items)) }
{
    External::Func(Func {
        word,
        span,
        ret,
        params,
        body: Some(items),
    })
}
