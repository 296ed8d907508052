//! The trees of small sources with their spans, by hand.

use c_lex::lex;
use c_parse::parse;
use c_tree::{
    Arg, Declarator, Expr, ExprNode, External, Func, Init, Item, NoMemory, Param, Program, Shape,
    Span, Start, Stmt, StmtNode,
};
use std::alloc::Global;
use std::test::Fail;

fn add(out: &mut Vec<u8>, text: &[u8]) -> Result<(), NoMemory> {
    for byte in text {
        out.push(*byte)?;
    }
    Ok(())
}

// A span, as `@from-to`.
fn add_span(alloc: Global, out: &mut Vec<u8>, span: Span) -> Result<(), NoMemory> {
    let text = format!(in alloc; "@{}-{}", span.from, span.to)?;
    add(out, text.as_bytes())
}

// What stands before an expression, and the expression.
#[cycle(show_expr)]
fn show_after(alloc: Global, out: &mut Vec<u8>, before: &str, e: &Expr) -> Result<(), NoMemory> {
    add(out, b"[")?;
    add(out, before.as_bytes())?;
    show_expr(alloc, out, e)?;
    add(out, b"]")
}

#[cycle(show_expr)]
fn show_args(alloc: Global, out: &mut Vec<u8>, args: &[Arg]) -> Result<(), NoMemory> {
    for arg in args {
        add(out, b" ")?;
        match arg {
            Arg::Value(e) => show_expr(alloc, out, e)?,
            Arg::Format(text, span) => {
                add(out, text.as_slice())?;
                add_span(alloc, out, *span)?;
            }
            Arg::Address(e) => show_after(alloc, out, "&", e)?,
        }
    }
    Ok(())
}

#[cycle(show_expr)]
fn show_prefix(alloc: Global, out: &mut Vec<u8>, node: &ExprNode) -> Result<(), NoMemory> {
    match node {
        ExprNode::Unary { op, of } => {
            let sign = format!(in alloc; "{op:?} ")?;
            show_after(alloc, out, sign.as_str(), of)
        }
        ExprNode::Cast { ty, of } => {
            let sign = format!(in alloc; "{ty:?} ")?;
            show_after(alloc, out, sign.as_str(), of)
        }
        ExprNode::Bump { before, up, place } => {
            let sign = format!(in alloc; "{before} {up} ")?;
            show_after(alloc, out, sign.as_str(), place)
        }
        _ => add(out, b"?"),
    }
}

#[cycle(show_expr)]
fn show_infix(alloc: Global, out: &mut Vec<u8>, node: &ExprNode) -> Result<(), NoMemory> {
    match node {
        ExprNode::Binary { op, left, right } => {
            let sign = format!(in alloc; " {op:?} ")?;
            show_expr(alloc, out, left)?;
            add(out, sign.as_bytes())?;
            show_expr(alloc, out, right)
        }
        ExprNode::Assign { op, place, value } => {
            let sign = format!(in alloc; " = {op:?} ")?;
            show_expr(alloc, out, place)?;
            add(out, sign.as_bytes())?;
            show_expr(alloc, out, value)
        }
        ExprNode::Comma { left, right } => {
            show_expr(alloc, out, left)?;
            add(out, b", ")?;
            show_expr(alloc, out, right)
        }
        node => show_prefix(alloc, out, node),
    }
}

#[cycle(show_expr)]
fn show_expr(alloc: Global, out: &mut Vec<u8>, e: &Expr) -> Result<(), NoMemory> {
    match &e.node {
        ExprNode::Const { word, .. } => add(out, word.as_slice())?,
        ExprNode::Name { word, .. } => add(out, word.as_slice())?,
        ExprNode::Index { word, index, .. } => {
            add(out, word.as_slice())?;
            show_after(alloc, out, "", index)?;
        }
        ExprNode::Call { word, args } => {
            add(out, word.as_slice())?;
            add(out, b"(")?;
            show_args(alloc, out, args)?;
            add(out, b")")?;
        }
        ExprNode::Choice { test, yes, no } => {
            show_after(alloc, out, "? ", test)?;
            add(out, b"[")?;
            show_expr(alloc, out, yes)?;
            add(out, b" : ")?;
            show_expr(alloc, out, no)?;
            add(out, b"]")?;
        }
        node @ (ExprNode::Binary { .. } | ExprNode::Assign { .. } | ExprNode::Comma { .. }) => {
            add(out, b"[")?;
            show_infix(alloc, out, node)?;
            add(out, b"]")?;
        }
        node => show_prefix(alloc, out, node)?,
    }
    add_span(alloc, out, e.span)
}

fn show_start(alloc: Global, out: &mut Vec<u8>, start: &Start) -> Result<(), NoMemory> {
    match start {
        Start::Bare => Ok(()),
        Start::One(e) => show_after(alloc, out, "= ", e),
        Start::List(es) => {
            for e in es {
                show_after(alloc, out, ", ", e)?;
            }
            Ok(())
        }
    }
}

fn show_names(alloc: Global, out: &mut Vec<u8>, names: &[Declarator]) -> Result<(), NoMemory> {
    for name in names {
        add(out, b" ")?;
        add(out, name.word.as_slice())?;
        if let Shape::Array(length) = name.shape {
            let text = format!(in alloc; "{length:?}")?;
            add(out, text.as_bytes())?;
        }
        add_span(alloc, out, name.span)?;
        show_start(alloc, out, &name.start)?;
    }
    Ok(())
}

fn show_optional(alloc: Global, out: &mut Vec<u8>, e: &Option<Expr>) -> Result<(), NoMemory> {
    match e {
        Some(e) => show_after(alloc, out, "", e),
        None => add(out, b"-"),
    }
}

fn show_init(alloc: Global, out: &mut Vec<u8>, init: &Init) -> Result<(), NoMemory> {
    match init {
        Init::Empty => add(out, b"-"),
        Init::Act(e) => show_after(alloc, out, "", e),
        Init::Vars(ty, names) => {
            let text = format!(in alloc; "{ty:?}")?;
            add(out, text.as_bytes())?;
            show_names(alloc, out, names)
        }
    }
}

#[cycle(show_stmt)]
fn show_loop(alloc: Global, out: &mut Vec<u8>, node: &StmtNode) -> Result<(), NoMemory> {
    match node {
        StmtNode::While { test, body } => {
            show_after(alloc, out, "while ", test)?;
            show_stmt(alloc, out, body)
        }
        StmtNode::Do { body, test } => {
            add(out, b"do ")?;
            show_stmt(alloc, out, body)?;
            show_after(alloc, out, "", test)
        }
        StmtNode::For {
            init,
            test,
            step,
            body,
        } => {
            add(out, b"for ")?;
            show_init(alloc, out, init)?;
            show_optional(alloc, out, test)?;
            show_optional(alloc, out, step)?;
            show_stmt(alloc, out, body)
        }
        StmtNode::Break => add(out, b"break"),
        StmtNode::Continue => add(out, b"continue"),
        _ => add(out, b";"),
    }
}

#[cycle(show_stmt)]
fn show_stmt(alloc: Global, out: &mut Vec<u8>, s: &Stmt) -> Result<(), NoMemory> {
    match &s.node {
        StmtNode::Act(e) => show_expr(alloc, out, e)?,
        StmtNode::Block(items) => {
            add(out, b"{")?;
            show_items(alloc, out, items)?;
            add(out, b"}")?;
        }
        StmtNode::If { test, yes, no } => {
            show_after(alloc, out, "if ", test)?;
            show_stmt(alloc, out, yes)?;
            if let Some(no) = no {
                add(out, b" else ")?;
                show_stmt(alloc, out, no)?;
            }
        }
        StmtNode::Return(value) => {
            add(out, b"return ")?;
            show_optional(alloc, out, value)?;
        }
        node => show_loop(alloc, out, node)?,
    }
    add_span(alloc, out, s.span)
}

#[cycle(show_stmt)]
fn show_items(alloc: Global, out: &mut Vec<u8>, items: &[Item]) -> Result<(), NoMemory> {
    for item in items {
        add(out, b" ")?;
        match item {
            Item::Stmt(s) => show_stmt(alloc, out, s)?,
            Item::Vars(ty, names) => {
                let text = format!(in alloc; "{ty:?}")?;
                add(out, text.as_bytes())?;
                show_names(alloc, out, names)?;
            }
        }
    }
    Ok(())
}

fn show_param(alloc: Global, out: &mut Vec<u8>, param: &Param) -> Result<(), NoMemory> {
    let text = format!(in alloc; " {:?} {} ", param.ty, param.array)?;
    add(out, text.as_bytes())?;
    add(out, param.word.as_slice())?;
    add_span(alloc, out, param.span)
}

fn show_func(alloc: Global, out: &mut Vec<u8>, f: &Func) -> Result<(), NoMemory> {
    let text = format!(in alloc; "{:?} ", f.ret)?;
    add(out, text.as_bytes())?;
    add(out, f.word.as_slice())?;
    add_span(alloc, out, f.span)?;
    for param in &f.params {
        show_param(alloc, out, param)?;
    }
    match &f.body {
        Some(items) => show_items(alloc, out, items),
        None => add(out, b";"),
    }
}

fn show_program(alloc: Global, program: &Program) -> Result<Vec<u8>, NoMemory> {
    let mut out = Vec::new(alloc);
    for external in &program.externals {
        match external {
            External::Func(f) => show_func(alloc, &mut out, f)?,
            External::Vars(ty, names) => {
                let text = format!(in alloc; "{ty:?}")?;
                add(&mut out, text.as_bytes())?;
                show_names(alloc, &mut out, names)?;
            }
        }
    }
    Ok(out)
}

// The tree of a source, as text.
fn shown(alloc: Global, source: &[u8]) -> Result<Vec<u8>, Fail> {
    (source.len() < 65_536).then_some(()).ok_or("too long")?;
    let tokens = lex(alloc, source)?;
    let program = parse(alloc, &tokens, source.len() as u32)?;
    Ok(show_program(alloc, &program)?)
}

// The tree of a function `f` whose body is this text, which begins at the byte 9.
fn body_shown(alloc: Global, body: &str) -> Result<Vec<u8>, Fail> {
    let mut text = b"int f(){ ".to_vec(alloc)?;
    add(&mut text, body.as_bytes())?;
    add(&mut text, b"}")?;
    shown(alloc, &text)
}

#[test]
fn expressions_have_their_trees(rt: HostRuntime) -> Result<(), Fail> {
    let alloc = rt.alloc();
    let table = [
        ("a-b-c", "[[a@9-10 Sub b@11-12]@9-12 Sub c@13-14]@9-14"),
        ("a+b*c", "[a@9-10 Add [b@11-12 Mul c@13-14]@11-14]@9-14"),
        ("(a+b)*c", "[[a@10-11 Add b@12-13]@9-14 Mul c@15-16]@9-16"),
        ("((a))", "a@9-14"),
        (
            "a=b=c",
            "[a@9-10 = None [b@11-12 = None c@13-14]@11-14]@9-14",
        ),
        ("a+=1", "[a@9-10 = Some(Add) 1@12-13]@9-13"),
        ("a,b,c", "[[a@9-10, b@11-12]@9-12, c@13-14]@9-14"),
        (
            "a?b,c:d?e:f",
            "[? a@9-10][[b@11-12, c@13-14]@11-14 : [? d@15-16][e@17-18 : f@19-20]@15-20]@9-20",
        ),
        (
            "a||b&&c",
            "[a@9-10 Either [b@12-13 Both c@15-16]@12-16]@9-16",
        ),
        ("- -a", "[Minus [Minus a@12-13]@11-13]@9-13"),
        ("!a++", "[Flip [false true a@10-11]@10-13]@9-13"),
        ("--(a)", "[true false a@11-14]@9-14"),
        ("(char)-a", "[Char [Minus a@16-17]@15-17]@9-17"),
        ("v[i+1]", "v[[i@11-12 Add 1@13-14]@11-14]@9-15"),
        ("f()", "f()@9-12"),
        (
            "f(a,(b,c),\"s\",&d)",
            "f( a@11-12 [b@14-15, c@16-17]@13-18 s@19-22 [&d@24-25])@9-26",
        ),
    ];
    for (source, tree) in table {
        let length = source.len() as u32;
        let body = format!(in alloc; "{source};")?;
        let found = body_shown(alloc, body.as_str())?;
        let to = length.wrapping_add(10);
        let want = format!(in alloc; "Some(Int) f@4-{} {tree}@9-{to}", to.wrapping_add(1))?;
        assert_eq!(rt; found.as_slice(), want.as_bytes(), "at {source}");
    }
    Ok(())
}

#[test]
fn statements_have_their_trees(rt: HostRuntime) -> Result<(), Fail> {
    let alloc = rt.alloc();
    let table = [
        (
            "if(a)if(b)c;else d;",
            "[if a@12-13][if b@17-18]c@19-20@19-21 else d@26-27@26-28@14-28@9-28",
        ),
        (
            "if(a){if(b)c;}else d;",
            "[if a@12-13]{ [if b@18-19]c@20-21@20-22@15-22}@14-23 else d@28-29@28-30@9-30",
        ),
        ("while(a);", "[while a@15-16];@17-18@9-18"),
        ("do;while(a);", "do ;@11-12[a@18-19]@9-21"),
        (
            "for(i=1;i<2;i++)break;",
            "for [[i@13-14 = None 1@15-16]@13-16][[i@17-18 Lt 2@19-20]@17-20][[false true i@21-22]@21-24]break@25-31@9-31",
        ),
        (
            "for(int i=0,j;;);",
            "for Int i@17-18[= 0@19-20] j@21-22--;@25-26@9-26",
        ),
        ("return;", "return -@9-16"),
        ("return a;", "return [a@16-17]@9-18"),
        ("continue;", "continue@9-18"),
        (
            "int v[3]={1,2,};",
            "Int vSome(3)@13-17[, 1@19-20][, 2@21-22]",
        ),
    ];
    for (source, tree) in table {
        let length = source.len() as u32;
        let found = body_shown(alloc, source)?;
        let want = format!(in alloc; "Some(Int) f@4-{} {tree}", length.wrapping_add(10))?;
        assert_eq!(rt; found.as_slice(), want.as_bytes(), "at {source}");
    }
    Ok(())
}

#[test]
fn externals_have_their_trees(rt: HostRuntime) -> Result<(), Fail> {
    let table = [
        ("char c,w[]={'a'};", "Char c@5-6 wNone@7-10[, 'a'@12-15]"),
        (
            "int f(int x,char y[4]);",
            "Some(Int) f@4-23 Int false x@10-11 Char true y@17-21;",
        ),
        ("void g(){}", "None g@5-10"),
        ("void g(void);int a;", "None g@5-13;Int a@17-18"),
    ];
    for (source, tree) in table {
        let found = shown(rt.alloc(), source.as_bytes())?;
        assert_eq!(rt; found.as_slice(), tree.as_bytes(), "at {source}");
    }
    Ok(())
}
