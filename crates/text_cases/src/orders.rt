//! Orders, comparisons and computed integers.

use case_tools::{Output, Words, read_value};
use rs_ast::{Arith, Op};
use rs_base::{
    NoMemory, Value, order_of_enlists, order_of_names, order_of_origins, order_of_txns,
    order_of_values,
};
use rs_eval::{allows, compute};
use std::alloc::Global;
use std::cmp::Ordering;

/// Reads two values, and orders them.
fn order_of_two(alloc: Global, words: &mut Words<'_>) -> Result<Ordering, NoMemory> {
    let one = read_value(alloc, words.next())?;
    let other = read_value(alloc, words.next())?;
    Ok(order_of_values(&one, &other))
}

/// Reads two values, names, transactions, enlistments or requests, and orders them.
fn order_of(alloc: Global, words: &mut Words<'_>) -> Result<Ordering, NoMemory> {
    match words.next() {
        "value" => order_of_two(alloc, words),
        "swn" => Ok(order_of_names(&words.swn(), &words.swn())),
        "txn" => Ok(order_of_txns(&words.txn(), &words.txn())),
        "enlist" => Ok(order_of_enlists(&words.enlist(), &words.enlist())),
        _ => Ok(order_of_origins(&words.origin(), &words.origin())),
    }
}

fn name_of(order: Ordering) -> &'static str {
    match order {
        Ordering::Less => "less",
        Ordering::Equal => "equal",
        Ordering::Greater => "greater",
    }
}

/// Appends the order of two values, names, transactions, enlistments or requests.
pub fn append_order(words: &mut Words<'_>, out: &mut Output) -> Result<(), NoMemory> {
    let order = order_of(out.alloc, words)?;
    out.text(name_of(order));
    Ok(())
}

fn op_of(word: &str) -> Op {
    match word {
        "=" => Op::Eq,
        "<>" => Op::Ne,
        "<" => Op::Lt,
        "<=" => Op::Le,
        ">" => Op::Gt,
        _ => Op::Ge,
    }
}

/// Appends `<`, `=` and `>` for the orders that an operator allows.
pub fn append_allowed(word: &str, out: &mut Output) {
    let op = op_of(word);
    for (order, symbol) in [
        (Ordering::Less, "<"),
        (Ordering::Equal, "="),
        (Ordering::Greater, ">"),
    ] {
        if allows(op, order) {
            out.text(symbol);
        }
    }
}

fn arith_of(word: &str) -> Arith {
    match word {
        "+" => Arith::Add,
        "-" => Arith::Sub,
        _ => Arith::Mul,
    }
}

/// Appends the integer that `INTEGER + INTEGER` or another operator computes, or `none`.
pub fn append_computed(words: &mut Words<'_>, out: &mut Output) {
    let one = words.integer();
    let arith = arith_of(words.next());
    let other = words.integer();
    match compute(arith, one, other) {
        Some(integer) => out.value(&Value::Int(integer)),
        None => out.text("none"),
    }
}
