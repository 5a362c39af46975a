// The answer of the header reader, all of it: one line of numbers.
use crate::text::{show_last, show_number, wide};
use grammar::tables::{Attr, Tables, Var};
use header::reader::HeaderAnswer;

// Whether a number was not 0, of those that must be.
fn marked(before: u64, n: u64) -> u64 {
    if n != 0 { 1 } else { before }
}

// How many dimensions; their rows; 0 where every row after them is zero.
fn show_dims(t: &Tables) {
    show_number(t.ndims as u64);
    let mut past = 0;
    for (i, d) in t.dims.iter().enumerate() {
        if i < t.ndims {
            show_number(d.name as u64);
            show_number(d.chars as u64);
            show_number(d.length as u64);
        } else {
            past = marked(
                marked(marked(past, d.name as u64), d.chars as u64),
                d.length as u64,
            );
        }
    }
    show_number(past);
}

fn show_attr(a: &Attr) {
    show_number(a.name as u64);
    show_number(a.chars as u64);
    show_number(a.code as u64);
    show_number(a.count as u64);
    show_number(a.values as u64);
}

fn attr_marked(before: u64, a: &Attr) -> u64 {
    let named = marked(marked(before, a.name as u64), a.chars as u64);
    marked(
        marked(marked(named, a.code as u64), a.count as u64),
        a.values as u64,
    )
}

// How many attributes, and global ones among them; their rows; 0 where every row after them is zero.
fn show_attrs(t: &Tables) {
    show_number(t.nattrs as u64);
    show_number(t.globals as u64);
    let mut past = 0;
    for (i, a) in t.attrs.iter().enumerate() {
        if i < t.nattrs {
            show_attr(a);
        } else {
            past = attr_marked(past, a);
        }
    }
    show_number(past);
}

// All eight places for ids.
fn show_ids(v: &Var) {
    for id in &v.ids {
        show_number(*id as u64);
    }
}

fn ids_marked(before: u64, v: &Var) -> u64 {
    let mut past = before;
    for id in &v.ids {
        past = marked(past, *id as u64);
    }
    past
}

fn show_var(v: &Var) {
    show_number(v.name as u64);
    show_number(v.chars as u64);
    show_number(v.rank as u64);
    show_ids(v);
    show_number(v.first as u64);
    show_number(v.attrs as u64);
    show_number(v.code as u64);
    show_number(v.vsize);
    show_number(v.begin);
}

fn var_marked(before: u64, v: &Var) -> u64 {
    let named = marked(marked(before, v.name as u64), v.chars as u64);
    let ranked = ids_marked(marked(named, v.rank as u64), v);
    let owned = marked(marked(ranked, v.first as u64), v.attrs as u64);
    marked(marked(marked(owned, v.code as u64), v.vsize), v.begin)
}

// How many variables; their rows; 0 where every row after them is zero.
fn show_vars(t: &Tables) {
    show_number(t.nvars as u64);
    let mut past = 0;
    for (i, v) in t.vars.iter().enumerate() {
        if i < t.nvars {
            show_var(v);
        } else {
            past = var_marked(past, v);
        }
    }
    show_last(past);
}

// Number, place and end; version, count word, record count and size; then the three lists.
pub fn show_header(h: &HeaderAnswer) {
    let t = &h.tables;
    show_number(wide(h.number));
    show_number(h.place as u64);
    show_number(h.end as u64);
    show_number(t.version as u64);
    show_number(t.word);
    show_number(t.count);
    show_number(t.size);
    show_dims(t);
    show_attrs(t);
    show_vars(t);
}
