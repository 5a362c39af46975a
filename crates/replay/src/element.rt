// Reads of one element, written as its type and its value; a float and a double as the bits that stand beside the value, and the value's own.
use crate::print::Print;
use cdf::refusal::Refusal;
use found::variable::seek;
use grammar::tables::Tables;
use reads::element::{Value, read_element, read_element_as};
use reads::window::Window;

fn show<T: Print>(kind: &[u8], x: T) {
    io::write_all(1, kind);
    x.print();
}

fn show_value(v: Result<Value, Refusal>) {
    match v {
        Ok(Value::Byte(x)) => show(b"byte", x),
        Ok(Value::Char(x)) => show(b"char", x),
        Ok(Value::Short(x)) => show(b"short", x),
        Ok(Value::Int(x)) => show(b"int", x),
        Ok(Value::Float(x, bits)) => {
            show(b"float", bits);
            x.print();
        }
        Ok(Value::Double(x, bits)) => {
            show(b"double", bits);
            x.print();
        }
        Err(k) => show(b"refused", k.number()),
    }
    io::write_all(1, b"\n");
}

// Element `a[2]` of record `a[1]` of the variable `a[0]`.
pub fn show_element(t: Tables, s: &[u8], start: u64, a: [u64; 4]) {
    let window = Window { bytes: s, start };
    show_value(read_element(seek(&t, a[0] as usize), window, a[1], a[2]));
}

// The same of a variable that must have the type `a[3]`.
pub fn show_typed(t: Tables, s: &[u8], start: u64, a: [u64; 4]) {
    let found = seek(&t, a[0] as usize);
    let window = Window { bytes: s, start };
    let r = a[1];
    let e = a[2];
    show_value(match a[3] {
        1 => read_element_as::<i8>(found, window, r, e),
        2 => read_element_as::<u8>(found, window, r, e),
        3 => read_element_as::<i16>(found, window, r, e),
        4 => read_element_as::<i32>(found, window, r, e),
        5 => read_element_as::<f32>(found, window, r, e),
        _ => read_element_as::<f64>(found, window, r, e),
    });
}
