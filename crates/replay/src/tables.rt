// Tables that no header gives: one number of them changed. A number that its field cannot hold loses its upper bits.
use grammar::tables::{Attr, Dim, Tables, Var};

// Where the dimension's name stands, how long it is; the dimension's length.
fn changed_dim(kind: u8, n: u64, d: Dim) -> Dim {
    let mut row = d;
    match kind {
        b'D' => row.name = n as usize,
        b'E' => row.chars = (n % 4_294_967_296) as u32,
        _ => row.length = (n % 4_294_967_296) as u32,
    }
    row
}

// Where the attribute's name stands, how long it is; its type, how many values it has, where they stand.
fn changed_attr(kind: u8, n: u64, a: Attr) -> Attr {
    let mut row = a;
    match kind {
        b'N' => row.name = n as usize,
        b'C' => row.chars = (n % 65536) as u16,
        b'T' => row.code = (n % 65536) as u16,
        b'M' => row.count = (n % 4_294_967_296) as u32,
        _ => row.values = n as usize,
    }
    row
}

// Its type, how many dimensions it has, the first one's id; where its name stands, how long it is; where its attributes start, how many
// they are; its vsize, its begin.
fn changed_var(kind: u8, n: u64, v: Var) -> Var {
    let mut row = v;
    match kind {
        b'c' => row.code = (n % 256) as u8,
        b'k' => row.rank = (n % 256) as u8,
        b'i' => {
            row.ids[0] = (n % 4_294_967_296) as u32;
        }
        b'p' => row.name = n as usize,
        b'H' => row.chars = (n % 4_294_967_296) as u32,
        b'F' => row.first = (n % 256) as u8,
        b'O' => row.attrs = (n % 256) as u8,
        b'Z' => row.vsize = n,
        _ => row.begin = n,
    }
    row
}

fn with_dim(kind: u8, i: usize, n: u64, t: Tables) -> Tables {
    let mut tables = t;
    if let Some(row) = tables.dims.get_mut(i) {
        *row = changed_dim(kind, n, *row);
    }
    tables
}

fn with_attr(kind: u8, i: usize, n: u64, t: Tables) -> Tables {
    let mut tables = t;
    if let Some(row) = tables.attrs.get_mut(i) {
        *row = changed_attr(kind, n, *row);
    }
    tables
}

fn with_var(kind: u8, i: usize, n: u64, t: Tables) -> Tables {
    let mut tables = t;
    if let Some(row) = tables.vars.get_mut(i) {
        *row = changed_var(kind, n, *row);
    }
    tables
}

// The tables with one number changed: `v N` the number of variables, `d N` of dimensions, `A N` of attributes, `G N` of global ones, `n N` of
// records, `W N` the count word, `V N` the version, `S N` the size; `D E l DIM N`, `N C T M B ATTR N`, `c k i p H F O Z b VAR N` one of a row.
pub fn changed(kind: u8, a: [u64; 4], t: Tables) -> Tables {
    let mut tables = t;
    match kind {
        b'v' => tables.nvars = a[0] as usize,
        b'd' => tables.ndims = a[0] as usize,
        b'A' => tables.nattrs = a[0] as usize,
        b'G' => tables.globals = a[0] as usize,
        b'n' => tables.count = a[0],
        b'W' => tables.word = a[0],
        b'V' => tables.version = (a[0] % 256) as u8,
        b'S' => tables.size = a[0],
        b'D' | b'E' | b'l' => return with_dim(kind, a[0] as usize, a[1], t),
        b'N' | b'C' | b'T' | b'M' | b'B' => return with_attr(kind, a[0] as usize, a[1], t),
        _ => return with_var(kind, a[0] as usize, a[1], t),
    }
    tables
}
