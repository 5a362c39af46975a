// Elements as text: each prints a space and itself.
use crate::text::wide;
use decode::element::Element;

pub trait Print: Element {
    fn print(self);
}

fn print_signed(n: i64) {
    if n >= 0 {
        io::write_all(1, b" ");
    } else {
        io::write_all(1, b" -");
    }
    io::print_decimal(1, n.unsigned_abs());
}

impl Print for i8 {
    fn print(self) {
        print_signed(i64::from(self));
    }
}

impl Print for u8 {
    fn print(self) {
        io::write_all(1, b" ");
        io::print_decimal(1, wide(self));
    }
}

impl Print for i16 {
    fn print(self) {
        print_signed(i64::from(self));
    }
}

impl Print for i32 {
    fn print(self) {
        print_signed(i64::from(self));
    }
}

impl Print for u32 {
    fn print(self) {
        io::write_all(1, b" ");
        io::print_hex(1, u64::from(self), 8);
    }
}

impl Print for u64 {
    fn print(self) {
        io::write_all(1, b" ");
        io::print_hex(1, self, 16);
    }
}

// The bits of a float, which a NaN does not have.
impl Print for f32 {
    fn print(self) {
        if self.is_nan() {
            io::write_all(1, b" nan");
        } else {
            self.to_bits().print();
        }
    }
}

impl Print for f64 {
    fn print(self) {
        if self.is_nan() {
            io::write_all(1, b" nan");
        } else {
            self.to_bits().print();
        }
    }
}
