// The tables that a header is read into. A position is one in the caller's bytes; rows past a count are zero.
ghost use Rattle.std.specs.Prelude.{◌≡◌, ◌<◌, ◌∷◌, []};
ghost use Rattle.grammar.specs.Tables.{blank};
ghost use Rattle.grammar.specs.Inner.Parts.{started, more_dims, more_attrs, more_rows};

pub const MAX_DIMS: usize = 32;

pub const MAX_VARS: usize = 64;

pub const MAX_ATTRS: usize = 128;

pub const MAX_RANK: usize = 8;

// The largest file size, begin and end.
pub const MAX_POSITION: u64 = 0x4000_0000_0000_0000;

// The fields of a row are narrow and leave no bytes between them: tables go by value, so their bytes
// are most of what a header costs, and rows with gaps are filled and copied field by field.

// A dimension; length 0 marks the unlimited one.
#[derive(Clone, Copy, Default)]
pub struct Dim {
    pub name: usize,
    pub chars: u32,
    pub length: u32,
}

// An attribute; its values stand at `values`.
#[derive(Clone, Copy, Default)]
pub struct Attr {
    pub name: usize,
    pub chars: u16,
    pub code: u16,
    pub count: u32,
    pub values: usize,
}

// A variable over the dimensions `ids`, the first `rank` of them; its attributes are the `attrs` rows
// from `first` on; `begin` has the 64 bits of the signed number.
#[derive(Clone, Copy, Default)]
pub struct Var {
    pub name: usize,
    pub chars: u32,
    pub ids: [u32; 8],
    pub rank: u8,
    pub first: u8,
    pub attrs: u8,
    pub code: u8,
    pub vsize: u64,
    pub begin: u64,
}

// `word` is the count word as read, `count` the record count, `size` the file's size. The first
// `globals` attributes are the global ones. Arrays with a count beside each, not vectors: a rule of the
// project (no heap), and the definitions of specs/ and the numbers that cross to C name these fields.
#[derive(Clone, Copy)]
pub struct Tables {
    pub version: u8,
    pub word: u64,
    pub count: u64,
    pub size: u64,
    pub ndims: usize,
    pub dims: [Dim; 32],
    pub nattrs: usize,
    pub globals: usize,
    pub attrs: [Attr; 128],
    pub nvars: usize,
    pub vars: [Var; 64],
}

impl Tables {
    // A dimension more.
    #[tactic(auto, unfolding(crate::specs::Inner::Parts::more_dims, crate::specs::Inner::Parts::placed))]
    pub(crate) fn push_dim(&mut self, dim: Dim)
        requires { self.old.ndims < 32 }
        ensures { self.new ≡ more_dims self.old (dim ∷ []) }
    {
        self.dims[self.ndims] = dim;
        self.ndims += 1;
    }

    // An attribute more.
    #[tactic(auto, unfolding(crate::specs::Inner::Parts::more_attrs, crate::specs::Inner::Parts::placed))]
    pub(crate) fn push_attr(&mut self, attr: Attr)
        requires { self.old.nattrs < 128 }
        ensures { self.new ≡ more_attrs self.old (attr ∷ []) }
    {
        self.attrs[self.nattrs] = attr;
        self.nattrs += 1;
    }

    // A variable's row more.
    #[tactic(auto, unfolding(crate::specs::Inner::Parts::more_rows, crate::specs::Inner::Parts::placed))]
    pub(crate) fn push_var(&mut self, row: Var)
        requires { self.old.nvars < 64 }
        ensures { self.new ≡ more_rows self.old (row ∷ []) }
    {
        self.vars[self.nvars] = row;
        self.nvars += 1;
    }
}

// Tables with no rows yet.
#[tactic(auto, unfolding(crate::specs::Tables::laid, crate::specs::Tables::padded, crate::specs::Tables::var_rows, crate::specs::Tree::attrs_of, crate::specs::Inner::Parts::started))]
pub(crate) fn started(version: u8, word: u64, size: u64) -> Tables
    ensures { result ≡ started version word size }
{
    Tables {
        version,
        word,
        count: 0,
        size,
        ndims: 0,
        dims: [Dim::default(); 32],
        nattrs: 0,
        globals: 0,
        attrs: [Attr::default(); 128],
        nvars: 0,
        vars: [Var::default(); 64],
    }
}

// Tables of version 1 with all else 0.
#[tactic(auto, unfolding(crate::specs::Tables::blank, crate::specs::Inner::Parts::started))]
pub fn blank() -> Tables
    ensures { result ≡ blank }
{
    started(1, 0, 0)
}
