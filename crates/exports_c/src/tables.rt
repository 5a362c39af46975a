// The header reader. The tables cross as numbers (the crate crossing), for the caller to look at and to hand in again.
ghost use Rattle.std.specs.Prelude.{◌≡◌};
ghost use Rattle.header.specs.Header.{read_header};
ghost use Rattle.outputs.specs.Outputs.{TellsList};
ghost use Rattle.exports.specs.Reader.{admitted, header_words};

// How many words the tables take.
#[unsafe(no_mangle)]
pub extern "C" fn fungal_tables_words() -> u64
    ensures { result ≡ 1768 }
{
    exports::tables::fungal_tables_words()
}

// Puts down the tables and the header's end. The place of a refusal: `fungal_header_place`.
#[unsafe(no_mangle)]
pub extern "C" fn fungal_read_header(
    prefix: &[u8],
    size: u64,
    versions: u8,
    tables: &mut [u64],
    end: &mut u64,
) -> u8
    ensures { TellsList (header_words prefix.now size versions tables.old) result tables.old tables.new end.old end.new }
{
    exports::tables::fungal_read_header(prefix, size, versions, tables, end)
}

// The place that belongs to the number of `fungal_read_header`; 0 where it has none.
#[unsafe(no_mangle)]
pub extern "C" fn fungal_header_place(prefix: &[u8], size: u64, versions: u8) -> u64
    ensures { result ≡ (read_header prefix.now size (admitted versions)).place }
{
    exports::tables::fungal_header_place(prefix, size, versions)
}
