//! Tables: a row for each value of a family (operators, conditions, loads), with its number and its symbol, or only with its name.

ghost use Rattle.std.specs.Prelude.{◌≡◌};
ghost use Rattle.insn_set.specs.Table.{shown, by_number, by_symbol, names, named};

/// The value of the first row with this number; `None` if there is no such row. A row has a value, its number, and its symbol in a line of
/// text. The value of a load is whether it extends the sign, and its size; its number is its opcode. The value of an atomic operation is
/// its `AtomicOp`; its number is its immediate. The decoder of slots finds both by this function. `shown` has the rows as definitions read
/// them, with the bytes of each symbol.
#[inline(always)]
pub(crate) fn by_number<T: Copy>(rows: &[(T, u32, &str)], number: u32) -> Option<T>
    ensures { result ≡ by_number (shown rows.now) number }
{
    for row in rows {
        if row.1 == number {
            return Some(row.0);
        }
    }
    None
}

/// The value of the first row with this symbol; `None` if there is no such row. A row has a value, that is an operator, an atomic
/// operation, a condition or a load, its number, which is not read here, and the symbol or name that a line of text has for it, as `+=` or
/// `u32`. In the contract, `shown` has the rows as definitions read them, with the bytes of each symbol.
pub(crate) fn by_symbol<T: Copy>(rows: &[(T, u32, &str)], symbol: &str) -> Option<T>
    ensures { result ≡ by_symbol (shown rows.now) symbol.now }
{
    for row in rows {
        if symbol == row.2 {
            return Some(row.0);
        }
    }
    None
}

/// The value of the first row whose name is `name`, a name from a program's text; `None` if there is no such row. A row has a name and its
/// value, but no number, unlike a row of `by_symbol`. Byte-order conversions and sign extensions have such tables, and registers in
/// `text_line`. In the contract, `names` has the rows as definitions read them: the bytes of each name, with the value.
pub fn named<T: Copy>(rows: &[(&str, T)], name: &str) -> Option<T>
    ensures { result ≡ named (names rows.now) name.now }
{
    for row in rows {
        if name == row.0 {
            return Some(row.1);
        }
    }
    None
}
