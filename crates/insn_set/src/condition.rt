//! The conditions of jumps (RFC 9669, section 4.3): a row for each, with its number and its symbol.

ghost use Rattle.std.specs.Prelude.{◌≡◌, ◌≤◌, IfSome};
ghost use Rattle.insn_set.specs.Condition.{condition_number, condition_symbol};
ghost use Rattle.insn_set.specs.ConditionRows.{condition_by_number, condition_by_symbol};

use crate::table::by_symbol;
use words::Condition;

/// Each condition, its code (RFC 9669, section 4.3), and the symbol that a line of text has for it. The rows are in the order of the
/// variants, so `condition as usize` is the index of its row.
const CONDITIONS: [(Condition, u32, &str); 11] = [
    (Condition::Equal, 1, "=="),
    (Condition::NotEqual, 5, "!="),
    (Condition::Above, 2, ">"),
    (Condition::AboveOrEqual, 3, ">="),
    (Condition::Below, 10, "<"),
    (Condition::BelowOrEqual, 11, "<="),
    (Condition::SignedAbove, 6, "s>"),
    (Condition::SignedAboveOrEqual, 7, "s>="),
    (Condition::SignedBelow, 12, "s<"),
    (Condition::SignedBelowOrEqual, 13, "s<="),
    (Condition::CommonBit, 4, "&"),
];

/// The condition of each code, 0 to 15; `None` for a code that no condition has. With this array, a condition is found by its code without
/// a search. The array is proved to agree with `CONDITIONS`.
const CONDITIONS_BY_CODE: [Option<Condition>; 16] = [
    None,
    Some(Condition::Equal),
    Some(Condition::Above),
    Some(Condition::AboveOrEqual),
    Some(Condition::CommonBit),
    Some(Condition::NotEqual),
    Some(Condition::SignedAbove),
    Some(Condition::SignedAboveOrEqual),
    None,
    None,
    Some(Condition::Below),
    Some(Condition::BelowOrEqual),
    Some(Condition::SignedBelow),
    Some(Condition::SignedBelowOrEqual),
    None,
    None,
];

/// The code of a condition, the upper four bits of a jump's opcode (RFC 9669, section 4.3). `bound`: 13, the code of `SignedBelowOrEqual`,
/// is the greatest one, so every code fits in these bits.
pub fn condition_number(condition: Condition) -> u8
    ensures value { result ≡ condition_number condition }
    ensures bound { result ≤ 13 }
{
    CONDITIONS[condition as usize].1 as u8
}

/// The condition whose code, the upper four bits of a jump's opcode, is `number`. `None` if no condition has this code: for 0, 8 and 9,
/// those of an unconditional jump, a call and the exit, and for 14 and above. `inverse`: `condition_number` returns the code again.
pub fn condition_by_number(number: u8) -> Option<Condition>
    ensures value { result ≡ condition_by_number number }
    ensures inverse { IfSome result (λ c. condition_number c ≡ number) }
{
    *CONDITIONS_BY_CODE.get(usize::from(number))?
}

/// The symbol that a condition has in a line of text, for example `s<=` for `SignedBelowOrEqual`. The disassembler writes it.
pub fn condition_symbol(condition: Condition) -> &'static str
    ensures { result.now ≡ condition_symbol condition }
{
    CONDITIONS[condition as usize].2
}

/// The condition for which a line of text has this symbol, as `==` or `s>`; `None` if no condition has it. By `inverse`, `condition_symbol`
/// gives the symbol of the condition back.
pub fn condition_by_symbol(symbol: &str) -> Option<Condition>
    ensures value { result ≡ condition_by_symbol symbol.now }
    ensures inverse { IfSome result (λ c. condition_symbol c ≡ symbol.now) }
{
    by_symbol(&CONDITIONS, symbol)
}
