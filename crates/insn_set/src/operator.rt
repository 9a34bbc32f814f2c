//! The operators with two operands (RFC 9669, section 4.1): a row for each, with its code and its symbol.

ghost use Rattle.std.specs.Prelude.{◌≡◌, ◌≤◌, IfSome};
ghost use Rattle.insn_set.specs.Operator.{alu_number, alu_offset, alu_symbol};
ghost use Rattle.insn_set.specs.OperatorRows.{alu_by_number, alu_by_symbol};

use crate::table::by_symbol;
use words::AluOp;

/// Each operator, its code (RFC 9669, section 4.1), and the symbol that a line of text has for it. The rows are in the order of the
/// variants, so `op as usize` is the index of its row. If two share a code, the unsigned one comes first, as the definitions find the first
/// row with a code; the offset field of a slot distinguishes the two.
const OPERATORS: [(AluOp, u32, &str); 14] = [
    (AluOp::Add, 0, "+="),
    (AluOp::Sub, 1, "-="),
    (AluOp::Mul, 2, "*="),
    (AluOp::Div, 3, "/="),
    (AluOp::SignedDiv, 3, "s/="),
    (AluOp::Or, 4, "|="),
    (AluOp::And, 5, "&="),
    (AluOp::ShiftLeft, 6, "<<="),
    (AluOp::ShiftRight, 7, ">>="),
    (AluOp::Mod, 9, "%="),
    (AluOp::SignedMod, 9, "s%="),
    (AluOp::Xor, 10, "^="),
    (AluOp::Mov, 11, "="),
    (AluOp::SignedShiftRight, 12, "s>>="),
];

/// The operator of each code, 0 to 15, in a slot whose offset field is 0; `None` for a code that no operator of two operands has. With this
/// array, an operator is found by its code without a search. The array is proved to agree with `OPERATORS`.
const OPERATORS_BY_CODE: [Option<AluOp>; 16] = [
    Some(AluOp::Add),
    Some(AluOp::Sub),
    Some(AluOp::Mul),
    Some(AluOp::Div),
    Some(AluOp::Or),
    Some(AluOp::And),
    Some(AluOp::ShiftLeft),
    Some(AluOp::ShiftRight),
    None,
    Some(AluOp::Mod),
    Some(AluOp::Xor),
    Some(AluOp::Mov),
    Some(AluOp::SignedShiftRight),
    None,
    None,
    None,
];

/// The code of an operator (RFC 9669, section 4.1): the upper four bits of its opcode, as a number from 0 to 12 (`bound`). Signed division
/// and remainder have that of the unsigned ones; the offset field of the slot (`alu_offset`) distinguishes them.
pub fn alu_number(op: AluOp) -> u8
    ensures value { result ≡ alu_number op }
    ensures bound { result ≤ 12 }
{
    OPERATORS[op as usize].1 as u8
}

/// The offset field that selects an operator among those of its code: 1 for signed division and remainder, else 0. A move that extends a
/// sign, which has offset 8, 16 or 32, is no operator here, but an instruction of its own (`Movsx`).
pub fn alu_offset(op: AluOp) -> u16
    ensures { result ≡ alu_offset op }
{
    match op {
        AluOp::SignedDiv | AluOp::SignedMod => 1,
        _ => 0,
    }
}

/// The operator with the code `number`, the upper four bits of an opcode, in a slot whose offset field is 0. For 3 (division) and 9
/// (remainder) it is the unsigned one (`unsigned`); the decoder selects the signed one by the offset field. `None` for 8 (a change of sign)
/// and 13 (a byte-order conversion), which have one operand, and for greater numbers, which are no codes.
pub fn alu_by_number(number: u8) -> Option<AluOp>
    ensures value { result ≡ alu_by_number number }
    ensures inverse { IfSome result (λ op. alu_number op ≡ number) }
    ensures unsigned { IfSome result (λ op. alu_offset op ≡ 0) }
{
    *OPERATORS_BY_CODE.get(usize::from(number))?
}

/// The symbol of an operator in a line of text, as `+=` for `Add` and `s/=` for `SignedDiv`. The disassembler writes it; `alu_by_symbol`
/// finds the operator by it.
pub fn alu_symbol(op: AluOp) -> &'static str
    ensures { result.now ≡ alu_symbol op }
{
    OPERATORS[op as usize].2
}

/// The operator whose symbol in a line of text is `symbol` (`inverse`), as `Add` for `+=`; `None` if no operator with two operands has the
/// symbol. No two operators share a symbol. The parser of lines (`text_line`) calls this.
pub fn alu_by_symbol(symbol: &str) -> Option<AluOp>
    ensures value { result ≡ alu_by_symbol symbol.now }
    ensures inverse { IfSome result (λ op. alu_symbol op ≡ symbol.now) }
{
    by_symbol(&OPERATORS, symbol)
}
